//! What loading a folder costs: the `current` of the name directory that is the one argument is loaded. On standard output a
//! line: the last id, the last inode that was given out there, and the nanoseconds of processor time that it took. Without
//! an argument nothing is done.
#![tactic(auto)]

ghost use Rattle.std.specs.Prelude.{◌≡◌, IfOk, length};

use nn_arena::ArenaTree;
use nn_base::{DirNo, FileName, NoMemory, Sub};
use nn_files::FileHost;
use nn_host::Host;
use nn_load::load_dir;
use nn_marks::{Version, version_read};
use nn_small::read_all;
use nn_tree::Tree;
use std::alloc::Global;
use std::process::ExitCode;
use std::rt::Files;
use std::time::CpuClock;
use std::{env, io};

const DIR: DirNo = DirNo(0);

fn one(alloc: Global, folder: String) -> Result<Vec<String>, NoMemory>
    ensures { IfOk result (λ folders. length folders.items ≡ 1) }
{
    let mut folders = Vec::new(alloc);
    folders.push(folder)?;
    Ok(folders)
}

fn version_of<H: Host>(alloc: Global, host: &mut H) -> Option<Version>
    requires { (H.state host.old).count ≡ 1 }
    ensures { (H.state host.new).count ≡ 1 }
{
    match read_all(alloc, host, DIR, Sub::Current, FileName::Version, 65_536) {
        Ok(text) => version_read(&text).ok(),
        Err(_) => None,
    }
}

// The last id and the last inode that was given out, or None where nothing loads.
fn load<H: Host>(alloc: Global, host: &mut H) -> Option<(u64, u64)>
    requires { (H.state host.old).count ≡ 1 }
{
    let version = version_of(alloc, host)?;
    match load_dir::<H, ArenaTree>(alloc, host, DIR, Sub::Current, &version) {
        Ok(loaded) => Some((loaded.id.0, loaded.tree.counters().inode)),
        Err(_) => None,
    }
}

fn measure<R: CpuClock + Files + Print + Eprint>(
    rt: &R,
    alloc: Global,
    folder: String,
) -> io::Result<()> {
    let Ok(folders) = one(alloc, folder) else {
        return println!(rt; "no memory");
    };
    let Ok(mut host) = FileHost::open(rt, alloc, folders) else {
        return println!(rt; "no memory");
    };
    let start = rt.process_cpu_time()?;
    let loaded = load(alloc, &mut host);
    let took = rt.process_cpu_time()?.saturating_sub(start);
    match loaded {
        Some((id, inode)) => println!(rt; "{id} {inode} {}", took.as_nanos()),
        None => println!(rt; "nothing loads"),
    }
}

fn main(rt: HostRuntime) -> ExitCode {
    let Ok(mut words) = env::args(&rt) else {
        return ExitCode::FAILURE;
    };
    let Some(folder) = words.nth(1) else {
        return ExitCode::SUCCESS;
    };
    match measure(&rt, rt.alloc(), folder) {
        Ok(()) => ExitCode::SUCCESS,
        Err(_) => ExitCode::FAILURE,
    }
}
