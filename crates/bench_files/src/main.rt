//! What a segment in progress costs on real folders: records of 55 bytes are put behind it, one by one, and each is synced.
//! The first argument is how many records, none without it; the second is the name directory, `.` without it.
#![tactic(auto)]

ghost use Rattle.std.specs.Prelude.{◌≡◌, IfOk, length};

use nn_base::{DirNo, FileName, FirstTxid, NoMemory, Sub, Txid};
use nn_files::FileHost;
use nn_host::{Failed, Host};
use std::alloc::Global;
use std::process::ExitCode;
use std::{env, io};

const RECORD: [u8; 55] = [7; 55];

fn write_records<H: Host>(host: &mut H, count: u32) -> Result<(), Failed>
    requires { (H.state host.old).count ≡ 1 }
{
    let segment = FileName::InProgress(FirstTxid(Txid(1)));
    let name = &segment;
    host.make_sub(DirNo(0), Sub::Current)?;
    host.make_file(DirNo(0), Sub::Current, *name)?;
    'records: for _ in 0..count {
        host.append(DirNo(0), Sub::Current, *name, &RECORD)?;
        host.sync(DirNo(0), Sub::Current, *name)?;
    }
    Ok(())
}

fn main(rt: HostRuntime) -> ExitCode {
    let alloc = rt.alloc();
    let (count, folder) = match asked(&rt, alloc) {
        Ok(asked) => asked,
        Err(_) => return ExitCode::FAILURE,
    };
    if count == 0 {
        return ExitCode::SUCCESS;
    }
    let Ok(folders) = one(alloc, folder) else {
        return ExitCode::FAILURE;
    };
    match FileHost::open(rt, alloc, folders) {
        Ok(mut host) => match write_records(&mut host, count) {
            Ok(()) => ExitCode::SUCCESS,
            Err(Failed) => ExitCode::FAILURE,
        },
        Err(NoMemory) => ExitCode::FAILURE,
    }
}

// How many records, and the folder.
fn asked(rt: &HostRuntime, alloc: Global) -> io::Result<(u32, String)> {
    let mut words = env::args(rt)?;
    let count = match words.nth(1) {
        Some(word) => word.parse::<u32>().unwrap_or(0),
        None => 0,
    };
    let folder = match words.next() {
        Some(word) => word,
        None => String::from_str(alloc, ".")?,
    };
    Ok((count, folder))
}

fn one(alloc: Global, folder: String) -> Result<Vec<String>, NoMemory>
    ensures { IfOk result (λ folders. length folders.items ≡ 1) }
{
    let mut folders = Vec::new(alloc);
    folders.push(folder)?;
    Ok(folders)
}
