//! The memory that the host in memory takes: a script of appends and syncs runs over it, and how many calls it recorded
//! is printed. The one argument is how many to make, 1000 without it; the memory is measured from outside.
#![tactic(auto)]

ghost use Rattle.std.specs.Prelude.{◌≡◌, ◌<◌};
ghost use Rattle.nn_memhost.specs.Mem.{mem_state};

use nn_base::{DirNo, FileName, Sub};
use nn_host::{Failed, Host};
use nn_memhost::MemHost;
use std::io::ErrorKind;
use std::rt::Env;
use std::{env, io};

fn amount(rt: &(impl Env + Alloc)) -> io::Result<u64> {
    match env::args(rt)?.nth(1) {
        Some(word) => Ok(word.parse::<u64>().unwrap_or(1000)),
        None => Ok(1000),
    }
}

// A file is made, and then 16 bytes are appended to it and synced by turns.
fn work(host: &mut MemHost, amount: u64) -> Result<(), Failed>
    requires { 0 < (mem_state host.old).count }
{
    host.make_sub(DirNo(0), Sub::Current)?;
    host.make_file(DirNo(0), Sub::Current, FileName::Seen)?;
    'calls: for call in 2..amount {
        if call % 2 == 0 {
            host.append(DirNo(0), Sub::Current, FileName::Seen, &[7; 16])?;
        } else {
            host.sync(DirNo(0), Sub::Current, FileName::Seen)?;
        }
    }
    Ok(())
}

fn main(rt: HostRuntime) -> io::Result<()> {
    let amount = amount(&rt)?;
    let Ok(mut host) = MemHost::new(rt.alloc(), 1, Vec::new(rt.alloc())) else {
        return Err(ErrorKind::OutOfMemory.into());
    };
    if work(&mut host, amount).is_err() {
        return Err(ErrorKind::OutOfMemory.into());
    }
    println!(rt; "{}", host.calls())
}
