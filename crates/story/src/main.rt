//! A story that anyone can watch: name directories on disks in memory, which fail and lose power where the story wants it, and
//! what the program keeps. It shows what is claimed by examples, and claims nothing itself.
#![tactic(auto)]

mod disks;
mod moments;
mod stage;
mod telling;

use std::process::ExitCode;

fn main(rt: HostRuntime) -> ExitCode {
    let alloc = rt.alloc();
    match telling::tell(&rt, alloc) {
        Ok(()) => ExitCode::SUCCESS,
        Err(_) => ExitCode::FAILURE,
    }
}
