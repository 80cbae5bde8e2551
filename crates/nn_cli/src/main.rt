//! The program `namenode` over real folders, the real input and the real output: it reads the words, makes the host that they
//! name, hands both to the top call, and explains on the standard error how that ended. It knows nothing else.
#![tactic(auto)]

mod explain;
mod flaw;
mod real;
mod twins;
mod usage;

use explain::tell;
use nn_files::Reserved;
use nn_top::Status;
use std::env;
use std::io::ErrorKind;
use std::process::ExitCode;

fn main(rt: HostRuntime) -> ExitCode {
    // Kept until the process ends.
    let Ok(_reserved) = Reserved::open(&rt) else {
        return no_memory(&rt);
    };
    let alloc = rt.alloc();
    let words = match env::args(&rt) {
        Ok(mut words) => {
            let _program = words.next();
            words.collect(alloc)
        }
        Err(error) if error.kind() == ErrorKind::OutOfMemory => return no_memory(&rt),
        // No words at all have no reading either.
        Err(_) => {
            tell(&rt, "a word isn't UTF-8");
            Ok(Vec::new(alloc))
        }
    };
    match words {
        Ok(words) => ExitCode::from(real::run(&rt, alloc, &words)),
        Err(_) => no_memory(&rt),
    }
}

fn no_memory<R: Eprint>(rt: &R) -> ExitCode {
    tell(rt, "memory ran out before anything was done");
    ExitCode::from(Status::Memory.code())
}
