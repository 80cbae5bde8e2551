// Runs over real folders, the real input and the real output.
ghost use Rattle.std.specs.Prelude.{◌≡◌, ◌≤◌, Some, length};
ghost use Rattle.nn_server.specs.Codes.{code_of};
ghost use Rattle.nn_top.specs.Words.{texts};
ghost use Rattle.nn_top.specs.Wanted.{dirs_in};
ghost use Rattle.nn_top.specs.Commands.{wanted_by, HaveNoReading};
ghost use Rattle.nn_cli.specs.Exit.{ExitsBy};

use crate::explain::{explain, tell};
use crate::twins::warn_of_twins;
use crate::usage::explain_usage;
use nn_base::NoMemory;
use nn_files::{FileHost, StdSource};
use nn_top::{Status, WordsFault, dirs_of, exit_code};
use std::alloc::Global;
use std::rt::Files;

/// Does what the words ask for over the real folders that they name, and gives the exit status. What a person may want to know of it
/// goes to the standard error.
pub fn run<R: Files + Print + Eprint + Input + Drop>(rt: &R, alloc: Global, words: &[String]) -> u8
    ensures { ExitsBy (texts words.now) result }
{
    match dirs_of(alloc, words) {
        Ok(dirs) => run_over(rt, alloc, words, dirs),
        Err(WordsFault::Usage) => run_unread(rt, alloc, words),
        Err(WordsFault::Memory) => starved(rt),
    }
}

// The exit status where memory ran out before the run.
fn starved<R: Eprint>(rt: &R) -> u8
    ensures { result ≡ code_of Status.Memory }
{
    tell(rt, "memory ran out before anything was done");
    Status::Memory.code()
}

fn run_over<R: Files + Print + Eprint + Input + Drop>(
    rt: &R,
    alloc: Global,
    words: &[String],
    dirs: Vec<String>,
) -> u8
    requires { (wanted : _) × (wanted_by (texts words.now) ≡ Some wanted) × (texts dirs.items ≡ dirs_in wanted) }
    ensures { ExitsBy (texts words.now) result }
{
    warn_of_twins(rt, &dirs);
    let mut source = StdSource::new(rt);
    match FileHost::open(rt, alloc, dirs) {
        Ok(mut host) => {
            let ended = exit_code(alloc, words, &mut source, &mut host);
            explain(rt, words, &host, ended.status);
            ended.code
        }
        Err(NoMemory) => starved(rt),
    }
}

// Words without a reading name no folder.
fn run_unread<R: Files + Print + Eprint + Input + Drop>(
    rt: &R,
    alloc: Global,
    words: &[String],
) -> u8
    requires { HaveNoReading (texts words.now) }
    ensures { ExitsBy (texts words.now) result }
{
    explain_usage(rt, alloc, words);
    let mut source = StdSource::new(rt);
    match FileHost::open(rt, alloc, Vec::new(alloc)) {
        Ok(mut host) => exit_code(alloc, words, &mut source, &mut host).code,
        Err(NoMemory) => starved(rt),
    }
}
