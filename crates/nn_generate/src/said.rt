// The command `generate`: a script that is made from a number.
ghost use Rattle.std.specs.Prelude.{◌≡◌, ◌≤◌, vec_capacity};
ghost use Rattle.nn_generate.specs.Generated.{file_lines, script_of, max_file};
ghost use Rattle.nn_say.specs.Saying.{Says, Puts};
ghost use Rattle.nn_server.specs.Came.{CameTo};
ghost use Rattle.nn_generate.specs.Said.{GenerateRan, generate_status};

use crate::{MAX_FILE, generate};
use nn_base::NoMemory;
use nn_host::{Failed, Host};
use nn_say::Speech;
use nn_server::Status;
use std::alloc::Global;

/// How a run of `generate` ends.
#[derive(Clone, Copy, Debug, PartialEq, Eq)]
pub enum GenerateEnd {
    /// The whole script was said.
    Done,
    /// Memory ran out, before anything was said.
    Memory,
    /// The output failed: nothing more was said.
    OutFault,
}

impl GenerateEnd {
    /// The status of a run of the program that ends so.
    pub fn status(self) -> Status
        ensures { result ≡ generate_status self }
    {
        match self {
            GenerateEnd::Done => Status::Ok,
            GenerateEnd::Memory => Status::Memory,
            GenerateEnd::OutFault => Status::OutFault,
        }
    }
}

/// Says the script of so many files, in calls of 65,536 bytes but for the last. It touches no directory. All its memory is taken
/// before the first call.
///
/// The last line of the status is left to the caller.
pub fn say_script<H: Host>(alloc: Global, host: &mut H, count: u32) -> GenerateEnd
    ensures { CameTo H.told (H.state host.old) (H.state host.new) generate_status
        (GenerateRan H.told count (H.state host.old) (H.state host.new)) result }
{
    let mut speech = match Speech::new(alloc) {
        Ok(speech) => speech,
        Err(NoMemory) => return GenerateEnd::Memory,
    };
    let mut lines = match Vec::with_capacity(alloc, MAX_FILE) {
        Ok(lines) => lines,
        Err(_) => return GenerateEnd::Memory,
    };
    match say_whole(host, count, &mut lines, &mut speech) {
        Ok(()) => GenerateEnd::Done,
        Err(Failed) => GenerateEnd::OutFault,
    }
}

fn say_whole<H: Host>(
    host: &mut H,
    count: u32,
    lines: &mut Vec<u8>,
    speech: &mut Speech,
) -> Result<(), Failed>
    requires { max_file ≤ vec_capacity lines.old }
    ensures { Says H.told (H.state host.old) (H.state host.new) (script_of count) result }
{
    speech.begin();
    put_script(host, count, lines, speech)?;
    speech.end(host)
}

fn put_script<H: Host>(
    host: &mut H,
    count: u32,
    lines: &mut Vec<u8>,
    speech: &mut Speech,
) -> Result<(), Failed>
    requires { max_file ≤ vec_capacity lines.old }
    ensures { Puts H.told (H.state host.old) (H.state host.new) speech.old.waiting.items
        (script_of count) speech.new.waiting.items result }
{
    for k in 0..count {
        put_file(host, k, lines, speech)?;
    }
    Ok(())
}

// Puts the lines of a file, which are made in a buffer that has room for them.
fn put_file<H: Host>(
    host: &mut H,
    k: u32,
    lines: &mut Vec<u8>,
    speech: &mut Speech,
) -> Result<(), Failed>
    requires { max_file ≤ vec_capacity lines.old }
    ensures puts { Puts H.told (H.state host.old) (H.state host.new) speech.old.waiting.items
        (file_lines k) speech.new.waiting.items result }
    ensures room { max_file ≤ vec_capacity lines.new }
{
    lines.clear();
    match generate(k, lines) {
        Ok(()) => speech.put_bytes(host, lines),
        Err(NoMemory) => unreachable!(),
    }
}
