// The command `state`: each directory's storage state, and then the first refusal.
ghost use Rattle.std.specs.Prelude.{◌≡◌, ◌<◌, ◌≤◌, length, is_ok, IfOk, OnOk};
ghost use Rattle.std.specs.String.{string_bytes};
ghost use Rattle.nn_host.specs.Moments.{moment};
ghost use Rattle.nn_host.specs.Calls.{most_said, Spoke};
ghost use Rattle.nn_host.specs.Runs.{Looked};
ghost use Rattle.nn_server.specs.Lines.{state_line};
ghost use Rattle.nn_server.specs.Came.{CameTo};
ghost use Rattle.nn_server.specs.States.{StateRan, state_status, found};

use crate::Status;
use nn_base::{DirNo, NoMemory};
use nn_host::{Failed, Host};
use nn_pick::{Refusal, earlier, unusable};
use nn_state::{StorageState, Why, look, table};
use std::alloc::Global;

/// How a run of `state` ends.
#[derive(Clone, Copy, Debug, PartialEq, Eq)]
pub enum StateEnd {
    /// Each directory was named, and can be worked on.
    Done,
    /// Each was named, and this is the first that is missing or inconsistent.
    Refused(Refusal),
    /// A call on this directory failed. The ones before it were named.
    HostFault(DirNo),
    /// Memory ran out. Some first directories were named.
    Memory,
    /// The output failed.
    OutFault,
}

impl StateEnd {
    /// The status of a run of the program that ends so.
    pub fn status(self) -> Status
        ensures { result ≡ state_status self }
    {
        match self {
            StateEnd::Done => Status::Ok,
            StateEnd::Refused(refusal) => Status::Refused(refusal),
            StateEnd::HostFault(i) => Status::HostFault(i),
            StateEnd::Memory => Status::Memory,
            StateEnd::OutFault => Status::OutFault,
        }
    }
}

/// Says the storage state of each directory, in order, each line before the next directory is looked at. The first directory
/// that is missing or inconsistent refuses.
///
/// The last line of the status is left to the caller.
pub fn state<H: Host>(alloc: Global, host: &mut H) -> StateEnd
    ensures { CameTo H.told (H.state host.old) (H.state host.new) state_status (StateRan H.told (H.state host.old) (H.state host.new)) result }
{
    let mut first = None;
    for i in 0..host.count() {
        let found = match state_of(host, DirNo(i)) {
            Ok(found) => found,
            Err(Failed) => return StateEnd::HostFault(DirNo(i)),
        };
        let line = match line_of(alloc, DirNo(i), found) {
            Ok(line) => line,
            Err(NoMemory) => return StateEnd::Memory,
        };
        match say_line(host, line.as_bytes()) {
            Ok(()) => first = earlier(first, unusable(DirNo(i), found)),
            Err(Failed) => return StateEnd::OutFault,
        }
    }
    match first {
        Some(refusal) => StateEnd::Refused(refusal),
        None => StateEnd::Done,
    }
}

// What the table says of a directory.
fn state_of<H: Host>(host: &mut H, i: DirNo) -> Result<Result<StorageState, Why>, Failed>
    requires { i.0 < (H.state host.old).count }
    ensures ok { H.told → IfOk result (λ it. it ≡ found (H.state host.old).reads i.0) }
    ensures kept { Looked H.told i.0 (H.state host.old) (H.state host.new) (is_ok result) }
    ensures asked { H.told → OnOk result (moment (H.state host.old) < moment (H.state host.new)) }
{
    match look(host, i) {
        Ok(seven) => Ok(table(seven)),
        Err(Failed) => Err(Failed),
    }
}

// A line goes out in one call.
fn say_line<H: Host>(host: &mut H, line: &[u8]) -> Result<(), Failed>
    requires { length line.now ≤ most_said }
    ensures { Spoke H.told line.now (H.state host.old) (H.state host.new) result }
{
    host.say(line)
}

fn line_of(alloc: Global, i: DirNo, found: Result<StorageState, Why>) -> Result<String, NoMemory>
    ensures { IfOk result (λ line. string_bytes line ≡ state_line i.0 found) }
{
    let line = match found {
        Ok(state) => format!(in alloc; "{} {}\n", i.0, state)?,
        Err(why) => format!(in alloc; "{} inconsistent {}\n", i.0, why)?,
    };
    Ok(line)
}
