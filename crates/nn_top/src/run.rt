// A whole run of the program, but for the real folders, the real input and the real output.
ghost use Rattle.std.specs.Prelude.{◌≡◌, ◌⊎◌, ◌<◌, ◌≤◌, ◌^◌, ◌∷◌, [], None, false, true, IfOk, IfSome, IsTrue, Some, length};
ghost use Rattle.std.specs.String.{string_bytes};
ghost use Rattle.nn_base.specs.Words.{is_word};
ghost use Rattle.nn_host.specs.Moments.{Say};
ghost use Rattle.nn_host.specs.Calls.{most_said};
ghost use Rattle.nn_server.specs.Came.{is_out_fault};
ghost use Rattle.nn_server.specs.States.{StateRan, state_status};
ghost use Rattle.nn_server.specs.Format.{FormatRan, format_status};
ghost use Rattle.nn_server.specs.Dry.{DryRan};
ghost use Rattle.nn_server.specs.Codes.{dry_status};
ghost use Rattle.nn_generate.specs.Generated.{most_files};
ghost use Rattle.nn_generate.specs.Said.{GenerateRan, generate_status};
ghost use Rattle.nn_top.specs.Words.{texts};
ghost use Rattle.nn_top.specs.Wanted.{dirs_in};
ghost use Rattle.nn_top.specs.Commands.{wanted_by, HaveNoReading};
ghost use Rattle.nn_top.specs.Lines.{last_line};
ghost use Rattle.nn_top.specs.Ended.{Ended};
ghost use Rattle.nn_top.specs.Runs.{RunDid, FillDid};
ghost use Rattle.nn_top.specs.Did.{Unread, Did};
ghost use Rattle.nn_top.specs.Closes.{is_made, IsLast, last_call, Closing};

use crate::words::{Command, command_of};
use nn_base::{DirNo, NoMemory, Word};
use nn_generate::say_script;
use nn_host::{Failed, Host, MOST_SAID, Source};
use nn_server::{Status, dry, format, state};
use std::alloc::Global;

/// Does what the words of the command line ask for, and says its answers. The script of `dry` and of `run` comes from the source.
///
/// Where the words have a reading, the host has as many directories as that reading, in its order.
pub fn namenode<H: Host, S: Source>(
    alloc: Global,
    words: &[String],
    source: &mut S,
    host: &mut H,
) -> Status
    requires { (wanted : _) → wanted_by (texts words.now) ≡ Some wanted → (H.state host.old).count ≡ length (dirs_in wanted) }
    ensures reading { HaveNoReading (texts words.now) ⊎ ((wanted : _) × (wanted_by (texts words.now) ≡ Some wanted)) }
    ensures usage_only { result ≡ Status.Usage → HaveNoReading (texts words.now) }
    ensures usage { HaveNoReading (texts words.now) → (source.new ≡ source.old) × Unread H.told (H.state host.old) (H.state host.new) result }
    ensures did { (wanted : _) → wanted_by (texts words.now) ≡ Some wanted → (
        Did H.told S.told S.left S.faults wanted source.old source.new (H.state host.old) (H.state host.new) result) }
{
    let Some(command) = command_of(words) else {
        return close(alloc, host, Status::Usage);
    };
    match &command {
        Command::State { .. } => run_state(alloc, host),
        Command::Format {
            cluster,
            namespace,
            ..
        } => run_format(alloc, host, cluster, *namespace),
        Command::Dry => run_dry(alloc, host, source),
        Command::Generate { count } => run_generate(alloc, host, *count),
        Command::Run { at, generated, .. } => match generated {
            Some(files) => run_files(alloc, host, *files, *at),
            None => run_dirs(alloc, host, source, *at),
        },
    }
}

fn run_state<H: Host>(alloc: Global, host: &mut H) -> Status
    ensures { Ended H.told (H.state host.old) (H.state host.new) state_status
        (StateRan H.told (H.state host.old) (H.state host.new)) result }
{
    let end = state(alloc, host);
    close(alloc, host, end.status())
}

fn run_format<H: Host>(alloc: Global, host: &mut H, cluster: &Word, namespace: u32) -> Status
    requires word { IsTrue (is_word cluster.now) }
    requires some { 1 ≤ namespace }
    requires fits { namespace ≤ 2147483647 }
    ensures { Ended H.told (H.state host.old) (H.state host.new) format_status
        (λ lines trace. FormatRan H.told cluster.now namespace (H.state host.old) (H.state host.new) lines) result }
{
    let end = format(alloc, host, cluster, namespace);
    close(alloc, host, end.status())
}

fn run_dry<H: Host, S: Source>(alloc: Global, host: &mut H, source: &mut S) -> Status
    ensures { Ended H.told (H.state host.old) (H.state host.new) dry_status
        (DryRan H.told S.told (S.left source.old) (S.left source.new) (S.faults source.old) (S.faults source.new)
        (H.state host.old) (H.state host.new)) result }
{
    let end = dry(alloc, host, source);
    close(alloc, host, end.status())
}

fn run_generate<H: Host>(alloc: Global, host: &mut H, count: u32) -> Status
    ensures { Ended H.told (H.state host.old) (H.state host.new) generate_status
        (GenerateRan H.told count (H.state host.old) (H.state host.new)) result }
{
    let end = say_script(alloc, host, count);
    close(alloc, host, end.status())
}

fn run_dirs<H: Host, S: Source>(alloc: Global, host: &mut H, source: &mut S, at: u64) -> Status
    requires { at < 2 ^ 63 }
    ensures { RunDid H.told S.told at (S.left source.old) (S.left source.new) (S.faults source.old) (S.faults source.new)
        (H.state host.old) (H.state host.new) result }
{
    let end = nn_serve::run(alloc, host, source, at);
    close(alloc, host, end.status())
}

fn run_files<H: Host>(alloc: Global, host: &mut H, files: u32, at: u64) -> Status
    requires at { at < 2 ^ 63 }
    requires files { files ≤ most_files }
    ensures { FillDid H.told at files (H.state host.old) (H.state host.new) result }
{
    let end = nn_serve::run_generated(alloc, host, files, at);
    close(alloc, host, end.status())
}

// Says the last line of a status. Where that finds no memory, the run ends for want of memory.
fn close<H: Host>(alloc: Global, host: &mut H, status: Status) -> Status
    ensures { Closing H.told (H.state host.old) (H.state host.new) status result }
{
    match status {
        Status::Refused(refusal) => {
            let line = refusal.text(alloc);
            say_made(host, line, Status::Refused(refusal))
        }
        Status::HostFault(i) => say_made(host, fault_line(alloc, i), Status::HostFault(i)),
        _ => say_plain(host, status),
    }
}

#[tactic(auto, using(crate::proofs::ClosesLemmas::closes_unsaid))]
fn say_plain<H: Host>(host: &mut H, status: Status) -> Status
    requires { is_made status ≡ false }
    ensures { Closing H.told (H.state host.old) (H.state host.new) status result }
{
    let last = status;
    match plain_line(status) {
        Some(line) => say_last(host, line, last),
        None => last,
    }
}

// The last line of a status for which none has to be made; two have none at all.
fn plain_line(status: Status) -> Option<&'static [u8]>
    requires { is_made status ≡ false }
    ensures some { IfSome result (λ line. line.now ≡ last_line status) }
    ensures short { IfSome result (λ line. length line.now ≤ most_said) }
    ensures call { IfSome result (λ line. last_call status ≡ Say (last_line status) ∷ []) }
    ensures none { result ≡ None → last_call status ≡ [] }
{
    match status {
        Status::Ok | Status::OutFault => None,
        Status::Stopped => Some(b"stopped\n"),
        Status::Usage => Some(b"usage\n"),
        Status::NoneLeft => Some(b"none left\n"),
        Status::SourceFault => Some(b"source fault\n"),
        Status::ScriptTooLong => Some(b"script too long\n"),
        Status::Memory => Some(b"no memory\n"),
        Status::Refused(_) | Status::HostFault(_) => unreachable!(),
    }
}

fn fault_line(alloc: Global, i: DirNo) -> Result<String, NoMemory>
    ensures { IfOk result (λ line. string_bytes line ≡ last_line (Status.HostFault i)) }
{
    Ok(format!(in alloc; "fault {}\n", i.0)?)
}

fn say_made<H: Host>(host: &mut H, line: Result<String, NoMemory>, status: Status) -> Status
    requires line { IfOk line (λ made. string_bytes made ≡ last_line status) }
    requires made { is_made status ≡ true }
    requires call { last_call status ≡ Say (last_line status) ∷ [] }
    ensures { Closing H.told (H.state host.old) (H.state host.new) status result }
{
    match line {
        Ok(line) if line.len() <= MOST_SAID => say_last(host, line.as_bytes(), status),
        // One that can't be said at once counts as one that can't be made. No line is that long.
        _ => say_last(host, b"no memory\n", Status::Memory),
    }
}

fn say_last<H: Host>(host: &mut H, line: &[u8], last: Status) -> Status
    requires line { line.now ≡ last_line last }
    requires short { length line.now ≤ most_said }
    requires call { last_call last ≡ Say (last_line last) ∷ [] }
    ensures { (status : _) → IsLast status last → is_out_fault status ≡ false → Closing H.told (H.state host.old) (H.state host.new) status result }
{
    match host.say(line) {
        Ok(()) => last,
        Err(Failed) => Status::OutFault,
    }
}
