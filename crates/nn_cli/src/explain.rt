// What the last line of a run means, for a person: which directory it is about, and what helps.
//
// All of it goes to the standard error, where nothing depends on it: a line that can't be written there is dropped. Why the system
// refused a call, the host and the source have told by then.
use nn_base::DirNo;
use nn_base::limits::MOST_DIRS;
use nn_files::FileHost;
use nn_pick::Refusal;
use nn_top::Status;
use std::rt::Files;

/// Explains the status of a run of these words over this host. Words without a reading aren't explained here.
pub fn explain<R: Files + Print + Eprint + Drop>(
    rt: &R,
    words: &[String],
    host: &FileHost<&R>,
    status: Status,
) {
    match status {
        Status::Refused(refusal) => refused(rt, host.paths(), refusal),
        Status::HostFault(i) => about(rt, host.paths(), i, after_a_fault(words)),
        Status::NoneLeft => tell(
            rt,
            "each directory failed; once the disks work, run over all of them again, not over some",
        ),
        _ => {
            left_out(rt, host);
            tell(rt, what_was_done(status));
        }
    }
}

// Names each directory that a run went on without.
fn left_out<R: Files + Print + Eprint + Drop>(rt: &R, host: &FileHost<&R>) {
    'dirs: for i in 0..MOST_DIRS {
        let i = DirNo(i as u8);
        if host.has_failed(i) {
            about(
                rt,
                host.paths(),
                i,
                "it failed and was left out, unless a line `restore` took it back; once it works, run over all of these directories again",
            );
        }
    }
}

// Nothing where there is nothing to say, or where the host or the source has said it.
fn what_was_done(status: Status) -> &'static str {
    match status {
        Status::ScriptTooLong => {
            "a script has at most 67108864 bytes; what was answered was done, and the rest wants a run of its own"
        }
        Status::Memory => "memory ran out; what was answered was done",
        _ => "",
    }
}

fn after_a_fault(words: &[String]) -> &'static str {
    match words.first().map_or("", String::as_str) {
        "state" => "nothing was changed; mend it and look again",
        "format" =>
            "mend it; `namenode state` tells which directories are formatted, the others can be formatted again",
        _ => "no line of the script was read; mend it and run the same again",
    }
}

/// A line, or nothing for an empty one.
pub fn tell<R: Eprint>(rt: &R, line: &str) {
    if !line.is_empty() {
        let _ = eprintln!(rt; "namenode: {line}");
    }
}

// A line about directory `i`.
fn about<R: Eprint>(rt: &R, paths: &[String], i: DirNo, line: &str) {
    let _ = eprintln!(rt;
        "namenode: directory {} is {}: {line}",
        i.0,
        path_of(paths, i)
    );
}

fn path_of(paths: &[String], i: DirNo) -> &str {
    match paths.get(i.0 as usize) {
        Some(path) => path.as_str(),
        None => "",
    }
}

fn refused<R: Eprint>(rt: &R, paths: &[String], refusal: Refusal) {
    match refusal {
        Refusal::Mismatch { first, dir, key } => {
            about(rt, paths, first, "it holds one namespace");
            let _ = eprintln!(rt;
                "namenode: directory {} is {}: it holds another, by its {key}; leave one of the two out",
                dir.0,
                path_of(paths, dir)
            );
        }
        Refusal::Gap { seen, last } => {
            let _ = eprintln!(rt;
                "namenode: the records behind {} are lost, up to {} at least: run over all directories of the last run, or bring the missing segment back from a copy",
                last.0,
                seen.saturating_sub(1)
            );
        }
        Refusal::NotFormatted => tell(
            rt,
            "no directory holds a namespace; if you want a new one, use `namenode format`",
        ),
        Refusal::Spent(_) | Refusal::CtimeSpent(_) => tell(
            rt,
            "this namespace has used up its numbers; nothing can be written to it any more",
        ),
        Refusal::NoPrevious => tell(rt, "no directory holds a namespace to go back to"),
        Refusal::Missing(i)
        | Refusal::Inconsistent(i, _)
        | Refusal::Formatted(i)
        | Refusal::BadVersion(i, _)
        | Refusal::FutureLayout(i, _)
        | Refusal::ForeignLayout(i, _)
        | Refusal::NoImage(i, _)
        | Refusal::PreviousExists(i)
        | Refusal::BadPrevious(i, _) => about(rt, paths, i, what_helps(refusal)),
    }
}

// What helps with the directory of a refusal.
fn what_helps(refusal: Refusal) -> &'static str {
    match refusal {
        Refusal::Missing(_) => "no folder stands there; make it, or mount its file system",
        Refusal::Inconsistent(_, _) =>
            "no operation leaves its folders so; keep it as it is, and run over the others",
        Refusal::Formatted(_) =>
            "it holds a namespace already; leave it out, or give an empty folder in its place",
        Refusal::BadVersion(_, _) =>
            "its VERSION doesn't read; give an empty folder in its place, beside a directory that is whole",
        Refusal::FutureLayout(_, _) => "a later version of this program wrote it; use that one",
        Refusal::ForeignLayout(_, _) => "another program wrote it; use that one",
        Refusal::NoImage(_, _) =>
            "its newest image is damaged or gone, and so are the older ones; bring one with its MD5 file from a copy",
        Refusal::PreviousExists(_) =>
            "it still holds the namespace from before an upgrade; `finalize` gives that up",
        Refusal::BadPrevious(_, _) =>
            "the namespace that it saved before an upgrade can't be opened",
        _ => "",
    }
}
