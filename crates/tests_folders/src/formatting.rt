// Formats of several directories.
use nn_base::{DirNo, FileName, Sub, Txid};
use nn_host::Host;
use nn_marks::version_read;
use nn_memhost::{MemHost, Part};
use nn_open::format;
use nn_pick::OpenFault;
use nn_small::read_all;
use nn_state::{StorageState, Why, look, table};
use std::alloc::Global;
use tests_kit::texts::{DIGEST_0, IMAGE_0, OTHERS, VERSION};
use tests_kit::{file, first_bad_stop, has, has_sub, lists};

// How many calls look at a directory, and how many then make it.
const SURVEY: u64 = 8;

const MAKE: u64 = 19;

// What `current` of a formatted directory holds.
static FOUR: [&str; 4] = ["VERSION", "fsimage_0", "fsimage_0.md5", "seen_txid"];

// Formats with what `VERSION` says.
fn format_seven(alloc: Global, host: &mut MemHost) -> Result<(), OpenFault> {
    match version_read(VERSION) {
        Ok(version) if version.ctime == 0 && version.layout == -1001 => {
            format(alloc, host, &version)
        }
        _ => Err(OpenFault::Memory),
    }
}

// What the table says of the directory, or None where the host failed.
fn state_of(host: &mut MemHost, i: DirNo) -> Option<Result<StorageState, Why>> {
    if host.count() <= i.0 {
        return None;
    }
    Some(table(look(host, i).ok()?))
}

fn give(host: &mut MemHost, i: DirNo, sub: Sub, name: FileName) -> bool {
    i.0 < host.count() && host.with_file(i, sub, name, b"x").is_ok()
}

// What a format leaves beside VERSION.
fn has_image(alloc: Global, host: &mut MemHost, i: DirNo) -> bool {
    has(alloc, host, i, Sub::Current, FileName::Seen, b"0\n")
        && has(
            alloc,
            host,
            i,
            Sub::Current,
            FileName::Image(Txid(0)),
            IMAGE_0,
        )
        && has(
            alloc,
            host,
            i,
            Sub::Current,
            FileName::Md5(Txid(0)),
            DIGEST_0,
        )
}

// Whether the directory holds what a format leaves, and nothing else.
fn is_fresh(alloc: Global, host: &mut MemHost, i: DirNo) -> bool {
    for sub in OTHERS {
        if has_sub(host, i, sub) {
            return false;
        }
    }
    lists(alloc, host, i, Sub::Current, &FOUR)
        && has(alloc, host, i, Sub::Current, FileName::Version, VERSION)
        && has_image(alloc, host, i)
}

// Whether a format of two directories, in which nothing is formatted though something is there, leaves just what it is to.
fn leaves_just_that(alloc: Global) -> bool {
    let Ok(mut host) = MemHost::new(alloc, 2, Vec::new(alloc)) else {
        return false;
    };
    give(&mut host, DirNo(0), Sub::Current, FileName::Image(Txid(5)))
        && give(
            &mut host,
            DirNo(1),
            Sub::PreviousCheckpoint,
            FileName::Version,
        )
        && format_seven(alloc, &mut host).is_ok()
        && host.calls() == 2 * (SURVEY + MAKE)
        && is_fresh(alloc, &mut host, DirNo(0))
        && is_fresh(alloc, &mut host, DirNo(1))
        && host.said().is_empty()
        && host.starved() == 0
}

#[test]
fn a_format_leaves_version_seen_txid_and_an_image_and_no_more(rt: HostRuntime) {
    assert!(rt; leaves_just_that(rt.alloc()));
}

// A file of a folder of a directory.
type Place = (u8, Sub, &'static str);

// Two files that are given, whether directory 1 has a root, and the line of the refusal.
static REFUSALS: [(Place, Place, bool, &str); 3] = [
    (
        (0, Sub::Current, "seen_txid"),
        (0, Sub::PreviousCheckpoint, "seen_txid"),
        false,
        "refused missing 1\n",
    ),
    (
        (0, Sub::Current, "VERSION"),
        (1, Sub::Current, "VERSION"),
        true,
        "refused formatted 0\n",
    ),
    (
        (0, Sub::PreviousTmp, "VERSION"),
        (0, Sub::RemovedTmp, "VERSION"),
        true,
        "refused inconsistent 0 several-tmp\n",
    ),
];

// The table, by reference: a function that named it would be proved with each of its rows.
fn refusals() -> &'static [(Place, Place, bool, &'static str)] {
    &REFUSALS
}

#[test]
fn the_first_directory_that_is_not_empty_of_state_refuses(rt: HostRuntime) {
    for (one, other, rooted, line) in refusals() {
        assert!(rt;
            is_refused(rt.alloc(), *one, *other, *rooted, line),
            "{line}"
        );
    }
}

fn holds(host: &mut MemHost, place: Place) -> bool {
    has_sub(host, DirNo(place.0), place.1)
}

// Whether two directories with these files are refused by this line, by nothing but looks and settlings.
fn is_refused(alloc: Global, one: Place, other: Place, rooted: bool, line: &str) -> bool {
    let Ok(mut host) = MemHost::new(alloc, 2, Vec::new(alloc)) else {
        return false;
    };
    for place in [one, other] {
        if !give(&mut host, DirNo(place.0), place.1, file(place.2)) {
            return false;
        }
    }
    if !rooted && host.count() == 2 {
        host.without_root(DirNo(1));
    }
    is_told(alloc, &mut host, line)
        && host.calls() == 2 * SURVEY
        && holds(&mut host, one)
        && holds(&mut host, other)
}

// Whether a format is refused by this line.
fn is_told(alloc: Global, host: &mut MemHost, line: &str) -> bool {
    match format_seven(alloc, host) {
        Err(OpenFault::Refused(refusal)) => {
            let mut out = Vec::new(alloc);
            refusal.line(alloc, &mut out).is_ok() && out.as_slice() == line.as_bytes()
        }
        _ => false,
    }
}

// Each directory is not formatted, or is NORMAL with the image under the VERSION that was handed in.
fn is_whole(alloc: Global, host: &mut MemHost, i: DirNo) -> bool {
    match state_of(host, i) {
        Some(Ok(StorageState::NotFormatted)) => true,
        Some(Ok(StorageState::Normal)) => {
            reads_back(alloc, host, i) && has_image(alloc, host, i)
        }
        _ => false,
    }
}

fn reads_back(alloc: Global, host: &mut MemHost, i: DirNo) -> bool {
    if host.count() <= i.0 {
        return false;
    }
    match read_all(alloc, host, i, Sub::Current, FileName::Version, 65_536) {
        Ok(found) => version_read(&found) == version_read(VERSION) && version_read(VERSION).is_ok(),
        Err(_) => false,
    }
}

// Whether a stop inside any call leaves both directories unformatted or whole.
fn is_kept_at_stops(alloc: Global) -> bool {
    let Ok(mut host) = MemHost::new(alloc, 2, Vec::new(alloc)) else {
        return false;
    };
    format_seven(alloc, &mut host).is_ok()
        && first_bad_stop(&host, |left| {
            is_whole(alloc, left, DirNo(0)) && is_whole(alloc, left, DirNo(1))
        })
        .is_none()
}

#[test]
fn a_stop_inside_any_call_leaves_each_directory_unformatted_or_whole(rt: HostRuntime) {
    assert!(rt; is_kept_at_stops(rt.alloc()));
}

// Whether a failed sync of the image in directory 1 is told, and leaves directory 0 formatted.
fn is_half_done(alloc: Global) -> bool {
    // In directory 1: two removals, `current`, and then the image is made, filled and synced.
    let sync = 2 * SURVEY + MAKE + 5;
    let Ok(fails) = Vec::from_array(alloc, [(sync, Part::Nothing)]) else {
        return false;
    };
    let Ok(mut host) = MemHost::new(alloc, 2, fails) else {
        return false;
    };
    format_seven(alloc, &mut host) == Err(OpenFault::Failed(DirNo(1)))
        && host.calls() == sync + 1
        && state_of(&mut host, DirNo(0)) == Some(Ok(StorageState::Normal))
        && state_of(&mut host, DirNo(1)) == Some(Ok(StorageState::NotFormatted))
        && host.starved() == 0
}

#[test]
fn a_failure_leaves_the_directories_before_it_formatted(rt: HostRuntime) {
    assert!(rt; is_half_done(rt.alloc()));
}
