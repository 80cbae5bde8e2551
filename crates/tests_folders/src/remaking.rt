// Images that are published and directories that are made.
use nn_base::{DirNo, FileName, NoMemory, Sub, Txid};
use nn_chain::read_image;
use nn_host::Host;
use nn_marks::version_read;
use nn_memhost::{MemHost, Part};
use nn_remake::{MakeFault, make, publish};
use nn_state::{Fresh, Ready};
use nn_tree::{PlainTree, Tree};
use std::alloc::Global;
use tests_kit::texts::{DIGEST_0, DIGEST_5, IMAGE_0, IMAGE_5, OTHERS, VERSION};
use tests_kit::{first_bad_failure, first_bad_stop, give, has, has_sub, lacks, lists};

const DIR: DirNo = DirNo(0);

// What `current` holds beside VERSION once an image was published, and once a directory was made.
static PUBLISHED: [&str; 3] = ["VERSION", "fsimage_5", "fsimage_5.md5"];

static FOUR: [&str; 4] = ["VERSION", "fsimage_0", "fsimage_0.md5", "seen_txid"];

// Publishes the empty namespace at the id 5.
#[tactic(auto, using(nn_tree::proofs::EmptyLemmas::imaged_empty))]
fn publish_5<H: Host>(alloc: Global, host: &mut H) -> Result<(), MakeFault> {
    if host.count() == 0 {
        return Err(MakeFault::Memory);
    }
    let tree = PlainTree::new(alloc)?;
    match version_read(VERSION) {
        Ok(version) => publish(alloc, host, DIR, &tree, Txid(5), &version),
        Err(_) => Err(MakeFault::Memory),
    }
}

// A host with VERSION and an image of the id 5 that isn't intact, whose calls fail as the list says.
fn with_old_image(alloc: Global, fails: Vec<(u64, Part)>) -> Result<MemHost, NoMemory> {
    let mut host = MemHost::new(alloc, 1, fails)?;
    give(&mut host, DIR, Sub::Current, FileName::Version, VERSION)?;
    give(
        &mut host,
        DIR,
        Sub::Current,
        FileName::Image(Txid(5)),
        b"old",
    )?;
    give(&mut host, DIR, Sub::Current, FileName::Md5(Txid(5)), b"sum")?;
    Ok(host)
}

// Makes directory 0 of a new host at the id 0. The calls of the host fail as the list says.
#[tactic(auto, using(nn_tree::proofs::EmptyLemmas::imaged_empty))]
fn make_0(
    alloc: Global,
    fails: Vec<(u64, Part)>,
) -> Result<(MemHost, Result<Ready, MakeFault>), NoMemory> {
    let mut host = MemHost::new(alloc, 1, fails)?;
    let tree = PlainTree::new(alloc)?;
    let Ok(version) = version_read(VERSION) else {
        return Err(NoMemory);
    };
    let at = Fresh { dir: DIR };
    let made = make(alloc, &mut host, at, &tree, Txid(0), &version);
    Ok((host, made))
}

fn has_old(alloc: Global, host: &mut MemHost) -> bool {
    has(
        alloc,
        host,
        DIR,
        Sub::Current,
        FileName::Image(Txid(5)),
        b"old",
    ) && has(
        alloc,
        host,
        DIR,
        Sub::Current,
        FileName::Md5(Txid(5)),
        b"sum",
    )
}

fn has_new(alloc: Global, host: &mut MemHost) -> bool {
    has(
        alloc,
        host,
        DIR,
        Sub::Current,
        FileName::Image(Txid(5)),
        IMAGE_5,
    ) && has(
        alloc,
        host,
        DIR,
        Sub::Current,
        FileName::Md5(Txid(5)),
        DIGEST_5,
    )
}

// The old image with its MD5 file, none, or the new one with its own; VERSION in any case.
fn is_old_or_new(alloc: Global, host: &mut MemHost) -> bool {
    if !has(alloc, host, DIR, Sub::Current, FileName::Version, VERSION) {
        return false;
    }
    has_old(alloc, host) || has_new(alloc, host) || lacks(host, DIR, FileName::Image(Txid(5)))
}

fn has_four(alloc: Global, host: &mut MemHost) -> bool {
    has(alloc, host, DIR, Sub::Current, FileName::Version, VERSION)
        && has(alloc, host, DIR, Sub::Current, FileName::Seen, b"0\n")
        && has(
            alloc,
            host,
            DIR,
            Sub::Current,
            FileName::Image(Txid(0)),
            IMAGE_0,
        )
        && has(
            alloc,
            host,
            DIR,
            Sub::Current,
            FileName::Md5(Txid(0)),
            DIGEST_0,
        )
}

// A host on which the image of the id 5 was published over one that wasn't intact, or None where that failed.
fn published(alloc: Global) -> Option<MemHost> {
    let mut host = with_old_image(alloc, Vec::new(alloc)).ok()?;
    match publish_5(alloc, &mut host) {
        Ok(()) => Some(host),
        Err(_) => None,
    }
}

// Whether nothing but the image and its MD5 file came to VERSION.
fn holds_just_that(alloc: Global) -> bool {
    match published(alloc) {
        Some(mut host) => {
            lists(alloc, &mut host, DIR, Sub::Current, &PUBLISHED)
                && has_new(alloc, &mut host)
                && has(
                    alloc,
                    &mut host,
                    DIR,
                    Sub::Current,
                    FileName::Version,
                    VERSION,
                )
                && host.said().is_empty()
        }
        None => false,
    }
}

#[test]
fn a_published_image_stands_beside_its_digest_and_nothing_is_left_of_the_way(rt: HostRuntime) {
    assert!(rt; holds_just_that(rt.alloc()));
}

// The last inode that was given out in the published image.
fn read_back(alloc: Global) -> Option<u64> {
    let mut host = published(alloc)?;
    let version = version_read(VERSION).ok()?;
    if host.count() == 0 {
        return None;
    }
    let read = read_image::<MemHost, PlainTree>(
        alloc,
        &mut host,
        DIR,
        Sub::Current,
        Txid(5),
        &version,
    );
    Some(read.ok()?.counters().inode)
}

// How many calls it takes to publish the image once more.
fn calls_again(alloc: Global) -> Option<u64> {
    let mut host = published(alloc)?;
    let before = host.calls();
    match publish_5(alloc, &mut host) {
        Ok(()) => Some(host.calls().saturating_sub(before)),
        Err(_) => None,
    }
}

#[test]
fn a_published_image_reads_back_and_isnt_published_again(rt: HostRuntime) {
    assert!(rt; read_back(rt.alloc()) == Some(16385));
    // Five looks at the image, and one at its MD5 file.
    assert!(rt; calls_again(rt.alloc()) == Some(6));
}

// Whether a directory without `current` stays so.
fn stays_without_current(alloc: Global) -> bool {
    let Ok(mut host) = MemHost::new(alloc, 1, Vec::new(alloc)) else {
        return false;
    };
    publish_5(alloc, &mut host).is_ok() && !has_sub(&mut host, DIR, Sub::Current)
}

#[test]
fn without_current_nothing_is_published(rt: HostRuntime) {
    assert!(rt; stays_without_current(rt.alloc()));
}

// Whether a stop inside any call of publishing leaves the old image, or none, or the whole new one.
fn is_kept_at_stops(alloc: Global) -> bool {
    match published(alloc) {
        Some(host) => first_bad_stop(&host, |left| is_old_or_new(alloc, left)).is_none(),
        None => false,
    }
}

#[test]
fn a_stop_inside_any_call_leaves_the_old_image_or_none_or_the_whole_new_one(rt: HostRuntime) {
    assert!(rt; is_kept_at_stops(rt.alloc()));
}

// Whether the failed call of publishing is told, and is the last.
fn is_told_of_publishing(alloc: Global, k: u64, part: Part) -> bool {
    let Ok(fails) = Vec::from_array(alloc, [(k, part)]) else {
        return false;
    };
    let Ok(mut host) = with_old_image(alloc, fails) else {
        return false;
    };
    publish_5(alloc, &mut host) == Err(MakeFault::Failed)
        && host.calls() == k.saturating_add(1)
        && host.starved() == 0
        && is_old_or_new(alloc, &mut host)
}

fn is_kept_at_failures(alloc: Global) -> bool {
    let calls = match published(alloc) {
        Some(host) => host.calls(),
        None => return false,
    };
    first_bad_failure(0, calls, |k, part| is_told_of_publishing(alloc, k, part)).is_none()
}

#[test]
fn each_call_of_publishing_that_fails_is_answered(rt: HostRuntime) {
    assert!(rt; is_kept_at_failures(rt.alloc()));
}

// A host whose one directory was made, or None where that failed.
fn made(alloc: Global) -> Option<MemHost> {
    match make_0(alloc, Vec::new(alloc)) {
        Ok((host, Ok(Ready { dir: DirNo(0) }))) => Some(host),
        _ => None,
    }
}

// Whether a directory that is made has its four files, and nothing else.
fn has_just_four(alloc: Global) -> bool {
    match made(alloc) {
        Some(mut host) => {
            lists(alloc, &mut host, DIR, Sub::Current, &FOUR)
                && has_four(alloc, &mut host)
                && has_no_other(&mut host)
        }
        None => false,
    }
}

fn has_no_other(host: &mut MemHost) -> bool {
    for sub in OTHERS {
        if has_sub(host, DIR, sub) {
            return false;
        }
    }
    true
}

#[test]
fn a_directory_that_is_made_has_just_its_four_files(rt: HostRuntime) {
    assert!(rt; has_just_four(rt.alloc()));
}

fn is_none_or_whole(alloc: Global, host: &mut MemHost) -> bool {
    lacks(host, DIR, FileName::Version) || has_four(alloc, host)
}

// Whether a stop inside any call of making leaves no VERSION, or all four files.
fn is_made_at_stops(alloc: Global) -> bool {
    match made(alloc) {
        Some(host) => first_bad_stop(&host, |left| is_none_or_whole(alloc, left)).is_none(),
        None => false,
    }
}

#[test]
fn a_stop_inside_any_call_leaves_no_version_or_all_four_files(rt: HostRuntime) {
    assert!(rt; is_made_at_stops(rt.alloc()));
}

// Whether the failed call of making is told, and is the last.
fn is_told_of_making(alloc: Global, k: u64, part: Part) -> bool {
    let Ok(fails) = Vec::from_array(alloc, [(k, part)]) else {
        return false;
    };
    match make_0(alloc, fails) {
        Ok((mut host, Err(MakeFault::Failed))) => {
            host.calls() == k.saturating_add(1)
                && host.starved() == 0
                && is_none_or_whole(alloc, &mut host)
        }
        _ => false,
    }
}

fn is_made_at_failures(alloc: Global) -> bool {
    let calls = match made(alloc) {
        Some(host) => host.calls(),
        None => return false,
    };
    first_bad_failure(0, calls, |k, part| is_told_of_making(alloc, k, part)).is_none()
}

#[test]
fn each_call_of_making_that_fails_is_answered(rt: HostRuntime) {
    assert!(rt; is_made_at_failures(rt.alloc()));
}
