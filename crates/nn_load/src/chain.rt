// The records of a folder, replayed over its image one file after the other.
ghost use Rattle.std.specs.Prelude.{◌≡◌, ◌+◌, ◌<◌, ◌≤◌, ◌⊎◌, ◌^◌, List, Some, None, IfOk, IfErr, true, false};
ghost use Rattle.nn_host.specs.Disk.{Reads};
ghost use Rattle.nn_host.specs.Listing.{IsListing};
ghost use Rattle.nn_host.specs.Moments.{disk_at};
ghost use Rattle.nn_host.specs.Runs.{OnlyAt, Looked};
ghost use Rattle.nn_record.specs.declared.transaction.Record.{Record};
ghost use Rattle.nn_tree.specs.Imaged.{IsImaged};
ghost use Rattle.nn_chain.specs.Folder.{folder_at};
ghost use Rattle.nn_chain.specs.Chain.{Leads, IsEnd};
ghost use Rattle.nn_load.specs.Loading.{answered_chain};
ghost use Rattle.nn_load.specs.Held.{IsOf};
ghost use Rattle.nn_load.specs.Queue.{IsNextFinalized, IsNextInProgress, HasGap, AreLeft};
ghost use Rattle.nn_load.specs.Turns.{IsInside, IsHeldAt, IsWaiting, IsLeft, IsPlayed, GoesOn};

use crate::ChainFault;
use crate::held::{Held, hold};
use crate::queue::{next_finalized, next_in_progress};
use crate::segment::{Place, Segment, replay_file};
use nn_base::{FileName, FirstTxid, Span, Txid};
use nn_host::Host;
use nn_tree::Tree;
use std::alloc::Global;

/// Above each id: where no finalized segment follows, one in progress is read to its end.
const NO_ID: u64 = 1 << 63;

/// What is left of a listing to read, and how far records have led.
#[derive(Drop)]
pub(crate) struct Left {
    /// The place from which on finalized segments are left.
    finalized: usize,
    /// The place from which on segments in progress are left.
    in_progress: usize,
    /// The last id.
    last: Txid,
    /// Whether no further record comes.
    ended: bool,
}

/// What is left, and the segment in progress that stands there, where it is held in memory.
#[derive(Drop)]
pub(crate) struct Waiting {
    left: Left,
    held: Option<Held>,
}

/// Replays all records of a listing that come after `id`, up to the first that is missing or doesn't fit; and the last id.
///
/// Each file is read once, and only while its first id isn't beyond the next one; a finalized segment before any in
/// progress. A segment in progress in whose midst a finalized one begins is held in memory meanwhile.
pub(crate) fn replay_segments<H: Host, T: Tree>(
    alloc: Global,
    host: &mut H,
    place: &Place,
    id: Txid,
    tree: &mut T,
) -> Result<Txid, ChainFault>
    requires below { place.now.dir.0 < (H.state host.old).count }
    requires listed { H.told → IsListing ((H.state host.old).reads place.now.dir.0) place.now.sub place.now.names.items }
    ensures ok { H.told → IfOk result (λ last. (records : List Record) × Leads (folder_at ((H.state host.old).reads place.now.dir.0) place.now.sub) place.now.version.layout (record { last = id; ns = T.meaning tree.old }) records (record { last = last; ns = T.meaning tree.new })
        × IsEnd (folder_at ((H.state host.old).reads place.now.dir.0) place.now.sub) place.now.version.layout (record { last = last; ns = T.meaning tree.new })) }
    ensures imaged { IsImaged (T.meaning tree.old) → IsImaged (T.meaning tree.new) }
    ensures cause { IfErr result (λ fault. (fault ≡ ChainFault.Failed) ⊎ (fault ≡ ChainFault.Memory)) }
    ensures kept { Looked H.told place.now.dir.0 (H.state host.old) (H.state host.new) (answered_chain result) }
    ensures any_moment { OnlyAt H.told place.now.dir.0 (H.state host.old) (H.state host.new) (λ d. d ≡ disk_at (H.state host.old) place.now.dir.0) }
{
    let mut at = Waiting {
        left: Left {
            finalized: 0,
            in_progress: 0,
            last: id,
            ended: false,
        },
        held: None,
    };
    loop {
        at = replay_next(alloc, host, place, at, tree)?;
        if at.left.ended {
            return Ok(at.left.last);
        }
    }
}

/// Replays the records of the next file, if there is one.
fn replay_next<H: Host, T: Tree>(
    alloc: Global,
    host: &mut H,
    place: &Place,
    at: Waiting,
    tree: &mut T,
) -> Result<Waiting, ChainFault>
    requires below { place.now.dir.0 < (H.state host.old).count }
    requires listed { H.told → IsListing ((H.state host.old).reads place.now.dir.0) place.now.sub place.now.names.items }
    requires waits { IsWaiting place.now.names.items at }
    requires left { H.told → IsLeft (folder_at ((H.state host.old).reads place.now.dir.0) place.now.sub) place.now.version.layout place.now.names.items at }
    ensures ok { H.told → IfOk result (λ then. IsPlayed (folder_at ((H.state host.old).reads place.now.dir.0) place.now.sub) place.now.version.layout place.now.names.items at.left then (T.meaning tree.old) (T.meaning tree.new)) }
    ensures further { IfOk result (λ then. then.left.ended ≡ false → GoesOn place.now.names.items at.left then) }
    ensures imaged { IsImaged (T.meaning tree.old) → IsImaged (T.meaning tree.new) }
    ensures cause { IfErr result (λ fault. (fault ≡ ChainFault.Failed) ⊎ (fault ≡ ChainFault.Memory)) }
    ensures kept { Looked H.told place.now.dir.0 (H.state host.old) (H.state host.new) (answered_chain result) }
    ensures any_moment { OnlyAt H.told place.now.dir.0 (H.state host.old) (H.state host.new) (λ d. d ≡ disk_at (H.state host.old) place.now.dir.0) }
{
    let Waiting { left, held } = at;
    let Some((k, span)) = next_finalized(place, left.finalized, left.last) else {
        let at = Waiting {
            left: behind(&left, place.names.len()),
            held,
        };
        return replay_in_progress(alloc, host, place, NO_ID, at, tree);
    };
    let first = first_id(&span);
    let next = next_id(&left);
    let at = Waiting {
        left: behind(&left, k),
        held,
    };
    if first <= next {
        replay_finalized(alloc, host, place, span, at, tree)
    } else {
        replay_in_progress(alloc, host, place, first - 1, at, tree)
    }
}

/// The finalized segments before this place are let go.
fn behind(left: &Left, k: usize) -> Left
    ensures { result ≡ record { finalized = k; in_progress = left.now.in_progress; last = left.now.last; ended = left.now.ended } }
{
    Left {
        finalized: k,
        in_progress: left.in_progress,
        last: left.last,
        ended: left.ended,
    }
}

/// The id that comes next.
fn next_id(left: &Left) -> u64
    ensures next { result ≡ left.now.last + 1 }
    ensures small { left.now.last < 2 ^ 63 }
{
    left.last.0 + 1
}

fn first_id(span: &Span) -> u64
    ensures { result ≡ span.now.0 }
{
    span.first.0
}

fn finalized_segment(span: Span) -> Segment
    ensures { result ≡ record { name = FileName.Edits span; first = span.0; until = span.1 } }
{
    Segment {
        name: FileName::Edits(span),
        first: span.first.0,
        until: span.last.0,
    }
}

fn in_progress_segment(first: FirstTxid, until: u64) -> Segment
    ensures { result ≡ record { name = FileName.InProgress first; first = first; until = until } }
{
    Segment {
        name: FileName::InProgress(first),
        first: first.0.0,
        until,
    }
}

/// Replays the records of the first finalized segment that is left, which is this.
fn replay_finalized<H: Host, T: Tree>(
    alloc: Global,
    host: &mut H,
    place: &Place,
    span: Span,
    at: Waiting,
    tree: &mut T,
) -> Result<Waiting, ChainFault>
    requires below { place.now.dir.0 < (H.state host.old).count }
    requires listed { H.told → IsListing ((H.state host.old).reads place.now.dir.0) place.now.sub place.now.names.items }
    requires waits { IsWaiting place.now.names.items at }
    requires next { IsNextFinalized place.now.names.items at.left.finalized at.left.last at.left.finalized span }
    requires begun { span.0 ≤ at.left.last + 1 }
    requires left { H.told → IsLeft (folder_at ((H.state host.old).reads place.now.dir.0) place.now.sub) place.now.version.layout place.now.names.items at }
    ensures ok { H.told → IfOk result (λ then. IsPlayed (folder_at ((H.state host.old).reads place.now.dir.0) place.now.sub) place.now.version.layout place.now.names.items at.left then (T.meaning tree.old) (T.meaning tree.new)) }
    ensures further { IfOk result (λ then. then.left.ended ≡ false → GoesOn place.now.names.items at.left then) }
    ensures imaged { IsImaged (T.meaning tree.old) → IsImaged (T.meaning tree.new) }
    ensures cause { IfErr result (λ fault. (fault ≡ ChainFault.Failed) ⊎ (fault ≡ ChainFault.Memory)) }
    ensures kept { Looked H.told place.now.dir.0 (H.state host.old) (H.state host.new) (answered_chain result) }
    ensures any_moment { OnlyAt H.told place.now.dir.0 (H.state host.old) (H.state host.new) (λ d. d ≡ disk_at (H.state host.old) place.now.dir.0) }
{
    let Waiting { left, held } = at;
    let segment = finalized_segment(span);
    let reach = replay_file(alloc, host, place, &segment, left.last, tree)?;
    Ok(Waiting {
        left: Left {
            finalized: left.finalized + 1,
            in_progress: left.in_progress,
            last: reach.last,
            ended: !reach.fit,
        },
        held,
    })
}

/// Replays the records of the next segment in progress up to the id `until`, if it has the next one.
fn replay_in_progress<H: Host, T: Tree>(
    alloc: Global,
    host: &mut H,
    place: &Place,
    until: u64,
    at: Waiting,
    tree: &mut T,
) -> Result<Waiting, ChainFault>
    requires below { place.now.dir.0 < (H.state host.old).count }
    requires listed { H.told → IsListing ((H.state host.old).reads place.now.dir.0) place.now.sub place.now.names.items }
    requires waits { IsWaiting place.now.names.items at }
    requires room { at.left.last < until }
    requires beyond { until ≤ 2 ^ 63 }
    requires gap { H.told → HasGap place.now.names.items at.left.finalized at.left.last until }
    requires left { H.told → IsLeft (folder_at ((H.state host.old).reads place.now.dir.0) place.now.sub) place.now.version.layout place.now.names.items at }
    ensures ok { H.told → IfOk result (λ then. IsPlayed (folder_at ((H.state host.old).reads place.now.dir.0) place.now.sub) place.now.version.layout place.now.names.items at.left then (T.meaning tree.old) (T.meaning tree.new)) }
    ensures further { IfOk result (λ then. then.left.ended ≡ false → GoesOn place.now.names.items at.left then) }
    ensures imaged { IsImaged (T.meaning tree.old) → IsImaged (T.meaning tree.new) }
    ensures cause { IfErr result (λ fault. (fault ≡ ChainFault.Failed) ⊎ (fault ≡ ChainFault.Memory)) }
    ensures kept { Looked H.told place.now.dir.0 (H.state host.old) (H.state host.new) (answered_chain result) }
    ensures any_moment { OnlyAt H.told place.now.dir.0 (H.state host.old) (H.state host.new) (λ d. d ≡ disk_at (H.state host.old) place.now.dir.0) }
{
    let Waiting { left, held } = at;
    if let Some(held) = held {
        return replay_held(alloc, place, held, until, left, tree);
    }
    let Some((k, first)) = next_in_progress(place, left.in_progress) else {
        return Ok(ended(left));
    };
    if next_id(&left) < first.0.0 {
        return Ok(ended(left));
    }
    let left = standing_at(left, k);
    if until == NO_ID {
        replay_last(alloc, host, place, first, left, tree)
    } else {
        replay_part(alloc, host, place, first, until, left, tree)
    }
}

/// The segments in progress before this place are let go.
fn standing_at(left: Left, k: usize) -> Left
    ensures { result ≡ record { finalized = left.finalized; in_progress = k; last = left.last; ended = left.ended } }
{
    Left {
        finalized: left.finalized,
        in_progress: k,
        last: left.last,
        ended: left.ended,
    }
}

/// Replays the records of the first segment in progress that is left, which is this. No finalized one is left.
fn replay_last<H: Host, T: Tree>(
    alloc: Global,
    host: &mut H,
    place: &Place,
    first: FirstTxid,
    left: Left,
    tree: &mut T,
) -> Result<Waiting, ChainFault>
    requires below { place.now.dir.0 < (H.state host.old).count }
    requires listed { H.told → IsListing ((H.state host.old).reads place.now.dir.0) place.now.sub place.now.names.items }
    requires inside { IsInside place.now.names.items left }
    requires next { IsNextInProgress place.now.names.items left.in_progress left.in_progress first }
    requires begun { first ≤ left.last + 1 }
    requires gap { H.told → HasGap place.now.names.items left.finalized left.last (2 ^ 63) }
    requires left { H.told → AreLeft (folder_at ((H.state host.old).reads place.now.dir.0) place.now.sub) place.now.version.layout place.now.names.items left.finalized left.in_progress left.last }
    ensures ok { H.told → IfOk result (λ then. IsPlayed (folder_at ((H.state host.old).reads place.now.dir.0) place.now.sub) place.now.version.layout place.now.names.items left then (T.meaning tree.old) (T.meaning tree.new)) }
    ensures further { IfOk result (λ then. then.left.ended ≡ false → GoesOn place.now.names.items left then) }
    ensures imaged { IsImaged (T.meaning tree.old) → IsImaged (T.meaning tree.new) }
    ensures cause { IfErr result (λ fault. (fault ≡ ChainFault.Failed) ⊎ (fault ≡ ChainFault.Memory)) }
    ensures kept { Looked H.told place.now.dir.0 (H.state host.old) (H.state host.new) (answered_chain result) }
    ensures any_moment { OnlyAt H.told place.now.dir.0 (H.state host.old) (H.state host.new) (λ d. d ≡ disk_at (H.state host.old) place.now.dir.0) }
{
    let segment = in_progress_segment(first, NO_ID);
    let reach = replay_file(alloc, host, place, &segment, left.last, tree)?;
    // Read, so that its range is known: below NO_ID.
    let _last = reach.last.0;
    Ok(Waiting {
        left: Left {
            finalized: left.finalized,
            in_progress: left.in_progress + 1,
            last: reach.last,
            ended: !reach.fit,
        },
        held: None,
    })
}

/// Replays the records of the first segment in progress that is left, which is this, up to the id `until`, behind which a
/// finalized one begins.
fn replay_part<H: Host, T: Tree>(
    alloc: Global,
    host: &mut H,
    place: &Place,
    first: FirstTxid,
    until: u64,
    left: Left,
    tree: &mut T,
) -> Result<Waiting, ChainFault>
    requires below { place.now.dir.0 < (H.state host.old).count }
    requires listed { H.told → IsListing ((H.state host.old).reads place.now.dir.0) place.now.sub place.now.names.items }
    requires inside { IsInside place.now.names.items left }
    requires next { IsNextInProgress place.now.names.items left.in_progress left.in_progress first }
    requires begun { first ≤ left.last + 1 }
    requires room { left.last < until }
    requires gap { H.told → HasGap place.now.names.items left.finalized left.last until }
    requires left { H.told → AreLeft (folder_at ((H.state host.old).reads place.now.dir.0) place.now.sub) place.now.version.layout place.now.names.items left.finalized left.in_progress left.last }
    ensures ok { H.told → IfOk result (λ then. IsPlayed (folder_at ((H.state host.old).reads place.now.dir.0) place.now.sub) place.now.version.layout place.now.names.items left then (T.meaning tree.old) (T.meaning tree.new)) }
    ensures further { IfOk result (λ then. then.left.ended ≡ false → GoesOn place.now.names.items left then) }
    ensures imaged { IsImaged (T.meaning tree.old) → IsImaged (T.meaning tree.new) }
    ensures cause { IfErr result (λ fault. (fault ≡ ChainFault.Failed) ⊎ (fault ≡ ChainFault.Memory)) }
    ensures kept { Looked H.told place.now.dir.0 (H.state host.old) (H.state host.new) (answered_chain result) }
    ensures any_moment { OnlyAt H.told place.now.dir.0 (H.state host.old) (H.state host.new) (λ d. d ≡ disk_at (H.state host.old) place.now.dir.0) }
{
    match hold(alloc, host, place, first)? {
        Some(held) => replay_held(alloc, place, held, until, left, tree),
        None => Ok(let_go(left)),
    }
}

/// The first segment in progress that is left has no further record.
fn let_go(left: Left) -> Waiting
    requires { left.in_progress + 1 < 2 ^ 64 }
    ensures { result ≡ record { left = record { finalized = left.finalized; in_progress = left.in_progress + 1; last = left.last; ended = false }; held = None } }
{
    Waiting {
        left: Left {
            finalized: left.finalized,
            in_progress: left.in_progress + 1,
            last: left.last,
            ended: false,
        },
        held: None,
    }
}

/// Replays the records of the segment in progress that is held, up to the id `until`. It is let go once its last record was
/// gone over.
fn replay_held<T: Tree>(
    alloc: Global,
    place: &Place,
    held: Held,
    until: u64,
    left: Left,
    tree: &mut T,
) -> Result<Waiting, ChainFault>
    requires inside { IsInside place.now.names.items left }
    requires stands { IsHeldAt place.now.names.items left (Some held) }
    requires room { left.last < until }
    ensures ok { (reads : Reads) → IsListing reads place.now.sub place.now.names.items → IsOf (folder_at reads place.now.sub) place.now.version.layout held → HasGap place.now.names.items left.finalized left.last until
        → AreLeft (folder_at reads place.now.sub) place.now.version.layout place.now.names.items left.finalized left.in_progress left.last
        → IfOk result (λ then. IsPlayed (folder_at reads place.now.sub) place.now.version.layout place.now.names.items left then (T.meaning tree.old) (T.meaning tree.new)) }
    ensures further { IfOk result (λ then. then.left.ended ≡ false → GoesOn place.now.names.items left then) }
    ensures imaged { IsImaged (T.meaning tree.old) → IsImaged (T.meaning tree.new) }
    ensures cause { IfErr result (λ fault. fault ≡ ChainFault.Memory) }
{
    let (reach, held) = held.replay(alloc, left.last, until, tree)?;
    if held.last.0 < held.next {
        return Ok(Waiting {
            left: Left {
                finalized: left.finalized,
                in_progress: left.in_progress + 1,
                last: reach.last,
                ended: !reach.fit,
            },
            held: None,
        });
    }
    Ok(Waiting {
        left: Left {
            finalized: left.finalized,
            in_progress: left.in_progress,
            last: reach.last,
            ended: !reach.fit,
        },
        held: Some(held),
    })
}

/// No further record comes.
fn ended(left: Left) -> Waiting
    ensures { result ≡ record { left = record { finalized = left.finalized; in_progress = left.in_progress; last = left.last; ended = true }; held = None } }
{
    Waiting {
        left: Left {
            finalized: left.finalized,
            in_progress: left.in_progress,
            last: left.last,
            ended: true,
        },
        held: None,
    }
}
