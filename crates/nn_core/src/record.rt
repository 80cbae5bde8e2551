// The durable part of an event.
ghost use Rattle.std.specs.Prelude.{◌≡◌, ◌+◌, ◌*◌, ◌<◌, ◌≤◌, ◌^◌, OnErr, OnOk, false, true, ℕ, vec_len};
ghost use Rattle.nn_base.specs.DirSets.{has, count_of};
ghost use Rattle.nn_base.specs.Limits.{most_record};
ghost use Rattle.nn_host.specs.Moments.{moment};
ghost use Rattle.nn_record.specs.Ops.{IsOp};
ghost use Rattle.nn_journal.specs.Places.{Went, full_segment};
ghost use Rattle.nn_core.specs.Ready.{IsReady};
ghost use Rattle.nn_core.specs.Standing.{Logs, Rolls};

use nn_host::Host;
use nn_journal::{JournalSet, NoneLeft};
use nn_record::Op;

/// Logs the record of a command, and syncs it in each live directory.
pub(crate) fn write_record<H: Host>(
    journal: &mut JournalSet,
    host: &mut H,
    op: &Op,
) -> Result<(), NoneLeft>
    requires ready { IsReady journal.old (H.state host.old).count (H.state host.old) }
    requires ids { journal.old.last + 128 < 2 ^ 63 }
    requires op { IsOp op.now }
    ensures logs { Logs H.told op.now journal.old journal.new (H.state host.old) (H.state host.new) }
    ensures went { Went H.told journal.old.live journal.new.live (H.state host.old) (H.state host.new) }
    ensures ready { IsReady journal.new (H.state host.old).count (H.state host.new) }
    ensures last { journal.new.last + 2 * count_of journal.new.live ≤ journal.old.last + 3 + 2 * count_of journal.old.live }
    ensures calls { H.told → journal.new.live ≡ journal.old.live → journal.old.size + most_record ≤ full_segment →
        moment (H.state host.new) ≤ moment (H.state host.old) + 2 * count_of journal.old.live }
    ensures adds { journal.new.live ≡ journal.old.live → journal.old.size + most_record ≤ full_segment → (journal.new.last ≡ journal.old.last + 1) × (journal.new.first ≡ journal.old.first) }
    ensures left { OnErr result ((j : ℕ) → has journal.new.live j ≡ false) }
    ensures some { OnOk result ((j : ℕ) × (has journal.new.live j ≡ true)) }
{
    journal.log(op);
    journal.sync(host)
}

/// Ends the segment in progress and begins the next, in each live directory.
pub(crate) fn roll_segment<H: Host>(journal: &mut JournalSet, host: &mut H) -> Result<(), NoneLeft>
    requires ready { IsReady journal.old (H.state host.old).count (H.state host.old) }
    requires ids { journal.old.last + 128 < 2 ^ 63 }
    ensures rolls { Rolls H.told journal.old journal.new (H.state host.old) (H.state host.new) }
    ensures went { Went H.told journal.old.live journal.new.live (H.state host.old) (H.state host.new) }
    ensures ready { IsReady journal.new (H.state host.old).count (H.state host.new) }
    ensures begins { (journal.new.first ≡ journal.new.last) }
    ensures last { journal.new.last + 2 * count_of journal.new.live ≤ journal.old.last + 3 + 2 * count_of journal.old.live }
    ensures left { OnErr result ((j : ℕ) → has journal.new.live j ≡ false) }
    ensures some { OnOk result ((j : ℕ) × (has journal.new.live j ≡ true)) }
{
    journal.roll(host)
}

/// Ends the segment in progress, in each live directory.
pub(crate) fn close_segment<H: Host>(journal: &mut JournalSet, host: &mut H) -> Result<(), NoneLeft>
    requires ready { IsReady journal.old (H.state host.old).count (H.state host.old) }
    requires ids { journal.old.last + 128 < 2 ^ 63 }
    ensures rolls { Rolls H.told journal.old journal.new (H.state host.old) (H.state host.new) }
    ensures went { Went H.told journal.old.live journal.new.live (H.state host.old) (H.state host.new) }
    ensures closed { journal.new.going ≡ false }
    ensures left { OnErr result ((j : ℕ) → has journal.new.live j ≡ false) }
    ensures some { OnOk result ((j : ℕ) × (has journal.new.live j ≡ true)) }
{
    journal.end_segment(host)
}
