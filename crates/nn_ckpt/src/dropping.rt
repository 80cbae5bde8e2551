// Directories in which calls have failed, dropped.
ghost use Rattle.std.specs.Prelude.{◌≡◌, ◌+◌, ◌*◌, ◌<◌, ◌≤◌, ◌^◌, ℕ, true, false, [], OnOk, OnErr};
ghost use Rattle.nn_base.specs.DirSets.{has, count_of};
ghost use Rattle.nn_journal.specs.Places.{IsFit, place_of};
ghost use Rattle.nn_journal.specs.Rolling.{DropsAhead};
ghost use Rattle.nn_ckpt.specs.Each.{DropsFailed};

use nn_base::DirSet;
use nn_host::Host;
use nn_journal::{JournalSet, NoneLeft};

/// Drops these directories, in which calls have failed, so that each of them ranks strictly below those that are left. They aren't
/// touched. Where there are none, nothing is done.
pub(crate) fn drop_failed<H: Host>(
    host: &mut H,
    journal: &mut JournalSet,
    failed: DirSet,
) -> Result<(), NoneLeft>
    requires below { (j : ℕ) → has journal.old.live j ≡ true → j < (H.state host.old).count }
    requires live { (j : ℕ) → has failed j ≡ true → has journal.old.live j ≡ true }
    requires empty { journal.old.buffer.items ≡ [] }
    requires fit { IsFit journal.old }
    requires ids { journal.old.last + 64 < 2 ^ 63 }
    ensures drops { DropsFailed H.told failed journal.old journal.new (H.state host.old) (H.state host.new) }
    ensures onward { journal.old.last ≤ journal.new.last }
    ensures last { journal.new.last + 2 * count_of journal.new.live ≤ journal.old.last + 2 * count_of journal.old.live }
    ensures left { OnErr result ((j : ℕ) → has journal.new.live j ≡ false) }
    ensures some { OnOk result ((j : ℕ) × (has journal.old.live j ≡ true) → (j : ℕ) × (has journal.new.live j ≡ true)) }
    ensures kept { (journal.new.holders ≡ journal.old.holders) × (journal.new.header ≡ journal.old.header) × (journal.new.going ≡ journal.old.going) × (journal.new.buffer.items ≡ []) × IsFit journal.new }
    ensures below { (j : ℕ) → has journal.new.live j ≡ true → j < (H.state host.new).count }
{
    if failed.is_empty() {
        return Ok(());
    }
    journal.drop_dirs(host, failed)
}
