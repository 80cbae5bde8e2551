// Looking at all directories before any of them is changed.
ghost use Rattle.std.specs.Prelude.{◌≡◌, ◌⊎◌, ◌<◌, ℕ, OnOk, IfOk, MatchResult};
ghost use Rattle.nn_host.specs.Moments.{disk_at};
ghost use Rattle.nn_host.specs.Calls.{IsCounted};
ghost use Rattle.nn_host.specs.Runs.{OnlyAt, RoseAt, SameCounts, Unspoken};
ghost use Rattle.nn_state.specs.Table.{seven_of, table_of};
ghost use Rattle.nn_pick.specs.Refused.{unformattable as unformattable_at};
ghost use Rattle.nn_open.specs.Answers.{first_unformattable, settled_disk, EachAsBefore};

use crate::fault::FailedAt;
use nn_base::DirNo;
use nn_host::{Failed, Host};
use nn_pick::{Refusal, earlier, unformattable};
use nn_state::{look, table};

/// Settles each directory and looks at it, all of them in order, and tells the first refusal.
pub fn survey<H: Host>(host: &mut H) -> Result<Option<Refusal>, FailedAt>
    ensures value { H.told → IfOk result (λ first. first ≡ first_unformattable (H.state host.old).reads (H.state host.old).count) }
    ensures kept { H.told → OnOk result ((j : ℕ) → (H.state host.new).reads j ≡ (H.state host.old).reads j) }
    ensures settled { H.told → OnOk result ((j : ℕ) → j < (H.state host.old).count → disk_at (H.state host.new) j ≡ settled_disk (H.state host.old) j) }
    ensures any_moment { EachAsBefore H.told (H.state host.old) (H.state host.new) }
    ensures quiet { Unspoken H.told (H.state host.old) (H.state host.new) }
    ensures cause { MatchResult result (λ _. SameCounts (H.state host.old) (H.state host.new)) (λ at. RoseAt at.0.0 (H.state host.old) (H.state host.new)) }
{
    let mut first = None;
    for i in 0..host.count() {
        match survey_dir(host, DirNo(i)) {
            Ok(refusal) => first = earlier(first, refusal),
            Err(Failed) => return Err(FailedAt(DirNo(i))),
        }
    }
    Ok(first)
}

// Settled first: what is seen of it is then what a stop leaves.
fn survey_dir<H: Host>(host: &mut H, i: DirNo) -> Result<Option<Refusal>, Failed>
    requires { i.0 < (H.state host.old).count }
    ensures value { H.told → IfOk result (λ refusal. refusal ≡ unformattable_at i.0 (table_of (seven_of ((H.state host.old).reads i.0)))) }
    ensures kept { H.told → OnOk result ((H.state host.new).reads i.0 ≡ (H.state host.old).reads i.0) }
    ensures settled { H.told → OnOk result (disk_at (H.state host.new) i.0 ≡ settled_disk (H.state host.old) i.0) }
    ensures any_moment { OnlyAt H.told i.0 (H.state host.old) (H.state host.new) (λ d. (d ≡ disk_at (H.state host.old) i.0) ⊎ (d ≡ settled_disk (H.state host.old) i.0)) }
    ensures cause { IsCounted i.0 (H.state host.old) (H.state host.new) result }
{
    host.settle(i)?;
    let seven = look(host, i)?;
    Ok(unformattable(i, table(seven)))
}
