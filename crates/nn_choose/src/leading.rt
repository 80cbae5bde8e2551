// The directories of the greatest cTime.
ghost use Rattle.std.specs.Prelude.{◌≡◌, ◌≢◌, ◌↔◌, ◌+◌, ◌<◌, ◌≤◌, true, length, Some, IfSome, IfNone};
ghost use Rattle.nn_base.specs.DirSets.{has};
ghost use Rattle.nn_base.specs.Limits.{most_dirs};
ghost use Rattle.nn_pick.specs.Dirs.{Dirs};
ghost use Rattle.nn_choose.specs.Served.{AreServed, IsLeadBelow, AreOfCtime, served_at as served_in};
ghost use Rattle.nn_choose.specs.Picking.{IsAhead};

use crate::served::{Lead, Served, served_at};
use nn_base::{DirNo, DirSet};

/// The lowest directory of the greatest cTime. None where none is formatted.
pub fn lead_of(served: &[Option<Served>]) -> Option<Lead>
    requires { length served.now ≤ most_dirs }
    ensures { IsLeadBelow served.now (length served.now) result }
{
    let mut lead = None;
    for i in 0..served.len() {
        lead = lead_to(served, i, lead);
    }
    lead
}

/// The one that leads with this directory too.
fn lead_to(served: &[Option<Served>], i: usize, lead: Option<Lead>) -> Option<Lead>
    requires few { length served.now ≤ most_dirs }
    requires below { i < length served.now }
    requires lead { IsLeadBelow served.now i lead }
    ensures { IsLeadBelow served.now (i + 1) result }
{
    let Some(it) = served_at(served, i) else {
        return lead;
    };
    match lead {
        Some(before) if it.version.ctime <= before.served.version.ctime => Some(before),
        _ => Some(Lead {
            dir: DirNo(i as u8),
            served: it,
        }),
    }
}

/// The directories of the greatest cTime.
pub fn ahead(served: &[Option<Served>]) -> DirSet
    requires { length served.now ≤ most_dirs }
    ensures ahead { (dirs : Dirs) → AreServed dirs served.now → (i : _) → (has result i ≡ true) ↔ IsAhead dirs i }
    ensures within { (i : _) → has result i ≡ true → i < length served.now }
{
    match lead_of(served) {
        Some(lead) => with_ctime(served, lead.served.version.ctime),
        None => DirSet::none(),
    }
}

/// The directories of this cTime.
fn with_ctime(served: &[Option<Served>], ctime: u64) -> DirSet
    requires { length served.now ≤ most_dirs }
    ensures { AreOfCtime served.now ctime (length served.now) (has result) }
{
    let mut set = DirSet::none();
    for i in 0..served.len() {
        let Some(_) = at_ctime(served, DirNo(i as u8), ctime) else {
            continue;
        };
        set = set.with(DirNo(i as u8));
    }
    set
}

/// What serves in this directory, where it is of this cTime.
pub fn at_ctime(served: &[Option<Served>], i: DirNo, ctime: u64) -> Option<Served>
    requires { i.0 < length served.now }
    ensures some { IfSome result (λ it. (served_in served.now i.0 ≡ Some it) × (it.version.ctime ≡ ctime)) }
    ensures none { IfNone result ((it : _) → served_in served.now i.0 ≡ Some it → it.version.ctime ≢ ctime) }
{
    let it = served_at(served, usize::from(i.0))?;
    if it.version.ctime == ctime {
        return Some(it);
    }
    None
}
