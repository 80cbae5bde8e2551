// VERSIONs that don't go together, or that this program doesn't read.
ghost use Rattle.std.specs.Prelude.{◌≡◌, ◌<◌, ◌≤◌, length, IfSome, IfNone};
ghost use Rattle.nn_base.specs.Limits.{most_dirs};
ghost use Rattle.nn_pick.specs.declared.fault.OpenFault.TheVariants.{Refused};
ghost use Rattle.nn_pick.specs.Refused.{first_refused};
ghost use Rattle.nn_pick.specs.Refusing.{first_difference};
ghost use Rattle.nn_choose.specs.Served.{IsFirstOf, mismatch_in, future_in, foreign_in, served_at as served_in};
ghost use Rattle.nn_choose.specs.Picking.{IsClash, NoClash, NeverMemory};

use crate::served::{Lead, Served, served_at};
use nn_base::DirNo;
use nn_base::limits::LAYOUT;
use nn_marks::{Key, Version};
use nn_pick::Refusal;

/// Why these VERSIONs, each in the place of its directory, can't be opened together: two are of different clusters, or one
/// has a layout that isn't this program's.
pub fn clash(served: &[Option<Served>]) -> Option<Refusal>
    requires { length served.now ≤ most_dirs }
    ensures some { IfSome result (IsClash served.now) }
    ensures none { IfNone result (NoClash served.now) }
    ensures memory { IfSome result (λ refusal. NeverMemory (Refused refusal)) }
{
    let first = first_served(served)?;
    if let Some(refusal) = mismatch(served, &first) {
        return Some(refusal);
    }
    if let Some(refusal) = future(served) {
        return Some(refusal);
    }
    foreign(served)
}

/// The lowest formatted directory.
fn first_served(served: &[Option<Served>]) -> Option<Lead>
    requires { length served.now ≤ most_dirs }
    ensures { IsFirstOf served.now result }
{
    for i in 0..served.len() {
        if let Some(it) = served_at(served, i) {
            return Some(Lead {
                dir: DirNo(i as u8),
                served: it,
            });
        }
    }
    None
}

/// The lowest directory that isn't of the same cluster as the lowest formatted one.
fn mismatch(served: &[Option<Served>], first: &Lead) -> Option<Refusal>
    requires { length served.now ≤ most_dirs }
    ensures { result ≡ first_refused (λ i. mismatch_in first.now i (served_in served.now i)) (length served.now) }
{
    for i in 0..served.len() {
        let refusal = mismatch_at(first, DirNo(i as u8), served_at(served, i));
        if refusal.is_some() {
            return refusal;
        }
    }
    None
}

fn mismatch_at(first: &Lead, dir: DirNo, it: Option<Served>) -> Option<Refusal>
    ensures { result ≡ mismatch_in first.now dir.0 it }
{
    let key = difference(&first.served.version, &it?.version)?;
    Some(Refusal::Mismatch {
        first: first.dir,
        dir,
        key,
    })
}

/// The first key by which two VERSIONs are of different clusters.
fn difference(a: &Version, b: &Version) -> Option<Key>
    ensures { result ≡ first_difference a.now b.now }
{
    if a.namespace != b.namespace {
        return Some(Key::NamespaceId);
    }
    if a.cluster != b.cluster {
        return Some(Key::ClusterId);
    }
    if a.blockpool != b.blockpool {
        return Some(Key::BlockpoolId);
    }
    None
}

/// The lowest directory of a layout that is newer than this program.
fn future(served: &[Option<Served>]) -> Option<Refusal>
    requires { length served.now ≤ most_dirs }
    ensures { result ≡ first_refused (λ i. future_in i (served_in served.now i)) (length served.now) }
{
    for i in 0..served.len() {
        let refusal = future_at(DirNo(i as u8), served_at(served, i));
        if refusal.is_some() {
            return refusal;
        }
    }
    None
}

fn future_at(i: DirNo, it: Option<Served>) -> Option<Refusal>
    ensures { result ≡ future_in i.0 it }
{
    let found = it?.version.layout;
    if found < LAYOUT {
        return Some(Refusal::FutureLayout(i, found));
    }
    None
}

/// The lowest directory of an older layout, of which this program reads none.
fn foreign(served: &[Option<Served>]) -> Option<Refusal>
    requires { length served.now ≤ most_dirs }
    ensures { result ≡ first_refused (λ i. foreign_in i (served_in served.now i)) (length served.now) }
{
    for i in 0..served.len() {
        let refusal = foreign_at(DirNo(i as u8), served_at(served, i));
        if refusal.is_some() {
            return refusal;
        }
    }
    None
}

fn foreign_at(i: DirNo, it: Option<Served>) -> Option<Refusal>
    ensures { result ≡ foreign_in i.0 it }
{
    let found = it?.version.layout;
    if LAYOUT < found {
        return Some(Refusal::ForeignLayout(i, found));
    }
    None
}
