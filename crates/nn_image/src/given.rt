// Whether ids are among those that were given, and none was given twice.
ghost use Rattle.std.specs.Prelude.{◌↔◌, ◌≤◌, IsTrue, All};
ghost use Rattle.std.specs.List.Sorted.{IsStrictlyIncreasing};
ghost use Rattle.nn_tree.specs.Imaged.{AreGiven};

/// Whether each id is below the next.
fn rise(ids: &[u64]) -> bool
    ensures { IsTrue result ↔ IsStrictlyIncreasing ids.now }
{
    for i in 1..ids.len() {
        if ids[i] <= ids[i - 1] {
            return false;
        }
    }
    true
}

fn are_within(ids: &[u64], last: u64) -> bool
    ensures { IsTrue result ↔ All (λ id. id ≤ last) ids.now }
{
    ids.iter().all(|id| *id <= last)
}

/// Whether no id stands twice and none is above the last one given. It puts them in order, in place, as that takes no
/// memory.
pub(crate) fn are_given(ids: &mut Vec<u64>, last: u64) -> bool
    ensures { IsTrue result ↔ AreGiven ids.old.items last }
{
    ids.sort_unstable();
    let once = rise(ids);
    once && are_within(ids, last)
}
