// The format of all name directories.
ghost use Rattle.std.specs.Prelude.{◌≡◌, ◌≢◌, ◌⊎◌, None, OnOk, IfErr, IsErrOf};
ghost use Rattle.nn_base.specs.Limits.{program_layout};
ghost use Rattle.nn_host.specs.Runs.{Unspoken};
ghost use Rattle.nn_pick.specs.declared.fault.OpenFault.TheVariants as fault;
ghost use Rattle.nn_open.specs.Answers.{AllFresh, AllFormatted, IsRefused, EachFreshOrNew, EachAsBefore, StopsFreshOrOpen, IsCountedBy, first_unformattable};

use crate::make::make_all;
use crate::survey::survey;
use nn_arena::ArenaTree;
use nn_host::Host;
use nn_marks::Version;
use nn_pick::OpenFault;
use nn_tree::Tree;
use std::alloc::Global;

/// Makes a new namespace in each name directory, in order: `current` with an image of the empty namespace, `seen_txid` of the
/// id 0, and then VERSION. A `current` without VERSION, and `previous.checkpoint`, is removed first. All directories are
/// settled and looked at before that: the first that isn't NOT_FORMATTED refuses, and nothing is changed.
///
/// After `Failed` or `Memory` some directories may be formatted, and the others are not; formatting again needs them emptied
/// by hand.
///
/// Like Hadoop's `namenode -format`, without its `-force`: it asks nothing and removes no state.
pub fn format<H: Host>(alloc: Global, host: &mut H, version: &Version) -> Result<(), OpenFault>
    requires new { version.now.ctime ≡ 0 }
    requires layout { version.now.layout ≡ program_layout }
    ensures ok { H.told → OnOk result (AllFormatted version.now (H.state host.old) (H.state host.new)) }
    ensures refused { H.told → IfErr result (λ why. (refusal : _) → why ≡ OpenFault.Refused refusal → IsRefused refusal (H.state host.old) (H.state host.new)) }
    ensures memory { H.told → IsErrOf result fault.Memory → (H.state host.new ≡ H.state host.old) ⊎ AllFresh (H.state host.old) }
    ensures any_moment { AllFresh (H.state host.old) → EachFreshOrNew H.told version.now (H.state host.old) (H.state host.new) }
    ensures stops { H.told → AllFresh (H.state host.old) → StopsFreshOrOpen (H.state host.old) (H.state host.new) }
    ensures unchanged { first_unformattable (H.state host.old).reads (H.state host.old).count ≢ None → EachAsBefore H.told (H.state host.old) (H.state host.new) }
    ensures quiet { Unspoken H.told (H.state host.old) (H.state host.new) }
    ensures cause { IsCountedBy (H.state host.old) (H.state host.new) result }
{
    let Ok(tree) = ArenaTree::new(alloc) else {
        return Err(OpenFault::Memory);
    };
    if let Some(refusal) = survey(host)? {
        return Err(OpenFault::Refused(refusal));
    }
    make_all(alloc, host, &tree, version)
}
