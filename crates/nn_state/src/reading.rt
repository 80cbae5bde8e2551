// Reading the seven truth values of a directory.
ghost use Rattle.std.specs.Prelude.{◌≡◌, ◌<◌, IfOk, OnOk, is_ok};
ghost use Rattle.nn_host.specs.Moments.{disk_at, moment};
ghost use Rattle.nn_host.specs.Runs.{Looked, OnlyAt};
ghost use Rattle.nn_state.specs.Table.{seven_of};

use crate::Seven;
use nn_base::{DirNo, FileName, Sub};
use nn_host::{Failed, Host};

/// The seven truth values of directory `i`, as its contents read. It changes nothing, and answers nothing that it hasn't asked
/// the host for.
///
/// `Failed` where a call on this directory failed.
pub fn look<H: Host>(host: &mut H, i: DirNo) -> Result<Seven, Failed>
    requires { i.0 < (H.state host.old).count }
    ensures ok { H.told → IfOk result (λ seven. seven ≡ seven_of ((H.state host.old).reads i.0)) }
    ensures kept { Looked H.told i.0 (H.state host.old) (H.state host.new) (is_ok result) }
    ensures any_moment { OnlyAt H.told i.0 (H.state host.old) (H.state host.new) (λ d. d ≡ disk_at (H.state host.old) i.0) }
    ensures asked { H.told → OnOk result (moment (H.state host.old) < moment (H.state host.new)) }
{
    let root = host.has_root(i)?;
    let current = host.has_file(i, Sub::Current, FileName::Version)?;
    let previous = host.has_sub(i, Sub::Previous)?;
    let under_way = look_under_way(host, i)?;
    Ok(Seven {
        root,
        current,
        previous,
        previous_tmp: under_way.upgrade,
        removed_tmp: under_way.rollback,
        finalized_tmp: under_way.finalize,
        last_checkpoint_tmp: under_way.import,
    })
}

// What is under way, by the temporary folder of each operation.
#[derive(Clone, Copy)]
struct UnderWay {
    upgrade: bool,
    rollback: bool,
    finalize: bool,
    import: bool,
}

fn look_under_way<H: Host>(host: &mut H, i: DirNo) -> Result<UnderWay, Failed>
    requires { i.0 < (H.state host.old).count }
    ensures upgrade { H.told → IfOk result (λ it. it.upgrade ≡ (seven_of ((H.state host.old).reads i.0)).previous_tmp) }
    ensures rollback { H.told → IfOk result (λ it. it.rollback ≡ (seven_of ((H.state host.old).reads i.0)).removed_tmp) }
    ensures finalize { H.told → IfOk result (λ it. it.finalize ≡ (seven_of ((H.state host.old).reads i.0)).finalized_tmp) }
    ensures import { H.told → IfOk result (λ it. it.import ≡ (seven_of ((H.state host.old).reads i.0)).last_checkpoint_tmp) }
    ensures kept { Looked H.told i.0 (H.state host.old) (H.state host.new) (is_ok result) }
    ensures any_moment { OnlyAt H.told i.0 (H.state host.old) (H.state host.new) (λ d. d ≡ disk_at (H.state host.old) i.0) }
{
    let upgrade = host.has_sub(i, Sub::PreviousTmp)?;
    let rollback = host.has_sub(i, Sub::RemovedTmp)?;
    let finalize = host.has_sub(i, Sub::FinalizedTmp)?;
    let import = host.has_sub(i, Sub::LastCheckpointTmp)?;
    Ok(UnderWay {
        upgrade,
        rollback,
        finalize,
        import,
    })
}
