// The marks of the folder that serves as current: VERSION and seen_txid.
ghost use Rattle.std.specs.Prelude.{◌≡◌, ◌≢◌, ◌<◌, ◌^◌, Some, IfOk, IfErr};
ghost use Rattle.nn_marks.specs.VersionFaults.{fault_of};
ghost use Rattle.nn_marks.specs.VersionText.{IsVersionText};
ghost use Rattle.nn_chain.specs.Folder.{folder_at, HasVersion};
ghost use Rattle.nn_choose.specs.Looking.{LookedBy};
ghost use Rattle.nn_choose.specs.Picking.{IsBadVersion, IsSeen, NeverMemory};

use nn_base::limits::MOST_VERSION;
use nn_base::{DirNo, FileName, Sub};
use nn_host::{Failed, Host};
use nn_marks::{Version, VersionFault, seen_read, version_read};
use nn_pick::{OpenFault, Refusal};
use nn_small::{ReadAll, read_all};
use std::alloc::Global;

/// What VERSION of this folder says.
pub fn version_at<H: Host>(
    alloc: Global,
    host: &mut H,
    i: DirNo,
    sub: Sub,
) -> Result<Version, OpenFault>
    requires { i.0 < (H.state host.old).count }
    ensures ok { H.told → IfOk result (HasVersion (folder_at ((H.state host.old).reads i.0) sub)) }
    ensures refused { H.told → IfErr result (IsBadVersion i (folder_at ((H.state host.old).reads i.0) sub)) }
    ensures memory { IfErr result NeverMemory }
    ensures kept { LookedBy H.told (H.state host.old) (H.state host.new) result }
{
    match read_all(alloc, host, i, sub, FileName::Version, MOST_VERSION as u64) {
        Ok(text) => said_in(i, &text),
        Err(ReadAll::Failed) => Err(OpenFault::Failed(i)),
        Err(ReadAll::Absent) => Err(faulty(i, VersionFault::NoFile)),
        Err(ReadAll::TooLarge(_)) => Err(faulty(i, VersionFault::TooLong)),
        Err(ReadAll::Memory) => Err(OpenFault::Memory),
    }
}

/// The id that `seen_txid` of this folder says, 0 where it is absent or doesn't read.
pub fn seen_at<H: Host>(host: &mut H, i: DirNo, sub: Sub) -> Result<u64, OpenFault>
    requires { i.0 < (H.state host.old).count }
    ensures ok { H.told → IfOk result (IsSeen (folder_at ((H.state host.old).reads i.0) sub)) }
    ensures small { IfOk result (λ seen. seen < 2 ^ 63) }
    ensures unrefused { IfErr result (λ fault. (refusal : _) → fault ≢ OpenFault.Refused refusal) }
    ensures kept { LookedBy H.told (H.state host.old) (H.state host.new) result }
{
    // More room than a number takes: a longer file doesn't look like one.
    let mut text = [0; 32];
    match host.read_at(i, sub, FileName::Seen, 0, &mut text) {
        Ok(len) => Ok(seen_read(&text[..len]).unwrap_or(0)),
        Err(Failed) => Err(OpenFault::Failed(i)),
    }
}

fn said_in(i: DirNo, text: &[u8]) -> Result<Version, OpenFault>
    ensures ok { IfOk result (IsVersionText text.now) }
    ensures err { IfErr result (λ why. (fault : _) × (why ≡ OpenFault.Refused (Refusal.BadVersion i fault)) × (fault_of text.now ≡ Some fault)) }
{
    match version_read(text) {
        Ok(version) => Ok(version),
        Err(fault) => Err(faulty(i, fault)),
    }
}

fn faulty(i: DirNo, fault: VersionFault) -> OpenFault
    ensures { result ≡ OpenFault.Refused (Refusal.BadVersion i fault) }
{
    OpenFault::Refused(Refusal::BadVersion(i, fault))
}
