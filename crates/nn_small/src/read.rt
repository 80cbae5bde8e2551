// Reading a file whole.
ghost use Rattle.std.specs.Prelude.{◌≡◌, ◌≢◌, ◌⊎◌, ◌<◌, ◌≤◌, ℕ, Ok, Err, IfOk, IfErr, IsErrOf, length, vec_len};
ghost use Rattle.nn_host.specs.Listing.{bytes_of};
ghost use Rattle.nn_host.specs.Moments.{disk_at};
ghost use Rattle.nn_host.specs.Runs.{OnlyAt, Looked};
ghost use Rattle.nn_small.specs.Whole.{FitsLimit, answered, whole_of};

use nn_base::{DirNo, FileName, Sub};
use nn_host::{Failed, Host};
use std::alloc::{AllocError, Global};

/// Why a file wasn't read whole.
#[derive(Clone, Copy, Debug, PartialEq, Eq)]
pub enum ReadAll {
    /// A call of the host failed.
    Failed,
    /// There is no such file.
    Absent,
    /// The file has so many bytes, more than the limit.
    TooLarge(u64),
    /// There was no memory for the bytes.
    Memory,
}

impl From<Failed> for ReadAll {
    ghost use Rattle.nn_small.specs.declared.read.ReadAll.TheVariants.{Failed};

    ghost from_gives = { λ _ fault. fault ≡ Failed };

    fn from(_: Failed) -> ReadAll {
        ReadAll::Failed
    }
}

impl From<AllocError> for ReadAll {
    ghost use Rattle.nn_small.specs.declared.read.ReadAll.TheVariants.{Memory};

    ghost from_gives = { λ _ fault. fault ≡ Memory };

    fn from(_: AllocError) -> ReadAll {
        ReadAll::Memory
    }
}

/// All bytes of the file, which are at most `limit`. It changes nothing, and reserves as much memory as the file has
/// bytes, once it is known that the limit allows them.
///
/// A file that has lost bytes since its size was asked, which no host that tells does, reads as what is left of it.
pub fn read_all<H: Host>(
    alloc: Global,
    host: &mut H,
    i: DirNo,
    sub: Sub,
    name: FileName,
    limit: u64,
) -> Result<Vec<u8>, ReadAll>
    requires { i.0 < (H.state host.old).count }
    ensures ok { H.told → IfOk result (λ bytes. whole_of limit (((H.state host.old).reads i.0).file sub name) ≡ Ok bytes.items) }
    ensures err { H.told → IfErr result (λ fault. fault ≢ ReadAll.Failed → fault ≢ ReadAll.Memory → whole_of limit (((H.state host.old).reads i.0).file sub name) ≡ Err fault) }
    ensures memory { H.told → IsErrOf result ReadAll.Memory → FitsLimit limit (((H.state host.old).reads i.0).file sub name) }
    ensures within { IfOk result (λ bytes. vec_len bytes ≤ limit) }
    ensures above { IfErr result (λ fault. (size : ℕ) → fault ≡ ReadAll.TooLarge size → limit < size) }
    ensures kept { Looked H.told i.0 (H.state host.old) (H.state host.new) (answered result) }
    ensures any_moment { OnlyAt H.told i.0 (H.state host.old) (H.state host.new) (λ d. d ≡ disk_at (H.state host.old) i.0) }
{
    // Lent, since it is passed more than once.
    let file = &name;
    if !host.has_file(i, sub, *file)? {
        return Err(ReadAll::Absent);
    }
    let size = host.size(i, sub, *file)?;
    if size > limit {
        return Err(ReadAll::TooLarge(size));
    }
    read_front(alloc, host, i, sub, *file, size)
}

// All bytes of a file of this size.
fn read_front<H: Host>(
    alloc: Global,
    host: &mut H,
    i: DirNo,
    sub: Sub,
    name: FileName,
    size: u64,
) -> Result<Vec<u8>, ReadAll>
    requires below { i.0 < (H.state host.old).count }
    requires size { H.told → size ≡ length (bytes_of (((H.state host.old).reads i.0).file sub name)) }
    ensures ok { H.told → IfOk result (λ bytes. bytes.items ≡ bytes_of (((H.state host.old).reads i.0).file sub name)) }
    ensures err { IfErr result (λ fault. (fault ≡ ReadAll.Failed) ⊎ (fault ≡ ReadAll.Memory)) }
    ensures within { IfOk result (λ bytes. vec_len bytes ≤ size) }
    ensures kept { Looked H.told i.0 (H.state host.old) (H.state host.new) (answered result) }
    ensures any_moment { OnlyAt H.told i.0 (H.state host.old) (H.state host.new) (λ d. d ≡ disk_at (H.state host.old) i.0) }
{
    let mut bytes = vec![in alloc; 0; size as usize]?;
    let count = host.read_at(i, sub, name, 0, &mut bytes)?;
    bytes.truncate(count);
    Ok(bytes)
}
