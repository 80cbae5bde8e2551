// The image of one id in a folder, as it is read.
ghost use Rattle.std.specs.Prelude.{◌≡◌, ◌≢◌, ◌<◌, ◌≤◌, ℕ, List, OnOk, IfOk, IfErr, IfSome, IfNone, Some, length, unsigned_abs};
ghost use Rattle.hex.specs.Hex.{IsBytes};
ghost use Rattle.nn_base.specs.Limits.{most_image};
ghost use Rattle.nn_host.specs.Moments.{disk_at};
ghost use Rattle.nn_host.specs.Runs.{OnlyAt, Looked};
ghost use Rattle.nn_marks.specs.Digest.{md5_text_of};
ghost use Rattle.nn_tree.specs.Imaged.{IsImaged};
ghost use Rattle.nn_image.specs.Imaged.{IsImage};
ghost use Rattle.nn_chain.specs.Folder.{folder_at};
ghost use Rattle.nn_chain.specs.Images.{HasImage, IsIntact};
ghost use Rattle.nn_chain.specs.Reading.{answered, IsDigest, IsTold, IsToldAnyhow, IsToldOf, unloaded};

use crate::ImageWhy;
use md5::{Digest, Md5};
use nn_base::limits::MOST_IMAGE;
use nn_base::{DirNo, FileName, Sub, Txid};
use nn_host::{Failed, Host};
use nn_image::{ImageFault, Loaded, load};
use nn_marks::{Version, md5_read};
use nn_small::{ReadAll, read_all};
use nn_tree::Tree;
use std::alloc::Global;

/// The most bytes of an image file that is read: that of any namespace within the limits is shorter.
const MOST: u64 = MOST_IMAGE as u64;

/// Why an image wasn't read.
#[derive(Clone, Copy, Debug, PartialEq, Eq)]
pub enum ReadImage {
    /// A call of the host failed.
    Failed,
    /// It isn't intact.
    Unsound(ImageWhy),
    /// There was no memory for it: it may be intact. Never so where the image file is absent or too large, or its MD5 file
    /// isn't one.
    Memory,
}

impl From<Failed> for ReadImage {
    ghost use Rattle.nn_chain.specs.declared.image.ReadImage.TheVariants.{Failed};

    ghost from_gives = { λ _ answer. answer ≡ Failed };

    fn from(_: Failed) -> ReadImage {
        ReadImage::Failed
    }
}

impl From<ImageFault> for ReadImage {
    ghost from_gives = { λ fault answer. answer ≡ unloaded fault };

    fn from(fault: ImageFault) -> ReadImage {
        match fault {
            ImageFault::Memory => ReadImage::Memory,
            _ => ReadImage::Unsound(ImageWhy::Fault(fault)),
        }
    }
}

/// Reads the image of this id in a folder whose VERSION says `version`, if it is intact. Nothing is changed. The digest
/// is compared before the image is loaded: what damaged bytes may spell is never looked at.
///
/// For a while the bytes of the file and the tree are both in memory.
pub fn read_image<H: Host, T: Tree>(
    alloc: Global,
    host: &mut H,
    i: DirNo,
    sub: Sub,
    id: Txid,
    version: &Version,
) -> Result<T, ReadImage>
    requires { i.0 < (H.state host.old).count }
    ensures ok { H.told → IfOk result (λ tree. IsIntact (folder_at ((H.state host.old).reads i.0) sub) version.now id (T.meaning tree)) }
    ensures imaged { IfOk result (λ tree. IsImaged (T.meaning tree)) }
    ensures err { H.told → IfErr result (λ answer. IsTold (folder_at ((H.state host.old).reads i.0) sub) version.now id answer) }
    ensures memory { IfErr result (λ answer. answer ≢ ReadImage.Unsound (ImageWhy.Fault ImageFault.Memory)) }
    ensures kept { Looked H.told i.0 (H.state host.old) (H.state host.new) (answered result) }
    ensures any_moment { OnlyAt H.told i.0 (H.state host.old) (H.state host.new) (λ d. d ≡ disk_at (H.state host.old) i.0) }
{
    image_within(host, i, sub, id)?;
    // Before the image is read, so that no memory is asked for where it can't be intact.
    let Some(digest) = digest_in(host, i, sub, id)? else {
        return Err(ReadImage::Unsound(ImageWhy::Digest));
    };
    let bytes = image_bytes(alloc, host, i, sub, id)?;
    if Md5::digest(&bytes) == digest {
        load_as(alloc, &bytes, id, version)
    } else {
        Err(ReadImage::Unsound(ImageWhy::Digest))
    }
}

/// Whether there is an image file within its limit; if not, why.
fn image_within<H: Host>(host: &mut H, i: DirNo, sub: Sub, id: Txid) -> Result<(), ReadImage>
    requires { i.0 < (H.state host.old).count }
    ensures ok { H.told → OnOk result (HasImage (folder_at ((H.state host.old).reads i.0) sub) id (λ bytes. length bytes ≤ most_image)) }
    ensures err { H.told → IfErr result (λ answer. IsToldAnyhow (folder_at ((H.state host.old).reads i.0) sub) id answer) }
    ensures memory { IfErr result (λ answer. answer ≢ ReadImage.Unsound (ImageWhy.Fault ImageFault.Memory)) }
    ensures kept { Looked H.told i.0 (H.state host.old) (H.state host.new) (answered result) }
    ensures any_moment { OnlyAt H.told i.0 (H.state host.old) (H.state host.new) (λ d. d ≡ disk_at (H.state host.old) i.0) }
{
    if !host.has_file(i, sub, FileName::Image(id))? {
        return Err(ReadImage::Unsound(ImageWhy::Absent));
    }
    if host.size(i, sub, FileName::Image(id))? > MOST {
        return Err(ReadImage::Unsound(ImageWhy::Fault(ImageFault::TooLarge)));
    }
    Ok(())
}

/// The digest that the MD5 file has for the image of this id. None where it is absent, or isn't as it is written.
fn digest_in<H: Host>(
    host: &mut H,
    i: DirNo,
    sub: Sub,
    id: Txid,
) -> Result<Option<[u8; 16]>, ReadImage>
    requires { i.0 < (H.state host.old).count }
    ensures ok { H.told → IfOk result (λ found. IsDigest (folder_at ((H.state host.old).reads i.0) sub) id found) }
    ensures err { IfErr result (λ answer. answer ≡ ReadImage.Failed) }
    ensures kept { Looked H.told i.0 (H.state host.old) (H.state host.new) (answered result) }
    ensures any_moment { OnlyAt H.told i.0 (H.state host.old) (H.state host.new) (λ d. d ≡ disk_at (H.state host.old) i.0) }
{
    // More room than an MD5 file takes: a longer file doesn't look like one.
    let mut text = [0; 80];
    let len = host.read_at(i, sub, FileName::Md5(id), 0, &mut text)?;
    Ok(digest_of(&text[..len], id))
}

/// The digest that a text of an MD5 file has, if it names the image of this id.
fn digest_of(text: &[u8], id: Txid) -> Option<[u8; 16]>
    ensures some { IfSome result (λ digest. (length digest ≡ 16) × IsBytes digest × (text.now ≡ md5_text_of digest id)) }
    ensures none { IfNone result ((digest : List ℕ) → length digest ≡ 16 → IsBytes digest → text.now ≢ md5_text_of digest id) }
{
    let (digest, of) = md5_read(text)?;
    if of == id { Some(digest) } else { None }
}

/// The bytes of the image file.
fn image_bytes<H: Host>(
    alloc: Global,
    host: &mut H,
    i: DirNo,
    sub: Sub,
    id: Txid,
) -> Result<Vec<u8>, ReadImage>
    requires { i.0 < (H.state host.old).count }
    ensures ok { H.told → IfOk result (λ bytes. folder_at ((H.state host.old).reads i.0) sub (FileName.Image id) ≡ Some bytes.items) }
    ensures small { IfOk result (λ bytes. length bytes.items ≤ most_image) }
    ensures err { H.told → IfErr result (λ answer. answer ≢ ReadImage.Memory → IsToldAnyhow (folder_at ((H.state host.old).reads i.0) sub) id answer) }
    ensures memory { IfErr result (λ answer. answer ≢ ReadImage.Unsound (ImageWhy.Fault ImageFault.Memory)) }
    ensures kept { Looked H.told i.0 (H.state host.old) (H.state host.new) (answered result) }
    ensures any_moment { OnlyAt H.told i.0 (H.state host.old) (H.state host.new) (λ d. d ≡ disk_at (H.state host.old) i.0) }
{
    match read_all(alloc, host, i, sub, FileName::Image(id), MOST) {
        Ok(bytes) => Ok(bytes),
        Err(ReadAll::Failed) => Err(ReadImage::Failed),
        Err(ReadAll::Absent) => Err(ReadImage::Unsound(ImageWhy::Absent)),
        Err(ReadAll::TooLarge(_)) => {
            Err(ReadImage::Unsound(ImageWhy::Fault(ImageFault::TooLarge)))
        }
        Err(ReadAll::Memory) => Err(ReadImage::Memory),
    }
}

/// The namespace of these bytes, if they are the image of this id under what VERSION says.
fn load_as<T: Tree>(
    alloc: Global,
    bytes: &[u8],
    id: Txid,
    version: &Version,
) -> Result<T, ReadImage>
    ensures ok { IfOk result (λ tree. IsImage bytes.now (T.meaning tree) id version.now.namespace (unsigned_abs version.now.layout)) }
    ensures err { IfErr result (λ answer. IsToldOf bytes.now version.now id answer) }
{
    let Loaded {
        tree,
        id: inner,
        namespace,
    } = load(alloc, bytes, version.layout)?;
    if inner != id {
        return Err(ReadImage::Unsound(ImageWhy::Named));
    }
    if namespace != version.namespace {
        return Err(ReadImage::Unsound(ImageWhy::Named));
    }
    Ok(tree)
}
