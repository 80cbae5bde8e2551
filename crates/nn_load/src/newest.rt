// The newest intact image of a folder.
ghost use Rattle.std.specs.Prelude.{◌≡◌, ◌≢◌, ◌<◌, ◌≤◌, length, IfOk, IfErr, IfSome, IfNone};
ghost use Rattle.nn_host.specs.Listing.{IsListing};
ghost use Rattle.nn_host.specs.Moments.{disk_at};
ghost use Rattle.nn_host.specs.Runs.{OnlyAt, Looked};
ghost use Rattle.nn_tree.specs.Imaged.{IsImaged};
ghost use Rattle.nn_chain.specs.Folder.{folder_at};
ghost use Rattle.nn_chain.specs.Images.{IsLastUnsound};
ghost use Rattle.nn_chain.specs.Reading.{answered};
ghost use Rattle.nn_load.specs.Loading.{answered_chain, IsUnchained};
ghost use Rattle.nn_load.specs.Newest.{HasNoImages, IsLastBefore, NoneIntactFrom, IsNewestOf, IsPassedOver};

use crate::ChainFault;
use crate::segment::Place;
use nn_base::{FileName, Txid};
use nn_chain::{ImageWhy, ReadImage, read_image};
use nn_host::Host;
use nn_image::{ImageFault, Loaded};
use nn_tree::Tree;
use std::alloc::Global;

/// Reads the newest intact image of a folder whose files these are. Those of greater ids are looked at before it, and none
/// of smaller ones.
pub(crate) fn newest_image<H: Host, T: Tree>(
    alloc: Global,
    host: &mut H,
    place: &Place,
) -> Result<Loaded<T>, ChainFault>
    requires below { place.now.dir.0 < (H.state host.old).count }
    requires listed { H.told → IsListing ((H.state host.old).reads place.now.dir.0) place.now.sub place.now.names.items }
    ensures ok { H.told → IfOk result (λ it. IsNewestOf (folder_at ((H.state host.old).reads place.now.dir.0) place.now.sub) place.now.version it.id (T.meaning it.tree)) }
    ensures imaged { IfOk result (λ it. IsImaged (T.meaning it.tree)) }
    ensures named { IfOk result (λ it. it.namespace ≡ place.now.version.namespace) }
    ensures none { H.told → IfErr result (λ fault. IsUnchained (folder_at ((H.state host.old).reads place.now.dir.0) place.now.sub) place.now.version fault) }
    ensures memory { IfErr result (λ fault. fault ≢ ChainFault.NoImage (ImageWhy.Fault ImageFault.Memory)) }
    ensures kept { Looked H.told place.now.dir.0 (H.state host.old) (H.state host.new) (answered_chain result) }
    ensures any_moment { OnlyAt H.told place.now.dir.0 (H.state host.old) (H.state host.new) (λ d. d ≡ disk_at (H.state host.old) place.now.dir.0) }
{
    let Some((k, id)) = last_image(place, place.names.len()) else {
        return Err(ChainFault::NoImage(ImageWhy::Absent));
    };
    match image_before(alloc, host, place, place.names.len(), k, id) {
        Ok(it) => Ok(it),
        Err(ReadImage::Unsound(why)) => older_image(alloc, host, place, k, why),
        Err(ReadImage::Failed) => Err(ChainFault::Failed),
        Err(ReadImage::Memory) => Err(ChainFault::Memory),
    }
}

/// Reads the last image that stands before `end`: where it is intact, it is the newest, if none from `end` on is.
fn image_before<H: Host, T: Tree>(
    alloc: Global,
    host: &mut H,
    place: &Place,
    end: usize,
    k: usize,
    id: Txid,
) -> Result<Loaded<T>, ReadImage>
    requires below { place.now.dir.0 < (H.state host.old).count }
    requires last { IsLastBefore place.now.names.items end k id }
    requires listed { H.told → IsListing ((H.state host.old).reads place.now.dir.0) place.now.sub place.now.names.items }
    requires none { H.told → NoneIntactFrom (folder_at ((H.state host.old).reads place.now.dir.0) place.now.sub) place.now.version place.now.names.items end }
    ensures ok { H.told → IfOk result (λ it. IsNewestOf (folder_at ((H.state host.old).reads place.now.dir.0) place.now.sub) place.now.version it.id (T.meaning it.tree)) }
    ensures imaged { IfOk result (λ it. IsImaged (T.meaning it.tree)) }
    ensures named { IfOk result (λ it. it.namespace ≡ place.now.version.namespace) }
    ensures memory { IfErr result (λ answer. answer ≢ ReadImage.Unsound (ImageWhy.Fault ImageFault.Memory)) }
    ensures err { H.told → IfErr result (λ answer. IsPassedOver (folder_at ((H.state host.old).reads place.now.dir.0) place.now.sub) place.now.version place.now.names.items end k answer) }
    ensures kept { Looked H.told place.now.dir.0 (H.state host.old) (H.state host.new) (answered result) }
    ensures any_moment { OnlyAt H.told place.now.dir.0 (H.state host.old) (H.state host.new) (λ d. d ≡ disk_at (H.state host.old) place.now.dir.0) }
{
    let tree = read_image(alloc, host, place.dir, place.sub, id, &place.version)?;
    Ok(Loaded {
        tree,
        id,
        namespace: place.version.namespace,
    })
}

/// Reads the newest intact image of those that stand before `end`. Where there is none, `why` is told, of the last image of
/// all.
fn older_image<H: Host, T: Tree>(
    alloc: Global,
    host: &mut H,
    place: &Place,
    end: usize,
    why: ImageWhy,
) -> Result<Loaded<T>, ChainFault>
    requires below { place.now.dir.0 < (H.state host.old).count }
    requires inside { end ≤ length place.now.names.items }
    requires listed { H.told → IsListing ((H.state host.old).reads place.now.dir.0) place.now.sub place.now.names.items }
    requires none { H.told → NoneIntactFrom (folder_at ((H.state host.old).reads place.now.dir.0) place.now.sub) place.now.version place.now.names.items end }
    requires sound { why ≢ ImageWhy.Fault ImageFault.Memory }
    requires why { H.told → IsLastUnsound (folder_at ((H.state host.old).reads place.now.dir.0) place.now.sub) place.now.version why }
    ensures ok { H.told → IfOk result (λ it. IsNewestOf (folder_at ((H.state host.old).reads place.now.dir.0) place.now.sub) place.now.version it.id (T.meaning it.tree)) }
    ensures imaged { IfOk result (λ it. IsImaged (T.meaning it.tree)) }
    ensures named { IfOk result (λ it. it.namespace ≡ place.now.version.namespace) }
    ensures none { H.told → IfErr result (λ fault. IsUnchained (folder_at ((H.state host.old).reads place.now.dir.0) place.now.sub) place.now.version fault) }
    ensures memory { IfErr result (λ fault. fault ≢ ChainFault.NoImage (ImageWhy.Fault ImageFault.Memory)) }
    ensures kept { Looked H.told place.now.dir.0 (H.state host.old) (H.state host.new) (answered_chain result) }
    ensures any_moment { OnlyAt H.told place.now.dir.0 (H.state host.old) (H.state host.new) (λ d. d ≡ disk_at (H.state host.old) place.now.dir.0) }
{
    let mut left = end;
    while let Some((k, id)) = last_image(place, left) {
        match image_before(alloc, host, place, left, k, id) {
            Ok(it) => return Ok(it),
            Err(ReadImage::Unsound(_)) => left = k,
            // It may be intact, so none before it may be taken for the newest.
            Err(ReadImage::Memory) => return Err(ChainFault::Memory),
            Err(ReadImage::Failed) => return Err(ChainFault::Failed),
        }
    }
    Err(ChainFault::NoImage(why))
}

/// The last image that stands before `end` in a listing; and its place.
fn last_image(place: &Place, end: usize) -> Option<(usize, Txid)>
    requires { end ≤ length place.now.names.items }
    ensures some { IfSome result (λ found. IsLastBefore place.now.names.items end found.0 found.1) }
    ensures none { IfNone result (HasNoImages place.now.names.items 0 end) }
{
    let mut k = end;
    while k > 0 {
        k -= 1;
        if let FileName::Image(id) = place.names[k] {
            // Read, so that its range is known.
            let _id = id.0;
            return Some((k, id));
        }
    }
    None
}
