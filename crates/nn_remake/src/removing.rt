// Files of `current` that are removed.
ghost use Rattle.std.specs.Prelude.{◌≡◌, ◌<◌, OnOk, IfOk, is_some};
ghost use Rattle.std.specs.List.{filter};
ghost use Rattle.nn_host.specs.Moments.{disk_at};
ghost use Rattle.nn_host.specs.Calls.{IsCounted};
ghost use Rattle.nn_host.specs.Runs.{OnlyAt};
ghost use Rattle.nn_small.specs.Failure.{EndsByFailure};
ghost use Rattle.nn_remake.specs.Removing.{is_segment as is_segment_name, is_later_image as is_later_image_name, IsCutBack, WasWithout};

use nn_base::{DirNo, FileName, NoMemory, Sub, Txid};
use nn_host::{Failed, Host};
use std::alloc::Global;

/// Removes these files of `current`, the last one first.
#[tactic(auto, using(crate::proofs::RemovingLemmas::removing_none))]
pub fn remove_from_end<H: Host>(
    host: &mut H,
    i: DirNo,
    mut names: Vec<FileName>,
) -> Result<(), Failed>
    requires below { i.0 < (H.state host.old).count }
    ensures ok { H.told → OnOk result (WasWithout names.items i.0 (H.state host.old) (H.state host.new)) }
    ensures any_moment { OnlyAt H.told i.0 (H.state host.old) (H.state host.new) (IsCutBack names.items (disk_at (H.state host.old) i.0)) }
    ensures still { EndsByFailure H.told i.0 (H.state host.old) (H.state host.new) }
    ensures cause { IsCounted i.0 (H.state host.old) (H.state host.new) result }
{
    'names: while let Some(name) = names.pop() {
        host.remove_file(i, Sub::Current, name)?;
    }
    Ok(())
}

/// The segment files among these, in the same order.
pub fn segments_among(alloc: Global, names: &[FileName]) -> Result<Vec<FileName>, NoMemory>
    ensures { IfOk result (λ found. found.items ≡ filter is_segment_name names.now) }
{
    let mut found = Vec::new(alloc);
    'names: for name in names {
        if is_segment(*name) {
            found.push(*name)?;
        }
    }
    Ok(found)
}

/// The images of later ids among these, in the same order.
pub fn later_images_among(
    alloc: Global,
    names: &[FileName],
    id: Txid,
) -> Result<Vec<FileName>, NoMemory>
    ensures { IfOk result (λ found. found.items ≡ filter (is_later_image_name id) names.now) }
{
    let mut found = Vec::new(alloc);
    'names: for name in names {
        if is_later_image(*name, id) {
            found.push(*name)?;
        }
    }
    Ok(found)
}

fn is_segment(name: FileName) -> bool
    ensures { result ≡ is_segment_name name }
{
    matches!(name, FileName::Edits(_) | FileName::InProgress(_))
}

fn is_later_image(name: FileName, id: Txid) -> bool
    ensures { result ≡ is_later_image_name id name }
{
    match name {
        FileName::Image(other) => other.0 > id.0,
        _ => false,
    }
}
