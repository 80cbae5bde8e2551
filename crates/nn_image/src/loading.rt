// An image as it is read.
ghost use Rattle.std.specs.Prelude.{◌≡◌, ◌≢◌, IfOk, IfErr, IfSome, IfNone, unsigned_abs};
ghost use Rattle.nn_message.specs.Messages.{Content, IsContent};
ghost use Rattle.nn_message.specs.Frame.{sections_of};
ghost use Rattle.nn_message.specs.FrameViews.{sections_seen};
ghost use Rattle.nn_message.specs.Views.{info_of};
ghost use Rattle.nn_image.specs.Imaged.{IsImage};
ghost use Rattle.nn_image.specs.Faults.{IsFault, OneFault, NoFaultOfAnImage, OneImage};

use crate::assemble::assemble_tree;
use crate::fault::ImageFault;
use crate::saver::magnitude;
use crate::sections::sections_in;
use crate::unmade::Unmade;
use nn_base::Txid;
use nn_message::{InfoView, SectionBytes, check_messages, read_ns_info};
use nn_tree::Tree;
use std::alloc::Global;

/// What an image holds.
#[derive(Drop)]
pub struct Loaded<T: Tree> {
    /// The namespace.
    pub tree: T,
    /// The transaction after which the namespace was so.
    pub id: Txid,
    /// The namespaceID of the cluster.
    pub namespace: u32,
}

/// What NS_INFO says, where each message of the sections is whole.
fn whole_info(sections: &SectionBytes) -> Option<InfoView>
    ensures some { IfSome result (λ info. ((content : Content) × IsContent content ×
        (sections_seen sections.now ≡ sections_of content) × (info_of info ≡ content.info))) }
    ensures none { IfNone result ((content : Content) → IsContent content → sections_of content ≢ sections_seen sections.now) }
{
    let info = read_ns_info(sections.info)?;
    if check_messages(
        sections.info,
        sections.strings,
        sections.inodes,
        sections.directories,
    ) {
        Some(info)
    } else {
        None
    }
}

/// `load`, by what it finds.
fn read_image<T: Tree>(alloc: Global, bytes: &[u8], layout: u32) -> Result<Loaded<T>, ImageFault>
    ensures ok { IfOk result (λ loaded. IsImage bytes.now (T.meaning loaded.tree) loaded.id loaded.namespace layout) }
    ensures err { IfErr result (λ fault. IsFault fault bytes.now layout) }
{
    let sections = sections_in(bytes, layout)?;
    let Some(info) = whole_info(&sections) else {
        return Err(ImageFault::Field);
    };
    match assemble_tree(
        alloc,
        sections.info,
        sections.strings,
        sections.inodes,
        sections.directories,
    ) {
        Ok(tree) => Ok(Loaded {
            tree,
            id: info.txid,
            namespace: info.namespace,
        }),
        Err(Unmade::Tree) => Err(ImageFault::Tree),
        Err(Unmade::Memory) => Err(ImageFault::Memory),
    }
}

/// Reads an image of this layout whole. An `Err` is the first fault that applies. Memory is asked for only once each
/// message is known to be whole, both counts to be those of the messages, and nodes and blocks to be no more than a
/// namespace has, and then for what the messages hold: no count or length of a damaged file takes any.
///
/// Like Hadoop's `FSImageFormatProtobuf.Loader`, but that it takes just one spelling of each namespace.
pub fn load<T: Tree>(alloc: Global, bytes: &[u8], layout: i32) -> Result<Loaded<T>, ImageFault>
    ensures ok { IfOk result (λ loaded. IsImage bytes.now (T.meaning loaded.tree) loaded.id loaded.namespace (unsigned_abs layout)) }
    ensures err { IfErr result (λ fault. IsFault fault bytes.now (unsigned_abs layout)) }

    // But for want of memory, one fault alone is the first of any bytes, and an image has none.
    ensures one { OneFault }
    ensures none { NoFaultOfAnImage }

    // Bytes are the image of one namespace, under one id, namespaceID and layout.
    ensures image { OneImage }
{
    read_image(alloc, bytes, magnitude(layout))
}
