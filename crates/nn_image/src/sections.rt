// The four sections of an image, as its frame and its summary say.
ghost use Rattle.std.specs.Prelude.{◌≡◌, ◌≢◌, IfOk, IfErr};
ghost use Rattle.nn_image.specs.declared.fault.ImageFault.TheVariants.{Tree, Memory};
ghost use Rattle.nn_message.specs.FrameViews.{sections_seen};
ghost use Rattle.nn_image.specs.Faults.{HasSections, IsFault};

use crate::fault::ImageFault;
use crate::frame::frame_in;
use nn_message::{SectionBytes, cut_sections, summary_in};

/// The sections of an image of this layout, or the first fault of its frame, its summary and its places.
pub(crate) fn sections_in(bytes: &[u8], layout: u32) -> Result<SectionBytes, ImageFault>
    ensures ok { IfOk result (λ s. HasSections bytes.now layout (sections_seen s)) }
    ensures err { IfErr result (λ fault. IsFault fault bytes.now layout) }
    ensures early { IfErr result (λ fault. (fault ≢ Tree) × (fault ≢ Memory)) }
{
    let framed = frame_in(bytes)?;
    let Some(summary) = summary_in(framed.summary) else {
        return Err(ImageFault::Field);
    };
    if summary.has_codec {
        return Err(ImageFault::Codec);
    }
    if summary.layout != u64::from(layout) {
        return Err(ImageFault::Layout(summary.layout));
    }
    match cut_sections(framed.text, summary.places) {
        Some(sections) => Ok(sections),
        None => Err(ImageFault::Section),
    }
}
