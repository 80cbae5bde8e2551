// The frame of an image as it is read: its length, the mark at its front, and at its end the summary.
ghost use Rattle.std.specs.Prelude.{◌≡◌, ◌≢◌, ℕ, codes, IfOk, IfErr};
ghost use Rattle.nn_image.specs.declared.fault.ImageFault.TheVariants.{Tree, Memory};
ghost use Rattle.nn_image.specs.Faults.{IsFramed, IsFault};

use crate::fault::ImageFault;
use nn_base::limits::MOST_IMAGE;
use nn_message::{Framed, unended};

/// The frame, or the first fault of it.
#[tactic(auto, unfolding(nn_message::specs::Frame::framed))]
pub(crate) fn frame_in(bytes: &[u8]) -> Result<Framed, ImageFault>
    ensures ok { IfOk result (λ f. IsFramed bytes.now f.text.now f.summary.now) }
    ensures err { IfErr result (λ fault. (layout : ℕ) → IsFault fault bytes.now layout) }
    ensures early { IfErr result (λ fault. (fault ≢ Tree) × (fault ≢ Memory)) }
{
    if bytes.len() > MOST_IMAGE {
        return Err(ImageFault::TooLarge);
    }
    let Some(behind) = bytes.strip_prefix(b"HDFSIMG1") else {
        return Err(ImageFault::Magic);
    };
    match unended(behind) {
        Some(framed) => Ok(framed),
        None => Err(ImageFault::Short),
    }
}
