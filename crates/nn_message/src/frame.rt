// The end of an image as it is read: where its summary begins.
ghost use Rattle.std.specs.Prelude.{◌≡◌, ◌≢◌, ◌<◌, ◌≤◌, ◌^◌, ◌++◌, length, IfSome, IfNone};
ghost use Rattle.std.specs.Int.{w32, to_be_bytes};
ghost use Rattle.nn_base.specs.Paths.{Bytes};
ghost use Rattle.nn_base.specs.Limits.{most_image};
ghost use Rattle.nn_message.specs.Spelling.{delimited};
ghost use Rattle.nn_message.specs.Frame.{end};

use nn_wire::varint_get;

/// What stands behind the mark of an image: all sections, one after the other, and the message of the summary.
#[derive(Clone, Copy)]
pub struct Framed<'a> {
    pub text: &'a [u8],
    pub summary: &'a [u8],
}

/// A number of four bytes at the end, and what stands before it.
fn last_number(bytes: &[u8]) -> Option<(&[u8], u32)>
    ensures some { IfSome result (λ x. (x.1 < 2 ^ 32) × (bytes.now ≡ x.0.now ++ to_be_bytes w32 x.1)) }
    ensures none { IfNone result (length bytes.now < 4) }
{
    let (front, number) = bytes.split_last_chunk::<4>()?;
    Some((front, u32::from_be_bytes(*number)))
}

/// The message that these bytes are with its length before it.
#[tactic(auto, unfolding(crate::specs::Spelling::delimited))]
fn undelimited(bytes: &[u8]) -> Option<&[u8]>
    ensures some { IfSome result (λ message. bytes.now ≡ delimited message.now) }
    ensures none { IfNone result ((message : Bytes) → bytes.now ≢ delimited message) }
{
    let (len, size) = varint_get(bytes)?;
    let message = &bytes[size..];
    if message.len() as u64 == len {
        Some(message)
    } else {
        None
    }
}

/// What stands before the summary, and the summary. The last four bytes count it with its own length, as
/// `FSImageUtil.loadSummary` has it.
#[tactic(auto, unfolding(crate::specs::Frame::end))]
pub fn unended(bytes: &[u8]) -> Option<Framed>
    requires { length bytes.now ≤ most_image }
    ensures some { IfSome result (λ f. bytes.now ≡ f.text.now ++ end f.summary.now) }
    ensures none { IfNone result ((text summary : Bytes) → bytes.now ≢ text ++ end summary) }
{
    let (front, len) = last_number(bytes)?;
    let at = front.len().checked_sub(len as usize)?;
    let (text, behind) = front.split_at(at);
    let summary = undelimited(behind)?;
    Some(Framed { text, summary })
}
