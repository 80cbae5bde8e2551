// The summary of an image as it is read: where its sections are, field by field.
ghost use Rattle.std.specs.Prelude.{◌≡◌, ◌≢◌, ◌↔◌, IsTrue, ◌++◌, List, Option, is_some, IfSome, IfNone};
ghost use Rattle.nn_base.specs.Paths.{Bytes};
ghost use Rattle.nn_wire.specs.Field.{bytes_field};
ghost use Rattle.nn_message.specs.Frame.{Section, IsSection, section_message, codec_field, sections_field, Summary, IsSummary, summary_message};
ghost use Rattle.nn_message.specs.FrameViews.{seen, ArePlaces, IsSeen};

use crate::reading::{take_bytes, take_number};

/// The version of the format itself.
const VERSION: u64 = 1;

/// Where a section is, as the summary says.
#[derive(Clone, Copy)]
pub(crate) struct PlaceView<'a> {
    pub(crate) name: &'a [u8],
    /// In bytes.
    pub(crate) len: u64,
    /// Counted from the front of the file.
    pub(crate) offset: u64,
}

/// A summary, `fsimage.proto`'s `FileSummary`.
#[derive(Clone, Copy)]
pub struct SummaryView<'a> {
    /// Without its sign.
    pub layout: u64,
    pub has_codec: bool,
    /// The fields that say where each section is, one after the other.
    pub places: &'a [u8],
}

#[tactic(auto, unfolding(crate::specs::Frame::section_message))]
fn place_of(message: &[u8]) -> Option<PlaceView>
    ensures some { IfSome result (λ v. IsSection (seen v) × (message.now ≡ section_message (seen v))) }
    ensures none { IfNone result ((section : Section) → IsSection section → message.now ≢ section_message section) }
{
    let mut rest = message;
    let name = take_bytes(1, &mut rest)?;
    let len = take_number(2, &mut rest)?;
    let offset = take_number(3, &mut rest)?;
    if rest.is_empty() {
        Some(PlaceView { name, len, offset })
    } else {
        None
    }
}

/// A field that says where a section is.
pub(crate) fn take_place<'a>(rest: &mut &'a [u8]) -> Option<PlaceView<'a>>
    ensures some { IfSome result (λ v. IsSection (seen v) × (rest.old.now ≡ bytes_field 4 (section_message (seen v)) ++ rest.new.now)) }
    ensures none { IfNone result ((section : Section) (after : Bytes) → IsSection section → rest.old.now ≢ bytes_field 4 (section_message section) ++ after) }
{
    place_of(take_bytes(4, rest)?)
}

/// Whether these are such fields, one after the other.
fn are_places(fields: &[u8]) -> bool
    ensures { IsTrue result ↔ ArePlaces fields.now }
{
    let mut rest = fields;
    'places: while !rest.is_empty() {
        match take_place(&mut rest) {
            Some(_) => {}
            None => return false,
        }
    }
    true
}

/// Takes the codec's name, where there is one, and tells whether there was.
#[tactic(auto, unfolding(crate::specs::Frame::codec_field))]
fn take_codec(rest: &mut &[u8]) -> bool
    ensures taken { (codec : Option Bytes) × (result ≡ is_some codec) × (rest.old.now ≡ codec_field codec ++ rest.new.now) }
    ensures exact { (codec : Option Bytes) (sections : List Section) → rest.old.now ≡ codec_field codec ++ sections_field sections →
        (result ≡ is_some codec) × (rest.new.now ≡ sections_field sections) }
{
    let mut behind = *rest;
    match take_bytes(3, &mut behind) {
        Some(_) => {
            *rest = behind;
            true
        }
        None => false,
    }
}

/// The summary that this message is, of the one version of the format that there is.
#[tactic(auto, unfolding(crate::specs::Frame::summary_message))]
pub fn summary_in(message: &[u8]) -> Option<SummaryView>
    ensures some { IfSome result (λ v. (summary : Summary) × IsSummary summary × (message.now ≡ summary_message summary) × IsSeen v summary) }
    ensures none { IfNone result ((summary : Summary) → IsSummary summary → message.now ≢ summary_message summary) }
{
    let mut rest = message;
    if take_number(1, &mut rest)? != VERSION {
        return None;
    }
    let layout = take_number(2, &mut rest)?;
    let has_codec = take_codec(&mut rest);
    if are_places(rest) {
        Some(SummaryView {
            layout,
            has_codec,
            places: rest,
        })
    } else {
        None
    }
}
