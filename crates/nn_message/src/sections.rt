// The four sections of an image, cut out of its text as its summary says.
ghost use Rattle.std.specs.Prelude.{◌≡◌, ◌≢◌, ◌≤◌, ◌^◌, ◌++◌, length, IfSome, IfNone};
ghost use Rattle.nn_base.specs.Paths.{Bytes};
ghost use Rattle.nn_base.specs.Limits.{most_image};
ghost use Rattle.nn_wire.specs.Field.{bytes_field};
ghost use Rattle.nn_message.specs.Frame.{Sections, section_message, sections_field, places, named, lengths_of, body};
ghost use Rattle.nn_message.specs.FrameViews.{sections_seen};

use crate::places::take_place;
use crate::summary::FIRST;

/// The bytes of the four sections.
#[derive(Clone, Copy)]
pub struct SectionBytes<'a> {
    /// NS_INFO
    pub info: &'a [u8],
    /// STRING_TABLE
    pub strings: &'a [u8],
    /// INODE
    pub inodes: &'a [u8],
    /// INODE_DIR
    pub directories: &'a [u8],
}

/// Cuts a section off the front of the text, where the next place is that of this section and of this offset.
fn take_section<'a>(
    name: &[u8],
    offset: u64,
    places: &mut &[u8],
    text: &mut &'a [u8],
) -> Option<&'a [u8]>
    ensures some { IfSome result (λ part. (text.old.now ≡ part.now ++ text.new.now) ×
        (places.old.now ≡ bytes_field 4 (section_message (record { name = name.now; length = length part.now; offset = offset })) ++ places.new.now)) }
    ensures none { IfNone result ((part left after : Bytes) → text.old.now ≡ part ++ left →
        places.old.now ≢ bytes_field 4 (section_message (record { name = name.now; length = length part; offset = offset })) ++ after) }
{
    let place = take_place(places)?;
    if place.name != name {
        return None;
    }
    if place.offset != offset {
        return None;
    }
    if place.len > text.len() as u64 {
        return None;
    }
    let (part, left) = text.split_at(place.len as usize);
    *text = left;
    Some(part)
}

/// The sections that fill the text, where these are the places of just these: NS_INFO, STRING_TABLE, INODE and INODE_DIR,
/// each from where the one before it ends. The first begins at 8, behind the mark of the file.
pub fn cut_sections<'a>(text: &'a [u8], fields: &[u8]) -> Option<SectionBytes<'a>>
    requires { length text.now ≤ most_image }
    ensures some { IfSome result (λ s. (text.now ≡ body (sections_seen s)) × (fields.now ≡ sections_field (places 8 (named (lengths_of (sections_seen s)))))) }
    ensures none { IfNone result ((s : Sections) → text.now ≡ body s → fields.now ≢ sections_field (places 8 (named (lengths_of s)))) }
{
    let mut text = text;
    let mut places = fields;
    let mut offset = FIRST;
    let info = take_section(b"NS_INFO", offset, &mut places, &mut text)?;
    offset += info.len() as u64;
    let strings = take_section(b"STRING_TABLE", offset, &mut places, &mut text)?;
    offset += strings.len() as u64;
    let inodes = take_section(b"INODE", offset, &mut places, &mut text)?;
    offset += inodes.len() as u64;
    let directories = take_section(b"INODE_DIR", offset, &mut places, &mut text)?;
    if !places.is_empty() {
        return None;
    }
    if !text.is_empty() {
        return None;
    }
    Some(SectionBytes {
        info,
        strings,
        inodes,
        directories,
    })
}
