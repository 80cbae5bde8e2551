// Reads the messages of STRING_TABLE: how many strings there are, and each with its number.
ghost use Rattle.std.specs.Prelude.{◌≡◌, ℕ, Some, None, IfSome, IfNone};
ghost use Rattle.nn_message.specs.Messages.{IsVarintNumber, IsText};
ghost use Rattle.nn_message.specs.Spelling as spelling;
ghost use Rattle.nn_message.specs.Reading as reading;
ghost use Rattle.nn_message.specs.MessageReading as messages;
ghost use Rattle.nn_message.specs.Views.{IsTextView};

use crate::reading::fields::{take_bytes, take_delimited, take_number};

/// The most bytes that the name of an owner or of a group has.
const LONGEST: usize = 32;

#[tactic(auto, unfolding(crate::specs::MessageReading::strings_at))]
fn read_strings(message: &[u8]) -> Option<u64>
    ensures { result ≡ reading.whole messages.strings_at message.now }
{
    let mut rest = message;
    let count = take_number(1, &mut rest)?;
    if !rest.is_empty() {
        return None;
    }
    Some(count)
}

pub(super) fn next_strings(rest: &mut &[u8]) -> Option<u64>
    ensures { reading.Gives result rest.new.now
        (reading.inside messages.strings_at rest.old.now) }
{
    let message = take_delimited(rest)?;
    read_strings(message)
}

/// Takes what STRING_TABLE begins with, `StringTableSection`: how many strings it says that it has. After `None` nothing
/// is known of what is left.
pub fn take_strings_head(rest: &mut &[u8]) -> Option<u64>
    ensures { reading.Takes (λ v n. v ≡ n) IsVarintNumber
        (λ n. spelling.delimited (spelling.strings n)) result rest.old.now rest.new.now }
{
    next_strings(rest)
}

#[tactic(auto, unfolding(crate::specs::MessageReading::label_at))]
fn take_label<'a>(rest: &mut &'a [u8]) -> Option<&'a [u8]>
    ensures some { IfSome result (λ text. messages.label_at rest.old.now ≡ Some (text.now, rest.new.now)) }
    ensures none { IfNone result (messages.label_at rest.old.now ≡ None) }
{
    let text = take_bytes(2, rest)?;
    if text.is_empty() {
        return None;
    }
    if text.len() > LONGEST {
        return None;
    }
    Some(text)
}

#[tactic(auto, unfolding(crate::specs::MessageReading::string_at))]
fn read_string(message: &[u8]) -> Option<(u64, &[u8])>
    ensures { reading.ShowsAll IsTextView result (reading.whole messages.string_at message.now) }
{
    let mut rest = message;
    let number = take_number(1, &mut rest)?;
    let text = take_label(&mut rest)?;
    if !rest.is_empty() {
        return None;
    }
    Some((number, text))
}

pub(super) fn next_string<'a>(rest: &mut &'a [u8]) -> Option<(u64, &'a [u8])>
    ensures { reading.Shows IsTextView result rest.new.now
        (reading.inside messages.string_at rest.old.now) }
{
    let message = take_delimited(rest)?;
    read_string(message)
}

/// Takes an entry of STRING_TABLE off the front, `StringTableSection.Entry`: a string of 1 to 32 bytes, behind its number.
/// After `None` nothing is known of what is left.
pub fn take_string<'a>(rest: &mut &'a [u8]) -> Option<(u64, &'a [u8])>
    ensures { reading.Takes IsTextView IsText
        (λ t. spelling.delimited (spelling.string t)) result rest.old.now rest.new.now }
{
    next_string(rest)
}
