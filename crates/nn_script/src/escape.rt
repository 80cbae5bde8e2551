// Bytes that are spelled as a `%` and two hex digits.
ghost use Rattle.std.specs.Prelude.{◌≡◌, ◌<◌, ℕ, List, ◌∷◌, Some, All, IsTrue};
ghost use Rattle.std.specs.List.{list_all};
ghost use Rattle.std.specs.Option.{ok_or};
ghost use Rattle.nn_base.specs.Words.{is_word_byte};
ghost use Rattle.nn_script.specs.Words.{hex_value, byte_of, unescaped_part, unescaped};
ghost use Rattle.nn_script.specs.Spelling.{escaped};
ghost use Rattle.nn_script.specs.Arguments as arguments;

use crate::Syntax;
use crate::words::cut;
use std::alloc::Global;

// The bytes that a word stands for.
pub(crate) fn unescaped(alloc: Global, word: &[u8]) -> Result<Vec<u8>, Syntax>
    ensures { arguments.Gives (λ text. text.items) result (arguments.text_at word.now) }
{
    let (first, mut rest) = cut(word, b'%');
    let mut text = Vec::from_slice(alloc, first)?;
    'parts: while let Some(behind) = rest {
        let (part, after) = cut(behind, b'%');
        let (byte, plain) = unescaped_part(part)?;
        text.push(byte)?;
        text.extend_from_slice(plain)?;
        rest = after;
    }
    Ok(text)
}

// The byte of the two digits behind a `%`, and what stands behind them.
fn unescaped_part(part: &[u8]) -> Result<(u8, &[u8]), Syntax>
    ensures { arguments.Gives (λ x. x.0 ∷ x.1.now) result
        (ok_or (unescaped_part part.now) Syntax.Escape) }
{
    match part {
        [high, low, plain @ ..] => {
            let byte = byte_of(*high, *low).ok_or(Syntax::Escape)?;
            Ok((byte, plain))
        }
        _ => Err(Syntax::Escape),
    }
}

fn byte_of(high: u8, low: u8) -> Option<u8>
    ensures { result ≡ byte_of high low }
{
    let high = hex_value(high)?;
    let low = hex_value(low)?;
    Some(16 * high + low)
}

fn hex_value(digit: u8) -> Option<u8>
    ensures { result ≡ hex_value digit }
{
    match digit {
        b'0'..=b'9' => Some(digit - b'0'),
        b'a'..=b'f' => Some(digit - b'a' + 10),
        _ => None,
    }
}

/// What a listing prints of a path, an owner or a group is one word, and as an argument of a line
/// it stands for the same bytes again.
pub fn escapes_read_back()
    ensures word { (text : List ℕ) → All (λ byte. byte < 256) text
        → IsTrue (list_all is_word_byte (escaped text)) }
    ensures text { (text : List ℕ) → All (λ byte. byte < 256) text
        → unescaped (escaped text) ≡ Some text }
{}
