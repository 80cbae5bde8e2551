// The words of `generate`.
ghost use Rattle.std.specs.Prelude.{◌≡◌, [], option_map};
ghost use Rattle.nn_top.specs.Words.{texts};
ghost use Rattle.nn_top.specs.Parts.{parts_of};
ghost use Rattle.nn_top.specs.Commands.{count_in, generate_in, wanted_in};

use super::{Command, is_end};
use nn_base::decimal;
use nn_generate::MOST_FILES;

/// `generate` with the words behind it.
pub fn generate_asked(words: &[String]) -> Option<Command<'_>>
    ensures { option_map wanted_in result ≡ generate_in (parts_of [] (texts words.now)) }
{
    let (number, later) = words.split_first()?;
    if !is_end(later) {
        return None;
    }
    let count = count_of(number.as_bytes())?;
    Some(Command::Generate { count })
}

/// How many files a script is asked for.
pub fn count_of(number: &[u8]) -> Option<u32>
    ensures { result ≡ count_in number.now }
{
    let number = decimal::number(number)?;
    if 1 <= number && number <= u64::from(MOST_FILES) {
        Some(number as u32)
    } else {
        None
    }
}
