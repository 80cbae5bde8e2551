// What an argument of a command says.
ghost use Rattle.std.specs.Prelude.{◌≡◌, ◌<◌, ◌≤◌, ◌^◌, IfOk, IfSome, IsTrue, length};
ghost use Rattle.std.specs.List.{list_all};
ghost use Rattle.std.specs.Str.Parse.{digits_value};
ghost use Rattle.nn_base.specs.Limits.{most_mode, IsLong};
ghost use Rattle.nn_script.specs.Words.{is_octal_digit};
ghost use Rattle.nn_script.specs.Arguments as arguments;

use crate::Syntax;
use crate::escape::unescaped;
use nn_base::limits::MOST_MODE;
use nn_base::{Label, Path, PathFault, decimal};
use std::alloc::Global;

pub(crate) fn number(word: &[u8]) -> Result<u64, Syntax>
    ensures value { arguments.Gives (λ n. n) result (arguments.number_at word.now) }
    ensures range { IfOk result IsLong }
{
    decimal::number(word).ok_or(Syntax::Number)
}

pub(crate) fn quota(word: &[u8]) -> Result<Option<u64>, Syntax>
    ensures value { arguments.Gives (λ quota. quota) result (arguments.quota_at word.now) }
    ensures range { IfOk result (λ quota. IfSome quota IsLong) }
{
    if word == b"-".as_slice() {
        return Ok(None);
    }
    Ok(Some(number(word)?))
}

pub(crate) fn mode(word: &[u8]) -> Result<u16, Syntax>
    ensures value { arguments.Gives (λ mode. mode) result (arguments.mode_at word.now) }
    ensures range { IfOk result (λ mode. mode ≤ most_mode) }
{
    if word.is_empty() || 4 < word.len() || !are_octal(word) {
        return Err(Syntax::Mode);
    }
    let mode = octal(word);
    if mode <= MOST_MODE {
        Ok(mode)
    } else {
        Err(Syntax::Mode)
    }
}

fn are_octal(word: &[u8]) -> bool
    ensures { result ≡ list_all is_octal_digit word.now }
{
    word.iter().all(|byte| b'0' <= *byte && *byte <= b'7')
}

fn octal(digits: &[u8]) -> u16
    requires digits { IsTrue (list_all is_octal_digit digits.now) }
    requires few { length digits.now ≤ 4 }
    ensures { result ≡ digits_value 8 digits.now }
{
    let mut number: u16 = 0;
    for digit in digits {
        number = number * 8 + u16::from(*digit - b'0');
    }
    number
}

pub(crate) fn label(alloc: Global, word: &[u8]) -> Result<Label, Syntax>
    ensures { arguments.Gives (λ label. label) result (arguments.label_at word.now) }
{
    if !word.contains(&b'%') {
        return label_of(word);
    }
    let text = unescaped(alloc, word)?;
    label_of(&text)
}

fn label_of(text: &[u8]) -> Result<Label, Syntax>
    ensures { arguments.Gives (λ label. label) result (arguments.label_of text.now) }
{
    Label::of(text).ok_or(Syntax::Name)
}

pub(crate) fn path(alloc: Global, word: &[u8]) -> Result<Path, Syntax>
    ensures { arguments.Gives (λ path. path) result (arguments.path_at word.now) }
{
    if !word.contains(&b'%') {
        return path_of(alloc, word);
    }
    let text = unescaped(alloc, word)?;
    path_of(alloc, &text)
}

fn path_of(alloc: Global, text: &[u8]) -> Result<Path, Syntax>
    ensures { arguments.Gives (λ path. path) result (arguments.path_of text.now) }
{
    match Path::parse(alloc, text) {
        Ok(path) => Ok(path),
        Err(PathFault::Memory) => Err(Syntax::Memory),
        Err(fault) => Err(Syntax::Path(fault)),
    }
}
