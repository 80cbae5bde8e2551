// Words that are read as a line: options, directories, options, or directories behind a `--`.
ghost use Rattle.std.specs.Prelude.{◌≡◌, ◌≢◌, List, [], ◌∷◌, codes, IfSome, IfNone, MatchOption, false};
ghost use Rattle.nn_top.specs.Words.{Word as W, texts};
ghost use Rattle.nn_top.specs.Parts.{Given, parts_of};
ghost use Rattle.nn_top.specs.Begins.{is_given, begins};
ghost use Rattle.nn_top.specs.Options.{text_of, texts_of, given_value, given_to, parts_left, Adds, IsTwice, IsReadAs, IsUnread, ReadOptions, ReadLine, IsUnreadFrom};

use super::options::{OptionName, first_option};
use super::{after_mark, is_end, plain_split};

/// The values that options were given.
#[derive(Clone, Copy)]
pub struct Values<'a> {
    pub cluster: Option<&'a [u8]>,
    pub namespace: Option<&'a [u8]>,
    pub at: Option<&'a [u8]>,
    pub generate: Option<&'a [u8]>,
}

impl<'a> Values<'a> {
    fn of(self, name: OptionName) -> Option<&'a [u8]>
        ensures { given_value result ≡ given_to self.entry name }
    {
        match name {
            OptionName::Cluster => self.cluster,
            OptionName::Namespace => self.namespace,
            OptionName::At => self.at,
            OptionName::Generate => self.generate,
        }
    }

    // The same, with a value for an option that had none.
    fn with(self, name: OptionName, value: &'a [u8]) -> Values<'a>
        requires { given_to self name ≡ [] }
        ensures { Adds (Given (text_of name) value.now ∷ []) self.entry result }
    {
        match name {
            OptionName::Cluster => Values {
                cluster: Some(value),
                ..self
            },
            OptionName::Namespace => Values {
                namespace: Some(value),
                ..self
            },
            OptionName::At => Values {
                at: Some(value),
                ..self
            },
            OptionName::Generate => Values {
                generate: Some(value),
                ..self
            },
        }
    }
}

/// The values and the directories of words that make a line, where a command takes these options, each once at most.
pub fn line_of<'a>(names: &[OptionName], words: &'a [String]) -> Option<(Values<'a>, &'a [String])>
    ensures { MatchOption result (IsUnread names.now (parts_of (texts_of names.now) (texts words.now))) (λ found. IsReadAs (parts_of (texts_of names.now) (texts words.now)) found.0 (texts found.1.now)) }
{
    line_from(
        names,
        Line {
            values: Values {
                cluster: None,
                namespace: None,
                at: None,
                generate: None,
            },
            rest: words,
        },
    )
}

// Values that were read, and the words behind them.
#[derive(Clone, Copy)]
struct Line<'a> {
    values: Values<'a>,
    rest: &'a [String],
}

// What is left of a line, read to its end.
fn line_from<'a>(names: &[OptionName], line: Line<'a>) -> Option<(Values<'a>, &'a [String])>
    ensures { MatchOption result (IsUnreadFrom names.now line.entry) (λ found. ReadLine names.now line.entry found.0 (texts found.1.now)) }
{
    let front = options_read(names, line)?;
    match after_mark(front.rest) {
        Some(dirs) => Some((front.values, dirs)),
        None => plain_line(names, front),
    }
}

// The same where neither an option nor `--` stands next.
fn plain_line<'a>(names: &[OptionName], front: Line<'a>) -> Option<(Values<'a>, &'a [String])>
    requires ended { begins is_given (parts_left names.now front) ≡ false }
    requires unmarked { (dirs : List W) → texts front.rest.now ≢ codes "--" ∷ dirs }
    ensures { MatchOption result (IsUnreadFrom names.now front.entry) (λ found. ReadLine names.now front.entry found.0 (texts found.1.now)) }
{
    let (dirs, rest) = plain_split(front.rest);
    let back = options_read(names, Line { rest, ..front })?;
    if is_end(back.rest) {
        Some((back.values, dirs))
    } else {
        None
    }
}

// Reads the options that stand next, or none of them where one is given a second time.
fn options_read<'a>(names: &[OptionName], line: Line<'a>) -> Option<Line<'a>>
    ensures some { IfSome result (ReadOptions names.now line.entry) }
    ensures none { IfNone result (IsTwice names.now (parts_left names.now line.entry) line.entry.values) }
{
    let Some((name, value, rest)) = first_option(names, line.rest) else {
        return Some(line);
    };
    if line.values.of(name).is_some() {
        return None;
    }
    options_read(
        names,
        Line {
            values: line.values.with(name, value),
            rest,
        },
    )
}
