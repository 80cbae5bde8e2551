// Reads a line.
ghost use Rattle.std.specs.Prelude.{◌≡◌, ◌≢◌, ◌==◌, ◌<◌, ◌^◌, true, false, IfOk, IfErr, IfSome, length};
ghost use Rattle.std.specs.List.{list_all, list_any};
ghost use Rattle.std.specs.Option.{option_copied};
ghost use Rattle.nn_base.specs.Limits.{IsLong};
ghost use Rattle.nn_ops.specs.Commands.{IsCommand};
ghost use Rattle.nn_script.specs.Lines.{has_no_answer};
ghost use Rattle.nn_script.specs.Words.{words, words_behind, is_line_byte};
ghost use Rattle.nn_script.specs.Arguments as arguments;
ghost use Rattle.nn_script.specs.Reading.{reading_of, command_on, command_by, change_by, bare, IsInRange};

use crate::argument::{label, mode, number, path, quota};
use crate::verb::{Change, Verb};
use crate::words::{first_word, no_word, one_word, three_words, two_words};
use crate::{ScriptCommand, Syntax};
use nn_base::limits::MOST_LINE;
use nn_base::{Path, PathFault};
use nn_ops::Command;
use nn_quota::Quota;
use std::alloc::Global;

/// What a line asks for. The line is given without its newline and the carriage return before that.
/// None stands for a line without an answer: an empty one, and one that begins with `#`. The fault is
/// the first in the order of `Syntax`. Memory is taken for the names of a path, and for the bytes of
/// a path, an owner or a group that has escapes.
#[tactic(auto, unfolding(crate::specs::Reading::reading_of))]
pub fn line_read(alloc: Global, line: &[u8]) -> Result<Option<ScriptCommand>, Syntax>
    ensures ok { IfOk result (λ read. reading_of line.now ≡ Ok read) }
    ensures range { IfOk result (λ read. IfSome read IsInRange) }
    ensures err { IfErr result (λ fault. fault ≢ Syntax.Memory → reading_of line.now ≡ Err fault) }
    ensures memory { IfErr result (λ fault. fault ≢ Syntax.Path PathFault.Memory) }
{
    if has_no_answer(line) {
        return Ok(None);
    }
    let command = command_on(alloc, line)?;
    Ok(Some(command))
}

fn has_no_answer(line: &[u8]) -> bool
    ensures { result ≡ has_no_answer line.now }
{
    match line {
        [] => true,
        [byte, ..] => *byte == b'#',
    }
}

fn command_on(alloc: Global, line: &[u8]) -> Result<ScriptCommand, Syntax>
    ensures value { arguments.Gives (λ command. command) result (command_on line.now) }
    ensures range { IfOk result IsInRange }
{
    if MOST_LINE < line.len() {
        return Err(Syntax::Long);
    }
    match look_at(line) {
        Look::NoText => return Err(Syntax::Byte),
        Look::EmptyWord => return Err(Syntax::Words),
        Look::Words => (),
    }
    let (word, rest) = first_word(line);
    let verb = Verb::of(word).ok_or(Syntax::Unknown)?;
    command_by(alloc, verb, rest)
}

// What a line is, before its words are read.
#[derive(Clone, Copy)]
enum Look {
    // It has another byte than a space and those that ASCII prints.
    NoText,
    // Of its words one is empty.
    EmptyWord,
    Words,
}

// A line is looked at in one pass: an empty word is a space behind another, at the begin or at the end.
fn look_at(line: &[u8]) -> Look
    ensures bytes { result ≡ Look.NoText → list_all is_line_byte line.now ≡ false }
    ensures text { result ≢ Look.NoText → list_all is_line_byte line.now ≡ true }
    ensures empty { result ≡ Look.EmptyWord → list_any (λ word. length word == 0) (words line.now) ≡ true }
    ensures full { result ≡ Look.Words → list_any (λ word. length word == 0) (words line.now) ≡ false }
{
    let mut begin = 0;
    for i in 0..line.len() {
        let byte = line[i];
        if b'!' <= byte && byte <= b'~' {
            continue;
        }
        if byte != b' ' {
            return Look::NoText;
        }
        if begin == i {
            if is_text(&line[i..]) {
                return Look::EmptyWord;
            }
            return Look::NoText;
        }
        begin = i + 1;
    }
    if begin == line.len() {
        Look::EmptyWord
    } else {
        Look::Words
    }
}

fn is_text(line: &[u8]) -> bool
    ensures { result ≡ list_all is_line_byte line.now }
{
    line.iter().all(|byte| b' ' <= *byte && *byte <= b'~')
}

fn command_by(alloc: Global, verb: Verb, rest: Option<&[u8]>) -> Result<ScriptCommand, Syntax>
    ensures value { arguments.Gives (λ command. command) result
        (command_by verb (words_behind (option_copied rest.entry))) }
    ensures range { IfOk result IsInRange }
{
    match verb {
        Verb::Change(change) => Ok(ScriptCommand::Namespace(change_by(alloc, change, rest)?)),
        Verb::Clock => Ok(ScriptCommand::Clock(one_number(rest)?)),
        Verb::List => Ok(ScriptCommand::List(one_path(alloc, rest)?)),
        Verb::Dirs => alone(rest, ScriptCommand::Dirs),
        Verb::Roll => alone(rest, ScriptCommand::Roll),
        Verb::Checkpoint => alone(rest, ScriptCommand::Checkpoint),
        Verb::Finalize => alone(rest, ScriptCommand::Finalize),
        Verb::Restore => Ok(ScriptCommand::Restore(one_number(rest)?)),
    }
}

// A command without arguments.
fn alone(rest: Option<&[u8]>, command: ScriptCommand) -> Result<ScriptCommand, Syntax>
    ensures { arguments.Gives (λ command. command) result
        (bare command (words_behind (option_copied rest.entry))) }
{
    no_word(rest)?;
    Ok(command)
}

fn change_by(alloc: Global, change: Change, rest: Option<&[u8]>) -> Result<Command, Syntax>
    ensures value { arguments.Gives (λ command. command) result
        (change_by change (words_behind (option_copied rest.entry))) }
    ensures range { IfOk result IsCommand }
{
    match change {
        Change::Mkdir => Ok(Command::Mkdir {
            path: one_path(alloc, rest)?,
        }),
        Change::Close => Ok(Command::Close {
            path: one_path(alloc, rest)?,
        }),
        Change::Delete => Ok(Command::Delete {
            path: one_path(alloc, rest)?,
        }),
        Change::Create => {
            let (path, replication) = path_and_number(alloc, rest)?;
            Ok(Command::Create { path, replication })
        }
        Change::Block => {
            let (path, length) = path_and_number(alloc, rest)?;
            Ok(Command::AddBlock { path, length })
        }
        Change::Setrep => {
            let (path, replication) = path_and_number(alloc, rest)?;
            Ok(Command::Setrep { path, replication })
        }
        Change::Rename => rename(alloc, rest),
        Change::Chmod => chmod(alloc, rest),
        Change::Chown => chown(alloc, rest),
        Change::Quota => set_quota(alloc, rest),
    }
}

fn rename(alloc: Global, rest: Option<&[u8]>) -> Result<Command, Syntax>
    ensures value { arguments.Gives (λ command. command) result
        (change_by Change.Rename (words_behind (option_copied rest.entry))) }
    ensures range { IfOk result IsCommand }
{
    let (from, to) = two_words(rest)?;
    let from = path(alloc, from)?;
    let to = path(alloc, to)?;
    Ok(Command::Rename { from, to })
}

fn chmod(alloc: Global, rest: Option<&[u8]>) -> Result<Command, Syntax>
    ensures value { arguments.Gives (λ command. command) result
        (change_by Change.Chmod (words_behind (option_copied rest.entry))) }
    ensures range { IfOk result IsCommand }
{
    let (path_word, mode_word) = two_words(rest)?;
    let path = path(alloc, path_word)?;
    let mode = mode(mode_word)?;
    Ok(Command::Chmod { path, mode })
}

fn chown(alloc: Global, rest: Option<&[u8]>) -> Result<Command, Syntax>
    ensures value { arguments.Gives (λ command. command) result
        (change_by Change.Chown (words_behind (option_copied rest.entry))) }
    ensures range { IfOk result IsCommand }
{
    let (path_word, owner_word, group_word) = three_words(rest)?;
    let path = path(alloc, path_word)?;
    let owner = label(alloc, owner_word)?;
    let group = label(alloc, group_word)?;
    Ok(Command::Chown { path, owner, group })
}

fn set_quota(alloc: Global, rest: Option<&[u8]>) -> Result<Command, Syntax>
    ensures value { arguments.Gives (λ command. command) result
        (change_by Change.Quota (words_behind (option_copied rest.entry))) }
    ensures range { IfOk result IsCommand }
{
    let (path_word, names_word, space_word) = three_words(rest)?;
    let path = path(alloc, path_word)?;
    let names = quota(names_word)?;
    let space = quota(space_word)?;
    Ok(Command::SetQuota {
        path,
        quota: Quota { names, space },
    })
}

fn path_and_number(alloc: Global, rest: Option<&[u8]>) -> Result<(Path, u64), Syntax>
    ensures { arguments.Gives (λ x. (x.0, x.1)) result
        (arguments.two arguments.path_at arguments.number_at
        (words_behind (option_copied rest.entry))) }
{
    let (path_word, number_word) = two_words(rest)?;
    let path = path(alloc, path_word)?;
    let number = number(number_word)?;
    Ok((path, number))
}

fn one_path(alloc: Global, rest: Option<&[u8]>) -> Result<Path, Syntax>
    ensures { arguments.Gives (λ path. path) result
        (arguments.one arguments.path_at (words_behind (option_copied rest.entry))) }
{
    let word = one_word(rest)?;
    path(alloc, word)
}

fn one_number(rest: Option<&[u8]>) -> Result<u64, Syntax>
    ensures value { arguments.Gives (λ n. n) result
        (arguments.one arguments.number_at (words_behind (option_copied rest.entry))) }
    ensures range { IfOk result IsLong }
{
    let word = one_word(rest)?;
    number(word)
}
