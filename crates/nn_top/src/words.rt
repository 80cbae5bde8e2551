// The words of the command line.
ghost use Rattle.std.specs.Prelude.{IfOk, ◌∷◌, ◌++◌, codes, MatchOption, ◌≡◌, ◌≢◌, ◌<◌, ◌≤◌, ◌↔◌, List, [], length, IsTrue, IfSome, IfNone, true, false, map, Some, None, option_map, not};
ghost use Rattle.std.specs.List.{list_all, list_any, prefix_len};
ghost use Rattle.std.specs.Str.{bytes_eq};
ghost use Rattle.std.specs.String.{string_bytes};
ghost use Rattle.nn_top.specs.Words.{Word as W, texts, is_plain, is_named, are_distinct, are_dirs};
ghost use Rattle.nn_top.specs.Parts.{Dir, parts_of, is_dir};
ghost use Rattle.nn_top.specs.Begins.{IsEnd, begins};
ghost use Rattle.nn_top.specs.Wanted.{dirs_in};
ghost use Rattle.nn_top.specs.Commands.{states_in, dry_in, wanted_by, HaveNoReading, wanted_in};

mod format;
mod generate;
mod line;
mod options;
mod run;

use format::format_asked;
use generate::generate_asked;
use line::line_of;
use nn_base::Word;
use nn_base::limits::MOST_DIRS;
use run::run_asked;
use std::alloc::{AllocError, Global};
use thiserror::Error;

/// What the words of a command line ask for.
#[derive(Clone, Copy)]
pub enum Command<'a> {
    /// `state DIRS`: what each directory is in the middle of.
    State {
        dirs: &'a [String],
    },
    /// `format --cluster C --namespace N DIRS`: new name directories of the cluster whose id is C, with the number N of a
    /// namespace.
    Format {
        cluster: Word,
        namespace: u32,
        dirs: &'a [String],
    },
    /// `dry`: a script on a namespace in memory alone. It has no directories.
    Dry,
    /// `generate N`: the script of N generated files, which is said. It has no directories.
    Generate {
        count: u32,
    },
    /// `run --at T --generate N DIRS`: a script on the namespace that the directories hold, where the clock is at T milliseconds
    /// at first, or at 0. The script is that of N generated files, where N is given.
    Run {
        at: u64,
        generated: Option<u32>,
        dirs: &'a [String],
    },
}

/// Why words give no directories.
#[derive(Clone, Copy, Debug, PartialEq, Eq, Error)]
pub enum WordsFault {
    /// The words have no reading.
    #[error("usage")]
    Usage,
    /// Memory ran out. The words have a reading then.
    #[error("no memory")]
    Memory,
}

/// The directories of the words, in the order of the words.
pub fn dirs_of(alloc: Global, words: &[String]) -> Result<Vec<String>, WordsFault>
    ensures ok { IfOk result (λ dirs. (wanted : _) × (wanted_by (texts words.now) ≡ Some wanted) × (texts dirs.items ≡ dirs_in wanted)) }
    ensures usage { (result ≡ Err WordsFault.Usage) ↔ HaveNoReading (texts words.now) }
{
    let Some(command) = command_of(words) else {
        return Err(WordsFault::Usage);
    };
    match copied(alloc, command.dirs()) {
        Ok(dirs) => Ok(dirs),
        Err(_) => Err(WordsFault::Memory),
    }
}

impl<'a> Command<'a> {
    /// The directories on which it is done, in the order of the words.
    pub fn dirs(&self) -> &'a [String]
        ensures { texts result.now ≡ dirs_in (wanted_in self.now) }
    {
        match self {
            Command::State { dirs } | Command::Format { dirs, .. } | Command::Run { dirs, .. } => {
                dirs
            }
            Command::Dry | Command::Generate { .. } => &[],
        }
    }
}

/// The command that the words ask for, or none where they have no reading.
pub fn command_of(words: &[String]) -> Option<Command<'_>>
    ensures some { IfSome result (λ command. wanted_by (texts words.now) ≡ Some (wanted_in command)) }
    ensures none { IfNone result (HaveNoReading (texts words.now)) }
{
    let (command, later) = words.split_first()?;
    if command.as_str() == "state" {
        return states_asked(later);
    }
    if command.as_str() == "format" {
        return format_asked(later);
    }
    if command.as_str() == "dry" {
        return dry_asked(later);
    }
    if command.as_str() == "generate" {
        return generate_asked(later);
    }
    if command.as_str() == "run" {
        return run_asked(later);
    }
    None
}

fn copied(alloc: Global, words: &[String]) -> Result<Vec<String>, AllocError>
    ensures { IfOk result (λ copies. texts copies.items ≡ texts words.now) }
{
    let mut copies = Vec::with_capacity(alloc, words.len())?;
    for word in words {
        copies.push(String::from_str(alloc, word.as_str())?)?;
    }
    Ok(copies)
}

// `state` with the words behind it.
fn states_asked(words: &[String]) -> Option<Command<'_>>
    ensures { option_map wanted_in result ≡ states_in (parts_of [] (texts words.now)) }
{
    let (_, dirs) = line_of(&[], words)?;
    if are_dirs(dirs) {
        Some(Command::State { dirs })
    } else {
        None
    }
}

// `dry` with the words behind it.
fn dry_asked(words: &[String]) -> Option<Command<'_>>
    ensures { option_map wanted_in result ≡ dry_in (parts_of [] (texts words.now)) }
{
    let (_, dirs) = line_of(&[], words)?;
    if dirs.is_empty() {
        Some(Command::Dry)
    } else {
        None
    }
}

// Whether nothing is left, or a last `--`.
fn is_end(words: &[String]) -> bool
    ensures { IsTrue result ↔ IsEnd (texts words.now) }
{
    match after_mark(words) {
        Some(later) => later.is_empty(),
        None => words.is_empty(),
    }
}

// What stands behind a first `--`.
fn after_mark(words: &[String]) -> Option<&[String]>
    ensures { MatchOption result ((dirs : List W) → texts words.now ≢ codes "--" ∷ dirs) (λ dirs. texts words.now ≡ codes "--" ∷ texts dirs.now) }
{
    let (first, dirs) = words.split_first()?;
    if first.as_str() == "--" {
        Some(dirs)
    } else {
        None
    }
}

// The plain words that these words begin with, and the words behind those.
fn plain_split(words: &[String]) -> (&[String], &[String])
    ensures parts { (names : List W) → parts_of names (texts words.now) ≡ map Dir (texts result.0.now) ++ parts_of names (texts result.1.now) }
    ensures rest { (names : List W) → begins is_dir (parts_of names (texts result.1.now)) ≡ false }
    ensures none { texts result.0.now ≡ [] → texts result.1.now ≡ texts words.now }
{
    words.split_at(plain_count(words))
}

fn plain_count(words: &[String]) -> usize
    ensures { result ≡ prefix_len (λ word. is_plain (string_bytes word)) words.now }
{
    words
        .iter()
        .take_while(|word| is_plain(word.as_bytes()))
        .count()
}

fn is_plain(word: &[u8]) -> bool
    ensures { result ≡ is_plain word.now }
{
    match word {
        [] | [_] => true,
        [first, ..] => *first != b'-',
    }
}

fn are_dirs(dirs: &[String]) -> bool
    ensures { result ≡ are_dirs (texts dirs.now) }
{
    if dirs.is_empty() || MOST_DIRS < dirs.len() {
        return false;
    }
    if !are_named(dirs) {
        return false;
    }
    are_distinct(dirs)
}

fn are_named(dirs: &[String]) -> bool
    ensures { result ≡ list_all (λ dir. is_named (string_bytes dir)) dirs.now }
{
    dirs.iter().all(|dir| !dir.as_bytes().is_empty())
}

fn are_distinct(dirs: &[String]) -> bool
    ensures { result ≡ are_distinct (texts dirs.now) }
{
    match dirs.split_first() {
        Some((first, later)) => !is_among(first.as_str(), later) && are_distinct(later),
        None => true,
    }
}

fn is_among(dir: &str, others: &[String]) -> bool
    ensures { result ≡ list_any (λ other. bytes_eq dir.now (string_bytes other)) others.now }
{
    others.iter().any(|other| dir == other.as_str())
}
