// What the reading of words tests in ways of its own: the values of options, and how directories stand.
use nn_base::limits::MOST_DIRS;
use nn_base::{Word, decimal};
use nn_generate::MOST_FILES;

/// An option that takes a value.
#[derive(Clone, Copy)]
pub enum Choice {
    /// `--cluster`, of `format`.
    Cluster,
    /// `--namespace`, of `format`.
    Namespace,
    /// `--at`, of `run`.
    At,
    /// `--generate`, of `run`. The command `generate` takes the same number.
    Generate,
}

impl Choice {
    /// Its name, without the `--` before it.
    pub fn name<'a>(self) -> &'a str {
        match self {
            Choice::Cluster => "cluster",
            Choice::Namespace => "namespace",
            Choice::At => "at",
            Choice::Generate => "generate",
        }
    }

    /// What it takes, in words.
    pub fn takes(self) -> &'static str {
        match self {
            Choice::Cluster => "1 to 255 bytes that print, without spaces",
            Choice::Namespace => "a number from 1 to 2147483647",
            Choice::At => "milliseconds, from 0 to 9223372036854775807",
            Choice::Generate => "a number from 1 to 500000",
        }
    }

    fn fits(self, value: &str) -> bool {
        match self {
            Choice::Cluster => Word::of(value.as_bytes()).is_some(),
            Choice::Namespace => match decimal::number(value.as_bytes()) {
                Some(number) => 1 <= number && number <= 2_147_483_647,
                None => false,
            },
            Choice::At => decimal::number(value.as_bytes()).is_some(),
            Choice::Generate => is_count(value),
        }
    }
}

/// What is wrong with a word.
#[derive(Clone, Copy)]
pub enum Flaw<'a> {
    /// A value that isn't what its option takes.
    Value(Choice, &'a str),
    /// A word behind an option that can't be its value, since it begins with `-`.
    Dashed(Choice, &'a str),
    /// An option without a value: no word stands behind it.
    Bare(Choice),
    /// A directory that doesn't follow the others: an option or a `--` stands before it.
    Apart(&'a str),
    /// A directory without a name.
    Unnamed,
    /// A directory that was given before.
    Again(&'a str),
    /// A directory behind the eighth.
    TooMany(&'a str),
    /// What stands in the place of the number of files, and is none that `generate` takes.
    Count(&'a str),
}

/// The first flaw of the words behind a command that takes these options. None doesn't mean that they have a reading: a word that is
/// neither an option of these nor a directory, and what is lacking, isn't looked for.
pub fn flaw_of<'a>(choices: &[Choice], words: &'a [String]) -> Option<Flaw<'a>> {
    let mut rest = words;
    let mut dirs: &'a [String] = &[];
    'parts: for _ in 0..words.len() {
        let (word, later) = rest.split_first()?;
        let word = word.as_str();
        if word == "--" || is_plain(word) {
            let (names, behind) = names_of(word, rest, later);
            if !dirs.is_empty() && !names.is_empty() {
                return Some(Flaw::Apart(names[0].as_str()));
            }
            if dirs.is_empty() {
                dirs = names;
            }
            if let Some(flaw) = flaw_among(dirs) {
                return Some(flaw);
            }
            rest = behind;
            continue;
        }
        let (choice, joined) = given_by(choices, word)?;
        let (value, behind) = match joined {
            Some(value) => (value, later),
            None => match later.split_first() {
                Some((value, behind)) => (value.as_str(), behind),
                None => return Some(Flaw::Bare(choice)),
            },
        };
        if joined.is_none() && value.starts_with('-') {
            return Some(Flaw::Dashed(choice, value));
        }
        if !choice.fits(value) {
            return Some(Flaw::Value(choice, value));
        }
        rest = behind;
    }
    None
}

/// The flaw of the first word behind `generate`, which is its number.
pub fn count_flaw(words: &[String]) -> Option<Flaw<'_>> {
    let word = words.first()?.as_str();
    if is_count(word) {
        None
    } else {
        Some(Flaw::Count(word))
    }
}

fn is_count(word: &str) -> bool {
    match decimal::number(word.as_bytes()) {
        Some(number) => 1 <= number && number <= u64::from(MOST_FILES),
        None => false,
    }
}

// The directories that stand here, and the words behind them: all behind a `--`, and else those up to the next option.
fn names_of<'a>(
    word: &str,
    rest: &'a [String],
    later: &'a [String],
) -> (&'a [String], &'a [String]) {
    if word == "--" {
        return (later, &[]);
    }
    let count = rest
        .iter()
        .take_while(|name| is_plain(name.as_str()))
        .count();
    rest.split_at(count)
}

fn is_plain(word: &str) -> bool {
    word == "-" || !word.starts_with('-')
}

fn flaw_among(dirs: &[String]) -> Option<Flaw<'_>> {
    'dirs: for at in 0..dirs.len() {
        let dir = dirs[at].as_str();
        if dir.is_empty() {
            return Some(Flaw::Unnamed);
        }
        if dirs[..at].iter().any(|before| before.as_str() == dir) {
            return Some(Flaw::Again(dir));
        }
        if MOST_DIRS <= at {
            return Some(Flaw::TooMany(dir));
        }
    }
    None
}

// The option that a word is, and the value that is joined to it, if one is.
fn given_by<'a>(choices: &[Choice], word: &'a str) -> Option<(Choice, Option<&'a str>)> {
    let text = word.strip_prefix("--")?;
    'choices: for choice in choices {
        match text.strip_prefix(choice.name()) {
            Some("") => return Some((*choice, None)),
            Some(ending) => {
                if let Some(value) = ending.strip_prefix('=') {
                    return Some((*choice, Some(value)));
                }
            }
            None => {}
        }
    }
    None
}
