// Options at the head of words.
ghost use Rattle.std.specs.Prelude.{◌≡◌, List, [], ◌∷◌, ◌++◌, IsTrue, MatchOption};
ghost use Rattle.nn_top.specs.Words.{Word as W, texts};
ghost use Rattle.nn_top.specs.Words.{can_stand_apart as stands_apart};
ghost use Rattle.nn_top.specs.Begins.{BeginWith};
ghost use Rattle.nn_top.specs.Options.{text_of, IsTaken, BeginWithNone};

/// An option of some command.
#[derive(Clone, Copy, Debug, PartialEq, Eq)]
pub enum OptionName {
    /// `--cluster`, the id of a new cluster.
    Cluster,
    /// `--namespace`, the number of a new namespace.
    Namespace,
    /// `--at`, the clock as a run starts, in milliseconds.
    At,
    /// `--generate`, for how many files the lines of a run are generated.
    Generate,
}

impl OptionName {
    fn text(self) -> &'static [u8]
        ensures { result.now ≡ text_of self }
    {
        match self {
            OptionName::Cluster => b"--cluster",
            OptionName::Namespace => b"--namespace",
            OptionName::At => b"--at",
            OptionName::Generate => b"--generate",
        }
    }
}

/// The option with which the words begin, if it is one of these, its value, and the words behind that.
pub fn first_option<'a>(
    names: &[OptionName],
    words: &'a [String],
) -> Option<(OptionName, &'a [u8], &'a [String])>
    ensures { MatchOption result (BeginWithNone names.now (texts words.now)) (λ found. IsTaken names.now found.0 × BeginWith (texts words.now) (text_of found.0) found.1.now (texts found.2.now)) }
{
    let (name, later) = names.split_first()?;
    match option_at(words, name.text()) {
        Some((value, rest)) => Some((*name, value, rest)),
        None => first_option(later, words),
    }
}

// The value with which the words give this option first of all, and the words behind it.
fn option_at<'a>(words: &'a [String], option: &[u8]) -> Option<(&'a [u8], &'a [String])>
    ensures { MatchOption result ((value : W) (rest : List W) → BeginWith (texts words.now) option.now value rest → ⊥) (λ found. BeginWith (texts words.now) option.now found.0.now (texts found.1.now)) }
{
    let (first, later) = words.split_first()?;
    let ending = first.as_bytes().strip_prefix(option)?;
    if ending.is_empty() {
        return value_apart(later);
    }
    let value = ending.strip_prefix(b"=")?;
    Some((value, later))
}

// The first word as the value of the option before it, and the words behind it.
fn value_apart(words: &[String]) -> Option<(&[u8], &[String])>
    ensures { MatchOption result ((value : W) (rest : List W) → texts words.now ≡ value ∷ rest → IsTrue (stands_apart value) → ⊥) (λ found. (texts words.now ≡ found.0.now ∷ texts found.1.now) × IsTrue (stands_apart found.0.now)) }
{
    let (value, later) = words.split_first()?;
    if can_stand_apart(value.as_bytes()) {
        Some((value.as_bytes(), later))
    } else {
        None
    }
}

fn can_stand_apart(value: &[u8]) -> bool
    ensures { result ≡ stands_apart value.now }
{
    match value {
        [] => true,
        [first, ..] => *first != b'-',
    }
}
