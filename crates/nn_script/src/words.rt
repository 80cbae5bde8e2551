// The words of a line.
ghost use Rattle.std.specs.Prelude.{◌≡◌, ◌==◌, ◌<◌, ◌∷◌, length, Ok, IfSome};
ghost use Rattle.std.specs.List.{slice_split, position};
ghost use Rattle.std.specs.Option.{option_copied};
ghost use Rattle.nn_script.specs.Words.{words, words_behind, pieces_behind};
ghost use Rattle.nn_script.specs.Arguments as arguments;

use crate::Syntax;

// What stands before the first such byte and what stands behind it.
pub(crate) fn cut(text: &[u8], mark: u8) -> (&[u8], Option<&[u8]>)
    ensures pieces { slice_split (λ byte. byte == mark) text.now
        ≡ result.0.now ∷ pieces_behind mark (option_copied result.1) }
    ensures shorter { IfSome (option_copied result.1) (λ rest. length rest < length text.now) }
{
    match place_of(text, mark) {
        Some(end) => (&text[..end], Some(&text[end + 1..])),
        None => (text, None),
    }
}

fn place_of(text: &[u8], mark: u8) -> Option<usize>
    ensures { result ≡ position (λ byte. byte == mark) text.now }
{
    text.iter().position(|byte| *byte == mark)
}

pub(crate) fn first_word(text: &[u8]) -> (&[u8], Option<&[u8]>)
    ensures { words text.now ≡ result.0.now ∷ words_behind (option_copied result.1) }
{
    cut(text, b' ')
}

#[tactic(auto, using(crate::proofs::CutLemmas::some_piece))]
pub(crate) fn no_word(rest: Option<&[u8]>) -> Result<(), Syntax>
    ensures { arguments.Gives (λ x. x) result
        (arguments.no_word (words_behind (option_copied rest.entry))) }
{
    match rest {
        Some(_) => Err(Syntax::Words),
        None => Ok(()),
    }
}

pub(crate) fn one_word(rest: Option<&[u8]>) -> Result<&[u8], Syntax>
    ensures { arguments.Gives (λ word. word.now) result
        (arguments.one_word (words_behind (option_copied rest.entry))) }
{
    let Some(text) = rest else {
        return Err(Syntax::Words);
    };
    let (word, rest) = first_word(text);
    no_word(rest)?;
    Ok(word)
}

pub(crate) fn two_words(rest: Option<&[u8]>) -> Result<(&[u8], &[u8]), Syntax>
    ensures { arguments.Gives (λ pair. (pair.0.now, pair.1.now)) result
        (arguments.two_words (words_behind (option_copied rest.entry))) }
{
    let Some(text) = rest else {
        return Err(Syntax::Words);
    };
    let (first, rest) = first_word(text);
    let second = one_word(rest)?;
    Ok((first, second))
}

pub(crate) fn three_words(rest: Option<&[u8]>) -> Result<(&[u8], &[u8], &[u8]), Syntax>
    ensures { arguments.Gives (λ all. (all.0.now, all.1.now, all.2.now)) result
        (arguments.three_words (words_behind (option_copied rest.entry))) }
{
    let Some(text) = rest else {
        return Err(Syntax::Words);
    };
    let (first, rest) = first_word(text);
    let (second, third) = two_words(rest)?;
    Ok((first, second, third))
}
