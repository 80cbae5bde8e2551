// The string table of an image, as it is read.
ghost use Rattle.std.specs.Prelude.{◌≡◌, ◌≢◌, ◌+◌, ◌-◌, ◌^◌, ◌<◌, ◌≤◌, ◌⊎◌, List, [], ◌∷◌, ◌++◌, length, All, Err, IfOk, OnOk, true, false, map, bytes_eq};
ghost use Rattle.std.specs.List.{list_any};
ghost use Rattle.nn_base.specs.Labels.{IsLabel};
ghost use Rattle.nn_base.specs.Limits.{most_image};
ghost use Rattle.nn_image.specs.declared.unmade.Unmade.TheVariants as unmade;
ghost use Rattle.nn_message.specs.Messages.{Text, IsText};
ghost use Rattle.nn_image.specs.Building.{texts_text, are_table};

use crate::unmade::Unmade;
use nn_message::take_string;
use nn_strtab::Names;
use std::alloc::Global;

/// Gives a name the next number, where that is its number and it has none yet.
fn add_name(names: &mut Names, number: u64, text: &[u8]) -> Result<(), Unmade>
    requires { length names.old < 2 ^ 32 - 1 }
    ensures number { OnOk result (number ≡ length names.old + 1) }
    ensures added { OnOk result (names.new ≡ names.old ++ text.now ∷ []) }
    ensures once { OnOk result (list_any (bytes_eq text.now) names.old ≡ false) }
    ensures tree { result ≡ Err unmade.Tree → (number ≢ length names.old + 1) ⊎ (list_any (bytes_eq text.now) names.old ≡ true) }
{
    let next = names.len() + 1;
    if number != u64::from(next) {
        return Err(Unmade::Tree);
    }
    let found = names.number_of(text)?;
    if found != next {
        return Err(Unmade::Tree);
    }
    Ok(())
}

/// The names of these messages, which are numbered from 1 in their order. No name stands twice. An image has at most
/// 2^30 bytes, so there are fewer names than numbers.
pub(crate) fn read_table(alloc: Global, texts: &[u8]) -> Result<Names, Unmade>
    requires { length texts.now ≤ most_image }
    ensures labels { IfOk result (λ names. All IsLabel names) }
    ensures ok { (entries : List Text) → All IsText entries → texts.now ≡ texts_text entries → IfOk result (λ names.
        (names ≡ map (λ t. t.text) entries) × (are_table entries ≡ true)) }
    ensures tree { (entries : List Text) → All IsText entries → texts.now ≡ texts_text entries → result ≡ Err unmade.Tree → are_table entries ≡ false }
{
    let mut names = Names::new(alloc);
    let mut rest = texts;
    'texts: while !rest.is_empty() {
        let Some((number, text)) = take_string(&mut rest) else {
            return Err(Unmade::Tree);
        };
        match add_name(&mut names, number, text) {
            Ok(()) => {}
            Err(unmade) => return Err(unmade),
        }
    }
    Ok(names)
}
