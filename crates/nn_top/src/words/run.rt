// The words of `run`.
ghost use Rattle.std.specs.Prelude.{◌≡◌, option_map};
ghost use Rattle.nn_top.specs.Words.{texts};
ghost use Rattle.nn_top.specs.Parts.{parts_of};
ghost use Rattle.nn_top.specs.Commands.{at_in, generated_in, run_in, run_options, wanted_in};
ghost use Rattle.nn_top.specs.Options.{given_value};

use super::generate::count_of;
use super::line::line_of;
use super::options::OptionName;
use super::{Command, are_dirs};
use nn_base::decimal;

/// `run` with the words behind it.
pub fn run_asked(words: &[String]) -> Option<Command<'_>>
    ensures { option_map wanted_in result ≡ run_in (parts_of run_options (texts words.now)) }
{
    let (values, dirs) = line_of(&[OptionName::At, OptionName::Generate], words)?;
    if !are_dirs(dirs) {
        return None;
    }
    let at = time_of(values.at)?;
    let generated = generated_of(values.generate)?;
    Some(Command::Run {
        at,
        generated,
        dirs,
    })
}

// The clock as the run starts.
fn time_of(value: Option<&[u8]>) -> Option<u64>
    ensures { result ≡ at_in (given_value value.entry) }
{
    match value {
        Some(value) => decimal::number(value),
        None => Some(0),
    }
}

// For how many files its lines are generated, if they are.
fn generated_of(value: Option<&[u8]>) -> Option<Option<u32>>
    ensures { result ≡ generated_in (given_value value.entry) }
{
    match value {
        Some(value) => Some(Some(count_of(value)?)),
        None => Some(None),
    }
}
