// The words of `format`.
ghost use Rattle.std.specs.Prelude.{◌≡◌, option_and_then, option_map};
ghost use Rattle.nn_top.specs.Words.{texts};
ghost use Rattle.nn_top.specs.Parts.{parts_of};
ghost use Rattle.nn_top.specs.Commands.{once, cluster_in, namespace_in, format_in, format_options, wanted_in};
ghost use Rattle.nn_top.specs.Options.{given_value};

use super::line::line_of;
use super::options::OptionName;
use super::{Command, are_dirs};
use nn_base::{Word, decimal};

// The largest number of a namespace, Java's largest `int`.
const MAX_NAMESPACE: u64 = 2_147_483_647;

/// `format` with the words behind it.
pub fn format_asked(words: &[String]) -> Option<Command<'_>>
    ensures { option_map wanted_in result ≡ format_in (parts_of format_options (texts words.now)) }
{
    let (values, dirs) = line_of(&[OptionName::Cluster, OptionName::Namespace], words)?;
    if !are_dirs(dirs) {
        return None;
    }
    let cluster = cluster_of(values.cluster)?;
    let namespace = namespace_of(values.namespace)?;
    Some(Command::Format {
        cluster,
        namespace,
        dirs,
    })
}

fn cluster_of(value: Option<&[u8]>) -> Option<Word>
    ensures { result ≡ option_and_then cluster_in (once (given_value value.entry)) }
{
    Word::of(value?)
}

fn namespace_of(value: Option<&[u8]>) -> Option<u32>
    ensures { result ≡ option_and_then namespace_in (once (given_value value.entry)) }
{
    let number = decimal::number(value?)?;
    if 1 <= number && number <= MAX_NAMESPACE {
        Some(number as u32)
    } else {
        None
    }
}
