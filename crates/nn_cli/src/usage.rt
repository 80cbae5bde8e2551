// Which word of a command line has no reading, and the forms of its command, for a person.
//
// Whether words have a reading is for `command_of` of nn_top to say. Of words that have none, what the reading tests in ways of its
// own is looked for first; the rest is what `clap` says of a command of the same options and directories.
use crate::flaw::{Choice, Flaw, count_flaw, flaw_of};
use clap::error::ErrorKind;
use clap::{Arg, ArgAction, Command, Error};
use std::alloc::{AllocError, Global};

const ALL: &str = "namenode state DIR..
       namenode format --cluster C --namespace N DIR..
       namenode dry < SCRIPT
       namenode run [--at T] DIR.. < SCRIPT
       namenode run [--at T] --generate N DIR..
       namenode generate N";

#[derive(Clone, Copy)]
enum Form {
    State,
    Format,
    Dry,
    Run,
    Generate,
}

impl Form {
    fn of(word: &str) -> Option<Form> {
        match word {
            "state" => Some(Form::State),
            "format" => Some(Form::Format),
            "dry" => Some(Form::Dry),
            "run" => Some(Form::Run),
            "generate" => Some(Form::Generate),
            _ => None,
        }
    }

    fn usage<'a>(self) -> &'a str {
        match self {
            Form::State => "namenode state DIR..",
            Form::Format => "namenode format --cluster C --namespace N DIR..",
            Form::Dry => "namenode dry < SCRIPT",
            Form::Run => "namenode run [--at T] DIR.. < SCRIPT
       namenode run [--at T] --generate N DIR..",
            Form::Generate => "namenode generate N",
        }
    }

    fn flaw<'a>(self, words: &'a [String]) -> Option<Flaw<'a>> {
        match self {
            Form::State | Form::Dry => flaw_of(&[], words),
            Form::Format => flaw_of(&[Choice::Cluster, Choice::Namespace], words),
            Form::Run => flaw_of(&[Choice::At, Choice::Generate], words),
            Form::Generate => count_flaw(words),
        }
    }
}

/// Says on the standard error which of the words has no reading, and the forms of the command.
pub fn explain_usage<R: Eprint>(rt: &R, alloc: Global, words: &[String]) {
    let _ = match error_of(alloc, words) {
        Ok(error) | Err(error) => rt.eprint(error),
    };
}

// Either is for the person. An `Err` is what `clap` found, or want of memory.
fn error_of(alloc: Global, words: &[String]) -> Result<Error, Error> {
    let Some((command, later)) = words.split_first() else {
        return error(
            forms(alloc),
            ErrorKind::MissingSubcommand,
            "a command is missing",
        );
    };
    let Some(form) = Form::of(command.as_str()) else {
        let message = format!(in alloc; "unrecognized command '{command}'")?;
        return error(forms(alloc), ErrorKind::InvalidSubcommand, message.as_str());
    };
    if let Some(flaw) = form.flaw(later) {
        let message = message_of(alloc, &flaw)?;
        return error(
            command_of(alloc, form)?,
            ErrorKind::ValueValidation,
            message.as_str(),
        );
    }
    command_of(alloc, form)?.try_get_matches_from(words)?;
    error(
        command_of(alloc, form)?,
        ErrorKind::UnknownArgument,
        "these words have no reading",
    )
}

fn error(mut command: Command<'_>, kind: ErrorKind, message: &str) -> Result<Error, Error> {
    Ok(command.error(kind, message)?)
}

fn forms<'a>(alloc: Global) -> Command<'a> {
    bare(alloc, "namenode", ALL)
}

// Help and version are words like any other.
fn bare<'a>(alloc: Global, name: &'a str, usage: &'a str) -> Command<'a> {
    Command::new(alloc, name)
        .override_usage(usage)
        .disable_help_flag(true)
        .disable_version_flag(true)
}

// A command: its options, and its directories or its number as the last words.
fn command_of<'a>(alloc: Global, form: Form) -> Result<Command<'a>, AllocError> {
    let command = bare(alloc, "namenode", form.usage());
    match form {
        Form::State => with_dirs(alloc, command),
        Form::Format => {
            let command = command
                .arg(option(alloc, Choice::Cluster, "C").required(true))?
                .arg(option(alloc, Choice::Namespace, "N").required(true))?;
            with_dirs(alloc, command)
        }
        Form::Dry => Ok(command),
        Form::Run => {
            let command = command
                .arg(option(alloc, Choice::At, "T"))?
                .arg(option(alloc, Choice::Generate, "N"))?;
            with_dirs(alloc, command)
        }
        Form::Generate => {
            let count = Arg::new(alloc, "count").value_name("N").required(true);
            command.arg(count)
        }
    }
}

fn option<'a>(alloc: Global, choice: Choice, value: &'a str) -> Arg<'a> {
    Arg::new(alloc, choice.name())
        .long(choice.name())
        .value_name(value)
        .action(ArgAction::Set)
}

fn with_dirs<'a>(alloc: Global, command: Command<'a>) -> Result<Command<'a>, AllocError> {
    let dirs = Arg::new(alloc, "dir")
        .value_name("DIR")
        .required(true)
        .num_args(1..)
        .action(ArgAction::Append);
    command.arg(dirs)
}

fn message_of(alloc: Global, flaw: &Flaw<'_>) -> Result<String, AllocError> {
    match flaw {
        Flaw::Value(choice, value) => {
            format!(in alloc;
                "'--{}' takes {}, and not '{value}'",
                choice.name(),
                choice.takes()
            )
        }
        Flaw::Dashed(choice, value) => {
            format!(in alloc;
                "'--{}' takes a value, and '{value}' behind it begins with '-'",
                choice.name()
            )
        }
        Flaw::Bare(choice) => {
            format!(in alloc;
                "'--{}' takes a value, and no word stands behind it",
                choice.name()
            )
        }
        Flaw::Apart(dir) => {
            format!(in alloc;
                "the directory '{dir}' stands apart from those before it: no option and no '--' may stand between"
            )
        }
        Flaw::Unnamed => format!(in alloc; "a directory is an empty word"),
        Flaw::Again(dir) => format!(in alloc; "the directory '{dir}' is given twice"),
        Flaw::TooMany(dir) => {
            format!(in alloc; "the directory '{dir}' is one too many: there are at most 8")
        }
        Flaw::Count(word) => {
            let takes = Choice::Generate.takes();
            format!(in alloc; "'generate' takes {takes}, and not '{word}'")
        }
    }
}
