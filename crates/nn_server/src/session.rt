// The answers to single lines.
ghost use Rattle.std.specs.Prelude.{◌≡◌, ◌<◌, ◌^◌, IfOk, OnOk};
ghost use Rattle.nn_ops.specs.Commands.{IsCommand};
ghost use Rattle.nn_ops.specs.Step.{step};
ghost use Rattle.nn_script.specs.declared.answer.Answer.TheVariants.{Dry};
ghost use Rattle.nn_script.specs.Reading.{IsInRange};
ghost use Rattle.nn_script.specs.Spelling.{IsSaid, answer_text};
ghost use Rattle.nn_script.specs.Answers.{answer_of, reply_to, change_reply};
ghost use Rattle.nn_script.specs.Answers.{first_state};
ghost use Rattle.nn_server.specs.Scene.{scene};
ghost use Rattle.nn_server.specs.Answered.{Answered, unless_failed};

use nn_base::NoMemory;
use nn_host::{Failed, Host};
use nn_ops::{Command, OpRefusal, apply, prepare};
use nn_say::{Speech, say_list};
use nn_script::{Answer, ScriptCommand, Syntax, line_read};
use nn_tree::Tree;
use std::alloc::Global;

/// Why an answer wasn't said whole.
#[derive(Clone, Copy, Debug, PartialEq, Eq)]
pub(crate) enum Unsaid {
    /// Memory ran out, before anything of the answer was said.
    Memory,
    /// The output failed.
    Output,
}

/// A namespace that the lines of a script change, and what time it is there.
#[derive(Drop)]
pub(crate) struct Session<T: Tree> {
    pub(crate) tree: T,
    pub(crate) time: u64,
    pub(crate) speech: Speech,
    ghost early: { time < 2 ^ 63 },
}

impl<T: Tree> Session<T> {
    // The empty namespace at the time 0.
    pub(crate) fn new(alloc: Global) -> Result<Session<T>, NoMemory>
        ensures { IfOk result (λ session.
            scene (T.meaning session.tree) session.time ≡ first_state) }
    {
        Ok(Session {
            tree: T::new(alloc)?,
            time: 0,
            speech: Speech::new(alloc)?,
        })
    }

    // Answers a line.
    pub(crate) fn answer<H: Host>(
        &mut self,
        alloc: Global,
        host: &mut H,
        line: &[u8],
    ) -> Result<(), Unsaid>
        ensures { Answered H.told (H.state host.old) (H.state host.new)
            (answer_of (scene (T.meaning self.old.tree) self.old.time) line.now)
            (scene (T.meaning self.new.tree) self.new.time) result }
    {
        match line_read(alloc, line) {
            Ok(None) => Ok(()),
            Ok(Some(command)) => self.answer_to(alloc, host, command),
            Err(Syntax::Memory) => Err(Unsaid::Memory),
            Err(fault) => unless_failed(self.speech.say(host, Answer::Unread(fault))),
        }
    }

    fn answer_to<H: Host>(
        &mut self,
        alloc: Global,
        host: &mut H,
        command: ScriptCommand,
    ) -> Result<(), Unsaid>
        requires { IsInRange command }
        ensures { Answered H.told (H.state host.old) (H.state host.new)
            (reply_to (scene (T.meaning self.old.tree) self.old.time) command)
            (scene (T.meaning self.new.tree) self.new.time) result }
    {
        match command {
            ScriptCommand::Namespace(change) => match self.change(alloc, change) {
                Ok(answer) => unless_failed(self.speech.say(host, answer)),
                Err(NoMemory) => Err(Unsaid::Memory),
            },
            ScriptCommand::Clock(time) => {
                self.time = time;
                unless_failed(self.speech.say(host, Answer::Done))
            }
            ScriptCommand::List(path) => {
                unless_failed(say_list(host, &self.tree, &path, &mut self.speech))
            }
            ScriptCommand::Dirs => self.refuse(host),
            ScriptCommand::Roll => self.refuse(host),
            ScriptCommand::Checkpoint => self.refuse(host),
            ScriptCommand::Finalize => self.refuse(host),
            ScriptCommand::Restore(_) => self.refuse(host),
        }
    }

    // Answers a line that asks for what only directories have.
    fn refuse<H: Host>(&mut self, host: &mut H) -> Result<(), Unsaid>
        ensures answered { Answered H.told (H.state host.old) (H.state host.new)
            (record { text = answer_text Dry; after = scene (T.meaning self.old.tree) self.old.time })
            (scene (T.meaning self.new.tree) self.new.time) result }
    {
        unless_failed(self.speech.say(host, Answer::Dry))
    }

    // Does a change, or tells why it is refused.
    fn change(&mut self, alloc: Global, command: Command) -> Result<Answer, NoMemory>
        requires { IsCommand command }
        ensures said { IfOk result IsSaid }
        ensures reply { IfOk result (λ answer. answer_text answer ≡ (change_reply
            (step (T.meaning self.old.tree) command self.old.time) self.old.time).text) }
        ensures after { OnOk result (scene (T.meaning self.new.tree) self.new.time
            ≡ (change_reply (step (T.meaning self.old.tree) command self.old.time)
            self.old.time).after) }
    {
        match prepare(alloc, &mut self.tree, command, self.time) {
            Ok(plan) => {
                apply(&mut self.tree, plan);
                Ok(Answer::Done)
            }
            Err(OpRefusal::Memory) => Err(NoMemory),
            Err(refusal) => Ok(Answer::Refused(refusal)),
        }
    }
}

fn unless_failed(said: Result<(), Failed>) -> Result<(), Unsaid>
    ensures { result ≡ unless_failed said }
{
    match said {
        Ok(()) => Ok(()),
        Err(Failed) => Err(Unsaid::Output),
    }
}
