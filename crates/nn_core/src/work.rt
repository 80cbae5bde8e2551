// A change of the namespace: it is done without a word, and then it is answered.
ghost use Rattle.std.specs.Prelude.{◌≡◌, ◌+◌, ◌<◌, ◌^◌, Ok, None, Some};
ghost use Rattle.nn_tree.specs.Imaged.{IsImaged};
ghost use Rattle.nn_ops.specs.Bodies.{op_of};
ghost use Rattle.nn_ops.specs.Commands.{IsCommand};
ghost use Rattle.nn_ops.specs.Plans.{IsReady as IsPlanned};
ghost use Rattle.nn_ops.specs.Step.{refusal_of};
ghost use Rattle.nn_script.specs.declared.command.ScriptCommand.TheVariants.{Namespace as ChangeLine};
ghost use Rattle.nn_core.specs.Ready.{IsReady};
ghost use Rattle.nn_core.specs.Events.{HasStepped};
ghost use Rattle.nn_core.specs.Performed.{HasPerformed, Works};

use crate::event::End;
use crate::record::write_record;
use crate::step::{Core, unless_failed};
use nn_host::Host;
use nn_journal::NoneLeft;
use nn_ops::{Command, OpRefusal, Plan, apply, prepare};
use nn_script::Answer;
use nn_tree::Tree;
use std::alloc::Global;

impl<T: Tree> Core<T> {
    /// Does a change, once its record is synced in each live directory, and says nothing. None stands for one that was taken;
    /// else it is why it was refused, and nothing has changed. `NoneLeft` and `Memory` end the run; the output isn't touched.
    pub fn perform<H: Host>(
        &mut self,
        alloc: Global,
        host: &mut H,
        change: Command,
    ) -> Result<Option<OpRefusal>, End>
        requires ready { IsReady self.old.journal self.old.count (H.state host.old) }
        requires ids { self.old.journal.last + 128 < 2 ^ 63 }
        requires command { IsCommand change }
        ensures performed { HasPerformed H.told change self.old.count self.old.version (T.meaning self.old.tree) (T.meaning self.new.tree) self.old.time self.old.journal self.new.journal (H.state host.old) (H.state host.new) result }
        ensures same { (self.new.count ≡ self.old.count) × (self.new.version ≡ self.old.version) × (self.new.time ≡ self.old.time) }
        ensures imaged { IsImaged (T.meaning self.old.tree) → IsImaged (T.meaning self.new.tree) }
    {
        self.work(alloc, host, change)
    }

    // Does a change and answers it.
    pub(crate) fn change<H: Host>(
        &mut self,
        alloc: Global,
        host: &mut H,
        command: Command,
    ) -> Result<(), End>
        requires ready { IsReady self.old.journal self.old.count (H.state host.old) }
        requires ids { self.old.journal.last + 128 < 2 ^ 63 }
        requires command { IsCommand command }
        ensures stepped { HasStepped H.told (Ok (Some (ChangeLine command))) self.old.count self.old.version (T.meaning self.old.tree) (T.meaning self.new.tree) self.old.time self.new.time self.old.journal self.new.journal (H.state host.old) (H.state host.new) result }
        ensures same { (self.new.count ≡ self.old.count) × (self.new.version ≡ self.old.version) }
        ensures imaged { IsImaged (T.meaning self.old.tree) → IsImaged (T.meaning self.new.tree) }
    {
        match self.work(alloc, host, command) {
            Ok(None) => unless_failed(self.speech.say(host, Answer::Done)),
            Ok(Some(refusal)) => unless_failed(self.speech.say(host, Answer::Refused(refusal))),
            Err(end) => Err(end),
        }
    }

    fn work<H: Host>(
        &mut self,
        alloc: Global,
        host: &mut H,
        change: Command,
    ) -> Result<Option<OpRefusal>, End>
        requires ready { IsReady self.old.journal self.old.count (H.state host.old) }
        requires ids { self.old.journal.last + 128 < 2 ^ 63 }
        requires command { IsCommand change }
        ensures works { Works H.told change self.old.count self.old.version (T.meaning self.old.tree) (T.meaning self.new.tree) self.old.time self.old.journal self.new.journal (H.state host.old) (H.state host.new) result }
        ensures same { (self.new.count ≡ self.old.count) × (self.new.version ≡ self.old.version) × (self.new.time ≡ self.old.time) }
        ensures imaged { IsImaged (T.meaning self.old.tree) → IsImaged (T.meaning self.new.tree) }
    {
        match prepare(alloc, &mut self.tree, change, self.time) {
            Ok(plan) => self.carry_out(host, plan),
            Err(OpRefusal::Memory) => Err(End::Memory),
            Err(refusal) => Ok(Some(refusal)),
        }
    }

    // Does what was planned, once its record is synced.
    fn carry_out<H: Host>(&mut self, host: &mut H, plan: Plan) -> Result<Option<OpRefusal>, End>
        requires ready { IsReady self.old.journal self.old.count (H.state host.old) }
        requires ids { self.old.journal.last + 128 < 2 ^ 63 }
        requires plan { IsPlanned plan (T.has self.old.tree) (T.place self.old.tree) (T.spare self.old.tree) (T.meaning self.old.tree) }
        ensures works { (change : _) → refusal_of (T.meaning self.old.tree) change ≡ None → plan.op ≡ op_of (T.meaning self.old.tree) change self.old.time →
            Works H.told change self.old.count self.old.version (T.meaning self.old.tree) (T.meaning self.new.tree) self.old.time self.old.journal self.new.journal (H.state host.old) (H.state host.new) result }
        ensures same { (self.new.count ≡ self.old.count) × (self.new.version ≡ self.old.version) × (self.new.time ≡ self.old.time) }
        ensures imaged { IsImaged (T.meaning self.old.tree) → IsImaged (T.meaning self.new.tree) }
    {
        match write_record(&mut self.journal, host, plan.op()) {
            Ok(()) => {
                apply(&mut self.tree, plan);
                Ok(None)
            }
            Err(NoneLeft) => Err(End::NoneLeft),
        }
    }
}
