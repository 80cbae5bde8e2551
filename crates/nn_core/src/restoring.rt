// A dropped directory that a line takes back.
ghost use Rattle.std.specs.Prelude.{◌≡◌, ◌+◌, ◌<◌, ◌^◌, Some, Ok};
ghost use Rattle.nn_tree.specs.Imaged.{IsImaged};
ghost use Rattle.nn_run.specs.Running.{restored_text};
ghost use Rattle.nn_script.specs.Spelling.{IsSaid, answer_text};
ghost use Rattle.nn_script.specs.declared.command.ScriptCommand.TheVariants.{Restore as RestoreLine};
ghost use Rattle.nn_core.specs.Ready.{IsReady};
ghost use Rattle.nn_core.specs.Events.{HasStepped, seen_as};

use crate::event::End;
use crate::step::{Core, unless_failed};
use nn_base::DirNo;
use nn_ckpt::RunFault;
use nn_host::Host;
use nn_restore::{Restored, restore};
use nn_script::{Answer, Unrestored};
use nn_tree::Tree;
use std::alloc::Global;

impl<T: Tree> Core<T> {
    // Takes back the directory of this number, or tells why not.
    pub(crate) fn restore<H: Host>(
        &mut self,
        alloc: Global,
        host: &mut H,
        dir: u64,
    ) -> Result<(), End>
        requires ready { IsReady self.old.journal self.old.count (H.state host.old) }
        requires ids { self.old.journal.last + 128 < 2 ^ 63 }
        requires imaged { IsImaged (T.meaning self.old.tree) }
        ensures stepped { HasStepped H.told (Ok (Some (RestoreLine dir))) self.old.count self.old.version (T.meaning self.old.tree) (T.meaning self.new.tree) self.old.time self.new.time self.old.journal self.new.journal (H.state host.old) (H.state host.new) result }
        ensures same { (self.new.count ≡ self.old.count) × (self.new.version ≡ self.old.version) }
        ensures imaged { IsImaged (T.meaning self.old.tree) → IsImaged (T.meaning self.new.tree) }
    {
        if dir < u64::from(self.count) {
            self.take_back(alloc, host, DirNo(dir as u8))
        } else {
            let answer = Answer::NotRestored(Unrestored::NoSuchDir);
            unless_failed(self.speech.say(host, answer))
        }
    }

    fn take_back<H: Host>(&mut self, alloc: Global, host: &mut H, i: DirNo) -> Result<(), End>
        requires ready { IsReady self.old.journal self.old.count (H.state host.old) }
        requires ids { self.old.journal.last + 128 < 2 ^ 63 }
        requires imaged { IsImaged (T.meaning self.old.tree) }
        requires listed { i.0 < self.old.count }
        ensures stepped { HasStepped H.told (Ok (Some (RestoreLine i.0))) self.old.count self.old.version (T.meaning self.old.tree) (T.meaning self.new.tree) self.old.time self.new.time self.old.journal self.new.journal (H.state host.old) (H.state host.new) result }
        ensures same { (self.new.count ≡ self.old.count) × (self.new.version ≡ self.old.version) }
        ensures imaged { IsImaged (T.meaning self.old.tree) → IsImaged (T.meaning self.new.tree) }
    {
        match restore(alloc, host, &mut self.journal, &self.tree, &self.version, i) {
            Ok(came) => unless_failed(self.speech.say(host, restored_answer(came))),
            Err(RunFault::NoneLeft) => Err(End::NoneLeft),
            Err(RunFault::Memory) => Err(End::Memory),
        }
    }
}

fn restored_answer(came: Restored) -> Answer
    ensures text { answer_text result ≡ restored_text (seen_as came) }
    ensures said { IsSaid result }
{
    match came {
        Restored::TakenBack => Answer::Done,
        Restored::Missing => Answer::NotRestored(Unrestored::Missing),
        Restored::Inconsistent => Answer::NotRestored(Unrestored::Inconsistent),
        Restored::Failed => Answer::NotRestored(Unrestored::Failed),
    }
}
