// One event after another.
ghost use Rattle.std.specs.Prelude.{◌≡◌, ◌≢◌, ◌+◌, ◌<◌, ◌≤◌, ◌^◌, IfOk, OnOk, OnErr, None, Some, Ok, ℕ, true, false};
ghost use Rattle.nn_base.specs.DirSets.{has};
ghost use Rattle.nn_tree.specs.Imaged.{IsImaged};
ghost use Rattle.nn_script.specs.declared.command.ScriptCommand.TheVariants.{Roll as RollLine, Checkpoint as CheckpointLine};
ghost use Rattle.nn_script.specs.Reading.{IsInRange};
ghost use Rattle.nn_core.specs.Ready.{IsReady};
ghost use Rattle.nn_core.specs.Events.{IsEvent, read_as, unless_failed, HasStepped, HasEnded};

use crate::event::{End, Event};
use crate::record::{close_segment, roll_segment};
use nn_base::{DirNo, DirSet, NoMemory, Txid};
use nn_ckpt::{RunFault, checkpoint};
use nn_host::{Failed, Host};
use nn_journal::{JournalSet, NoneLeft};
use nn_marks::Version;
use nn_say::{Speech, say_dirs, say_list};
use nn_script::{Answer, ScriptCommand};
use nn_tree::Tree;
use std::alloc::Global;

/// A run between two events: its namespace and its time, and the journal over its live directories.
#[derive(Drop)]
pub struct Core<T: Tree> {
    /// The namespace after all commands so far.
    pub(crate) tree: T,
    /// What time it is there, in milliseconds.
    pub(crate) time: u64,
    /// The journal over all live directories.
    pub(crate) journal: JournalSet,
    /// What VERSION of each live directory says.
    pub(crate) version: Version,
    /// How many directories are listed.
    pub(crate) count: u8,
    pub(crate) speech: Speech,
    ghost early: { time < 2 ^ 63 },
    ghost few: { count ≤ 8 },
}

impl<T: Tree> Core<T> {
    /// A run of this namespace that begins at this time, in milliseconds, over so many directories whose VERSION says this. It
    /// takes all the memory that answering needs.
    pub fn new(
        alloc: Global,
        tree: T,
        journal: JournalSet,
        version: Version,
        time: u64,
        count: u8,
    ) -> Result<Core<T>, NoMemory>
        requires early { time < 2 ^ 63 }
        requires few { count ≤ 8 }
        ensures { IfOk result (λ core. (core.tree ≡ tree) × (core.version ≡ version) × (core.time ≡ time) × (core.journal ≡ journal) × (core.count ≡ count)) }
    {
        Ok(Core {
            tree,
            time,
            journal,
            version,
            count,
            speech: Speech::new(alloc)?,
        })
    }

    /// Whether this directory is live: whether no call on it has failed since the run began.
    pub fn live(&self, i: DirNo) -> bool
        ensures { result ≡ has self.now.journal.live i.0 }
    {
        self.journal.live(i)
    }

    /// The last id that was given to a record.
    pub fn last(&self) -> Txid
        ensures { result ≡ self.now.journal.last }
    {
        self.journal.last()
    }

    /// Answers an event. The record of a command is synced in each live directory before its answer is said; a directory in
    /// which a call fails is dropped, and the others roll, so that it ranks below them. An answer goes out in one call of the
    /// output, a longer listing in several. A checkpoint is of the namespace before its line, and so is the image by which a dropped
    /// directory is taken back.
    pub fn step<H: Host>(&mut self, alloc: Global, host: &mut H, event: Event) -> Result<(), End>
        requires ready { IsReady self.old.journal self.old.count (H.state host.old) }
        requires ids { self.old.journal.last + 128 < 2 ^ 63 }
        requires event { IsEvent event }
        requires imaged { IsImaged (T.meaning self.old.tree) }
        ensures stepped { HasStepped H.told (read_as event) self.old.count self.old.version (T.meaning self.old.tree) (T.meaning self.new.tree) self.old.time self.new.time self.old.journal self.new.journal (H.state host.old) (H.state host.new) result }
        ensures same { (self.new.count ≡ self.old.count) × (self.new.version ≡ self.old.version) }
        ensures imaged { IsImaged (T.meaning self.old.tree) → IsImaged (T.meaning self.new.tree) }
    {
        match event {
            Event::Line(command) => self.answer(alloc, host, command),
            Event::Bad(fault) => unless_failed(self.speech.say(host, Answer::Unread(fault))),
        }
    }

    /// Ends the segment in progress in each live directory, as a run does that has read its input to the end. Where that drops
    /// one, another is begun and ended in the rest. Nothing is said, and no event may follow.
    pub fn end<H: Host>(&mut self, host: &mut H) -> Result<(), NoneLeft>
        requires ready { IsReady self.old.journal self.old.count (H.state host.old) }
        requires ids { self.old.journal.last + 128 < 2 ^ 63 }
        ensures ended { HasEnded H.told self.old.count self.old.version (T.meaning self.old.tree) self.old.journal self.new.journal (H.state host.old) (H.state host.new) result }
        ensures kept { (self.new.count ≡ self.old.count) × (self.new.version ≡ self.old.version) × (T.meaning self.new.tree ≡ T.meaning self.old.tree) × (self.new.time ≡ self.old.time) }
    {
        close_segment(&mut self.journal, host)
    }

    fn answer<H: Host>(
        &mut self,
        alloc: Global,
        host: &mut H,
        command: ScriptCommand,
    ) -> Result<(), End>
        requires ready { IsReady self.old.journal self.old.count (H.state host.old) }
        requires ids { self.old.journal.last + 128 < 2 ^ 63 }
        requires range { IsInRange command }
        requires imaged { IsImaged (T.meaning self.old.tree) }
        ensures stepped { HasStepped H.told (Ok (Some command)) self.old.count self.old.version (T.meaning self.old.tree) (T.meaning self.new.tree) self.old.time self.new.time self.old.journal self.new.journal (H.state host.old) (H.state host.new) result }
        ensures same { (self.new.count ≡ self.old.count) × (self.new.version ≡ self.old.version) }
        ensures imaged { IsImaged (T.meaning self.old.tree) → IsImaged (T.meaning self.new.tree) }
    {
        match command {
            ScriptCommand::Namespace(change) => self.change(alloc, host, change),
            ScriptCommand::Clock(time) => {
                self.time = time;
                unless_failed(self.speech.say(host, Answer::Done))
            }
            ScriptCommand::List(path) => {
                unless_failed(say_list(host, &self.tree, &path, &mut self.speech))
            }
            ScriptCommand::Dirs => {
                let live = live_dirs(&self.journal);
                unless_failed(say_dirs(host, live, self.count, &mut self.speech))
            }
            ScriptCommand::Roll => self.roll(host),
            ScriptCommand::Checkpoint => self.checkpoint(alloc, host),
            ScriptCommand::Finalize => unless_failed(self.speech.say(host, Answer::Later)),
            ScriptCommand::Restore(dir) => self.restore(alloc, host, dir),
        }
    }

    fn roll<H: Host>(&mut self, host: &mut H) -> Result<(), End>
        requires ready { IsReady self.old.journal self.old.count (H.state host.old) }
        requires ids { self.old.journal.last + 128 < 2 ^ 63 }
        ensures stepped { HasStepped H.told (Ok (Some RollLine)) self.old.count self.old.version (T.meaning self.old.tree) (T.meaning self.new.tree) self.old.time self.new.time self.old.journal self.new.journal (H.state host.old) (H.state host.new) result }
        ensures same { (self.new.count ≡ self.old.count) × (self.new.version ≡ self.old.version) }
        ensures imaged { IsImaged (T.meaning self.old.tree) → IsImaged (T.meaning self.new.tree) }
    {
        match roll_segment(&mut self.journal, host) {
            Ok(()) => unless_failed(self.speech.say(host, Answer::Done)),
            Err(NoneLeft) => Err(End::NoneLeft),
        }
    }

    // Checkpoints the run: its namespace is the one before the line.
    fn checkpoint<H: Host>(&mut self, alloc: Global, host: &mut H) -> Result<(), End>
        requires ready { IsReady self.old.journal self.old.count (H.state host.old) }
        requires ids { self.old.journal.last + 128 < 2 ^ 63 }
        requires imaged { IsImaged (T.meaning self.old.tree) }
        ensures stepped { HasStepped H.told (Ok (Some CheckpointLine)) self.old.count self.old.version (T.meaning self.old.tree) (T.meaning self.new.tree) self.old.time self.new.time self.old.journal self.new.journal (H.state host.old) (H.state host.new) result }
        ensures same { (self.new.count ≡ self.old.count) × (self.new.version ≡ self.old.version) }
        ensures imaged { IsImaged (T.meaning self.old.tree) → IsImaged (T.meaning self.new.tree) }
    {
        match checkpoint(alloc, host, &mut self.journal, &self.tree, &self.version) {
            Ok(_) => unless_failed(self.speech.say(host, Answer::Done)),
            Err(RunFault::NoneLeft) => Err(End::NoneLeft),
            Err(RunFault::Memory) => Err(End::Memory),
        }
    }
}

pub(crate) fn unless_failed(said: Result<(), Failed>) -> Result<(), End>
    ensures { result ≡ unless_failed said }
{
    match said {
        Ok(()) => Ok(()),
        Err(Failed) => Err(End::OutFault),
    }
}

// Which directories are live.
fn live_dirs(journal: &JournalSet) -> DirSet
    ensures { (j : ℕ) → has result j ≡ has journal.now.live j }
{
    let mut live = DirSet::none();
    for i in 0..8u8 {
        if journal.live(DirNo(i)) {
            live = live.with(DirNo(i));
        }
    }
    live
}
