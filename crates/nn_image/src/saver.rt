// An image as it is written, a piece at a time.
ghost use Rattle.std.specs.Prelude.{◌≡◌, ◌≢◌, ◌<◌, ◌≤◌, ◌^◌, ◌++◌, [], true, false, length, drop, min, nat_lt, All, unsigned_abs, IfOk, OnOk, vec_len};
ghost use Rattle.nn_tree.specs.Spots.{IsSound};
ghost use Rattle.nn_image.specs.declared.task.Stage.TheVariants.{Done};
ghost use Rattle.nn_tree.specs.Imaged.{IsImaged};
ghost use Rattle.nn_image.specs.Imaged.{AreLabelled};
ghost use Rattle.nn_image.specs.Faults.{IsSmall};
ghost use Rattle.nn_image.specs.Image.{image_of, string_table};
ghost use Rattle.std.specs.FinMap as map;
ghost use Rattle.nn_base.specs.Labels.{IsLabel};
ghost use Rattle.nn_base.specs.Limits.{most_piece};
ghost use Rattle.nn_image.specs.Saving.{Saves, left, ungiven, target_of, rest, steps};

use crate::advance::advance;
use crate::task::{Progress, Stage, Task};
use nn_base::limits::MOST_PIECE;
use nn_base::{NoMemory, Path, Txid};
use nn_message::Lengths;
use nn_strtab::Names;
use nn_tree::{Spot, Tree, Walk, next_below};
use std::alloc::Global;

/// An image that is being written. It holds the names of owners and groups and one message at a time, and not the
/// namespace: that is handed in with each piece.
#[derive(Drop)]
pub struct Saver {
    task: Task,
    names: Names,
    progress: Progress,
    /// The message that is being given out, and how much of it was.
    message: Vec<u8>,
    given: usize,
}

/// The spot of the root.
pub(crate) fn root_of<T: Tree>(alloc: Global, tree: &T) -> Spot
    ensures there { T.has tree.now result ≡ true }
    ensures top { T.place tree.now result ≡ [] }
    ensures sound { IsSound (T.meaning tree.now) (T.has tree.now) (T.place tree.now) }
{
    match tree.find(&Path::root(alloc)) {
        Walk::Found(root) => root,
        _ => unreachable!(),
    }
}

/// The names of owners and groups, in the order of their first use, and how many nodes there are.
fn collect<T: Tree>(alloc: Global, tree: &T, root: Spot) -> Result<(Names, u64), NoMemory>
    requires there { T.has tree.now root ≡ true }
    requires top { T.place tree.now root ≡ [] }
    ensures names { IfOk result (λ all. all.0 ≡ string_table (T.meaning tree.now).nodes) }
    ensures short { IfOk result (λ all. All IsLabel all.0) }
    ensures few { IfOk result (λ all. length all.0 < 2 ^ 31) }
    ensures nodes { IfOk result (λ all. all.1 ≡ length (map.entries (T.meaning tree.now).nodes)) }
{
    // That the tree is sound is told by its counters.
    let _counters = tree.counters();
    let mut names = Names::new(alloc);
    let mut nodes = 0;
    let mut next = Some(root);
    while let Some(at) = next {
        let node = tree.node(at);
        names.number_of(node.owner.bytes())?;
        names.number_of(node.group.bytes())?;
        nodes += 1;
        next = next_below(tree, at, root);
    }
    Ok((names, nodes))
}

/// A layout without its sign.
pub(crate) fn magnitude(layout: i32) -> u32
    ensures { result ≡ unsigned_abs layout }
{
    layout.unsigned_abs()
}

/// Begins to write the image of a namespace, as it is at a transaction: at most 2^30 bytes, as many as are read. Let the
/// namespaceID be 1 to 2^31 - 1, since bytes with another one are no image that `load` reads, and the layout negative, as
/// all of HDFS's are, since an image doesn't tell its sign.
pub fn save<T: Tree>(
    alloc: Global,
    tree: &T,
    id: Txid,
    namespace: u32,
    layout: i32,
) -> Result<Saver, NoMemory>
    requires { IsImaged (T.meaning tree.now) }
    ensures saves { IfOk result (λ saver. Saves saver (T.meaning tree.now) (T.has tree.now) (T.place tree.now)) }
    ensures whole { IfOk result (λ saver. left saver (T.meaning tree.now) (T.has tree.now) (T.place tree.now) ≡
        image_of (T.meaning tree.now) id namespace (unsigned_abs layout)) }
    ensures labelled { OnOk result (AreLabelled (T.meaning tree.now).nodes) }
    ensures small { IfOk result (λ saver. IsSmall (left saver (T.meaning tree.now) (T.has tree.now) (T.place tree.now))) }
{
    let root = root_of(alloc, tree);
    let (names, nodes) = collect(alloc, tree, root)?;
    let task = Task {
        namespace,
        id,
        layout: magnitude(layout),
        counters: tree.counters(),
        nodes,
        root,
    };
    let lengths = Lengths {
        info: 0,
        strings: 0,
        inodes: 0,
        directories: 0,
    };
    Ok(Saver {
        task,
        names,
        progress: Progress {
            stage: Stage::Front,
            lengths,
        },
        message: Vec::new(alloc),
        given: 0,
    })
}

impl Saver {
    fn is_done(&self) -> bool
        ensures done { result ≡ true → self.now.progress.stage ≡ Done }
        ensures more { result ≡ false → self.now.progress.stage ≢ Done }
    {
        match self.progress.stage {
            Stage::Done => true,
            _ => false,
        }
    }

    /// Writes the next message in place of the one that was given out.
    fn refill<T: Tree>(&mut self, tree: &T) -> Result<(), NoMemory>
        requires saves { Saves self.old (T.meaning tree.now) (T.has tree.now) (T.place tree.now) }
        requires given { ungiven self.old ≡ [] }
        requires more { self.old.progress.stage ≢ Done }
        ensures kept { OnOk result (Saves self.new (T.meaning tree.now) (T.has tree.now) (T.place tree.now)) }
        ensures left { OnOk result (left self.new (T.meaning tree.now) (T.has tree.now) (T.place tree.now) ≡
            left self.old (T.meaning tree.now) (T.has tree.now) (T.place tree.now)) }
        ensures fewer { OnOk result (
            steps (target_of self.new (T.meaning tree.now) (T.has tree.now) (T.place tree.now)) self.new.progress.stage <
            steps (target_of self.old (T.meaning tree.now) (T.has tree.now) (T.place tree.now)) self.old.progress.stage) }
    {
        self.message.clear();
        self.given = 0;
        self.progress = advance(
            tree,
            &self.task,
            &mut self.names,
            self.progress,
            &mut self.message,
        )?;
        Ok(())
    }

    /// Gives out what there is of the message, as far as the piece has room.
    fn give(&mut self, out: &mut Vec<u8>) -> Result<(), NoMemory>
        requires within { self.old.given ≤ length self.old.message.items }
        requires room { vec_len out.old < most_piece }
        ensures text { OnOk result (out.old.items ++ ungiven self.old ≡ out.new.items ++ ungiven self.new) }
        ensures within { OnOk result (self.new.given ≤ length self.new.message.items) }
        ensures room { OnOk result (vec_len out.new ≤ most_piece) }
        ensures grows { OnOk result (vec_len out.old ≤ vec_len out.new) }
        ensures some { OnOk result (self.old.given < length self.old.message.items → vec_len out.old < vec_len out.new) }
        ensures task { self.new.task ≡ self.old.task }
        ensures names { self.new.names ≡ self.old.names }
        ensures progress { self.new.progress ≡ self.old.progress }
    {
        let end = self
            .message
            .len()
            .min(self.given + (MOST_PIECE - out.len()));
        out.extend_from_slice(&self.message[self.given..end])?;
        self.given = end;
        Ok(())
    }

    /// Puts the next piece of the image into `out`, in place of what it held. Each piece has `MOST_PIECE` bytes but for the
    /// last, which has at least one. It answers false, with an empty `out`, where all bytes were given. The tree is
    /// the one that `save` was handed, unchanged. After an `Err` no more of the image can be had.
    pub fn next<T: Tree>(&mut self, tree: &T, out: &mut Vec<u8>) -> Result<bool, NoMemory>
        requires { Saves self.old (T.meaning tree.now) (T.has tree.now) (T.place tree.now) }
        ensures piece { OnOk result (left self.old (T.meaning tree.now) (T.has tree.now) (T.place tree.now) ≡
            out.new.items ++ left self.new (T.meaning tree.now) (T.has tree.now) (T.place tree.now)) }
        ensures len { OnOk result (length out.new.items ≡
            min most_piece (length (left self.old (T.meaning tree.now) (T.has tree.now) (T.place tree.now)))) }
        ensures more { IfOk result (λ more. more ≡ nat_lt 0 (length out.new.items)) }
        ensures kept { OnOk result (Saves self.new (T.meaning tree.now) (T.has tree.now) (T.place tree.now)) }
    {
        out.clear();
        'piece: while out.len() < MOST_PIECE {
            if self.given == self.message.len() {
                if self.is_done() {
                    break;
                }
                self.refill(tree)?;
            }
            self.give(out)?;
        }
        Ok(!out.is_empty())
    }
}
