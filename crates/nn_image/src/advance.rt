// From one stage of an image to the next.
ghost use Rattle.std.specs.Prelude.{◌≡◌, ◌≢◌, IfOk, []};
ghost use Rattle.nn_image.specs.declared.task.Stage.TheVariants.{Done};
ghost use Rattle.nn_image.specs.Saving.{target, IsTarget, IsStage, AreCounted, Advances};

use crate::directory::write_directory;
use crate::step::{write_front, write_inode, write_inodes_head, write_string};
use crate::task::{Progress, Stage, Task};
use nn_base::NoMemory;
use nn_message::{Lengths, put_end};
use nn_strtab::Names;
use nn_tree::{Tree, next_below};

/// Writes what comes next of an image, one message or the few of a head, and tells the stage behind it.
pub(crate) fn advance<T: Tree>(
    tree: &T,
    task: &Task,
    names: &mut Names,
    from: Progress,
    out: &mut Vec<u8>,
) -> Result<Progress, NoMemory>
    requires empty { out.old.items ≡ [] }
    requires target { IsTarget (target (T.meaning tree.now) (T.has tree.now) (T.place tree.now)
        names.old task.now) }
    requires stands { IsStage (target (T.meaning tree.now) (T.has tree.now) (T.place tree.now)
        names.old task.now) from.stage }
    requires counted { AreCounted (target (T.meaning tree.now) (T.has tree.now)
        (T.place tree.now) names.old task.now) from.stage from.lengths }
    requires more { from.stage ≢ Done }
    ensures ok { IfOk result (Advances (target (T.meaning tree.now) (T.has tree.now)
        (T.place tree.now) names.old task.now) from.stage out.new.items) }
    ensures kept { names.new ≡ names.old }
{
    let lengths = from.lengths;
    match from.stage {
        Stage::Front => write_front(task, names, out),
        Stage::Strings(number) => match names.name_of(number) {
            Some(text) => write_string(number, text, lengths, out),
            None => write_inodes_head(task, lengths, out),
        },
        Stage::Inodes(next) => match next {
            None => Ok(Progress {
                stage: Stage::Directories(Some(task.root)),
                lengths,
            }),
            Some(node) => {
                write_inode(tree, node, names, out)?;
                let inodes = lengths.inodes + out.len() as u64;
                Ok(Progress {
                    stage: Stage::Inodes(next_below(tree, node, task.root)),
                    lengths: Lengths { inodes, ..lengths },
                })
            }
        },
        Stage::Directories(next) => match next {
            None => {
                put_end(task.layout, &lengths, out)?;
                Ok(Progress {
                    stage: Stage::Done,
                    lengths,
                })
            }
            Some(directory) => {
                write_directory(tree, directory, out)?;
                let directories = lengths.directories + out.len() as u64;
                Ok(Progress {
                    stage: Stage::Directories(next_below(tree, directory, task.root)),
                    lengths: Lengths {
                        directories,
                        ..lengths
                    },
                })
            }
        },
        Stage::Done => Ok(from),
    }
}
