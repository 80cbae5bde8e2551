// The steps in which an image is written: one message each, or the few of a head.
ghost use Rattle.std.specs.Prelude.{◌≡◌, ◌<◌, ◌≤◌, ◌^◌, ◌+◌, ◌++◌, [], true, length, Some, None, IfOk, OnOk};
ghost use Rattle.std.specs.FinMap as map;
ghost use Rattle.nn_strtab.specs.Numbers.{name_at, with_use};
ghost use Rattle.nn_tree.specs.declared.node.Node.{Node};
ghost use Rattle.nn_image.specs.declared.task.Stage.TheVariants.{Strings, Inodes};
ghost use Rattle.nn_message.specs.Spelling.{delimited, string, inode};
ghost use Rattle.nn_message.specs.Frame.{magic};
ghost use Rattle.nn_image.specs.Image.{inode_of};
ghost use Rattle.nn_image.specs.Saving.{info_head, strings_head, inodes_head};

use crate::task::{Progress, Stage, Task};
use nn_base::NoMemory;
use nn_message::{
    Attributes, Lengths, put_inode, put_inodes, put_ns_info, put_string, put_strings,
};
use nn_strtab::Names;
use nn_tree::{Spot, Tree};

/// What every image begins with.
const MAGIC: &[u8] = b"HDFSIMG1";

fn put_magic(out: &mut Vec<u8>) -> Result<(), NoMemory>
    ensures ok { OnOk result (out.new.items ≡ out.old.items ++ magic) }
{
    out.extend_from_slice(MAGIC)?;
    Ok(())
}

#[tactic(auto, unfolding(crate::specs::Saving::info_head, crate::specs::Saving::strings_head))]
pub(crate) fn write_front(
    task: &Task,
    names: &Names,
    out: &mut Vec<u8>,
) -> Result<Progress, NoMemory>
    requires { out.old.items ≡ [] }
    ensures text { OnOk result (out.new.items ≡
        magic ++ info_head task.now ++ strings_head names.now) }
    ensures to { IfOk result (λ p. p.stage ≡ Strings 1) }
    ensures counted { IfOk result (λ p. p.lengths ≡ record {
      info = length (info_head task.now);
      strings = length (strings_head names.now);
      inodes = 0;
      directories = 0;
    }) }
{
    put_magic(out)?;
    put_ns_info(task.namespace, task.id, &task.counters, out)?;
    let end = out.len();
    put_strings(names.len(), out)?;
    let lengths = Lengths {
        info: (end - MAGIC.len()) as u64,
        strings: (out.len() - end) as u64,
        inodes: 0,
        directories: 0,
    };
    Ok(Progress {
        stage: Stage::Strings(1),
        lengths,
    })
}

pub(crate) fn write_string(
    number: u32,
    text: &[u8],
    lengths: Lengths,
    out: &mut Vec<u8>,
) -> Result<Progress, NoMemory>
    requires empty { out.old.items ≡ [] }
    requires few { number < 2 ^ 31 }
    requires counted { lengths.strings < 2 ^ 60 }
    ensures text { OnOk result (out.new.items ≡
        delimited (string (record { number = number; text = text.now }))) }
    ensures to { IfOk result (λ p. p.stage ≡ Strings (number + 1)) }
    ensures counted { IfOk result (λ p. p.lengths ≡ record lengths {
      strings = lengths.strings + length out.new.items;
    }) }
{
    put_string(number, text, out)?;
    let strings = lengths.strings + out.len() as u64;
    Ok(Progress {
        stage: Stage::Strings(number + 1),
        lengths: Lengths { strings, ..lengths },
    })
}

#[tactic(auto, unfolding(crate::specs::Saving::inodes_head))]
pub(crate) fn write_inodes_head(
    task: &Task,
    lengths: Lengths,
    out: &mut Vec<u8>,
) -> Result<Progress, NoMemory>
    requires empty { out.old.items ≡ [] }
    ensures text { OnOk result (out.new.items ≡ inodes_head task.now) }
    ensures to { IfOk result (λ p. p.stage ≡ Inodes (Some task.now.root)) }
    ensures counted { IfOk result (λ p. p.lengths ≡ record lengths {
      inodes = length (inodes_head task.now);
    }) }
{
    put_inodes(task.counters.inode, task.nodes, out)?;
    let inodes = out.len() as u64;
    Ok(Progress {
        stage: Stage::Inodes(Some(task.root)),
        lengths: Lengths { inodes, ..lengths },
    })
}

/// The node here. Its owner and its group have numbers already, so that no name gets one here.
#[tactic(auto, unfolding(crate::specs::Image::inode_of, crate::specs::Image::attributes_of))]
pub(crate) fn write_inode<T: Tree>(
    tree: &T,
    at: Spot,
    names: &mut Names,
    out: &mut Vec<u8>,
) -> Result<(), NoMemory>
    requires there { T.has tree.now at ≡ true }
    requires empty { out.old.items ≡ [] }
    requires few { length names.old < 2 ^ 31 }
    requires numbered { (node : Node) →
        map.get (T.meaning tree.now).nodes (T.place tree.now at) ≡ Some node →
        (with_use names.old node.owner ≡ names.old) × (with_use names.old node.group ≡ names.old) }
    ensures ok { (node : Node) →
        map.get (T.meaning tree.now).nodes (T.place tree.now at) ≡ Some node →
        OnOk result (out.new.items ≡
        delimited (inode (inode_of names.old (T.place tree.now at, node)))) }
    ensures kept { names.new ≡ names.old }
{
    let node = tree.node(at);
    let owner = names.number_of(node.owner.bytes())?;
    let group = names.number_of(node.group.bytes())?;
    let attributes = Attributes {
        time: node.time,
        owner: u64::from(owner),
        group: u64::from(group),
        mode: node.mode,
    };
    put_inode(tree.name(at), node, &attributes, out)
}
