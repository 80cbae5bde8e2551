// The answer to `list`.
ghost use Rattle.std.specs.Prelude.{◌≡◌, true, length, IfOk};
ghost use Rattle.std.specs.List.{flat_map};
ghost use Rattle.nn_base.specs.Paths.{joined, text_of};
ghost use Rattle.nn_tree.specs.Limits.{IsNode};
ghost use Rattle.nn_tree.specs.Nodes.{blocks_of};
ghost use Rattle.nn_tree.specs.Spots.{IsSound};
ghost use Rattle.nn_tree.specs.Below.{entries_below};
ghost use Rattle.nn_script.specs.Spelling.{escaped};
ghost use Rattle.nn_script.specs.Listing.{block_line as line_of_block};
ghost use Rattle.nn_script.specs.Answers.{lines_at};
ghost use Rattle.nn_say.specs.Listed.{listing_of};
ghost use Rattle.nn_say.specs.Saying.{Says, Puts};

use crate::speech::Speech;
use nn_host::{Failed, Host};
use nn_tree::{Block, Kind, Node, Spot, Tree, next_below};

// Says the lines of a node and of all below it, in the order of paths, and then how many nodes these
// are. It needs no memory, so that a listing is never left half said for want of it.
pub(crate) fn say_listing<H: Host, T: Tree>(
    host: &mut H,
    tree: &T,
    top: Spot,
    speech: &mut Speech,
) -> Result<(), Failed>
    requires { T.has tree.now top ≡ true }
    ensures { Says H.told (H.state host.old) (H.state host.new)
        (listing_of (T.meaning tree.now).nodes (T.place tree.now top)) result }
{
    speech.begin();
    let count = put_nodes(host, tree, top, speech)?;
    speech.put_count(host, count)?;
    speech.end(host)
}

// Puts the lines of a node and of all below it, and says how many nodes these are.
fn put_nodes<H: Host, T: Tree>(
    host: &mut H,
    tree: &T,
    top: Spot,
    speech: &mut Speech,
) -> Result<u64, Failed>
    requires { T.has tree.now top ≡ true }
    ensures puts { Puts H.told (H.state host.old) (H.state host.new) speech.old.waiting.items
        (flat_map (lines_at (T.meaning tree.now).nodes)
        (entries_below (T.meaning tree.now).nodes (T.place tree.now top)))
        speech.new.waiting.items result }
    ensures count { IfOk result (λ count. count
        ≡ length (entries_below (T.meaning tree.now).nodes (T.place tree.now top))) }
{
    // That nodes are within their limits, and names are names, is told by the counters.
    let _counters = tree.counters();
    let mut count: u64 = 0;
    let mut next = Some(top);
    'nodes: while let Some(at) = next {
        let after = next_below(tree, at, top);
        put_node(host, tree, at, tree.node(at), speech)?;
        count += 1;
        next = after;
    }
    Ok(count)
}

fn put_node<H: Host, T: Tree>(
    host: &mut H,
    tree: &T,
    at: Spot,
    node: &Node,
    speech: &mut Speech,
) -> Result<(), Failed>
    requires there { T.has tree.now at ≡ true }
    requires sound { IsSound (T.meaning tree.now) (T.has tree.now) (T.place tree.now) }
    requires bounds { IsNode node.now }
    ensures { Puts H.told (H.state host.old) (H.state host.new) speech.old.waiting.items
        (lines_at (T.meaning tree.now).nodes (record { 0 = T.place tree.now at; 1 = node.now }))
        speech.new.waiting.items result }
{
    speech.put_node(host, node, tree.usage(at))?;
    put_path(host, tree, at, speech)?;
    speech.put_bytes(host, b"\n")?;
    put_blocks(host, blocks_of(&node.kind), speech)
}

fn blocks_of(kind: &Kind) -> &[Block]
    ensures { result.now ≡ blocks_of kind.now }
{
    match kind {
        Kind::File { blocks, .. } => &blocks.list,
        Kind::Dir { .. } => &[],
    }
}

fn put_blocks<H: Host>(host: &mut H, blocks: &[Block], speech: &mut Speech) -> Result<(), Failed>
    ensures { Puts H.told (H.state host.old) (H.state host.new) speech.old.waiting.items
        (flat_map line_of_block blocks.now) speech.new.waiting.items result }
{
    for block in blocks {
        speech.put_block(host, *block)?;
    }
    Ok(())
}

// Puts the text of a node's path.
fn put_path<H: Host, T: Tree>(
    host: &mut H,
    tree: &T,
    at: Spot,
    speech: &mut Speech,
) -> Result<(), Failed>
    requires there { T.has tree.now at ≡ true }
    requires sound { IsSound (T.meaning tree.now) (T.has tree.now) (T.place tree.now) }
    ensures { Puts H.told (H.state host.old) (H.state host.new) speech.old.waiting.items
        (escaped (text_of (T.place tree.now at))) speech.new.waiting.items result }
{
    match tree.parent(at) {
        None => speech.put_bytes(host, b"/"),
        Some(_) => put_names(host, tree, at, speech),
    }
}

// Puts a `/` and a name for each level.
fn put_names<H: Host, T: Tree>(
    host: &mut H,
    tree: &T,
    at: Spot,
    speech: &mut Speech,
) -> Result<(), Failed>
    requires there { T.has tree.now at ≡ true }
    requires sound { IsSound (T.meaning tree.now) (T.has tree.now) (T.place tree.now) }
    ensures { Puts H.told (H.state host.old) (H.state host.new) speech.old.waiting.items
        (escaped (joined (T.place tree.now at))) speech.new.waiting.items result }
{
    match tree.parent(at) {
        None => Ok(()),
        Some(parent) => {
            put_names(host, tree, parent, speech)?;
            speech.put_name(host, tree.name(at))
        }
    }
}
