// One small tree, driven through the trait as commands drive it.
ghost use Rattle.std.specs.Prelude.{◌≡◌, ◌<◌, ◌≤◌, ◌^◌, true, None, [], map as map_list, IfOk};
ghost use Rattle.std.specs.FinMap as map;
ghost use Rattle.nn_tree.specs.Namespace.{node_count, is_dir_at, is_file_at};
ghost use Rattle.nn_tree.specs.Limits.{IsBlock, IsKind, IsNode};
ghost use Rattle.nn_tree.specs.Nodes.{blocks_of};
ghost use Rattle.nn_tree.specs.Spots.{IsSound};
ghost use Rattle.nn_tree.specs.Below.{entries_below};

use nn_arena::ArenaTree;
use nn_base::{Label, Name, NoMemory, Path};
use nn_quota::{Quota, Usage};
use nn_tree::{Block, Blocks, Change, Kind, Node, PlainTree, Spot, Tree, Walk, next_below};
use std::alloc::Global;
use std::process::Abort;
use std::test::Fail;

fn path(alloc: Global, parts: &[&[u8]]) -> Result<Path, Fail> {
    let mut names = Vec::new(alloc);
    for part in parts {
        names.push(Name::of(alloc, part)?.ok_or("a name")?)?;
    }
    Ok(Path::of(alloc, &names)?.ok_or("a path")?)
}

/// A node that has nothing but an id.
fn node(id: u64, label: Label, kind: Kind) -> Node
    requires id { id < 2 ^ 63 }
    requires kind { IsKind kind }
    ensures node { IsNode result }
    ensures kind { result.kind ≡ kind }
{
    Node {
        id,
        owner: label,
        group: label,
        mode: 0o755,
        time: 0,
        kind,
    }
}

fn directory(id: u64, label: Label) -> Node
    requires { id < 2 ^ 63 }
    ensures node { IsNode result }
    ensures empty { blocks_of result.kind ≡ [] }
{
    let quota = Quota {
        names: None,
        space: None,
    };
    node(id, label, Kind::Dir { quota })
}

/// An open file of three replicas.
fn file(alloc: Global, id: u64, label: Label) -> Node
    requires { id < 2 ^ 63 }
    ensures node { IsNode result }
    ensures empty { blocks_of result.kind ≡ [] }
{
    let blocks = Blocks {
        list: Vec::new(alloc),
    };
    node(
        id,
        label,
        Kind::File {
            replication: 3,
            is_open: true,
            blocks,
        },
    )
}

fn found<T: Tree>(rt: &impl Abort, tree: &T, path: &Path) -> Spot
    ensures has { T.has tree.now result ≡ true }
    ensures place { T.place tree.now result ≡ path.now }
{
    match tree.find(path) {
        Walk::Found(spot) => spot,
        Walk::Missing => panic!(rt; "missing"),
        Walk::ThroughFile => panic!(rt; "through a file"),
    }
}

fn missing<T: Tree>(rt: &impl Abort, tree: &T, path: &Path)
    ensures free { map.get (T.meaning tree.now).nodes path.now ≡ None }
    ensures sound { IsSound (T.meaning tree.now) (T.has tree.now) (T.place tree.now) }
{
    match tree.find(path) {
        Walk::Found(_) => panic!(rt; "there already"),
        Walk::Missing => {}
        Walk::ThroughFile => panic!(rt; "through a file"),
    }
}

fn not_full<T: Tree>(rt: &impl Abort, alloc: Global, tree: &T)
    ensures { node_count (T.meaning tree.now).nodes < 1048576 }
{
    let root = found(rt, tree, &Path::root(alloc));
    assert!(rt; tree.usage(root).names < 1_048_576);
}

fn is_dir<T: Tree>(rt: &impl Abort, tree: &T, at: Spot)
    requires { T.has tree.now at ≡ true }
    ensures { is_dir_at (T.meaning tree.now).nodes (T.place tree.now at) ≡ true }
{
    assert!(rt; tree.node(at).kind.is_dir());
}

/// Makes a directory.
fn make<T: Tree>(
    rt: &impl Abort,
    alloc: Global,
    tree: &mut T,
    path: &Path,
    node: Node,
) -> Result<Spot, Fail>
    requires node { IsNode node }
    requires empty { blocks_of node.kind ≡ [] }
{
    assert!(rt; path.depth() > 0);
    let above = path.parent(alloc)?;
    let name = path.last_name(alloc)?;
    let at = found(rt, tree, &above);
    tree.reserve(at)?;
    let parent = found(rt, tree, &above);
    is_dir(rt, tree, parent);
    missing(rt, tree, path);
    not_full(rt, alloc, tree);
    Ok(tree.insert(parent, name, node))
}

/// Moves a node into a directory that is nearer to the root than the node.
fn move_up<T: Tree>(
    rt: &impl Abort,
    alloc: Global,
    tree: &mut T,
    from: &Path,
    to: &Path,
) -> Result<Spot, Fail> {
    assert!(rt; to.depth() > 0);
    let above = to.parent(alloc)?;
    let name = to.last_name(alloc)?;
    assert!(rt; above.depth() < from.depth());
    let at = found(rt, tree, from);
    let parent = found(rt, tree, &above);
    is_dir(rt, tree, parent);
    missing(rt, tree, to);
    tree.relink(at, parent, name);
    Ok(at)
}

fn block(length: u64) -> Block
    requires some { 0 < length }
    requires few { length ≤ 2 ^ 40 }
    ensures { IsBlock result }
{
    Block {
        id: 1_073_741_825,
        stamp: 1001,
        length,
    }
}

fn add<T: Tree>(rt: &impl Abort, tree: &mut T, path: &Path, block: Block) -> Result<(), Fail>
    requires { IsBlock block }
{
    let at = found(rt, tree, path);
    tree.reserve(at)?;
    let at = found(rt, tree, path);
    has_file(rt, tree, at);
    let _counters = tree.counters();
    assert!(rt; tree.blocks() < 8_388_608);
    assert!(rt; tree.node(at).kind.block_count() < 10_000);
    tree.add_block(at, block);
    Ok(())
}

fn has_file<T: Tree>(rt: &impl Abort, tree: &T, at: Spot)
    requires { T.has tree.now at ≡ true }
    ensures { is_file_at (T.meaning tree.now).nodes (T.place tree.now at) ≡ true }
{
    assert!(rt; !tree.node(at).kind.is_dir());
}

fn touch<T: Tree>(rt: &impl Abort, tree: &mut T, path: &Path, time: u64)
    requires { time < 2 ^ 63 }
{
    let at = found(rt, tree, path);
    let _counters = tree.counters();
    let _node = tree.node(at);
    tree.change(at, Change::Time(time));
}

/// Makes `/a`, `/a/b` and `/q`, and moves `/a/b` to `/q/b`.
fn move_a_directory<T: Tree>(rt: &impl Abort, alloc: Global, label: Label) -> Result<(), Fail> {
    let mut tree = T::new(alloc)?;
    make(
        rt,
        alloc,
        &mut tree,
        &path(alloc, &[b"a"])?,
        directory(16386, label),
    )?;
    let b = make(
        rt,
        alloc,
        &mut tree,
        &path(alloc, &[b"a", b"b"])?,
        directory(16387, label),
    )?;
    make(
        rt,
        alloc,
        &mut tree,
        &path(alloc, &[b"q"])?,
        directory(16388, label),
    )?;
    let moved = move_up(
        rt,
        alloc,
        &mut tree,
        &path(alloc, &[b"a", b"b"])?,
        &path(alloc, &[b"q", b"b"])?,
    )?;
    assert_eq!(rt; moved, b);
    assert_eq!(rt; tree.find(&path(alloc, &[b"q", b"b"])?), Walk::Found(b));
    assert_eq!(rt; tree.find(&path(alloc, &[b"a", b"b"])?), Walk::Missing);
    for (name, names) in [(b"a", 1), (b"q", 2)] {
        let at = found(rt, &tree, &path(alloc, &[name])?);
        assert_eq!(rt; tree.usage(at), Usage { names, space: 0 });
    }
    Ok(())
}

/// Makes a file of three replicas with two blocks, and removes it.
fn fill_a_file<T: Tree>(rt: &impl Abort, alloc: Global, label: Label) -> Result<(), Fail> {
    let mut tree = T::new(alloc)?;
    let f = path(alloc, &[b"f"])?;
    make(rt, alloc, &mut tree, &f, file(alloc, 16386, label))?;
    add(rt, &mut tree, &f, block(50))?;
    add(rt, &mut tree, &f, block(7))?;
    touch(rt, &mut tree, &f, 9);
    assert_eq!(rt; tree.blocks(), 2);
    let root = found(rt, &tree, &Path::root(alloc));
    assert_eq!(rt;
        tree.usage(root),
        Usage {
            names: 2,
            space: 171
        }
    );
    assert!(rt; f.depth() > 0);
    let at = found(rt, &tree, &f);
    assert_eq!(rt; tree.node(at).time, 9);
    tree.remove(at);
    assert_eq!(rt; tree.find(&f), Walk::Missing);
    Ok(())
}

#[test]
fn nodes_keep_their_spots_and_count_where_they_are(rt: HostRuntime) -> Result<(), Fail> {
    let label = Label::of(b"hdfs").ok_or("a label")?;
    move_a_directory::<PlainTree>(&rt, rt.alloc(), label)?;
    move_a_directory::<ArenaTree>(&rt, rt.alloc(), label)?;
    fill_a_file::<PlainTree>(&rt, rt.alloc(), label)?;
    fill_a_file::<ArenaTree>(&rt, rt.alloc(), label)
}

/// The ids of the nodes at and below a spot, in the order of a walk.
fn ids_below<T: Tree>(alloc: Global, tree: &T, top: Spot) -> Result<Vec<u64>, NoMemory>
    requires { T.has tree.now top ≡ true }
    ensures { IfOk result (λ ids. ids.items ≡ map_list (λ e. e.1.id)
        (entries_below (T.meaning tree.now).nodes (T.place tree.now top))) }
{
    let mut ids = Vec::new(alloc);
    let mut next = Some(top);
    while let Some(at) = next {
        ids.push(tree.node(at).id)?;
        next = next_below(tree, at, top);
    }
    Ok(ids)
}

/// Makes a tree of directories, put in out of order, and walks it from the root and from `/a`.
fn walk_in_order<T: Tree>(rt: &impl Abort, alloc: Global, label: Label) -> Result<(), Fail> {
    let mut tree = T::new(alloc)?;
    let paths: [(&[&[u8]], u64); 9] = [
        (&[b"b"], 16394),
        (&[b"a!"], 16390),
        (&[b"a"], 16386),
        (&[b"a", b"y"], 16389),
        (&[b"a0"], 16392),
        (&[b"a0", b"x"], 16393),
        (&[b"a!", b"x"], 16391),
        (&[b"a", b"x"], 16387),
        (&[b"a", b"x", b"b"], 16388),
    ];
    for (parts, id) in paths {
        make(
            rt,
            alloc,
            &mut tree,
            &path(alloc, parts)?,
            directory(id, label),
        )?;
    }
    let root = found(rt, &tree, &Path::root(alloc));
    let whole = [
        16385, 16386, 16387, 16388, 16389, 16390, 16391, 16392, 16393, 16394,
    ];
    assert_eq!(rt; ids_below(alloc, &tree, root)?.as_slice(), whole.as_slice());
    let a = found(rt, &tree, &path(alloc, &[b"a"])?);
    assert_eq!(rt; ids_below(alloc, &tree, a)?.as_slice(), &whole[1..5]);
    Ok(())
}

#[test]
fn a_walk_follows_the_order_of_paths(rt: HostRuntime) -> Result<(), Fail> {
    let label = Label::of(b"hdfs").ok_or("a label")?;
    walk_in_order::<PlainTree>(&rt, rt.alloc(), label)?;
    walk_in_order::<ArenaTree>(&rt, rt.alloc(), label)
}

fn names_below_root<T: Tree>(rt: &impl Abort, alloc: Global, tree: &T) -> u64 {
    let root = found(rt, tree, &Path::root(alloc));
    tree.usage(root).names
}

/// Makes 5,000 directories below the root and a hundred files in each, and asks for the usage of the root after each.
fn fill_widely<T: Tree>(rt: &impl Abort, alloc: Global, label: Label) -> Result<(), Fail> {
    let mut tree = T::new(alloc)?;
    for d in 0..5_000u64 {
        let dir = format!(in alloc; "d{d}")?;
        let at = path(alloc, &[dir.as_bytes()])?;
        make(rt, alloc, &mut tree, &at, directory(20_000 + d, label))?;
        assert_eq!(rt; names_below_root(rt, alloc, &tree), 101 * d + 2);
        for f in 0..100u64 {
            let name = format!(in alloc; "f{f}")?;
            let at = path(alloc, &[dir.as_bytes(), name.as_bytes()])?;
            make(rt, alloc, &mut tree, &at, file(alloc, 30_000 + f, label))?;
            assert_eq!(rt; names_below_root(rt, alloc, &tree), 101 * d + f + 3);
        }
    }
    assert_eq!(rt; names_below_root(rt, alloc, &tree), 505_001);
    Ok(())
}

#[test]
fn the_usage_of_the_root_is_told_after_each_of_505_000_names(rt: HostRuntime) -> Result<(), Fail> {
    let label = Label::of(b"hdfs").ok_or("a label")?;
    fill_widely::<ArenaTree>(&rt, rt.alloc(), label)
}
