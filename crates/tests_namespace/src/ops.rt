// Commands one after the other, with the answers that the rules give by hand.
ghost use Rattle.std.specs.Prelude.{◌≡◌, ◌<◌, ◌^◌, true, IfOk, IfSome};
ghost use Rattle.nn_record.specs.Ops.{IsOp};
ghost use Rattle.nn_quota.specs.Quotas.{IsQuota};
ghost use Rattle.nn_ops.specs.Commands.{IsCommand};

use nn_arena::ArenaTree;
use nn_base::{Label, Name, Path};
use nn_ops::{Clash, Command, OpRefusal, apply, prepare, replay};
use nn_quota::{Quota, Usage};
use nn_record::Op;
use nn_tree::{Block, Kind, PlainTree, Spot, Tree, Walk};
use std::alloc::Global;
use std::process::Abort;
use std::test::Fail;

/// A command with its paths as texts.
#[derive(Clone, Copy)]
enum Ask {
    Mkdir(&'static str),
    Create(&'static str, u64),
    Block(&'static str, u64),
    Close(&'static str),
    Delete(&'static str),
    Rename(&'static str, &'static str),
    Chmod(&'static str),
    Chown(&'static str),
    Quota(&'static str, Option<u64>, Option<u64>),
    Setrep(&'static str, u64),
}

fn path(alloc: Global, text: &str) -> Result<Path, Fail> {
    let mut names = Vec::new(alloc);
    for part in text.split('/') {
        if !part.is_empty() {
            names.push(Name::of(alloc, part.as_bytes())?.ok_or("a name")?)?;
        }
    }
    Ok(Path::of(alloc, &names)?.ok_or("a path")?)
}

fn is_number(rt: &impl Abort, number: Option<u64>)
    ensures { IfSome number (λ n. n < 2 ^ 63) }
{
    if let Some(number) = number {
        assert!(rt; number < 1 << 63);
    }
}

fn quota(rt: &impl Abort, names: Option<u64>, space: Option<u64>) -> Quota
    ensures { IsQuota result }
{
    is_number(rt, names);
    is_number(rt, space);
    Quota { names, space }
}

fn command(rt: &impl Abort, alloc: Global, ask: Ask) -> Result<Command, Fail>
    ensures { IfOk result (λ command. IsCommand command) }
{
    Ok(match ask {
        Ask::Mkdir(text) => Command::Mkdir {
            path: path(alloc, text)?,
        },
        Ask::Create(text, replication) => Command::Create {
            path: path(alloc, text)?,
            replication,
        },
        Ask::Block(text, length) => Command::AddBlock {
            path: path(alloc, text)?,
            length,
        },
        Ask::Close(text) => Command::Close {
            path: path(alloc, text)?,
        },
        Ask::Delete(text) => Command::Delete {
            path: path(alloc, text)?,
        },
        Ask::Rename(from, to) => Command::Rename {
            from: path(alloc, from)?,
            to: path(alloc, to)?,
        },
        Ask::Chmod(text) => Command::Chmod {
            path: path(alloc, text)?,
            mode: 0o700,
        },
        Ask::Chown(text) => Command::Chown {
            path: path(alloc, text)?,
            owner: Label::of(b"o").ok_or("an owner")?,
            group: Label::of(b"g").ok_or("a group")?,
        },
        Ask::Quota(text, names, space) => Command::SetQuota {
            path: path(alloc, text)?,
            quota: quota(rt, names, space),
        },
        Ask::Setrep(text, replication) => Command::Setrep {
            path: path(alloc, text)?,
            replication,
        },
    })
}

/// Does a command, and gives the refusal where it isn't taken.
fn answer<T: Tree>(
    rt: &impl Abort,
    alloc: Global,
    tree: &mut T,
    row: Ask,
) -> Result<Option<OpRefusal>, Fail> {
    let command = command(rt, alloc, row)?;
    match prepare(alloc, tree, command, 9) {
        Ok(plan) => {
            apply(tree, plan);
            Ok(None)
        }
        Err(refusal) => Ok(Some(refusal)),
    }
}

/// Does commands in an empty namespace and compares their answers.
fn answers<T: Tree>(
    rt: &impl Abort,
    alloc: Global,
    rows: &[(Ask, Option<OpRefusal>)],
) -> Result<T, Fail> {
    let mut tree = T::new(alloc)?;
    for (row, want) in rows {
        assert!(rt; answer(rt, alloc, &mut tree, *row)? == *want);
    }
    Ok(tree)
}

const DONE: Option<OpRefusal> = None;

#[test]
fn a_quota_of_names_counts_the_directory_itself(rt: HostRuntime) -> Result<(), Fail> {
    let rows = [
        (Ask::Mkdir("/q"), DONE),
        (Ask::Quota("/q", Some(1), None), DONE),
        (Ask::Mkdir("/q/a"), Some(OpRefusal::Quota)),
    ];
    answers::<PlainTree>(&rt, rt.alloc(), &rows)?;
    answers::<ArenaTree>(&rt, rt.alloc(), &rows)?;
    Ok(())
}

#[test]
fn quotas_of_what_moves_move_along_and_those_above_are_held(rt: HostRuntime) -> Result<(), Fail> {
    let rows = [
        (Ask::Mkdir("/a"), DONE),
        (Ask::Mkdir("/a/b"), DONE),
        (Ask::Create("/a/b/f", 2), DONE),
        (Ask::Block("/a/b/f", 50), DONE),
        (Ask::Quota("/a/b", Some(10), Some(100)), DONE),
        (Ask::Mkdir("/q"), DONE),
        (Ask::Quota("/q", None, Some(100)), DONE),
        (Ask::Rename("/a/b", "/q/b"), DONE),
        (Ask::Block("/q/b/f", 1), Some(OpRefusal::Quota)),
        (Ask::Create("/q/g", 1), DONE),
        (Ask::Block("/q/g", 1), Some(OpRefusal::Quota)),
        (Ask::Create("/h", 1), DONE),
        (Ask::Block("/h", 1), DONE),
        (Ask::Rename("/h", "/q/h"), Some(OpRefusal::Quota)),
    ];
    answers::<PlainTree>(&rt, rt.alloc(), &rows)?;
    answers::<ArenaTree>(&rt, rt.alloc(), &rows)?;
    Ok(())
}

#[test]
fn each_refusal_is_the_first_that_applies(rt: HostRuntime) -> Result<(), Fail> {
    let rows = [
        (Ask::Mkdir("/a"), DONE),
        (Ask::Rename("/a", "/a/b"), Some(OpRefusal::Under)),
        (Ask::Rename("/a", "/a"), Some(OpRefusal::Exists)),
        (Ask::Rename("/", "/b"), Some(OpRefusal::Root)),
        (Ask::Delete("/"), Some(OpRefusal::Root)),
        (Ask::Close("/a"), Some(OpRefusal::IsDir)),
        (Ask::Block("/x", 1), Some(OpRefusal::NotFound)),
        (Ask::Mkdir("/x/y"), Some(OpRefusal::NotFound)),
        (Ask::Mkdir("/"), Some(OpRefusal::Exists)),
        (Ask::Create("/f", 512), DONE),
        (Ask::Create("/g", 513), Some(OpRefusal::Limit)),
        (Ask::Mkdir("/f/a"), Some(OpRefusal::NotDir)),
        (Ask::Setrep("/f", 0), Some(OpRefusal::Limit)),
        (Ask::Setrep("/f", 3), DONE),
        (Ask::Close("/f"), DONE),
        (Ask::Block("/f", 1), Some(OpRefusal::Closed)),
        (Ask::Chmod("/f"), DONE),
        (Ask::Quota("/f", None, None), Some(OpRefusal::NotDir)),
        (Ask::Delete("/f"), DONE),
        (Ask::Delete("/f"), Some(OpRefusal::NotFound)),
    ];
    answers::<PlainTree>(&rt, rt.alloc(), &rows)?;
    answers::<ArenaTree>(&rt, rt.alloc(), &rows)?;
    Ok(())
}

fn found<T: Tree>(rt: &impl Abort, alloc: Global, tree: &T, text: &str) -> Result<Spot, Fail>
    ensures { IfOk result (λ spot. T.has tree.now spot ≡ true) }
{
    match tree.find(&path(alloc, text)?) {
        Walk::Found(spot) => Ok(spot),
        Walk::Missing => panic!(rt; "missing"),
        Walk::ThroughFile => panic!(rt; "through a file"),
    }
}

/// Makes `/a` of the group `g`, and a file with a block in it.
fn make_in_a_group<T: Tree>(rt: &impl Abort, alloc: Global) -> Result<(), Fail> {
    let rows = [
        (Ask::Mkdir("/a"), DONE),
        (Ask::Chown("/a"), DONE),
        (Ask::Create("/a/f", 2), DONE),
        (Ask::Block("/a/f", 5), DONE),
    ];
    let tree: T = answers(rt, alloc, &rows)?;
    let a = found(rt, alloc, &tree, "/a")?;
    let f = found(rt, alloc, &tree, "/a/f")?;
    assert_eq!(rt;
        tree.usage(a),
        Usage {
            names: 2,
            space: 10
        }
    );
    for (at, id, owner, mode) in [
        (a, 16386, b"o".as_slice(), 0o755),
        (f, 16387, b"hdfs".as_slice(), 0o644),
    ] {
        let node = tree.node(at);
        assert_eq!(rt; (node.id, node.mode, node.time), (id, mode, 9));
        assert!(rt; node.owner.bytes() == owner);
        assert!(rt; node.group.bytes() == b"g".as_slice());
    }
    match &tree.node(f).kind {
        Kind::File {
            replication,
            is_open,
            blocks,
        } => {
            assert!(rt; *replication == 2 && *is_open);
            assert!(rt; blocks.list.len() == 1);
            assert_eq!(rt;
                blocks.list[0],
                Block {
                    id: 1_073_741_825,
                    stamp: 1001,
                    length: 5
                }
            );
        }
        Kind::Dir { .. } => panic!(rt; "a directory"),
    }
    Ok(())
}

#[test]
fn a_file_gets_the_group_of_its_directory_and_the_next_numbers(
    rt: HostRuntime,
) -> Result<(), Fail> {
    make_in_a_group::<PlainTree>(&rt, rt.alloc())?;
    make_in_a_group::<ArenaTree>(&rt, rt.alloc())
}

#[test]
fn a_name_of_255_bytes_is_made(rt: HostRuntime) -> Result<(), Fail> {
    let alloc = rt.alloc();
    let mut tree = ArenaTree::new(alloc)?;
    let bytes = vec![in alloc; b'a'; 255]?;
    let mut names = Vec::new(alloc);
    names.push(Name::of(alloc, &bytes)?.ok_or("a name")?)?;
    let path = Path::of(alloc, &names)?.ok_or("a path")?;
    assert!(rt; prepare(alloc, &mut tree, Command::Mkdir { path }, 0).is_ok());
    Ok(())
}

/// The body of the first `mkdir /a`.
fn made_a(alloc: Global) -> Result<Op, Fail>
    ensures { IfOk result IsOp }
{
    Ok(Op::Mkdir {
        inode: 16386,
        path: path(alloc, "/a")?,
        time: 0,
        owner: Label::of(b"hdfs").ok_or("an owner")?,
        group: Label::of(b"supergroup").ok_or("a group")?,
        mode: 0o755,
    })
}

/// Makes `/a` by its body, and the second time not.
fn replay_twice<T: Tree>(rt: &impl Abort, alloc: Global) -> Result<(), Fail> {
    let mut tree = T::new(alloc)?;
    let op = made_a(alloc)?;
    assert!(rt; replay(alloc, &mut tree, &op) == Ok(()));
    let a = found(rt, alloc, &tree, "/a")?;
    assert_eq!(rt; tree.node(a).id, 16386);
    assert!(rt; replay(alloc, &mut tree, &op) == Err(Clash::Refused));
    assert_eq!(rt; tree.counters().inode, 16386);
    Ok(())
}

#[test]
fn a_body_is_done_where_its_command_would_write_it(rt: HostRuntime) -> Result<(), Fail> {
    replay_twice::<PlainTree>(&rt, rt.alloc())?;
    replay_twice::<ArenaTree>(&rt, rt.alloc())
}
