// Lines and answers that were written down by hand.
ghost use Rattle.std.specs.Prelude.{◌≡◌, ◌≢◌, ◌≤◌, true, length, IfOk};
ghost use Rattle.nn_tree.specs.Limits.{IsKind, IsNode};
ghost use Rattle.nn_base.specs.declared.path.fault.PathFault.TheVariants as path;
ghost use Rattle.nn_ops.specs.declared.refusal.OpRefusal.TheVariants as refusal;
ghost use Rattle.nn_script.specs.Spelling.{IsSaid};
ghost use Rattle.nn_script.specs.declared.syntax.Syntax.TheVariants as syntax;

use itoa::Buffer;
use nn_base::{Label, Path, PathFault};
use nn_ops::{Command, OpRefusal};
use nn_quota::{Quota, Usage};
use nn_script::{
    Answer, MAX_ANSWER, MAX_PART, ScriptCommand, Syntax, Unrestored, block_line, line_read,
    name_text, node_words,
};
use nn_tree::{Block, Blocks, Kind, Node};
use std::alloc::Global;
use std::test::Fail;

const FAULTS: [(&[u8], Syntax); 62] = [
    (b"mkdri /a", Syntax::Unknown),
    (b"Mkdir /a", Syntax::Unknown),
    (b"poll 0", Syntax::Unknown),
    (b"mkdir", Syntax::Words),
    (b"mkdir /a /b", Syntax::Words),
    (b"create /a", Syntax::Words),
    (b"create /a 1 2", Syntax::Words),
    (b"chown /a o", Syntax::Words),
    (b"chown /a o g h", Syntax::Words),
    (b"dirs 1", Syntax::Words),
    (b"clock", Syntax::Words),
    (b" mkdir /a", Syntax::Words),
    (b"mkdir /a ", Syntax::Words),
    (b"mkdir  /a", Syntax::Words),
    (b"mkdri ", Syntax::Words),
    (b" ", Syntax::Words),
    (b" #", Syntax::Words),
    (b"mkdir /a\x7F", Syntax::Byte),
    (b"mkdir /a\x1F", Syntax::Byte),
    (b"mkdir /a\r", Syntax::Byte),
    (b"\r", Syntax::Byte),
    (b" \t", Syntax::Byte),
    (b"mkdri\x80", Syntax::Byte),
    (b"mkdir a", Syntax::Path(PathFault::Relative)),
    (b"mkdir %2e", Syntax::Path(PathFault::Relative)),
    (b"mkdir //", Syntax::Path(PathFault::BadName)),
    (b"mkdir /a/", Syntax::Path(PathFault::BadName)),
    (b"mkdir /..", Syntax::Path(PathFault::BadName)),
    (b"mkdir /%2e%2e", Syntax::Path(PathFault::BadName)),
    (b"mkdir /a%2f", Syntax::Path(PathFault::BadName)),
    (b"mkdir /a%2f%2fb", Syntax::Path(PathFault::BadName)),
    (b"mkdir /%00", Syntax::Path(PathFault::BadName)),
    (b"mkdir /%3a", Syntax::Path(PathFault::BadName)),
    (b"mkdir /%zz", Syntax::Escape),
    (b"mkdir /%2F", Syntax::Escape),
    (b"mkdir /a%", Syntax::Escape),
    (b"mkdir /a%2", Syntax::Escape),
    (b"mkdir a%", Syntax::Escape),
    (b"mkdir /%%25", Syntax::Escape),
    (b"rename /a b%", Syntax::Escape),
    (b"rename a b%", Syntax::Path(PathFault::Relative)),
    (b"chmod / 8", Syntax::Mode),
    (b"chmod / 2000", Syntax::Mode),
    (b"chmod / 07777", Syntax::Mode),
    (b"chmod / 00777", Syntax::Mode),
    (b"chmod / 78", Syntax::Mode),
    (b"chmod a 8", Syntax::Path(PathFault::Relative)),
    (b"chown / 012345678901234567890123456789012 g", Syntax::Name),
    (b"chown / o 012345678901234567890123456789012", Syntax::Name),
    (b"chown / 012345678901234567890123456789012 %", Syntax::Name),
    (
        b"chown / % 012345678901234567890123456789012",
        Syntax::Escape,
    ),
    (
        b"chown / 0123456789012345678901234567890%2g g",
        Syntax::Escape,
    ),
    (b"clock 9223372036854775808", Syntax::Number),
    (b"clock 00000000000000000009", Syntax::Number),
    (b"clock -", Syntax::Number),
    (b"clock +1", Syntax::Number),
    (b"clock 1x", Syntax::Number),
    (b"quota / - x", Syntax::Number),
    (b"quota / -1 -", Syntax::Number),
    (b"quota / %2d -", Syntax::Number),
    (b"create /a -", Syntax::Number),
    (b"restore -1", Syntax::Number),
];

fn fault_of(alloc: Global, line: &[u8]) -> Option<Syntax> {
    line_read(alloc, line).err()
}

#[test]
fn the_first_fault_of_a_line_is_told(rt: HostRuntime) -> Result<(), Fail> {
    for (line, fault) in FAULTS {
        assert!(rt; fault_of(rt.alloc(), line) == Some(fault), "{line:?}");
    }
    Ok(())
}

// Each line with what it says, in words and with the path's own bytes.
const COMMANDS: [(&[u8], &[u8]); 31] = [
    (b"mkdir /a", b"mkdir /a"),
    (b"mkdir /", b"mkdir /"),
    (b"mkdir /a%20b", b"mkdir /a b"),
    (b"mkdir /a%2fb", b"mkdir /a/b"),
    (b"mkdir %2fa", b"mkdir /a"),
    (b"mkdir /%25%32%35", b"mkdir /%25"),
    (b"mkdir /%2525", b"mkdir /%25"),
    (b"mkdir /%c3%a9", b"mkdir /\xC3\xA9"),
    (b"mkdir /%2e%2e%2e", b"mkdir /..."),
    (b"create /f 3", b"create /f 3"),
    (b"create /f 0", b"create /f 0"),
    (b"block /f 1099511627777", b"block /f 1099511627777"),
    (b"close /f", b"close /f"),
    (b"delete /f", b"delete /f"),
    (b"rename /f /g", b"rename /f /g"),
    (b"chmod / 1777", b"chmod / 1023"),
    (b"chmod / 0755", b"chmod / 493"),
    (b"chmod / 7", b"chmod / 7"),
    (b"chown / o g", b"chown / o g"),
    (
        b"chown / 01234567890123456789012345678%41%00 %25",
        b"chown / 01234567890123456789012345678A\0 %",
    ),
    (b"quota / - 9", b"quota / none 9"),
    (b"quota / 0 -", b"quota / 0 none"),
    (b"setrep /f 513", b"setrep /f 513"),
    (b"clock 9223372036854775807", b"clock 9223372036854775807"),
    (b"clock 0000000000000000009", b"clock 9"),
    (b"list /", b"list /"),
    (b"dirs", b"dirs"),
    (b"roll", b"roll"),
    (b"checkpoint", b"checkpoint"),
    (b"finalize", b"finalize"),
    (b"restore 9", b"restore 9"),
];

fn shown(alloc: Global, line: &[u8]) -> Result<Vec<u8>, Fail> {
    let mut out = Vec::new(alloc);
    match line_read(alloc, line)? {
        None => out.extend_from_slice(b"nothing")?,
        Some(ScriptCommand::Namespace(command)) => show_change(&command, &mut out)?,
        Some(ScriptCommand::Clock(time)) => show_number(b"clock ", time, &mut out)?,
        Some(ScriptCommand::List(path)) => show_path(b"list ", &path, &mut out)?,
        Some(ScriptCommand::Dirs) => out.extend_from_slice(b"dirs")?,
        Some(ScriptCommand::Roll) => out.extend_from_slice(b"roll")?,
        Some(ScriptCommand::Checkpoint) => out.extend_from_slice(b"checkpoint")?,
        Some(ScriptCommand::Finalize) => out.extend_from_slice(b"finalize")?,
        Some(ScriptCommand::Restore(dir)) => show_number(b"restore ", dir, &mut out)?,
    }
    Ok(out)
}

fn show_change(command: &Command, out: &mut Vec<u8>) -> Result<(), Fail> {
    match command {
        Command::Mkdir { path } => show_path(b"mkdir ", path, out)?,
        Command::Create { path, replication } => {
            show_path(b"create ", path, out)?;
            show_number(b" ", *replication, out)?;
        }
        Command::AddBlock { path, length } => {
            show_path(b"block ", path, out)?;
            show_number(b" ", *length, out)?;
        }
        Command::Close { path } => show_path(b"close ", path, out)?,
        Command::Delete { path } => show_path(b"delete ", path, out)?,
        Command::Rename { from, to } => {
            show_path(b"rename ", from, out)?;
            show_path(b" ", to, out)?;
        }
        Command::Chmod { path, mode } => {
            show_path(b"chmod ", path, out)?;
            show_number(b" ", u64::from(*mode), out)?;
        }
        Command::Chown { path, owner, group } => {
            show_path(b"chown ", path, out)?;
            show_label(owner, out)?;
            show_label(group, out)?;
        }
        Command::SetQuota { path, quota } => {
            show_path(b"quota ", path, out)?;
            show_bound(quota.names, out)?;
            show_bound(quota.space, out)?;
        }
        Command::Setrep { path, replication } => {
            show_path(b"setrep ", path, out)?;
            show_number(b" ", *replication, out)?;
        }
    }
    Ok(())
}

fn show_path(front: &[u8], path: &Path, out: &mut Vec<u8>) -> Result<(), Fail> {
    out.extend_from_slice(front)?;
    path.text(out)?;
    Ok(())
}

fn show_number(front: &[u8], number: u64, out: &mut Vec<u8>) -> Result<(), Fail> {
    let mut digits = Buffer::new();
    out.extend_from_slice(front)?;
    out.extend_from_slice(digits.format(number).as_bytes())?;
    Ok(())
}

fn show_label(label: &Label, out: &mut Vec<u8>) -> Result<(), Fail> {
    out.extend_from_slice(b" ")?;
    out.extend_from_slice(label.bytes())?;
    Ok(())
}

fn show_bound(bound: Option<u64>, out: &mut Vec<u8>) -> Result<(), Fail> {
    match bound {
        None => out.extend_from_slice(b" none")?,
        Some(bound) => show_number(b" ", bound, out)?,
    }
    Ok(())
}

#[test]
fn a_line_reads_as_its_command(rt: HostRuntime) -> Result<(), Fail> {
    for (line, said) in COMMANDS {
        let read = shown(rt.alloc(), line)?;
        assert!(rt; read.as_slice() == said, "{line:?}");
    }
    Ok(())
}

#[test]
fn empty_lines_and_comments_have_no_answer(rt: HostRuntime) -> Result<(), Fail> {
    let comment = [b'#'; 70_000];
    for line in [b"".as_slice(), b"#", b"# mkdir /a", b"#\x80\0", &comment] {
        let read = shown(rt.alloc(), line)?;
        assert!(rt; read.as_slice() == b"nothing".as_slice());
    }
    Ok(())
}

#[test]
fn a_line_has_at_most_65535_bytes(rt: HostRuntime) {
    let line = [b'a'; 65_536];
    assert!(rt; fault_of(rt.alloc(), &line) == Some(Syntax::Long));
    assert!(rt; fault_of(rt.alloc(), &line[1..]) == Some(Syntax::Unknown));
    let line = [0x80; 65_536];
    assert!(rt; fault_of(rt.alloc(), &line) == Some(Syntax::Long));
}

// `list /NAME/NAME/..` with 31 names of 255 bytes and a last one.
fn long_list(alloc: Global, last: &[u8]) -> Result<Vec<u8>, Fail> {
    let name = [b'n'; 255];
    let mut line = Vec::from_slice(alloc, b"list ")?;
    for _ in 0..31 {
        line.extend_from_slice(b"/")?;
        line.extend_from_slice(&name)?;
    }
    line.extend_from_slice(b"/")?;
    line.extend_from_slice(last)?;
    Ok(line)
}

#[test]
fn names_have_255_bytes_and_paths_8000(rt: HostRuntime) -> Result<(), Fail> {
    let last = [b'l'; 64];
    let line = long_list(rt.alloc(), &last[1..])?;
    assert!(rt; shown(rt.alloc(), &line)?.as_slice() == line.as_slice());
    let line = long_list(rt.alloc(), &last)?;
    assert!(rt; fault_of(rt.alloc(), &line) == Some(Syntax::Path(PathFault::LongPath)));
    let mut line = Vec::from_slice(rt.alloc(), b"mkdir /")?;
    line.extend_from_slice(&[b'n'; 255])?;
    assert!(rt; shown(rt.alloc(), &line)?.as_slice() == line.as_slice());
    line.push(b'n')?;
    assert!(rt; fault_of(rt.alloc(), &line) == Some(Syntax::Path(PathFault::LongName)));
    Ok(())
}

const ANSWERS: [(Answer, &[u8]); 26] = [
    (Answer::Done, b"ok\n"),
    (Answer::Count(0), b"ok 0\n"),
    (Answer::Count(1_048_576), b"ok 1048576\n"),
    (Answer::Dry, b"refused dry\n"),
    (Answer::Later, b"refused later\n"),
    (
        Answer::NotRestored(Unrestored::NoSuchDir),
        b"refused no-such-dir\n",
    ),
    (
        Answer::NotRestored(Unrestored::Missing),
        b"refused missing\n",
    ),
    (
        Answer::NotRestored(Unrestored::Inconsistent),
        b"refused inconsistent\n",
    ),
    (Answer::NotRestored(Unrestored::Failed), b"refused failed\n"),
    (Answer::Refused(OpRefusal::Exists), b"refused exists\n"),
    (Answer::Refused(OpRefusal::NotFound), b"refused not-found\n"),
    (Answer::Refused(OpRefusal::NotDir), b"refused not-dir\n"),
    (Answer::Refused(OpRefusal::IsDir), b"refused is-dir\n"),
    (Answer::Refused(OpRefusal::Under), b"refused under\n"),
    (Answer::Refused(OpRefusal::Root), b"refused root\n"),
    (Answer::Refused(OpRefusal::Closed), b"refused closed\n"),
    (Answer::Refused(OpRefusal::Quota), b"refused quota\n"),
    (Answer::Refused(OpRefusal::Limit), b"refused limit\n"),
    (Answer::Unread(Syntax::Long), b"syntax long\n"),
    (Answer::Unread(Syntax::Words), b"syntax words\n"),
    (Answer::Unread(Syntax::Unknown), b"syntax unknown\n"),
    (Answer::Unread(Syntax::Mode), b"syntax mode\n"),
    (Answer::Unread(Syntax::Escape), b"syntax escape\n"),
    (
        Answer::Unread(Syntax::Path(PathFault::Relative)),
        b"syntax path relative\n",
    ),
    (
        Answer::Unread(Syntax::Path(PathFault::LongPath)),
        b"syntax path long-path\n",
    ),
    (
        Answer::Unread(Syntax::Path(PathFault::LongName)),
        b"syntax path long-name\n",
    ),
];

fn is_told(why: OpRefusal) -> bool
    ensures { result ≡ true → why ≢ refusal.Memory }
{
    match why {
        OpRefusal::Memory => false,
        _ => true,
    }
}

fn is_path_fault(fault: PathFault) -> bool
    ensures { result ≡ true → fault ≢ path.Memory }
{
    match fault {
        PathFault::Memory => false,
        _ => true,
    }
}

fn is_fault(fault: Syntax) -> bool
    ensures memory { result ≡ true → fault ≢ syntax.Memory }
    ensures path { result ≡ true → fault ≢ syntax.Path path.Memory }
{
    match fault {
        Syntax::Memory => false,
        Syntax::Path(fault) => is_path_fault(fault),
        _ => true,
    }
}

/// Whether an answer is one that is given: want of memory isn't.
fn is_said(answer: Answer) -> bool
    ensures { result ≡ true → IsSaid answer }
{
    match answer {
        Answer::Refused(refusal) => is_told(refusal),
        Answer::Unread(fault) => is_fault(fault),
        Answer::Done => true,
        Answer::Count(_) => true,
        Answer::Dry => true,
        Answer::Later => true,
        Answer::NotRestored(_) => true,
    }
}

#[test]
fn each_answer_is_one_line(rt: HostRuntime) -> Result<(), Fail> {
    for (answer, line) in ANSWERS {
        let mut out = Vec::with_capacity(rt.alloc(), MAX_ANSWER)?;
        assert!(rt; is_said(answer));
        answer.text(&mut out);
        assert!(rt; out.as_slice() == line, "{answer:?}");
    }
    Ok(())
}

fn directory(mode: u16, owner: Label, group: Label, quota: Quota) -> Node
    requires mode { mode ≤ 1023 }
    requires kind { IsKind (Kind.Dir quota) }
    ensures { IsNode result }
{
    Node {
        id: 16386,
        owner,
        group,
        mode,
        time: 9,
        kind: Kind::Dir { quota },
    }
}

fn file(alloc: Global, owner: Label, group: Label) -> Result<Node, Fail>
    ensures { IfOk result IsNode }
{
    let mut list = Vec::new(alloc);
    list.push(BLOCK)?;
    Ok(Node {
        id: 16387,
        owner,
        group,
        mode: 0o644,
        time: 9,
        kind: Kind::File {
            replication: 2,
            is_open: true,
            blocks: Blocks { list },
        },
    })
}

const BLOCK: Block = Block {
    id: 1_073_741_825,
    stamp: 1001,
    length: 5,
};

/// The line of a node, whose path comes as it is printed.
fn node_line(alloc: Global, node: &Node, usage: Usage, path: &[u8]) -> Result<Vec<u8>, Fail>
    requires bounds { IsNode node.now }
{
    let mut line = Vec::with_capacity(alloc, MAX_PART)?;
    node_words(node, usage, &mut line);
    line.extend_from_slice(path)?;
    line.extend_from_slice(b"\n")?;
    Ok(line)
}

/// How a path below the root is printed, whose last name is this one.
fn below(alloc: Global, above: &[u8], name: &[u8]) -> Result<Vec<u8>, Fail>
    requires short { length name.now ≤ 255 }
{
    let mut last = Vec::with_capacity(alloc, MAX_PART)?;
    name_text(name, &mut last);
    let mut path = Vec::from_slice(alloc, above)?;
    path.extend_from_slice(&last)?;
    Ok(path)
}

#[test]
fn a_listing_says_a_node_and_its_blocks(rt: HostRuntime) -> Result<(), Fail> {
    let alloc = rt.alloc();
    let owner = Label::of(b"o").ok_or("a label")?;
    let group = Label::of(b"g").ok_or("a label")?;
    let hdfs = Label::of(b"hdfs").ok_or("a label")?;
    let quota = Quota {
        names: None,
        space: None,
    };
    let usage = Usage {
        names: 2,
        space: 10,
    };
    let a = below(alloc, b"", b"a")?;
    let mut said = node_line(alloc, &directory(0o755, owner, group, quota), usage, &a)?;
    let f = below(alloc, &a, b"f")?;
    said.extend_from_slice(&node_line(alloc, &file(alloc, hdfs, group)?, usage, &f)?)?;
    let mut block = Vec::with_capacity(alloc, MAX_PART)?;
    block_line(BLOCK, &mut block);
    said.extend_from_slice(&block)?;
    let wanted =
        b"d 16386 0755 o g 9 - - 2 10 /a\nf 16387 0644 hdfs g 9 2 open 1 5 /a/f\nb 1073741825 1001 5\n";
    assert!(rt; said.as_slice() == wanted.as_slice());
    Ok(())
}

#[test]
fn what_would_not_be_a_word_is_printed_with_escapes(rt: HostRuntime) -> Result<(), Fail> {
    let alloc = rt.alloc();
    let owner = Label::of(b"%").ok_or("a label")?;
    let group = Label::of(b"g \x7F\xFF").ok_or("a label")?;
    let quota = Quota {
        names: Some(9_223_372_036_854_775_807),
        space: Some(0),
    };
    let usage = Usage {
        names: 1,
        space: 340_282_366_920_938_463_463_374_607_431_768_211_455,
    };
    let node = directory(0o1000, owner, group, quota);
    let line =
        b"d 16386 1000 %25 g%20%7f%ff 9 9223372036854775807 0 1 340282366920938463463374607431768211455 /~!%0a%25\n";
    let path = below(alloc, b"", b"~!\n%")?;
    assert!(rt; node_line(alloc, &node, usage, &path)?.as_slice() == line.as_slice());
    Ok(())
}
