// How the words of a command line are read.
use nn_top::{Command, WordsFault, command_of, dirs_of};
use std::alloc::{AllocError, Global};
use std::test::Fail;

// Words with one space between them, and their directories where they have a reading.
const STATE: [(&str, Option<&str>); 14] = [
    ("", None),
    ("fly A", None),
    ("state", None),
    ("state --", None),
    ("state ", None),
    ("state A A", None),
    ("state -x A", None),
    ("state A -- B", None),
    ("state a b c d e f g h i", None),
    ("state a b c d e f g h", Some("a b c d e f g h")),
    ("state B A", Some("B A")),
    ("state A --", Some("A")),
    ("state - A", Some("- A")),
    ("state -- -x --", Some("-x --")),
];

// The same of `format`.
const FORMAT: [(&str, Option<&str>); 26] = [
    ("format --cluster=c1 --namespace 7 A", Some("A")),
    ("format B A --namespace=007 --cluster c1 --", Some("B A")),
    (
        "format --cluster c1 B A --namespace 2147483647",
        Some("B A"),
    ),
    ("format --cluster=-x --namespace 7 -- -x --", Some("-x --")),
    ("format --cluster c1 A", None),
    ("format --namespace 7 A", None),
    ("format --cluster c1 --namespace 0 A", None),
    ("format --cluster c1 --namespace 2147483648 A", None),
    (
        "format --cluster c1 --namespace 00000000000000000007 A",
        None,
    ),
    ("format --cluster c1 --namespace 7x A", None),
    ("format --cluster c1 --namespace= A", None),
    ("format --cluster - --namespace 7 A", None),
    ("format --cluster  --namespace 7 A", None),
    ("format --cluster= --namespace 7 A", None),
    ("format --cluster=c\x1f --namespace 7 A", None),
    ("format --cluster=c\x7f --namespace 7 A", None),
    ("format --cluster=! --namespace 7 A", Some("A")),
    ("format --cluster=c1 --namespace=-7 A", None),
    ("format --cluster --namespace 7 A", None),
    ("format --cluster c1 --cluster=c1 --namespace 7 A", None),
    ("format --cluster c1 --namespace 7 A --namespace 7", None),
    ("format --cluster c1 A --namespace 7 B", None),
    ("format --cluster c1 --namespace 7 --at 5 A", None),
    ("format --cluster c1 --namespace 7", None),
    ("format --cluster c1 --namespace 7 a b c d e f g h i", None),
    ("state --cluster c1 --namespace 7 A", None),
];

// The same of `run`.
const RUN: [(&str, Option<&str>); 46] = [
    ("run", None),
    ("run --", None),
    ("run --at 5", None),
    ("run A", Some("A")),
    ("run B A --", Some("B A")),
    ("run -- -x --", Some("-x --")),
    ("run a b c d e f g h", Some("a b c d e f g h")),
    ("run a b c d e f g h i", None),
    ("run A A", None),
    ("run --at 5 A", Some("A")),
    ("run --at=5 A", Some("A")),
    ("run A --at 5", Some("A")),
    ("run A --at=5 --", Some("A")),
    ("run --at 5 -- A", Some("A")),
    ("run --at=5 -- --at=6 -", Some("--at=6 -")),
    ("run --at 0 A", Some("A")),
    ("run --at 0000000000000000005 A", Some("A")),
    ("run --at 00000000000000000005 A", None),
    ("run --at 9223372036854775807 A", Some("A")),
    ("run --at 9223372036854775808 A", None),
    ("run --at -5 A", None),
    ("run --at=-5 A", None),
    ("run --at 5s A", None),
    ("run --at= A", None),
    ("run --at A", None),
    ("run A --at", None),
    ("run --at 1 --at 2 A", None),
    ("run --at=1 A --at=1", None),
    ("run A --at 5 B", None),
    ("run A -- B", None),
    ("run --help", None),
    ("run -h A", None),
    ("run --batch 0 A", None),
    ("run --cluster c1 A", None),
    ("state --at 5 A", None),
    ("dry --at 5", None),
    ("run --generate 5 A", Some("A")),
    ("run B --generate=500000 --at 5", Some("B")),
    (
        "run --at=5 --generate 1 -- -x --generate",
        Some("-x --generate"),
    ),
    ("run --generate 0 A", None),
    ("run --generate 500001 A", None),
    ("run --generate= A", None),
    ("run --generate -- A", None),
    ("run --generate 1 A --generate 1", None),
    ("run A --generate", None),
    ("dry --generate 5", None),
];

// Odd lines of each command.
const ODD: [(&str, Option<&str>); 42] = [
    ("state -- A -- B", Some("A -- B")),
    ("state -- --", Some("--")),
    ("state A -- --", None),
    ("state A --", Some("A")),
    ("state A A --", None),
    ("state -- A A", None),
    ("state -- ", None),
    ("state A  B", None),
    ("state -", Some("-")),
    ("state - -", None),
    ("state --A", None),
    ("state -- --A -", Some("--A -")),
    ("state A -B", None),
    ("state -- a b c d e f g h", Some("a b c d e f g h")),
    ("state -- a b c d e f g h i", None),
    ("State A", None),
    (" state A", None),
    ("-- state A", None),
    ("--cluster c1 --namespace 7 format A", None),
    ("format A --cluster c1 --namespace 7", Some("A")),
    ("format A B --namespace=7 --cluster=c1 --", Some("A B")),
    (
        "format --cluster c1 --namespace 7 -- A --cluster c2",
        Some("A --cluster c2"),
    ),
    ("format A --cluster c1 -- --namespace 7", None),
    ("format --cluster c1 -- A --namespace 7", None),
    ("format --cluster c1 A --namespace 7 -- B", None),
    ("format A --cluster c1 B --namespace 7", None),
    ("format --cluster -- c1 --namespace 7 A", None),
    ("format --namespace 7 A --cluster", None),
    ("format --namespace 7 --cluster A", None),
    ("format --cluster=a=b --namespace=7 A", Some("A")),
    ("format --cluster=- --namespace=7 A", Some("A")),
    ("format --cluster=--namespace=7 --namespace=7 A", Some("A")),
    ("format --clusters=c1 --namespace 7 A", None),
    ("format --clusterc1 --namespace 7 A", None),
    ("format -cluster c1 --namespace 7 A", None),
    ("format --cluster c1 --namespace 7 - A", Some("- A")),
    (
        "format --cluster c1 --namespace 7 a b c d e f g h",
        Some("a b c d e f g h"),
    ),
    ("format --cluster c1 --namespace 7 A B A", None),
    ("format --cluster c1 --namespace 7 --", None),
    ("format --cluster c1 --namespace 7 --namespace=7 A", None),
    ("format --cluster c1 --namespace +7 A", None),
    ("format  --cluster c1 --namespace 7 A", None),
];

fn split(alloc: Global, line: &str) -> Result<Vec<String>, AllocError> {
    let mut words = Vec::new(alloc);
    for word in line.split(' ') {
        words.push(String::from_str(alloc, word)?)?;
    }
    Ok(words)
}

#[test]
fn a_cluster_has_one_to_255_bytes(rt: HostRuntime) -> Result<(), Fail> {
    for (len, is_read) in [(0, false), (1, true), (255, true), (256, false)] {
        let mut line = String::from_str(rt.alloc(), "format --namespace 7 A --cluster=")?;
        for _ in 0..len {
            line.push_str("c")?;
        }
        let words = split(rt.alloc(), line.as_str())?;
        assert!(rt; command_of(&words).is_some() == is_read, "{len}");
    }
    Ok(())
}

#[test]
fn words_give_their_directories_or_usage(rt: HostRuntime) -> Result<(), Fail> {
    for (line, dirs) in STATE.iter().chain(&FORMAT) {
        let found = dirs_of(rt.alloc(), &split(rt.alloc(), line)?);
        match dirs {
            Some(dirs) => assert_eq!(rt; found?, split(rt.alloc(), dirs)?, "{line}"),
            None => assert_eq!(rt; found.err(), Some(WordsFault::Usage), "{line}"),
        }
    }
    assert_eq!(rt; dirs_of(rt.alloc(), &[]).err(), Some(WordsFault::Usage));
    Ok(())
}

#[test]
fn words_of_run_give_their_directories_or_usage(rt: HostRuntime) -> Result<(), Fail> {
    for (line, dirs) in &RUN {
        let found = dirs_of(rt.alloc(), &split(rt.alloc(), line)?);
        match dirs {
            Some(dirs) => assert_eq!(rt; found?, split(rt.alloc(), dirs)?, "{line}"),
            None => assert_eq!(rt; found.err(), Some(WordsFault::Usage), "{line}"),
        }
    }
    Ok(())
}

#[test]
fn odd_lines_are_read_as_any_other(rt: HostRuntime) -> Result<(), Fail> {
    for (line, dirs) in &ODD {
        let found = dirs_of(rt.alloc(), &split(rt.alloc(), line)?);
        match dirs {
            Some(dirs) => assert_eq!(rt; found?, split(rt.alloc(), dirs)?, "{line}"),
            None => assert_eq!(rt; found.err(), Some(WordsFault::Usage), "{line}"),
        }
    }
    Ok(())
}

#[test]
fn dry_takes_no_directories_and_no_options(rt: HostRuntime) -> Result<(), Fail> {
    let lines = [
        ("dry", true),
        ("dry --", true),
        ("dry ", false),
        ("dry A", false),
        ("dry -", false),
        ("dry --x", false),
        ("dry -- A", false),
        ("dry -- --", false),
        ("-- dry", false),
    ];
    for (line, is_read) in lines {
        match dirs_of(rt.alloc(), &split(rt.alloc(), line)?) {
            Ok(dirs) => assert!(rt; is_read && dirs.is_empty(), "{line}"),
            Err(_) => assert!(rt; !is_read, "{line}"),
        }
    }
    Ok(())
}

fn count_of(command: Option<&Command<'_>>) -> Option<u32> {
    match command {
        Some(Command::Generate { count }) => Some(*count),
        _ => None,
    }
}

#[test]
fn generate_takes_a_number_and_nothing_else(rt: HostRuntime) -> Result<(), Fail> {
    let lines = [
        ("generate 1", Some(1)),
        ("generate 500000", Some(500_000)),
        ("generate 0000000000000000005", Some(5)),
        ("generate 5 --", Some(5)),
        ("generate", None),
        ("generate ", None),
        ("generate --", None),
        ("generate 0", None),
        ("generate 500001", None),
        ("generate 00000000000000000005", None),
        ("generate -5", None),
        ("generate +5", None),
        ("generate 5x", None),
        ("generate -- 5", None),
        ("generate 5 -- 6", None),
        ("generate 5 -- --", None),
        ("generate 5 6", None),
        ("generate 5 -", None),
        ("generate 5 ", None),
        ("generate --at 5", None),
        ("generate 5 --at 5", None),
        ("generate --count 5", None),
        ("-- generate 5", None),
        ("dry 5", None),
    ];
    for (line, count) in lines {
        let words = split(rt.alloc(), line)?;
        assert_eq!(rt; count_of(command_of(&words).as_ref()), count, "{line}");
        assert_eq!(rt;
            dirs_of(rt.alloc(), &words).is_ok(),
            count.is_some(),
            "{line}"
        );
    }
    Ok(())
}

fn is_read(command: Option<&Command<'_>>, id: &[u8], number: u32) -> bool {
    match command {
        Some(
            Command::Format {
                cluster,
                namespace,
                ..
            },
        ) => cluster.bytes() == id && *namespace == number,
        _ => false,
    }
}

#[test]
fn format_is_read_with_its_cluster_and_namespace(rt: HostRuntime) -> Result<(), Fail> {
    let words = split(rt.alloc(), "format --cluster=c1 --namespace 7 A")?;
    let command = command_of(&words);
    assert!(rt; is_read(command.as_ref(), b"c1", 7));
    Ok(())
}

fn asked_of_run(command: Option<&Command<'_>>) -> Option<(u64, Option<u32>)> {
    match command {
        Some(Command::Run { at, generated, .. }) => Some((*at, *generated)),
        _ => None,
    }
}

#[test]
fn run_is_read_with_its_time_and_its_number_of_files(rt: HostRuntime) -> Result<(), Fail> {
    let lines = [
        ("run A", 0, None),
        ("run --at 5 A", 5, None),
        ("run A --at=0007", 7, None),
        (
            "run --at 9223372036854775807 A",
            9_223_372_036_854_775_807,
            None,
        ),
        ("run --generate 500000 A", 0, Some(500_000)),
        ("run --generate=1 A --at=5", 5, Some(1)),
    ];
    for (line, time, files) in lines {
        let words = split(rt.alloc(), line)?;
        let asked = asked_of_run(command_of(&words).as_ref());
        assert_eq!(rt; asked, Some((time, files)), "{line}");
    }
    Ok(())
}
