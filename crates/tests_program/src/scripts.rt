// Scripts, by the call that answers them.
use nn_base::NoMemory;
use nn_memhost::{MemHost, MemSource, Part};
use nn_server::dry;
use std::alloc::Global;
use std::test::Fail;

// How a run ended: by its exit status, and with how many calls of the output.
#[derive(Clone, Copy, Debug, PartialEq, Eq)]
struct End {
    code: u8,
    as_told: bool,
    calls: u64,
}

// Runs a script, where the calls of the output and of the source fail that are named, and compares
// what is said.
fn run(
    alloc: Global,
    script: Vec<u8>,
    out_fails: Option<u64>,
    source_fails: Option<u64>,
    told: &str,
) -> Result<End, NoMemory> {
    let mut fails = Vec::new(alloc);
    if let Some(call) = out_fails {
        fails.push((call, Part::Nothing))?;
    }
    let mut takes = Vec::new(alloc);
    if let Some(call) = source_fails {
        takes.push(call)?;
    }
    let mut host = MemHost::new(alloc, 0, fails)?;
    let mut source = MemSource::new(script, takes);
    let code = dry(alloc, &mut host, &mut source).status().code();
    Ok(End {
        code,
        as_told: host.said() == told.as_bytes(),
        calls: host.calls(),
    })
}

// Whether a script that is read to its end is answered so.
fn answers(alloc: Global, script: &str, told: &str) -> Result<bool, NoMemory> {
    let end = run(
        alloc,
        Vec::from_slice(alloc, script.as_bytes())?,
        None,
        None,
        told,
    )?;
    Ok(end.code == 0 && end.as_told)
}

// A text between two others, one byte so many times.
fn around(
    alloc: Global,
    before: &str,
    byte: u8,
    count: usize,
    after: &str,
) -> Result<Vec<u8>, NoMemory> {
    let mut text = Vec::from_slice(alloc, before.as_bytes())?;
    text.resize(text.len().saturating_add(count), byte)?;
    text.extend_from_slice(after.as_bytes())?;
    Ok(text)
}

const SCRIPTS: [(&str, &str); 10] = [
    (
        "mkdir /q\nquota /q 1 -\nmkdir /q/a\n",
        "ok\nok\nrefused quota\n",
    ),
    (
        "mkdir /a\nmkdir /a/b\ncreate /a/b/f 2\nblock /a/b/f 50\nquota /a/b 10 100\nmkdir /q\nquota /q - 100\nrename /a/b /q/b\nblock /q/b/f 1\ncreate /q/g 1\nblock /q/g 1\ncreate /h 1\nblock /h 1\nrename /h /q/h\n",
        "ok\nok\nok\nok\nok\nok\nok\nok\nrefused quota\nok\nrefused quota\nok\nok\nrefused quota\n",
    ),
    (
        "mkdri /a\nmkdir\nmkdir a\nchmod / 8\n\nmkdir /%zz\nroll\n",
        "syntax unknown\nsyntax words\nsyntax path relative\nsyntax mode\nsyntax escape\nrefused dry\n",
    ),
    (
        "mkdir /a\nrename /a /a/b\nrename /a /a\nrename / /b\ndelete /\nclose /a\nblock /x 1\nmkdir /x/y\n",
        "ok\nrefused under\nrefused exists\nrefused root\nrefused root\nrefused is-dir\nrefused not-found\nrefused not-found\n",
    ),
    (
        "clock 9\nmkdir /a\nchown /a o g\ncreate /a/f 2\nblock /a/f 5\nlist /a\n",
        "ok\nok\nok\nok\nok\nd 16386 0755 o g 9 - - 2 10 /a\nf 16387 0644 hdfs g 9 2 open 1 5 /a/f\nb 1073741825 1001 5\nok 2\n",
    ),
    (
        "mkdir /a\nlist /a/b\ncreate /f 1\nlist /f/g\nlist /\n",
        "ok\nrefused not-found\nok\nrefused not-dir\nd 16385 0755 hdfs supergroup 0 - - 3 0 /\nd 16386 0755 hdfs supergroup 0 - - 1 0 /a\nf 16387 0644 hdfs supergroup 0 1 open 0 0 /f\nok 3\n",
    ),
    ("mkdir /a\nmkdir /a", "ok\nrefused exists\n"),
    (
        "mkdir /a\r\nclock 5\r\n\r\nroll\r\n",
        "ok\nok\nrefused dry\n",
    ),
    ("mkdir /a\n\r", "ok\nsyntax byte\n"),
    ("", ""),
];

#[test]
fn scripts_are_answered_line_by_line(rt: HostRuntime) -> Result<(), Fail> {
    for (script, told) in SCRIPTS {
        assert!(rt; answers(rt.alloc(), script, told)?, "{script}");
    }
    Ok(())
}

#[test]
fn lines_of_any_length_are_read(rt: HostRuntime) -> Result<(), Fail> {
    let alloc = rt.alloc();
    // What stands before, a byte, how many of it, what stands behind, and the answer.
    let rows = [
        ("#", b'a', 69_999, "\nroll\n", "refused dry\n"),
        ("", b'x', 65_535, "\n", "syntax unknown\n"),
        ("", b'x', 65_536, "\n", "syntax long\n"),
        ("", b'x', 65_535, "\r\n", "syntax unknown\n"),
        ("", b'x', 65_535, "\r", "syntax long\n"),
        (
            "roll\n",
            b'x',
            200_000,
            "\r\nroll",
            "refused dry\nsyntax long\nrefused dry\n",
        ),
        ("mkdir /", b'n', 255, "\n", "ok\n"),
        ("mkdir /", b'n', 256, "\n", "syntax path long-name\n"),
        ("list ", b'/', 8_001, "\n", "syntax path long-path\n"),
        (
            "create /f 512\ncreate /g 51",
            b'3',
            1,
            "\n",
            "ok\nrefused limit\n",
        ),
    ];
    for (before, byte, count, after, told) in rows {
        let script = around(alloc, before, byte, count, after)?;
        let end = run(alloc, script, None, None, told)?;
        assert_eq!(rt; end.code, 0);
        assert!(rt; end.as_told, "{before}{count}{after}");
    }
    Ok(())
}

// A path of 31 names of 255 bytes and one more.
#[test]
fn a_path_of_8000_bytes_is_looked_for_and_one_of_8001_is_none(rt: HostRuntime) -> Result<(), Fail> {
    let alloc = rt.alloc();
    for (last, told) in [(63, "refused not-found\n"), (64, "syntax path long-path\n")] {
        let mut script = Vec::from_slice(alloc, b"list ")?;
        for count in [255; 31] {
            script.extend_from_slice(&around(alloc, "/", b'n', count, "")?)?;
        }
        script.extend_from_slice(&around(alloc, "/", b'n', last, "\n")?)?;
        let end = run(alloc, script, None, None, told)?;
        assert!(rt; end.as_told, "{told}");
    }
    Ok(())
}

#[test]
fn a_run_ends_where_its_source_or_its_output_fails(rt: HostRuntime) -> Result<(), Fail> {
    let alloc = rt.alloc();
    let rows = [
        ("mkdir /a\n", None, Some(0), "", 5, 0),
        ("mkdir /a\nmkdir /b", None, Some(1), "ok\n", 5, 1),
        ("mkdir /a\nmkdir /b\n", Some(1), None, "ok\n", 8, 2),
        ("mkdir /a\nmkdir /b\nmkdir /c\n", Some(0), None, "", 8, 1),
    ];
    for (script, out_fails, source_fails, told, code, calls) in rows {
        let bytes = Vec::from_slice(alloc, script.as_bytes())?;
        let end = run(alloc, bytes, out_fails, source_fails, told)?;
        assert_eq!(rt;
            end,
            End {
                code,
                as_told: true,
                calls
            }
        );
    }
    Ok(())
}

// 2^26 newlines.
const NEWLINES: usize = 67_108_864;

#[test]
fn a_script_of_2_to_the_26_newlines_has_no_answer(rt: HostRuntime) -> Result<(), Fail> {
    let alloc = rt.alloc();
    let script = vec![in alloc; b'\n'; NEWLINES]?;
    let end = run(alloc, script, None, None, "")?;
    assert_eq!(rt; (end.code, end.calls), (0, 0));
    Ok(())
}

#[test]
fn a_script_of_one_newline_more_is_too_long(rt: HostRuntime) -> Result<(), Fail> {
    let alloc = rt.alloc();
    let script = vec![in alloc; b'\n'; NEWLINES + 1]?;
    let end = run(alloc, script, None, None, "")?;
    assert_eq!(rt; (end.code, end.calls), (6, 0));
    Ok(())
}

#[test]
fn the_last_line_of_a_script_that_is_too_long_has_no_answer(rt: HostRuntime) -> Result<(), Fail> {
    let alloc = rt.alloc();
    // `roll`, a comment, and a `roll` of which the newline, or its `l`, is the byte that is too many.
    let rows = [
        (67_108_854, "\nroll", "refused dry\nrefused dry\n", 0),
        (67_108_854, "\nroll\n", "refused dry\n", 6),
        (67_108_855, "\nroll", "refused dry\n", 6),
        (67_108_853, "\nroll\n", "refused dry\nrefused dry\n", 0),
        (67_108_853, "\nroll\n\n", "refused dry\nrefused dry\n", 6),
    ];
    for (count, after, told, code) in rows {
        let script = around(alloc, "roll\n", b'#', count, after)?;
        let end = run(alloc, script, None, None, told)?;
        assert_eq!(rt; (end.code, end.as_told), (code, true));
    }
    Ok(())
}

// 300 directories with names of 250 bytes; the answers are 301 calls, but that the listing goes out in two.
#[test]
fn a_long_listing_goes_out_in_pieces(rt: HostRuntime) -> Result<(), Fail> {
    let alloc = rt.alloc();
    let mut script = Vec::new(alloc);
    for k in 0..300 {
        let line = around(alloc, "mkdir /", b'n', 247, "")?;
        script.extend_from_slice(&line)?;
        script.extend_from_slice(format!(in alloc; "{}\n", 100 + k)?.as_bytes())?;
    }
    script.extend_from_slice(b"list /")?;
    let end = run(alloc, script, None, None, "")?;
    assert_eq!(rt;
        end,
        End {
            code: 0,
            as_told: false,
            calls: 302
        }
    );
    Ok(())
}
