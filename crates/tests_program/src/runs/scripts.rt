// Runs over a script in memory.
use super::{has_said, host_of, run_line};
use nn_memhost::{MemSource, Part};
use std::test::Fail;

// A run of `dry`: the script, which calls of its source and of the output fail, what is said and the exit status.
#[derive(Clone, Copy)]
struct DryRow {
    script: &'static str,
    unread: Option<u64>,
    unsaid: Option<u64>,
    said: &'static str,
    code: u8,
}

const DRY_ROWS: [DryRow; 9] = [
    DryRow {
        script: "mkdir /q\nquota /q 1 -\nmkdir /q/a\n",
        unread: None,
        unsaid: None,
        said: "ok\nok\nrefused quota\n",
        code: 0,
    },
    DryRow {
        script: "mkdri /a\nmkdir\nmkdir a\nchmod / 8\n\nmkdir /%zz\nroll\n",
        unread: None,
        unsaid: None,
        said: "syntax unknown\nsyntax words\nsyntax path relative\nsyntax mode\nsyntax escape\nrefused dry\n",
        code: 0,
    },
    DryRow {
        script: "mkdir /a\nrename /a /a/b\nrename /a /a\nrename / /b\ndelete /\nclose /a\nblock /x 1\nmkdir /x/y\n",
        unread: None,
        unsaid: None,
        said: "ok\nrefused under\nrefused exists\nrefused root\nrefused root\nrefused is-dir\nrefused not-found\nrefused not-found\n",
        code: 0,
    },
    DryRow {
        script: "",
        unread: None,
        unsaid: None,
        said: "",
        code: 0,
    },
    DryRow {
        script: "# nothing\n\r\nmkdir /a",
        unread: None,
        unsaid: None,
        said: "ok\n",
        code: 0,
    },
    DryRow {
        script: "mkdir /a\n",
        unread: Some(0),
        unsaid: None,
        said: "source fault\n",
        code: 5,
    },
    DryRow {
        script: "mkdir /a\nmkdir /b",
        unread: Some(1),
        unsaid: None,
        said: "ok\nsource fault\n",
        code: 5,
    },
    DryRow {
        script: "mkdir /a\nmkdir /b\nmkdir /c\n",
        unread: None,
        unsaid: Some(1),
        said: "ok\n",
        code: 8,
    },
    DryRow {
        script: "mkdir /a\n",
        unread: Some(0),
        unsaid: Some(0),
        said: "",
        code: 8,
    },
];

#[test]
fn a_script_is_answered_line_by_line_on_a_namespace_in_memory(rt: HostRuntime) -> Result<(), Fail> {
    for (k, row) in DRY_ROWS.into_iter().enumerate() {
        let script = Vec::from_slice(rt.alloc(), row.script.as_bytes())?;
        let mut unread = Vec::new(rt.alloc());
        if let Some(call) = row.unread {
            unread.push(call)?;
        }
        let mut host = match row.unsaid {
            Some(call) => host_of(&rt, rt.alloc(), "", &[(call, Part::Nothing)])?,
            None => host_of(&rt, rt.alloc(), "", &[])?,
        };
        let mut source = MemSource::new(script, unread);
        let status = run_line(&rt, rt.alloc(), "dry", &mut source, &mut host)?;
        assert!(rt; has_said(&host, row.said), "row {k}");
        assert_eq!(rt; status, row.code, "row {k}");
    }
    Ok(())
}

#[test]
fn a_script_of_more_than_2_to_the_26_bytes_is_too_long(rt: HostRuntime) -> Result<(), Fail> {
    let newlines = vec![in rt.alloc(); b'\n'; (1 << 26) + 1]?;
    let mut source = MemSource::new(newlines, Vec::new(rt.alloc()));
    let mut host = host_of(&rt, rt.alloc(), "", &[])?;
    let status = run_line(&rt, rt.alloc(), "dry --", &mut source, &mut host)?;
    assert!(rt; has_said(&host, "script too long\n"));
    assert_eq!(rt; status, 6);
    Ok(())
}

#[test]
fn a_command_without_a_script_reads_none(rt: HostRuntime) -> Result<(), Fail> {
    let script = Vec::from_slice(rt.alloc(), b"mkdir /a\n")?;
    let mut source = MemSource::new(script, Vec::new(rt.alloc()));
    let mut host = host_of(&rt, rt.alloc(), ".", &[])?;
    let _status = run_line(&rt, rt.alloc(), "state A", &mut source, &mut host)?;
    assert_eq!(rt; source.calls(), 0);
    Ok(())
}
