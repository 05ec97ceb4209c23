//! A table of reports, each read and printed again, and of texts that are no reports.
use crate::{read_report, text};
use std::test::Fail;

#[test]
fn reports(rt: HostRuntime) -> Result<(), Fail> {
    let alloc = rt.alloc();
    let table = [
        ("report 2\nresult: equivalent\nmodel: private\n", true),
        ("report 1\nresult: equivalent\n", true),
        ("report 1\nresult: equivalent\nmodel: private\n", false),
        ("report 2\nresult: equivalent\n", false),
        ("report 2\nresult: equivalent\nmodel: private\n\n", false),
        (
            "report 2\nresult: not equivalent\nnode: /0/0\ntrace 2\nmodel: private\nside: left\nout(c,ax1)\n",
            true,
        ),
        (
            "report 2\nresult: not equivalent\nnode: /0/0\ntrace 2\nmodel: private\n",
            true,
        ),
        (
            "report 2\nresult: not equivalent\nnode: /0/0\ntrace 2\nmodel: private\nany",
            false,
        ),
        (
            "report 2\nresult: not equivalent\nnode: /0/0\ntrace 1\nside: left\n",
            false,
        ),
        (
            "report 1\nresult: not equivalent\nnode: /\ntrace 1\nside: left\n",
            true,
        ),
        ("report 1\nresult: not equivalent\nnode: /\ntrace 1\n", true),
        (
            "report 1\nresult: not equivalent\nnode: /01\ntrace 1\n",
            false,
        ),
        (
            "report 2\nresult: spent\nmodel: classic\nnode: /0\nsteps: 18446744073709551615\n",
            true,
        ),
        (
            "report 2\nresult: spent\nmodel: classic\nnode: /0\nsteps: 18446744073709551616\n",
            false,
        ),
        (
            "report 2\nresult: spent\nmodel: classic\nnode: /0\nsteps: 01\n",
            false,
        ),
        ("report 1\nresult: spent\nnode: /0\nsteps: 5\n", true),
        (
            "report 2\nresult: refused\nfile: 2\nat: 4:7\ncause: overlap of rules 1 and 2 under 1.x=a\n",
            true,
        ),
        (
            "report 1\nresult: refused\nfile: 2\nat: 4:7\ncause: \n",
            true,
        ),
        (
            "report 1\nresult: refused\nfile: 2\nat: 4:7\ncause: a\nb\n",
            false,
        ),
        ("report 2\nresult: too long\nword: 2\n", true),
        ("report 2\nresult: open fault\nword: 4294967295\n", true),
        ("report 2\nresult: read fault\nword: 4294967296\n", false),
        ("report 2\nresult: words refused\nword: 1\n", true),
        ("report 2\nresult: theory accepted\nrules: 1\n", true),
        (
            "report 2\nresult: attack\nmodel: private\nside: left\ntests: 2\ntest: value ax1\ntest: equal ax1 a\n",
            true,
        ),
        (
            "report 2\nresult: attack\nmodel: private\nside: left\ntests: 1\ntest: value ax1\ntest: equal ax1 a\n",
            false,
        ),
        (
            "report 2\nresult: attack\nmodel: private\nside: left\ntests: 1\ntest: equal ax1\n",
            false,
        ),
        (
            "report 2\nresult: attack\nmodel: private\nside: right\ntests: 0\n",
            true,
        ),
        ("report 1\nresult: attack\nside: right\n", true),
        (
            "report 2\nresult: matched\nmodel: eavesdrop\nside: left\n",
            true,
        ),
        ("report 2\nresult: no run\nmodel: private\nlabel: 2\n", true),
        ("report 2\nresult: no memory\n", true),
        ("report 3\nresult: no memory\n", false),
        ("report 2\nresult: no memory", false),
        ("", false),
    ];
    for (bytes, want) in &table {
        let found = read_report(alloc, bytes.as_bytes())?;
        assert_eq!(rt; found.is_some(), *want, "{bytes}");
        if let Some(outcome) = found {
            if bytes.starts_with("report 2") {
                let printed = text(alloc, &outcome)?;
                assert!(rt; printed.bytes() == bytes.as_bytes(), "{bytes}");
            }
        }
    }
    Ok(())
}
