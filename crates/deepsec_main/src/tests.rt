//! Whole runs over files and sinks in memory.
use crate::run::run_one;
use dps_io::{MemFiles, MemSink};
use std::alloc::Global;
use std::test::Fail;

const EQUIVALENT: &str = "report 2\nresult: equivalent\nmodel: private\n";

const SMALLEST: &str = "query trace_equiv(0,0).\n";

// Runs the words with a file F of this text, with these failing calls of the files and of the sink, which takes 4
// bytes a call.
fn run(
    alloc: Global,
    words: &[&str],
    text: &[u8],
    bad_files: &[u64],
    bad_writes: &[u64],
) -> Result<(u8, Vec<u8>), Fail> {
    let mut given = Vec::new(alloc);
    for word in words {
        given.push(String::from_str(alloc, *word)?)?;
    }
    let mut all = Vec::new(alloc);
    all.push((String::from_str(alloc, "F")?, Vec::from_slice(alloc, text)?))?;
    let mut files = MemFiles::new(all, Vec::from_slice(alloc, bad_files)?);
    let mut sink = MemSink::new(alloc, 4, 1000, Vec::from_slice(alloc, bad_writes)?)?;
    let status = run_one(alloc, &given, &mut files, &mut sink);
    Ok((status.code, Vec::from_slice(alloc, sink.written())?))
}

// The first lines of a file, and the query behind them.
const DECLARED: &str = "free c, a, b.\nfun senc/2.\n";

#[test]
fn texts_have_their_reports(rt: HostRuntime) -> Result<(), Fail> {
    for (query, code, lines) in [
        (
            "query trace_equiv(0,0).",
            0,
            "result: equivalent\nmodel: private\n",
        ),
        (
            "query trace_equiv(new k; out(c,k),new n; out(c,n)).",
            0,
            "result: equivalent\nmodel: private\n",
        ),
        (
            "query trace_equiv(out(c,a),out(c,b)).",
            1,
            "result: not equivalent\nnode: /\ntrace 2\nmodel: private\nside: left\nout(c,ax1)\n",
        ),
        (
            "query trace_equiv(new k; out(c,k); out(c,k),new k; new n; out(c,k); out(c,n)).",
            1,
            "result: not equivalent\nnode: /\ntrace 2\nmodel: private\nside: left\nout(c,ax1)\nout(c,ax2)\n",
        ),
        (
            "query trace_equiv(0,out(c,a)).",
            1,
            "result: not equivalent\nnode: /\ntrace 2\nmodel: private\nside: right\nout(c,ax1)\n",
        ),
        (
            "query trace_equiv(out(c,a) | out(c,b),out(c,b) | out(c,a)).",
            0,
            "result: equivalent\nmodel: private\n",
        ),
        (
            "query trace_equiv(in(c,x),0).",
            3,
            "result: refused\nfile: 2\nat: 3:19\ncause: not built\n",
        ),
        (
            "query trace_equiv(out(c,k),0).",
            3,
            "result: refused\nfile: 2\nat: 3:25\ncause: unknown name\n",
        ),
        (
            "query trace_equiv(0,0)",
            3,
            "result: refused\nfile: 2\nat: 3:23\ncause: unexpected end\n",
        ),
        (
            "query trace_equiv(01,0).",
            3,
            "result: refused\nfile: 2\nat: 3:19\ncause: bad number\n",
        ),
        (
            "query trace_equiv(!^64 !^64 !^64 0,0).",
            3,
            "result: refused\nfile: 2\nat: 3:19\ncause: too large\n",
        ),
    ] {
        let alloc = rt.alloc();
        let text = format!(in alloc; "{DECLARED}{query}")?;
        let (got, wrote) = run(alloc, &["check", "F"], text.as_bytes(), &[], &[])?;
        let report = format!(in alloc; "report 2\n{lines}")?;
        assert_eq!(rt; got, code, "at {query}");
        assert_eq!(rt; wrote.as_slice(), report.as_bytes());
    }
    Ok(())
}

#[test]
fn words_and_faults_have_their_reports(rt: HostRuntime) -> Result<(), Fail> {
    for (words, bad_files, bad_writes, code, report) in [
        (
            ["check", "G"].as_slice(),
            [].as_slice(),
            [].as_slice(),
            4,
            "report 2\nresult: open fault\nword: 2\n",
        ),
        (
            ["check", "F"].as_slice(),
            [1].as_slice(),
            [].as_slice(),
            4,
            "report 2\nresult: open fault\nword: 2\n",
        ),
        (
            ["check", "F"].as_slice(),
            [2].as_slice(),
            [].as_slice(),
            4,
            "report 2\nresult: read fault\nword: 2\n",
        ),
        (
            ["check", "F"].as_slice(),
            [].as_slice(),
            [2].as_slice(),
            5,
            "repo",
        ),
        (
            [].as_slice(),
            [].as_slice(),
            [].as_slice(),
            7,
            "report 2\nresult: words refused\nword: 1\n",
        ),
        (
            ["chec", "F"].as_slice(),
            [].as_slice(),
            [].as_slice(),
            7,
            "report 2\nresult: words refused\nword: 1\n",
        ),
        (
            ["check"].as_slice(),
            [].as_slice(),
            [].as_slice(),
            7,
            "report 2\nresult: words refused\nword: 2\n",
        ),
        (
            ["check", "--steps", "F"].as_slice(),
            [].as_slice(),
            [].as_slice(),
            7,
            "report 2\nresult: words refused\nword: 2\n",
        ),
        (
            ["check", "F", "G"].as_slice(),
            [].as_slice(),
            [].as_slice(),
            7,
            "report 2\nresult: words refused\nword: 3\n",
        ),
        (
            ["theory"].as_slice(),
            [].as_slice(),
            [].as_slice(),
            7,
            "report 2\nresult: words refused\nword: 2\n",
        ),
        (
            ["theory", "F", "G"].as_slice(),
            [].as_slice(),
            [].as_slice(),
            7,
            "report 2\nresult: words refused\nword: 3\n",
        ),
        (
            ["gen", "88"].as_slice(),
            [].as_slice(),
            [].as_slice(),
            7,
            "report 2\nresult: words refused\nword: 2\n",
        ),
        (
            ["theory", "--steps"].as_slice(),
            [].as_slice(),
            [].as_slice(),
            4,
            "report 2\nresult: open fault\nword: 2\n",
        ),
    ] {
        let (got, wrote) = run(
            rt.alloc(),
            words,
            SMALLEST.as_bytes(),
            bad_files,
            bad_writes,
        )?;
        assert_eq!(rt; got, code, "for {report}");
        assert_eq!(rt; wrote.as_slice(), report.as_bytes());
    }
    Ok(())
}

#[test]
fn a_file_is_made(rt: HostRuntime) -> Result<(), Fail> {
    let (code, wrote) = run(rt.alloc(), &["gen", "0"], &[], &[], &[])?;
    assert_eq!(rt; code, 0);
    assert_eq!(rt; wrote.as_slice(), dps_gen::text(rt.alloc(), 0)?.as_bytes());
    Ok(())
}

#[test]
fn rules_have_their_reports(rt: HostRuntime) -> Result<(), Fail> {
    for (rules, code, lines) in [
        ("", 0, "result: theory accepted\nrules: 0\n"),
        (
            "fun senc/2.\nreduc sdec(senc(x,y),y) -> x.\n",
            0,
            "result: theory accepted\nrules: 1\n",
        ),
        (
            "fun f/1.\nreduc f(x) -> x.\n",
            3,
            "result: refused\nfile: 2\nat: 3:7\ncause: rule 1: left root is a constructor\n",
        ),
        (
            "reduc h(x) -> x; g(h(x)) -> x.\n",
            3,
            "result: refused\nfile: 2\nat: 2:18\ncause: rule 2: destructor inside an argument\n",
        ),
        (
            "reduc g(x,y) -> x;\nh(x) -> g(x,x).\n",
            3,
            "result: refused\nfile: 2\nat: 3:1\ncause: rule 2: destructor on the right\n",
        ),
        (
            "fun f/1.\nreduc g(f(x)) -> f(f(x)).\n",
            3,
            "result: refused\nfile: 2\nat: 3:7\ncause: rule 1: right side is no strict subterm and not ground\n",
        ),
        (
            "fun f/1.\nreduc g(f(x)) -> x.\nreduc g(f(a)) -> b.\n",
            3,
            "result: refused\nfile: 2\nat: 4:7\ncause: overlap of rules 1 and 2 under 1.x=a\n",
        ),
        (
            "fun f/1.\nreduc g(f(x),y) -> x; g(x,f(z)) -> z.\n",
            3,
            "result: refused\nfile: 2\nat: 3:23\ncause: overlap of rules 1 and 2 under 1.y=f(2.z), 2.x=f(1.x)\n",
        ),
        (
            "reduc g(a,(x,y)) -> a; g(a,x) -> b.\n",
            3,
            "result: refused\nfile: 2\nat: 2:24\ncause: overlap of rules 1 and 2 under 2.x=(1.x,1.y)\n",
        ),
        (
            "reduc g(a) -> a; g(a) -> b.\n",
            3,
            "result: refused\nfile: 2\nat: 2:18\ncause: overlap of rules 1 and 2 under nothing\n",
        ),
    ] {
        let alloc = rt.alloc();
        let text = format!(in alloc; "const a, b.\n{rules}{SMALLEST}")?;
        let report = format!(in alloc; "report 2\n{lines}")?;
        let (got, wrote) = run(alloc, &["theory", "F"], text.as_bytes(), &[], &[])?;
        assert_eq!(rt; got, code, "at {rules}");
        assert_eq!(rt; wrote.as_slice(), report.as_bytes());
        // `check` refuses the same.
        if code == 3 {
            let (got, wrote) = run(alloc, &["check", "F"], text.as_bytes(), &[], &[])?;
            assert_eq!(rt; got, code);
            assert_eq!(rt; wrote.as_slice(), report.as_bytes());
        }
    }
    Ok(())
}

#[test]
fn phases_come_in_their_order(rt: HostRuntime) -> Result<(), Fail> {
    for (text, cause) in [
        (
            "reduc f(x) -> y.\nquery trace_equiv(P,0).\n",
            "at: 2:19\ncause: unknown name",
        ),
        (
            "fun f/1. reduc f(x) -> x.\nquery trace_equiv(!^64 !^64 !^64 0,0).\n",
            "at: 1:16\ncause: rule 1: left root is a constructor",
        ),
        (
            "reduc f(x) -> x.\nquery trace_equiv(!^64 !^64 !^64 0,0).\n",
            "at: 2:19\ncause: too large",
        ),
        (
            "reduc f(x) -> x.\nquery trace_equiv(0,0).\n",
            "at: 1:1\ncause: not built",
        ),
    ] {
        let alloc = rt.alloc();
        let (got, wrote) = run(alloc, &["check", "F"], text.as_bytes(), &[], &[])?;
        let report = format!(in alloc; "report 2\nresult: refused\nfile: 2\n{cause}\n")?;
        assert_eq!(rt; got, 3);
        assert_eq!(rt; wrote.as_slice(), report.as_bytes());
    }
    Ok(())
}

// Runs `replay` with a file F, a file T and these options.
fn replayed(
    alloc: Global,
    options: &[&str],
    text: &str,
    trace: &str,
) -> Result<(u8, Vec<u8>), Fail> {
    let mut given = Vec::new(alloc);
    given.push(String::from_str(alloc, "replay")?)?;
    for word in options {
        given.push(String::from_str(alloc, *word)?)?;
    }
    given.push(String::from_str(alloc, "F")?)?;
    given.push(String::from_str(alloc, "T")?)?;
    let mut all = Vec::new(alloc);
    all.push((
        String::from_str(alloc, "F")?,
        Vec::from_slice(alloc, text.as_bytes())?,
    ))?;
    all.push((
        String::from_str(alloc, "T")?,
        Vec::from_slice(alloc, trace.as_bytes())?,
    ))?;
    let mut files = MemFiles::new(all, Vec::new(alloc));
    let mut sink = MemSink::new(alloc, 1000, 1000, Vec::new(alloc))?;
    let status = run_one(alloc, &given, &mut files, &mut sink);
    Ok((status.code, Vec::from_slice(alloc, sink.written())?))
}

#[test]
fn traces_have_their_answers(rt: HostRuntime) -> Result<(), Fail> {
    let none: &[&str] = &[];
    let classic: &[&str] = &["--semantics", "classic"];
    for (options, trace, code, lines) in [
        (
            none,
            "trace 1\nside: left\nout(c,ax1)\n",
            1,
            "attack\nmodel: private\nside: left\ntests: 1\ntest: equal ax1 a\n",
        ),
        (
            classic,
            "trace 1\nside: left\n",
            0,
            "matched\nmodel: classic\nside: left\n",
        ),
        (
            none,
            "report 2\nresult: not equivalent\nnode: /0/0\ntrace 2\nmodel: private\nside: left\nout(c,ax1)\n",
            1,
            "attack\nmodel: private\nside: left\ntests: 1\ntest: equal ax1 a\n",
        ),
        (
            classic,
            "report 2\nresult: not equivalent\nnode: /0/0\ntrace 2\nmodel: private\nside: left\nout(c,ax1)\n",
            3,
            "refused\nfile: 5\nat: 5:1\ncause: trace model\n",
        ),
        (
            none,
            "trace 1\nside: left\nout(c,ax1)\nout(c,ax2)\n",
            9,
            "no run\nmodel: private\nlabel: 2\n",
        ),
        (
            none,
            "trace 1\nside: left\nout(c,ax2)\n",
            3,
            "refused\nfile: 3\nat: 3:1\ncause: trace ax\n",
        ),
        (
            none,
            "report 2\nresult: matched\nmodel: private\nside: left\n",
            3,
            "refused\nfile: 3\nat: 1:1\ncause: no trace\n",
        ),
        (
            none,
            "trace 2\nmodel: eavesdrop\nside: left\n",
            3,
            "refused\nfile: 3\nat: 2:1\ncause: trace model\n",
        ),
    ] {
        let alloc = rt.alloc();
        let text = format!(in alloc; "{DECLARED}query trace_equiv(out(c,a),out(c,b)).")?;
        let (got, wrote) = replayed(alloc, options, text.as_str(), trace)?;
        let report = format!(in alloc; "report 2\nresult: {lines}")?;
        assert_eq!(rt; got, code, "at {trace}");
        assert_eq!(rt; wrote.as_slice(), report.as_bytes());
    }
    Ok(())
}

// A text of so many copies of one byte, and then another text.
fn padded(alloc: Global, byte: u8, count: usize, text: &str) -> Result<Vec<u8>, Fail> {
    let mut bytes = Vec::with_capacity(alloc, count)?;
    for _ in 0..count {
        bytes.push(byte)?;
    }
    bytes.extend_from_slice(text.as_bytes())?;
    Ok(bytes)
}

#[test]
fn a_file_has_at_most_so_many_bytes(rt: HostRuntime) -> Result<(), Fail> {
    let alloc = rt.alloc();
    let query = "query trace_equiv(0,0).";
    let longest = padded(alloc, b' ', 1_048_553, query)?;
    let (code, wrote) = run(alloc, &["check", "F"], &longest, &[], &[])?;
    assert_eq!(rt; code, 0);
    assert_eq!(rt; wrote.as_slice(), EQUIVALENT.as_bytes());
    let longer = padded(alloc, b' ', 1_048_554, query)?;
    let (code, wrote) = run(alloc, &["check", "F"], &longer, &[], &[])?;
    assert_eq!(rt; code, 8);
    assert_eq!(rt;
        wrote.as_slice(),
        b"report 2\nresult: too long\nword: 2\n".as_slice()
    );
    Ok(())
}

#[test]
fn deep_and_long_files_are_read(rt: HostRuntime) -> Result<(), Fail> {
    let alloc = rt.alloc();
    let deep = padded(alloc, b'(', 100_000, "0,0).")?;
    let mut text = Vec::from_slice(alloc, b"query trace_equiv(")?;
    text.extend_from_slice(&deep)?;
    let (code, _) = run(alloc, &["check", "F"], &text, &[], &[])?;
    assert_eq!(rt; code, 3);
    let mut long = Vec::from_slice(alloc, b"query trace_equiv(0")?;
    for _ in 0..500_000 {
        long.extend_from_slice(b"|0")?;
    }
    long.extend_from_slice(b",0).")?;
    let (code, _) = run(alloc, &["check", "F"], &long, &[], &[])?;
    assert_eq!(rt; code, 3);
    Ok(())
}
