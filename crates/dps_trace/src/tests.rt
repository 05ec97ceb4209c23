//! Traces read and printed.
use crate::laws::newlines_are_few;
use crate::{TraceRefusal, print_trace, read_trace};
use dps_signature::{Signature, SymKind, is_identifier};
use std::alloc::Global;
use std::process::Abort;
use std::test::Fail;

fn signature(rt: &impl Abort, alloc: Global) -> Signature {
    let mut signature = Signature::new(alloc);
    for (name, private) in [("c", false), ("k", true)] {
        assert!(rt; is_identifier(name));
        assert!(rt; signature.symbol_count() < 100);
        assert!(rt; signature.name_count() < 100);
        assert!(rt; signature.add_name(name, private).is_ok());
    }
    for (name, arity) in [("h", 1), ("senc", 2), ("unit", 0)] {
        assert!(rt; is_identifier(name));
        assert!(rt; signature.symbol_count() < 100);
        assert!(rt; signature.name_count() < 100);
        assert!(rt;
            signature
                .add_symbol(name, SymKind::Constructor, arity)
                .is_ok()
        );
    }
    signature
}

/// How many labels are read, and whether the text is printed again; or the line and the fault.
fn read(
    alloc: Global,
    signature: &Signature,
    text: &str,
) -> Result<(usize, bool), (u32, &'static str)> {
    let bytes = text.as_bytes();
    newlines_are_few(bytes);
    if bytes.len() > 1000 {
        return Err((0, "too long"));
    }
    match read_trace(alloc, signature, bytes) {
        Ok(trace) => match print_trace(alloc, signature, &trace) {
            Ok(again) => Ok((trace.labels.len(), again.as_str() == text)),
            Err(_) => Err((0, "memory")),
        },
        Err(TraceRefusal::Fault { line, kind }) => Err((line, kind.text())),
        Err(TraceRefusal::Memory) => Err((0, "memory")),
    }
}

#[test]
fn traces_are_read(rt: HostRuntime) -> Result<(), Fail> {
    let alloc = rt.alloc();
    let signature = signature(&rt, alloc);
    for (text, wanted) in [
        (
            "trace 1\nside: left\nout(c,ax1)\nin(c,senc(ax1,@0))\nout(c,ax2)\n",
            Ok((3, true)),
        ),
        ("trace 2\nmodel: classic\nside: right\n", Ok((0, true))),
        (
            "trace 2\nmodel: private\nside: right\nin(c,h(h(unit)))\nin(c,c)\n",
            Ok((2, true)),
        ),
        ("trace 3\n", Err((1, "trace header"))),
        ("", Err((1, "trace header"))),
        ("trace 2\nside: left\n", Err((2, "trace model"))),
        ("trace 1\nside: middle\n", Err((2, "trace side"))),
        ("trace 1\nside: left\nout(c,ax2)\n", Err((3, "trace ax"))),
        (
            "trace 1\nside: left\nout(c,ax1)\nin(c,ax2)\n",
            Err((4, "trace ax")),
        ),
        (
            "trace 1\nside: left\nout(c,ax01)\n",
            Err((3, "trace label")),
        ),
        ("trace 1\nside: left\nin(c,h(k))\n", Err((3, "trace label"))),
        (
            "trace 1\nside: left\nin(c,h(c,c))\n",
            Err((3, "trace label")),
        ),
        (
            "trace 1\nside: left\nin(c,h(c)x)\n",
            Err((3, "trace label")),
        ),
        (
            "trace 1\nside: left\nin(c,unit())\n",
            Err((3, "trace label")),
        ),
        ("trace 1\nside: left\nin(c, c)\n", Err((3, "trace label"))),
        ("trace 1\nside: left\nin(c,c)", Err((3, "trace label"))),
        (
            "trace 1\nside: left\nin(c,@18446744073709551615)\n",
            Ok((1, true)),
        ),
        (
            "trace 1\nside: left\nin(c,@18446744073709551616)\n",
            Err((3, "trace label")),
        ),
        ("trace 1\nside: left\neav(c,ax1)\n", Err((3, "trace label"))),
        ("trace 1\nside: left\nin(c,c)\n\n", Err((4, "trace label"))),
    ] {
        assert_eq!(rt; read(alloc, &signature, text), wanted);
    }
    Ok(())
}
