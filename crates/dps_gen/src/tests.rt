//! The texts of two numbers.
use crate::text;
use std::test::Fail;

const FIRST: &str =
    "free a, b.\nconst s, t.\nlet K0 = out(a,s).\nlet A0 = out(a,s).\nlet A1 = in(a,x); if x = s then K0 else A0.\nlet B0 = out(a,t).\nlet B1 = in(a,x); if x = s then K0 else B0.\nquery trace_equiv(out(a,s); A1 + out(b,s), out(a,s); B1 + out(b,t)).\n";

const TENTH: &str =
    "free a, b.\nconst s, t.\nlet K0 = out(a,s).\nlet K1 = in(a,x); if x = s then K0 else K0.\nlet A0 = out(a,s).\nlet A1 = in(a,x); if x = s then K0 else A0.\nlet A2 = in(a,x); if x = s then K1 else A1.\nlet B0 = out(a,t).\nlet B1 = in(a,x); if x = s then K0 else B0.\nlet B2 = in(a,x); if x = s then K1 else B1.\nquery trace_equiv(out(a,s); A2 + out(b,s); out(b,s), out(a,s); B2 + out(b,s); out(b,t)).\n";

#[test]
fn numbers_have_their_files(rt: HostRuntime) -> Result<(), Fail> {
    let first = text(rt.alloc(), 0)?;
    assert_eq!(rt; first.as_str(), FIRST);
    let tenth = text(rt.alloc(), 9)?;
    assert_eq!(rt; tenth.as_str(), TENTH);
    Ok(())
}
