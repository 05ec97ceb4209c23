//! What files are and where they are faulty, by hand from the rules.

use crate::{Decl, Part, Production, SyntaxRefusal, Tree, parse, read_file};
use dps_lex::FaultKind::*;
use dps_lex::{FaultKind, tokens_up_to_fault};
use std::alloc::Global;
use std::process::Abort;
use std::test::Fail;

/// The first fault of a text, if it is no file.
fn fault_of(
    rt: &impl Abort,
    alloc: Global,
    text: &[u8],
) -> Result<Option<(FaultKind, u32, u32)>, Fail> {
    assert!(rt; text.len() <= 1_048_576);
    match read_file(alloc, text) {
        Ok(_) => Ok(None),
        Err(SyntaxRefusal::Fault(fault)) => Ok(Some((fault.kind, fault.line, fault.column))),
        Err(SyntaxRefusal::Memory) => Err(Fail::from("no memory")),
    }
}

/// A text of a front, some bytes again and again, a middle, other bytes as often, and a back.
fn nested(
    alloc: Global,
    front: &[u8],
    open: &[u8],
    count: usize,
    middle: &[u8],
    close: &[u8],
    back: &[u8],
) -> Result<Vec<u8>, Fail> {
    let mut text = Vec::new(alloc);
    text.extend_from_slice(front)?;
    for _ in 0..count {
        text.extend_from_slice(open)?;
    }
    text.extend_from_slice(middle)?;
    for _ in 0..count {
        text.extend_from_slice(close)?;
    }
    text.extend_from_slice(back)?;
    Ok(text)
}

#[test]
fn whole_texts(rt: HostRuntime) -> Result<(), Fail> {
    let alloc = rt.alloc();
    let cases: [(&[u8], Option<(FaultKind, u32, u32)>); 45] = [
        (b"query trace_equiv(0,0).", None),
        (b"", Some((UnexpectedEnd, 1, 1))),
        (b"free a.", Some((UnexpectedEnd, 1, 8))),
        (b"free a.\n", Some((UnexpectedEnd, 2, 1))),
        (b"free a.\n(* c *)", Some((UnexpectedEnd, 2, 8))),
        (b"query trace_equiv(0,0)", Some((UnexpectedEnd, 1, 23))),
        (
            b"free c.\nquery trace_equiv(out(c,c",
            Some((UnexpectedEnd, 2, 26)),
        ),
        (b"(* a (* b *)", Some((OpenComment, 1, 1))),
        (b"query trace_equiv(01,0).", Some((BadNumber, 1, 19))),
        (b"query trace_equiv(0,0).\nx", Some((UnexpectedToken, 2, 1))),
        (b"query trace_equiv(0,0).(* behind *)\n", None),
        (b"free a b.", Some((UnexpectedToken, 1, 8))),
        (b"free a [free].", Some((UnexpectedToken, 1, 9))),
        (b"fun f/x.", Some((UnexpectedToken, 1, 7))),
        (b"reduc f() -> x.", Some((UnexpectedToken, 1, 9))),
        (b"reduc f(x) -> x; .", Some((UnexpectedToken, 1, 18))),
        (b"let P = 0 query", Some((UnexpectedToken, 1, 11))),
        (b"let P() = 0.", Some((UnexpectedToken, 1, 7))),
        (b"query trace_equiv(1,0).", Some((UnexpectedToken, 1, 19))),
        (b"query trace_equiv(P(),0).", Some((UnexpectedToken, 1, 21))),
        (b"query trace_equiv(out(c,a()),0).", None),
        (
            b"query trace_equiv(out(c,1),0).",
            Some((UnexpectedToken, 1, 25)),
        ),
        (
            b"query trace_equiv(in(c,(x)),0).",
            Some((UnexpectedToken, 1, 26)),
        ),
        (
            b"query trace_equiv(in(c,f(x)),0).",
            Some((UnexpectedToken, 1, 25)),
        ),
        (b"query trace_equiv(0;0,0).", Some((UnexpectedToken, 1, 20))),
        (
            b"query trace_equiv(0 else 0,0).",
            Some((UnexpectedToken, 1, 21)),
        ),
        (
            b"query trace_equiv(if a=b then 0 else 0 else 0,0).",
            Some((UnexpectedToken, 1, 40)),
        ),
        (
            b"query trace_equiv(if a=b then if c=d then 0 else 0 else 0,0).",
            None,
        ),
        (
            b"query trace_equiv(!2 0,0).",
            Some((UnexpectedToken, 1, 20)),
        ),
        (
            b"query trace_equiv(!^x 0,0).",
            Some((UnexpectedToken, 1, 21)),
        ),
        (
            b"query trace_equiv(new k,0).",
            Some((UnexpectedToken, 1, 24)),
        ),
        (b"query trace_equiv(0|,0).", Some((UnexpectedToken, 1, 21))),
        (
            b"query trace_equiv(0+|0,0).",
            Some((UnexpectedToken, 1, 21)),
        ),
        (b"query trace_equiv(0,0,0).", Some((UnexpectedToken, 1, 22))),
        (b"query trace_equiv(0).", Some((UnexpectedToken, 1, 20))),
        // The earlier one of a lexical fault and a fault of the syntax.
        (b"free a b.\n#", Some((UnexpectedToken, 1, 8))),
        (b"free #a b", Some((BadByte, 1, 6))),
        (b"free a.\n#", Some((BadByte, 2, 1))),
        (b"query trace_equiv(0,0). #", Some((BadByte, 1, 25))),
        (b"query trace_equiv(0,0).(* x", Some((OpenComment, 1, 24))),
        (b"query trace_equiv(00,0).", Some((BadNumber, 1, 19))),
        (b"fun f/1000001.", Some((LargeNumber, 1, 7))),
        (
            b"free a, b234567890123456789012345678901234567890123456789012345678901234.",
            Some((UnexpectedEnd, 1, 74)),
        ),
        (
            b"free a, b2345678901234567890123456789012345678901234567890123456789012345.",
            Some((LongName, 1, 9)),
        ),
        (b"free a.\n \tfree ?", Some((BadByte, 2, 8))),
    ];
    for (text, wanted) in cases {
        assert_eq!(&rt; fault_of(&rt, alloc, text)?, wanted, "in {:?}", text);
    }
    Ok(())
}

/// Every keyword, every sign and every alternative of the grammar.
const EVERYTHING: &[u8] = b"(* (* nested *) *)
free c, d. free k, m [private]. const a. const b, s [private].
fun h/1. fun senc/2, pair/2, nil/0.
reduc sdec(senc(x,y),y) -> x; sdec((x,y),(y)) -> nil().
let Null = 0. let P(id, n') = !^64 new r_1; out(c,(h(id),((r_1)),pair(n',nil()))); in(d,=h(a)).
let Q = in(c,x); in(c,(x,=a,(y,z))); out(c,a) | 0 + P(a,b) + (Null | 0) | let (x,y) = a in 0 else out(c,b).
query trace_equiv(
  if h(a) = (a) then if a = b then 0 else P(a,nil) else let =a = b in Q,
  Q
).
";

/// Whether a tag's answers can be linked, over hashes.
const HASHES: &[u8] = b"(* A tag answers each reader by a fresh number and its hash.
   Asked: can two readings of one tag be told from readings of two? *)

free c.
free one, two [private].
fun h/1.

let Tag(id) = in(c,start); new r; out(c,(r,h((id,r)))).

query trace_equiv(
  Tag(one) | Tag(one),
  Tag(one) | Tag(two)
).
";

/// Whether a vote is secret, over encryption with a key.
const VOTES: &[u8] = b"free c, board.
const yes, no.
free k, s1, s2 [private].
fun senc/3, ok/0.
reduc sdec(senc(x,r,y),y) -> x.
reduc same(x,x) -> ok().
let Voter(v,s) = new r; out(c,senc((v,s),r,k)).
let Count = in(c,x); let (v,=s1) = sdec(x,k) in out(board,v)
  else let (v,=s2) = sdec(x,k) in out(board,v) else if same(x,x) = ok() then 0.
query trace_equiv(!^2 Count | Voter(yes,s1) | Voter(no,s2),
                  !^2 Count | Voter(no,s1) | Voter(yes,s2)).
";

/// Whether one sees whom a host knows: guest and host greet each other by sealed letters, and strangers get a decoy.
const GREETINGS: &[u8] =
    b"(* Guest to host: {n,pk(guest)}. Host to guest: {n,m,pk(host)}, or a decoy (* which no one opens *). *)
free net.
free ska, ske, skh [private].
fun seal/3, pk/1.
reduc open(seal(x,r,pk(k)),k) -> x.

let Guest(sk) =
  new n; new r; out(net,seal((n,pk(sk)),r,pk(skh)));
  in(net,x); let (=n,m,=pk(skh)) = open(x,sk) in new s; out(net,seal(m,s,pk(skh))).
let Host(known) =
  in(net,y); new m; new s;
  let (n,=known) = open(y,skh) in out(net,seal((n,m,pk(skh)),s,known))
  else new decoy; out(net,seal(decoy,s,pk(skh))).
let Opening(one, two) = out(net,(pk(ska),pk(ske),pk(skh))); (!^2 Guest(one) | Host(pk(two))).

query trace_equiv(Opening(ska,ska), Opening(ske,ska)).
";

/// Whether passports with keys from their printed page can be told from one another.
const PASSPORTS: &[u8] =
    b"(* The reader sees the page, which gives fresh keys on a private channel. Signed data are known. *)
free air.
free page, issuer [private].
const first, second', read, fault.
fun mac/2, sign/2, vk/1, senc/2.
reduc sdec(senc(x,k),k) -> x.
reduc message(sign(x,k),vk(k)) -> x;
      message(mac(x,k),k) -> x.

let Passport(data) =
  new ke; new km; out(page,(ke,km));
  in(air,(x,tag));
  if tag = mac(x,km) then
    let =read = sdec(x,ke) in
      let answer = senc((data,sign(data,issuer)),ke) in out(air,(answer,mac(answer,km)))
    else out(air,fault)
  else out(air,fault).
let Reader(key) =
  in(page,(ke,km)); out(air,(senc(read,ke),mac(senc(read,ke),km)));
  in(air,(x,tag)); if message(tag,km) = x then
  let (data,mark) = sdec(x,ke) in if message(mark,key) = data then out(page,data).

query trace_equiv(
  out(air,vk(issuer)); (Passport(first) | Reader(vk(issuer)) + Passport(second')),
  out(air,vk(issuer)); (Passport(second') | Reader(vk(issuer)) + Passport(first))
).
";

#[test]
fn whole_protocols(rt: HostRuntime) -> Result<(), Fail> {
    for text in [EVERYTHING, HASHES, VOTES, GREETINGS, PASSPORTS] {
        assert_eq!(&rt; fault_of(&rt, rt.alloc(), text)?, None, "in {:?}", text);
    }
    Ok(())
}

#[test]
fn depth(rt: HostRuntime) -> Result<(), Fail> {
    let alloc = rt.alloc();
    // A front, what is nested, its middle and end, and the back, with the greatest number that is not too deep, and the
    // column of the first token that is.
    let cases: [(&[u8], &[u8], &[u8], &[u8], &[u8], usize, u32); 7] = [
        (b"query trace_equiv(", b"(", b"0", b")", b",0).", 199, 219),
        (
            b"query trace_equiv(0|0+",
            b"(",
            b"0",
            b")",
            b",0).",
            199,
            223,
        ),
        (b"query trace_equiv(", b"!^1 ", b"0", b"", b",0).", 199, 819),
        (
            b"query trace_equiv(in(c,",
            b"(",
            b"x",
            b",y)",
            b"),0).",
            198,
            223,
        ),
        (
            b"query trace_equiv(out(c,",
            b"(",
            b"x",
            b")",
            b"),0).",
            198,
            224,
        ),
        (
            b"query trace_equiv(out(c,",
            b"f(",
            b"x",
            b")",
            b"),0).",
            198,
            423,
        ),
        (
            b"reduc f(",
            b"(",
            b"x",
            b")",
            b") -> x. query trace_equiv(0,0).",
            199,
            209,
        ),
    ];
    for (front, open, middle, close, back, most, column) in cases {
        let shallow = nested(alloc, front, open, most, middle, close, back)?;
        assert_eq!(&rt; fault_of(&rt, alloc, &shallow)?, None, "after {:?}", front);
        let Some(more) = most.checked_add(1) else {
            return Ok(())
        };
        let deep = nested(alloc, front, open, more, middle, close, back)?;
        let wanted = Some((TooDeep, 1, column));
        assert_eq!(&rt; fault_of(&rt, alloc, &deep)?, wanted, "after {:?}", front);
    }
    Ok(())
}

#[test]
fn large_texts(rt: HostRuntime) -> Result<(), Fail> {
    let alloc = rt.alloc();
    let front = b"query trace_equiv(";
    let brackets = nested(alloc, front, b"(", 1_048_558, b"", b"", b"")?;
    assert_eq!(&rt; brackets.len(), 1_048_576);
    assert_eq!(&rt; fault_of(&rt, alloc, &brackets)?, Some((TooDeep, 1, 219)));
    for sign in [b"|0", b"+0"] {
        let chain = nested(alloc, front, sign, 0, b"0", b"", b"")?;
        let chain = nested(alloc, &chain, sign, 524_200, b",0).", b"", b"")?;
        assert_eq!(&rt; fault_of(&rt, alloc, &chain)?, None);
    }
    Ok(())
}

fn production_name(production: Production) -> &'static str {
    match production {
        Production::Decl => "Decl",
        Production::Ids => "Ids",
        Production::Rule => "Rule",
        Production::Query => "Query",
        Production::Par => "Par",
        Production::Sum => "Sum",
        Production::Pre => "Pre",
        Production::Pattern => "Pattern",
        Production::Term => "Term",
    }
}

/// Writes a tree as its production and its parts in brackets.
fn show(text: &mut String, tree: &Tree) -> Result<(), Fail> {
    text.push_str(production_name(tree.production))?;
    text.push('[')?;
    for part in &tree.parts {
        match part {
            Part::Token(leaf) => text.push_str(leaf.text.as_str())?,
            Part::Inner(inner) => show(text, inner)?,
        }
    }
    text.push(']')?;
    Ok(())
}

#[test]
fn trees(rt: HostRuntime) -> Result<(), Fail> {
    let alloc = rt.alloc();
    // The left side of a query, and its tree.
    let cases: [(&[u8], &str); 6] = [
        (b"0", "Par[Sum[Pre[0]]]"),
        (
            b"0|0+0|0",
            "Par[Sum[Pre[0]]|Sum[Pre[0]+Pre[0]]|Sum[Pre[0]]]",
        ),
        (b"(0|0)", "Par[Sum[Pre[(Par[Sum[Pre[0]]|Sum[Pre[0]]])]]]"),
        (
            b"out(c,(t));0|0",
            "Par[Sum[Pre[out(c,Term[(Term[t])]);Pre[0]]]|Sum[Pre[0]]]",
        ),
        (
            b"if a=b then if c=d then 0 else 0",
            "Par[Sum[Pre[ifTerm[a]=Term[b]thenPre[ifTerm[c]=Term[d]thenPre[0]elsePre[0]]]]]",
        ),
        (
            b"in(c,(x,=a())); P(a)",
            "Par[Sum[Pre[in(c,Pattern[(Pattern[x],Pattern[=Term[a()]])]);Pre[P(Term[a])]]]]",
        ),
    ];
    for (side, wanted) in cases {
        let text = nested(alloc, b"query trace_equiv(", side, 1, b"", b"", b",0).")?;
        assert!(&rt; text.len() <= 1000);
        let Ok(file) = read_file(alloc, &text) else {
            return Err(Fail::from("no file"));
        };
        let mut shown = String::new(alloc);
        match file.declarations.as_slice() {
            [Decl::Query(tree)] => show(&mut shown, tree)?,
            _ => return Err(Fail::from("no query")),
        }
        let mut whole = String::new(alloc);
        whole.push_str("Query[querytrace_equiv(")?;
        whole.push_str(wanted)?;
        whole.push_str(",Par[Sum[Pre[0]]]).]")?;
        assert_eq!(&rt; shown.as_str(), whole.as_str());
    }
    Ok(())
}

#[test]
fn declarations(rt: HostRuntime) -> Result<(), Fail> {
    let alloc = rt.alloc();
    let text = b"free a.\n const b.fun f/1. reduc g(x)->x. let P=0. query trace_equiv(P,P).";
    let (tokens, _) = tokens_up_to_fault(alloc, text)?;
    let Ok(file) = parse(alloc, text, &tokens) else {
        return Err(Fail::from("no file"));
    };
    match file.declarations.as_slice() {
        [
            Decl::Free(_),
            Decl::Const(names),
            Decl::Fun(_),
            Decl::Reduc(_),
            Decl::Define(_),
            Decl::Query(_),
        ] => {
            match names.parts.as_slice() {
                [Part::Token(leaf), Part::Inner(_), Part::Token(_)] => {
                    assert_eq!(&rt; leaf.text.as_str(), "const");
                    assert_eq!(&rt; (leaf.line, leaf.column), (2, 2));
                }
                _ => return Err(Fail::from("other parts")),
            }
        }
        _ => return Err(Fail::from("other declarations")),
    }
    Ok(())
}
