//! What identifiers, terms and rules say, in tables of numbers: each call once with ample memory.
use crate::definitions::Definitions;
use crate::meaning::is_reserved;
use crate::rule_term::rule_terms;
use crate::scope::Scope;
use crate::signature::{SignatureBuilder, add_name, add_symbol, tuple_symbol};
use crate::term::{term, terms};
use crate::texts::Texts;
use crate::{Body, NameCause, NameRefusal, Written};
use dps_lex::TokenKind;
use dps_signature::SymKind;
use dps_syntax::{Leaf, Part, Production, Tree};
use dps_terms::{NoMemory, PublicName, Term, TermView};
use std::alloc::Global;
use std::process::Abort;
use std::test::Fail;

/// The symbol 0 `f` with two arguments, the public name 0 `a` and the private name 1 `k`.
fn example(rt: &impl Abort, alloc: Global) -> Result<SignatureBuilder, NameRefusal> {
    let mut signature = SignatureBuilder::new(alloc);
    assert!(rt; !is_reserved("f") && !signature.signature().is_declared("f"));
    let _ = add_symbol(&mut signature, "f", SymKind::Constructor, 2)?;
    for (text, private) in [("a", false), ("k", true)] {
        assert!(rt; !is_reserved(text) && !signature.signature().is_declared(text));
        add_name(&mut signature, text, private)?;
    }
    Ok(signature)
}

/// The process 0 `P` with one parameter.
fn processes(rt: &impl Abort, alloc: Global) -> Result<Definitions, NoMemory> {
    let mut definitions = Definitions::new(alloc);
    assert!(rt; definitions.find("P").is_none());
    definitions.push(alloc, "P", 1, Body::nil())?;
    Ok(definitions)
}

/// The locals 0 `x` and 1 `y`.
fn locals(alloc: Global) -> Result<Texts, NoMemory> {
    let mut texts = Texts::new(alloc);
    texts.push(alloc, "x")?;
    texts.push(alloc, "y")?;
    Ok(texts)
}

fn identifier(alloc: Global, text: &str) -> Result<Leaf, NoMemory> {
    Ok(Leaf {
        kind: TokenKind::Identifier,
        text: String::from_str(alloc, text)?,
        line: 1,
        column: 1,
    })
}

fn inner(alloc: Global, text: &str) -> Result<Part, NoMemory> {
    let parts = vec![in alloc; Part::Token(identifier(alloc, text)?)]?;
    Ok(Part::Inner(Tree {
        production: Production::Term,
        parts,
    }))
}

/// The parts of an identifier over identifiers.
fn parts(alloc: Global, texts: &[&str]) -> Result<Vec<Part>, NoMemory> {
    let mut parts = Vec::new(alloc);
    for (index, text) in texts.iter().enumerate() {
        let part = if index == 0 {
            Part::Token(identifier(alloc, text)?)
        } else {
            inner(alloc, text)?
        };
        parts.push(part)?;
    }
    Ok(parts)
}

/// What stands at the root: 0 a symbol, 1 a public name, 2 a private name, 3 a variable, and its number.
fn shown(term: &Term) -> (u32, u64) {
    match term.whole().view() {
        TermView::App(sym) => (0, sym.number as u64),
        TermView::Public(PublicName::Declared(number)) => (1, number as u64),
        TermView::Private(number) => (2, number),
        TermView::Var(number) => (3, number),
        _ => (9, 0),
    }
}

/// What a term says, with how many private names and locals stand in it; or 4 and the fault.
fn said(answer: Result<Written, NameRefusal>) -> (u32, u64, usize) {
    match answer {
        Ok(written) => {
            let root = shown(&written.tree);
            (root.0, root.1, written.uses.len())
        }
        Err(NameRefusal::Fault(fault)) => (4, fault_number(fault.cause), 0),
        Err(NameRefusal::Memory) => (9, 0, 0),
    }
}

fn fault_number(cause: NameCause) -> u64 {
    match cause {
        NameCause::UnknownName => 1,
        NameCause::WrongArity => 2,
        NameCause::WrongKind => 3,
        _ => 9,
    }
}

/// What is asked of a row of parts.
#[derive(Clone, Copy)]
enum Ask {
    /// What the term says, with the locals.
    Term,
    /// How many terms stand in a row: 5 and their number.
    Row,
    /// How many terms stand in a row of a rule: 6, their number and the number of variables.
    RuleRow,
}

fn asked(rt: &impl Abort, alloc: Global, ask: Ask, texts: &[&str]) -> (u32, u64, usize) {
    match example(rt, alloc) {
        Ok(mut signature) => ask_signature(rt, alloc, ask, texts, &mut signature),
        Err(_) => (9, 1, 0),
    }
}

fn ask_signature(
    rt: &impl Abort,
    alloc: Global,
    ask: Ask,
    texts: &[&str],
    signature: &mut SignatureBuilder,
) -> (u32, u64, usize) {
    match processes(rt, alloc) {
        Ok(definitions) => ask_definitions(alloc, ask, texts, signature, &definitions),
        Err(_) => (9, 2, 0),
    }
}

fn ask_definitions(
    alloc: Global,
    ask: Ask,
    texts: &[&str],
    signature: &mut SignatureBuilder,
    definitions: &Definitions,
) -> (u32, u64, usize) {
    match parts(alloc, texts) {
        Ok(parts) => ask_parts(alloc, ask, parts.as_slice(), signature, definitions),
        Err(_) => (9, 3, 0),
    }
}

fn ask_parts(
    alloc: Global,
    ask: Ask,
    parts: &[Part],
    signature: &mut SignatureBuilder,
    definitions: &Definitions,
) -> (u32, u64, usize) {
    match (ask, locals(alloc)) {
        (Ask::Term, Ok(locals)) => {
            let scope = Scope::Block(&locals, &Scope::Outermost);
            said(term(alloc, definitions, &scope, parts, signature))
        }
        (Ask::Row, Ok(locals)) => {
            let scope = Scope::Block(&locals, &Scope::Outermost);
            match terms(alloc, definitions, &scope, parts, signature) {
                Ok(found) => (5, found.len() as u64, 0),
                Err(_) => (9, 4, 0),
            }
        }
        (Ask::RuleRow, Ok(mut variables)) => {
            match rule_terms(alloc, definitions, parts, signature, &mut variables) {
                Ok(found) => (6, found.len() as u64, variables.count()),
                Err(_) => (9, 6, 0),
            }
        }
        _ => (9, 5, 0),
    }
}

#[test]
fn terms_say(rt: HostRuntime) {
    let table: [(Ask, &[&str], (u32, u64, usize)); 12] = [
        (Ask::Term, &["y"], (3, 1, 1)),
        (Ask::Term, &["a"], (1, 0, 0)),
        (Ask::Term, &["k"], (2, 0, 1)),
        (Ask::Term, &["f", "a", "x"], (0, 0, 1)),
        (Ask::Term, &["proj_2_3", "x"], (0, 3, 1)),
        (Ask::Term, &["z"], (4, 1, 0)),
        (Ask::Term, &["f", "a"], (4, 2, 0)),
        (Ask::Term, &["P"], (4, 3, 0)),
        (Ask::Row, &["f", "a", "x"], (5, 2, 0)),
        (Ask::RuleRow, &["f", "x", "z"], (6, 2, 3)),
        (Ask::RuleRow, &["f", "x", "x"], (6, 2, 2)),
        (Ask::RuleRow, &["f", "a"], (6, 1, 2)),
    ];
    for (ask, texts, want) in table {
        assert_eq!(rt; asked(&rt, rt.alloc(), ask, texts), want);
    }
}

/// The number of the tuples' symbol, and how many symbols there are then.
fn tupled(alloc: Global, signature: &mut SignatureBuilder, length: u32) -> (u32, u32) {
    if length < 2 || 8 < length {
        return (9, 0);
    }
    match tuple_symbol(alloc, signature, length) {
        Ok(sym) => (sym.number, signature.signature().symbol_count()),
        Err(_) => (9, 1),
    }
}

#[test]
fn tuples_are_added_once(rt: HostRuntime) {
    let mut signature = SignatureBuilder::new(rt.alloc());
    for (length, number, count) in [(3, 0, 4), (2, 4, 7), (3, 0, 7)] {
        assert_eq!(rt; tupled(rt.alloc(), &mut signature, length), (number, count));
    }
}

#[test]
fn definitions_are_listed(rt: HostRuntime) -> Result<(), Fail> {
    let listed = processes(&rt, rt.alloc())?.into_list(rt.alloc())?;
    assert_eq!(rt; listed.len(), 1);
    Ok(())
}
