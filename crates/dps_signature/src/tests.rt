//! Tables of texts, a signature as it grows, and the texts of terms.
use crate::{
    AddRefusal, Signature, SymKind, is_identifier, is_over, projection_text, term_text, tuple_text,
};
use dps_terms::{NoMemory, PublicName, Sym, Term, TermLeaf, TermStack};
use std::alloc::Global;
use std::process::Abort;
use std::test::Fail;

#[test]
fn identifiers(rt: HostRuntime) {
    let table = [
        ("a", true),
        ("aB_9'", true),
        ("ax", true),
        ("ax1b", true),
        ("proj_1_2", true),
        ("", false),
        ("1a", false),
        ("_a", false),
        ("a-b", false),
        ("ax1", false),
        ("ax01", false),
        ("(2)", false),
    ];
    for (text, want) in &table {
        assert_eq!(rt; is_identifier(text), *want, "{text}");
    }
}

/// What a text is declared as.
#[derive(Clone, Copy)]
enum Kind {
    Symbol(SymKind, u32),
    Name { private: bool },
}

/// Adds it, and gives its number.
fn add(
    rt: &impl Abort,
    signature: &mut Signature,
    text: &str,
    kind: Kind,
) -> Result<u32, AddRefusal> {
    assert!(rt; is_identifier(text));
    assert!(rt; signature.symbol_count() < 100);
    assert!(rt; signature.name_count() < 100);
    match kind {
        Kind::Symbol(kind, arity) => match signature.add_symbol(text, kind, arity) {
            Ok(sym) => Ok(sym.number),
            Err(refusal) => Err(refusal),
        },
        Kind::Name { private } => signature.add_name(text, private),
    }
}

/// The number of what was added. `None` where its text was declared.
fn number(added: Result<u32, AddRefusal>) -> Result<Option<u32>, Fail> {
    match added {
        Ok(number) => Ok(Some(number)),
        Err(AddRefusal::Twice) => Ok(None),
        Err(AddRefusal::Memory) => Err(Fail::from("no memory")),
    }
}

/// The symbols `(2)`, `c`, `f` with two arguments and `g`, a destructor, the public name `a` and the private name `k`.
fn example(rt: &impl Abort, alloc: Global) -> Result<Signature, AddRefusal> {
    let mut signature = Signature::new(alloc);
    let _ = signature.add_symbol("(2)", SymKind::Constructor, 2)?;
    let kinds = [
        ("c", Kind::Symbol(SymKind::Constructor, 0)),
        ("f", Kind::Symbol(SymKind::Constructor, 2)),
        ("g", Kind::Symbol(SymKind::Destructor, 1)),
        ("a", Kind::Name { private: false }),
        ("k", Kind::Name { private: true }),
    ];
    for (text, kind) in kinds {
        let _ = add(rt, &mut signature, text, kind)?;
    }
    Ok(signature)
}

#[test]
fn signature_grows(rt: HostRuntime) -> Result<(), Fail> {
    let mut signature = example(&rt, rt.alloc())?;
    let table = [
        ("k", Kind::Symbol(SymKind::Constructor, 0), None),
        ("f", Kind::Name { private: false }, None),
        ("h", Kind::Symbol(SymKind::Constructor, 1), Some(4)),
        ("b", Kind::Name { private: true }, Some(2)),
    ];
    for (text, kind, wanted) in table {
        let added = number(add(&rt, &mut signature, text, kind))?;
        assert_eq!(&rt; added, wanted, "{text}");
    }
    Ok(())
}

#[test]
fn signature_finds(rt: HostRuntime) -> Result<(), Fail> {
    let signature = example(&rt, rt.alloc())?;
    let table = [
        ("(2)", Some(0), None),
        ("g", Some(3), None),
        ("a", None, Some(0)),
        ("k", None, Some(1)),
        ("x", None, None),
    ];
    for (text, symbol, name) in table {
        let found = signature.symbol(text).map(|sym| sym.number);
        assert_eq!(&rt; (found, signature.name(text)), (symbol, name), "{text}");
    }
    Ok(())
}

/// The symbol over nothing, over `?2`, or over `?2` and the same symbol over `?1` and `?2`.
fn nested(alloc: Global, number: u32, arity: u32) -> Result<Term, NoMemory> {
    let sym = Sym { number };
    let mut stack = TermStack::empty(alloc);
    match arity {
        2 => {
            stack.push_leaf(TermLeaf::Var(2))?;
            stack.push_leaf(TermLeaf::Var(1))?;
            stack.apply(sym, 2)?;
            stack.push_leaf(TermLeaf::Var(2))?;
            stack.apply(sym, 2)?;
        }
        1 => {
            stack.push_leaf(TermLeaf::Var(2))?;
            stack.apply(sym, 1)?;
        }
        _ => stack.apply(sym, 0)?,
    }
    Ok(stack.into_term())
}

fn leaf(alloc: Global, leaf: TermLeaf) -> Result<Term, NoMemory> {
    let mut stack = TermStack::empty(alloc);
    stack.push_leaf(leaf)?;
    Ok(stack.into_term())
}

/// The term's text, where it is over the signature.
fn text_of(alloc: Global, signature: &Signature, term: &Term) -> Result<Option<String>, NoMemory> {
    if !is_over(term, signature) {
        return Ok(None);
    }
    match term_text(alloc, term.whole(), signature) {
        Ok(text) => Ok(Some(text)),
        Err(error) => Err(error),
    }
}

/// Whether this is the term's text, or there is none and the term is not over the signature.
fn is_written(
    alloc: Global,
    signature: &Signature,
    term: &Term,
    text: Option<&str>,
) -> Result<bool, NoMemory> {
    match (text_of(alloc, signature, term)?, text) {
        (Some(written), Some(text)) => Ok(written.as_str() == text),
        (None, None) => Ok(true),
        _ => Ok(false),
    }
}

#[test]
fn texts_of_leaves(rt: HostRuntime) -> Result<(), Fail> {
    let alloc = rt.alloc();
    let signature = example(&rt, alloc)?;
    let table = [
        (TermLeaf::Public(PublicName::Declared(0)), Some("a")),
        (TermLeaf::Public(PublicName::Declared(1)), None),
        (TermLeaf::Public(PublicName::At(7)), Some("@7")),
        (TermLeaf::Private(0), Some("#0")),
        (TermLeaf::Var(18), Some("?18")),
        (TermLeaf::Ax(12), Some("ax12")),
        (TermLeaf::Entry(3), Some("e3")),
        (TermLeaf::Rigid(4), Some("!4")),
    ];
    for (x, text) in table {
        assert!(&rt;
            is_written(alloc, &signature, &leaf(alloc, x)?, text)?,
            "{x:?}"
        );
    }
    Ok(())
}

#[test]
fn texts_of_terms(rt: HostRuntime) -> Result<(), Fail> {
    let alloc = rt.alloc();
    let signature = example(&rt, alloc)?;
    let table = [
        (0, 2, Some("(?2,(?1,?2))")),
        (0, 1, None),
        (1, 0, Some("c")),
        (1, 2, None),
        (2, 0, None),
        (2, 2, Some("f(?2,f(?1,?2))")),
        (3, 1, Some("g(?2)")),
        (9, 0, None),
    ];
    for (number, arity, text) in table {
        assert!(&rt;
            is_written(alloc, &signature, &nested(alloc, number, arity)?, text)?,
            "{number}"
        );
    }
    Ok(())
}

/// So many symbols with one argument, one over the other, over `?7`.
fn chain(alloc: Global, height: u32) -> Result<Term, NoMemory> {
    let mut stack = TermStack::empty(alloc);
    stack.push_leaf(TermLeaf::Var(7))?;
    for _ in 0..height {
        stack.apply(Sym { number: 3 }, 1)?;
    }
    Ok(stack.into_term())
}

/// The number of bytes of the text of such a term.
fn text_length(alloc: Global, signature: &Signature, height: u32) -> Result<usize, NoMemory> {
    let term = chain(alloc, height)?;
    match text_of(alloc, signature, &term)? {
        Some(text) => Ok(text.len()),
        None => Ok(0),
    }
}

/// No depth of a term takes stack, and writing it no more time than its size.
#[test]
fn texts_of_chains(rt: HostRuntime) -> Result<(), Fail> {
    let alloc = rt.alloc();
    let signature = example(&rt, alloc)?;
    for (height, wanted) in [(1, 5), (60_000, 180_002)] {
        assert_eq!(&rt; text_length(alloc, &signature, height)?, wanted, "{height}");
    }
    Ok(())
}

/// The number of `k` among the private names, and how many symbols and names there are.
fn counts(signature: &Signature) -> Option<(u64, u32, u32)> {
    let Some(number) = signature.name("k") else {
        return None;
    };
    if signature.name_count() <= number {
        return None;
    }
    let private = signature.private_number(number);
    Some((private, signature.symbol_count(), signature.name_count()))
}

#[test]
fn copies(rt: HostRuntime) -> Result<(), Fail> {
    let signature = example(&rt, rt.alloc())?.copy()?;
    assert_eq!(&rt; counts(&signature), Some((0, 4, 2)));
    Ok(())
}

#[test]
fn texts_of_tuples(rt: HostRuntime) -> Result<(), Fail> {
    assert_eq!(rt; tuple_text(3), "(3)");
    assert_eq!(rt; projection_text(rt.alloc(), 2, 3)?.as_str(), "proj_2_3");
    Ok(())
}
