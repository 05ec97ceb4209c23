//! Tables of rules and of recipes.
use crate::reduction::rewritten;
use crate::{Frame, evaluate, value};
use dps_signature::{AddRefusal, Signature, SymKind, is_identifier};
use dps_terms::{NoMemory, PublicName, Subst, Sym, Term};
use dps_theory::{Rule, Theory};
use std::alloc::Global;
use std::process::Abort;
use std::test::Fail;

/// The symbol of this number over the last terms.
fn over(alloc: Global, stack: &mut Vec<Term>, number: u32, arity: usize) -> Result<Term, NoMemory> {
    let below = stack.len().saturating_sub(arity);
    let arguments = stack.split_off(below)?;
    if arguments.len() > 8 {
        return Term::private(alloc, 0);
    }
    Term::app(alloc, Sym { number }, arguments)
}

/// The symbol of the letter, by its number, with as many terms as it is put over: `p` is the symbol 0 over two terms and
/// `q` over one, `g` is the symbol 1 over one term and `d` the symbol 2 over two.
fn symbol(letter: u8) -> Option<(u32, usize)> {
    match letter {
        b'p' => Some((0, 2)),
        b'q' => Some((0, 1)),
        b'g' => Some((1, 1)),
        b'd' => Some((2, 2)),
        _ => None,
    }
}

/// The leaf of the letter: `x` and `y` are variables, `a` and `b` are declared names, `@` is the attacker's last own name,
/// digits are handles, and other letters are private names.
fn leaf(alloc: Global, letter: u8) -> Result<Term, NoMemory> {
    match letter {
        b'x' | b'y' => Term::var(alloc, u64::from(letter)),
        b'a' => Term::public(alloc, PublicName::Declared(0)),
        b'b' => Term::public(alloc, PublicName::Declared(1)),
        b'@' => Term::public(alloc, PublicName::At(u64::MAX)),
        b'0'..=b'9' => Term::ax(alloc, u32::from(letter - b'0')),
        _ => Term::private(alloc, u64::from(letter)),
    }
}

/// The terms that the letters leave on a stack: a leaf is put there, and a symbol takes its arguments.
fn terms(alloc: Global, letters: &str) -> Result<Vec<Term>, NoMemory> {
    let mut stack = Vec::new(alloc);
    for letter in letters.as_bytes() {
        let term = match symbol(*letter) {
            Some((number, arity)) => over(alloc, &mut stack, number, arity)?,
            None => leaf(alloc, *letter)?,
        };
        stack.push(term)?;
    }
    Ok(stack)
}

/// The one term of the letters.
fn term(alloc: Global, letters: &str) -> Result<Term, NoMemory> {
    let mut stack = terms(alloc, letters)?;
    match stack.pop() {
        Some(term) => Ok(term),
        None => Term::rigid(alloc, 0),
    }
}

/// Whether this is the term of the letters, or nothing where there are none.
fn is_term(alloc: Global, found: Result<Option<Term>, NoMemory>, letters: &str) -> bool {
    match (found, term(alloc, letters)) {
        (Ok(Some(found)), Ok(wanted)) => found.equals(&wanted),
        (Ok(None), Ok(_)) => letters.is_empty(),
        _ => false,
    }
}

/// What the rule makes of the term.
fn reduct_by(
    alloc: Global,
    left: &str,
    right: &str,
    letters: &str,
) -> Result<Option<Term>, NoMemory> {
    let rule = Rule {
        left: term(alloc, left)?,
        right: term(alloc, right)?,
    };
    rewritten(alloc, &rule, &term(alloc, letters)?)
}

/// Whether the rule makes this of the term.
fn reduces(alloc: Global, left: &str, right: &str, letters: &str, wanted: &str) -> bool {
    is_term(alloc, reduct_by(alloc, left, right, letters), wanted)
}

#[test]
fn rules(rt: HostRuntime) {
    let alloc = rt.alloc();
    let table = [
        // decryption, with one key
        ("xypyd", "x", "akpkd", "a"),
        ("xypyd", "x", "akpnd", ""),
        ("xypyd", "x", "akd", ""),
        // decryption, with a private and a public key
        ("xyqpyd", "x", "akqpkd", "a"),
        ("xyqpyd", "x", "akpkd", ""),
        // a test of equality
        ("xxd", "a", "knd", ""),
        ("xxd", "a", "kapakpd", ""),
        ("xxd", "a", "akpakpd", "a"),
        // a check of a signature against a key
        ("xypyqd", "b", "nkpkqd", "b"),
        // nested symbols, and the attacker's last own name
        ("xqqg", "xq", "@qqg", "@q"),
    ];
    for (left, right, letters, wanted) in &table {
        assert!(rt;
            reduces(alloc, left, right, letters, wanted),
            "{left} {letters}"
        );
    }
}

fn add(
    rt: &impl Abort,
    signature: &mut Signature,
    name: &str,
    kind: SymKind,
    arity: u32,
) -> Result<Sym, AddRefusal> {
    assert!(rt; is_identifier(name));
    assert!(rt; signature.symbol_count() < 100);
    assert!(rt; signature.name_count() < 100);
    signature.add_symbol(name, kind, arity)
}

/// A theory of `pair`, a constructor of arity 2, and `get`, a destructor of arity 1.
fn theory(rt: &impl Abort, alloc: Global) -> Result<Theory, NoMemory> {
    let mut signature = Signature::new(alloc);
    assert!(rt; add(rt, &mut signature, "pair", SymKind::Constructor, 2).is_ok());
    assert!(rt; add(rt, &mut signature, "get", SymKind::Destructor, 1).is_ok());
    Theory::without_rules(alloc, &signature)
}

fn value_of(
    alloc: Global,
    theory: &Theory,
    frame: &Frame,
    recipe: &str,
) -> Result<Option<Term>, NoMemory> {
    value(alloc, theory, frame, &term(alloc, recipe)?)
}

/// Whether the recipe has this value.
fn has_value(alloc: Global, theory: &Theory, frame: &Frame, recipe: &str, wanted: &str) -> bool {
    is_term(alloc, value_of(alloc, theory, frame, recipe), wanted)
}

fn value_alone(alloc: Global, theory: &Theory, letters: &str) -> Result<Option<Term>, NoMemory> {
    evaluate(alloc, theory, &term(alloc, letters)?)
}

/// Whether the term evaluates to this.
fn evaluates(alloc: Global, theory: &Theory, letters: &str, wanted: &str) -> bool {
    is_term(alloc, value_alone(alloc, theory, letters), wanted)
}

#[test]
fn values(rt: HostRuntime) -> Result<(), Fail> {
    let alloc = rt.alloc();
    let theory = theory(&rt, alloc)?;
    let frame = Frame {
        messages: terms(alloc, "kna")?,
    };
    let table = [
        ("12p", "knp"),
        ("3@p", "a@p"),
        ("0", ""),
        ("4", ""),
        ("1g", ""),
        ("1gap", ""),
        ("1q", ""),
        ("12d", ""),
        ("x", ""),
    ];
    for (recipe, wanted) in &table {
        assert!(rt;
            has_value(alloc, &theory, &frame, recipe, wanted),
            "{recipe}"
        );
    }
    assert!(rt; evaluates(alloc, &theory, "kap", "kap"));
    assert!(rt; evaluates(alloc, &theory, "1", ""));
    Ok(())
}

/// The term with itself in the place of variable 0.
fn doubled(alloc: Global, term: &Term) -> Result<Term, NoMemory> {
    with(alloc, term, term.copy(alloc)?)
}

/// The term with the value in the place of variable 0.
fn with(alloc: Global, term: &Term, value: Term) -> Result<Term, NoMemory> {
    let mut by = Subst::empty(alloc);
    by.bind(0, value)?;
    term.subst(alloc, &by)
}

/// A chain of 2^16 symbols of this number over a name, each over one term.
fn chain(alloc: Global, number: u32) -> Result<Term, NoMemory> {
    let mut arguments = Vec::new(alloc);
    arguments.push(Term::var(alloc, 0)?)?;
    let mut term = Term::app(alloc, Sym { number }, arguments)?;
    for _ in 0..16 {
        term = doubled(alloc, &term)?;
    }
    with(alloc, &term, Term::private(alloc, 0)?)
}

/// Whether the term evaluates to itself.
fn evaluates_to_itself(alloc: Global, theory: &Theory, term: &Term) -> bool {
    match evaluate(alloc, theory, term) {
        Ok(Some(found)) => found.equals(term),
        _ => false,
    }
}

#[test]
fn deep_terms(rt: HostRuntime) -> Result<(), Fail> {
    let alloc = rt.alloc();
    let mut signature = Signature::new(alloc);
    assert!(rt; add(&rt, &mut signature, "h", SymKind::Constructor, 1).is_ok());
    let theory = Theory::without_rules(alloc, &signature)?;
    let term = chain(alloc, 0)?;
    assert_eq!(rt; term.size(), 65_537);
    assert!(rt; evaluates_to_itself(alloc, &theory, &term));
    Ok(())
}
