//! How many cases there are, in tables of numbers.
use crate::{Case, cases, equal_cases};
use dps_signature::{AddRefusal, Signature, SymKind, is_identifier};
use dps_terms::{NoMemory, PublicName, Sym, Term};
use dps_theory::{Rule, Theory, are_checkable};
use std::alloc::Global;
use std::process::Abort;
use std::test::Fail;

/// The symbols 0 `a` and 1 `b`, constructors, and 2 `d` and 3 `e`, destructors; `e` takes two terms, and the others one.
fn signature(rt: &impl Abort, alloc: Global) -> Result<Signature, AddRefusal> {
    let mut signature = Signature::new(alloc);
    let symbols = [
        ("a", SymKind::Constructor, 1),
        ("b", SymKind::Constructor, 1),
        ("d", SymKind::Destructor, 1),
        ("e", SymKind::Destructor, 2),
    ];
    for (text, kind, arity) in symbols {
        assert!(rt; is_identifier(text));
        assert!(rt; signature.symbol_count() < 100);
        assert!(rt; signature.name_count() < 100);
        let _ = signature.add_symbol(text, kind, arity)?;
    }
    Ok(signature)
}

/// The term that the letters leave last: `x` and `y` are the variables 1 and 2, `n` is a private name, and a symbol takes the
/// terms before it.
fn term(alloc: Global, letters: &str) -> Result<Term, NoMemory> {
    let mut stack = Vec::new(alloc);
    for letter in letters.as_bytes() {
        let made = match *letter {
            b'x' => Term::var(alloc, 1)?,
            b'y' => Term::var(alloc, 2)?,
            b'a' => over(alloc, &mut stack, 0, 1)?,
            b'b' => over(alloc, &mut stack, 1, 1)?,
            b'd' => over(alloc, &mut stack, 2, 1)?,
            b'e' => over(alloc, &mut stack, 3, 2)?,
            _ => Term::private(alloc, 0)?,
        };
        stack.push(made)?;
    }
    match stack.pop() {
        Some(term) => Ok(term),
        None => Term::rigid(alloc, 0),
    }
}

/// The symbol of this number over the last terms.
fn over(alloc: Global, stack: &mut Vec<Term>, number: u32, arity: usize) -> Result<Term, NoMemory> {
    let below = stack.len().saturating_sub(arity);
    let arguments = stack.split_off(below)?;
    if arguments.len() > 8 {
        return Term::private(alloc, 0);
    }
    Term::app(alloc, Sym { number }, arguments)
}

fn rule(alloc: Global, left: &str, right: &str) -> Result<Rule, NoMemory> {
    Ok(Rule {
        left: term(alloc, left)?,
        right: term(alloc, right)?,
    })
}

/// `d(a(x)) -> x`, `d(b(x)) -> x` and `e(x,a(x)) -> x`.
fn theory(rt: &impl Abort, alloc: Global) -> Option<Theory> {
    let Ok(signature) = signature(rt, alloc) else {
        return None;
    };
    let Ok(rules) = rules(alloc) else {
        return None;
    };
    match are_checkable(alloc, &signature, &rules) {
        Ok(true) => match Theory::check(alloc, &signature, rules) {
            Ok(theory) => Some(theory),
            Err(_) => None,
        },
        _ => None,
    }
}

fn rules(alloc: Global) -> Result<Vec<Rule>, NoMemory> {
    let mut rules = Vec::new(alloc);
    for (left, right) in [("xad", "x"), ("xbd", "x"), ("xxae", "x")] {
        rules.push(rule(alloc, left, right)?)?;
    }
    Ok(rules)
}

/// How many cases there are, and how many equations in all.
fn counts(found: Result<Vec<Case>, NoMemory>) -> (usize, usize) {
    let Ok(found) = found else {
        return (usize::MAX, usize::MAX);
    };
    let mut equations: usize = 0;
    for case in &found {
        equations = equations.saturating_add(case.equations.len());
    }
    (found.len(), equations)
}

fn cases_of(alloc: Global, theory: &Theory, letters: &str) -> (usize, usize) {
    match term(alloc, letters) {
        Ok(term) => counts(cases(alloc, theory, &term, 10)),
        Err(_) => (usize::MAX, usize::MAX),
    }
}

fn equal_cases_of(alloc: Global, theory: &Theory, left: &str, right: &str) -> (usize, usize) {
    match (term(alloc, left), term(alloc, right)) {
        (Ok(left), Ok(right)) => counts(equal_cases(alloc, theory, &left, &right, 10)),
        _ => (usize::MAX, usize::MAX),
    }
}

#[test]
fn counts_of_cases(rt: HostRuntime) {
    let alloc = rt.alloc();
    let theory = theory(&rt, alloc);
    assert!(rt; theory.is_some());
    let Some(theory) = theory else {
        return;
    };
    let table = [
        ("x", (1, 0)),
        ("na", (1, 0)),
        ("xd", (2, 2)),
        ("nad", (1, 1)),
        ("nd", (0, 0)),
        ("nda", (0, 0)),
        ("xdd", (4, 8)),
        ("xdxde", (0, 0)),
        ("xdyde", (4, 16)),
        ("nxe", (1, 2)),
        ("xxe", (0, 0)),
        // sixteen nested destructors, where one rule fits each
        ("nbabaabababaababadddddddddddddddd", (1, 16)),
        ("nabaabababaababadddddddddddddddd", (0, 0)),
    ];
    for (letters, wanted) in table {
        assert!(rt; cases_of(alloc, &theory, letters) == wanted, "{letters}");
    }
    let equal_table = [
        ("x", "y", (1, 1)),
        ("xa", "yb", (0, 0)),
        ("xd", "xa", (0, 0)),
        ("xd", "ya", (2, 4)),
        ("xd", "yd", (4, 12)),
        ("nd", "x", (0, 0)),
    ];
    for (left, right, wanted) in equal_table {
        assert!(rt;
            equal_cases_of(alloc, &theory, left, right) == wanted,
            "{left} {right}"
        );
    }
}
