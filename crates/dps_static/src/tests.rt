//! Tables of frames, told apart or not, and by which test.
use crate::{Comparison, Test, compare, deduce, saturate};
use dps_recipes::Frame;
use dps_signature::{AddRefusal, Signature, SymKind, is_identifier};
use dps_terms::{NoMemory, PublicName, Sym, Term};
use dps_theory::{Rule, Theory, are_checkable};
use std::alloc::Global;
use std::process::Abort;
use std::test::Fail;

/// The symbol of this number over the last terms.
fn over(alloc: Global, stack: &mut Vec<Term>, number: u32, arity: usize) -> Result<Term, NoMemory> {
    let below = stack.len().saturating_sub(arity);
    let arguments = stack.split_off(below)?;
    if arguments.len() > 8 {
        return Term::private(alloc, 0);
    }
    Term::app(alloc, Sym { number }, arguments)
}

/// The symbol of the letter, by its number, with its arity: `h` is a constructor over one term and `e` one over two, and
/// `S`, `D`, `U` and `Q` are destructors over none, two, one and one.
fn symbol(letter: u8) -> Option<(u32, usize)> {
    match letter {
        b'S' => Some((0, 0)),
        b'h' => Some((1, 1)),
        b'e' => Some((2, 2)),
        b'D' => Some((3, 2)),
        b'U' => Some((4, 1)),
        b'Q' => Some((5, 1)),
        _ => None,
    }
}

/// The leaf of the letter: `a` and `b` are declared names, `0` and `@` are the attacker's first and last own names, `X` and
/// `Y` are variables, other digits are handles, and other letters are private names.
fn leaf(alloc: Global, letter: u8) -> Result<Term, NoMemory> {
    match letter {
        b'a' => Term::public(alloc, PublicName::Declared(0)),
        b'b' => Term::public(alloc, PublicName::Declared(1)),
        b'0' => Term::public(alloc, PublicName::At(0)),
        b'@' => Term::public(alloc, PublicName::At(u64::MAX)),
        b'X' => Term::var(alloc, 0),
        b'Y' => Term::var(alloc, 1),
        b'1'..=b'9' => Term::ax(alloc, u32::from(letter - b'0')),
        _ => Term::private(alloc, u64::from(letter)),
    }
}

/// The terms that the letters leave on a stack: a leaf is put there, and a symbol takes its arguments.
fn terms(alloc: Global, letters: &[u8]) -> Result<Vec<Term>, NoMemory> {
    let mut stack = Vec::new(alloc);
    for letter in letters {
        let term = match symbol(*letter) {
            Some((number, arity)) => over(alloc, &mut stack, number, arity)?,
            None => leaf(alloc, *letter)?,
        };
        stack.push(term)?;
    }
    Ok(stack)
}

fn frame(alloc: Global, letters: &str) -> Result<Frame, NoMemory> {
    let messages = terms(alloc, letters.as_bytes())?;
    Ok(Frame { messages })
}

fn add(
    rt: &impl Abort,
    signature: &mut Signature,
    name: &str,
    kind: SymKind,
    arity: u32,
) -> Result<Sym, AddRefusal> {
    assert!(rt; is_identifier(name));
    assert!(rt; signature.symbol_count() < 100);
    assert!(rt; signature.name_count() < 100);
    signature.add_symbol(name, kind, arity)
}

fn add_name(rt: &impl Abort, signature: &mut Signature, name: &str) -> Result<u32, AddRefusal> {
    assert!(rt; is_identifier(name));
    assert!(rt; signature.symbol_count() < 100);
    assert!(rt; signature.name_count() < 100);
    signature.add_name(name, false)
}

/// The signature of the symbols and of the names `a` and `b`.
fn signature(rt: &impl Abort, alloc: Global) -> Signature {
    let mut signature = Signature::new(alloc);
    assert!(rt; add(rt, &mut signature, "stuck", SymKind::Destructor, 0).is_ok());
    assert!(rt; add(rt, &mut signature, "h", SymKind::Constructor, 1).is_ok());
    assert!(rt; add(rt, &mut signature, "e", SymKind::Constructor, 2).is_ok());
    assert!(rt; add(rt, &mut signature, "d", SymKind::Destructor, 2).is_ok());
    assert!(rt; add(rt, &mut signature, "u", SymKind::Destructor, 1).is_ok());
    assert!(rt; add(rt, &mut signature, "q", SymKind::Destructor, 1).is_ok());
    assert!(rt; add_name(rt, &mut signature, "a").is_ok());
    assert!(rt; add_name(rt, &mut signature, "b").is_ok());
    signature
}

/// The rules whose sides the letters leave on a stack, two and two.
fn rules(alloc: Global, letters: &str) -> Result<Vec<Rule>, NoMemory> {
    let mut rules = Vec::new(alloc);
    let mut left = None;
    for side in terms(alloc, letters.as_bytes())? {
        match left.take() {
            Some(left) => rules.push(Rule { left, right: side })?,
            None => left = Some(side),
        }
    }
    Ok(rules)
}

/// The theory of `stuck -> h(a)`, `d(e(x,y),y) -> x`, `u(h(h(x))) -> x` and `q(e(h(x),y)) -> y`.
fn ruled(rt: &impl Abort, alloc: Global) -> Result<Theory, NoMemory> {
    let signature = signature(rt, alloc);
    let rules = rules(alloc, "SahXYeYDXXhhUXXhYeQY")?;
    assert!(rt; rules.len() == 4);
    let checkable = are_checkable(alloc, &signature, &rules)?;
    assert!(rt; checkable);
    match Theory::check(alloc, &signature, rules) {
        Ok(theory) => Ok(theory),
        Err(_) => panic!(rt; "the rules are accepted"),
    }
}

/// Whether the answer is equality of the two recipes, or that the frames are equivalent where there are none.
fn is_answer(answer: Result<Comparison, NoMemory>, recipes: &[Term]) -> bool {
    match answer {
        Ok(Comparison::Same) => recipes.is_empty(),
        Ok(Comparison::Differ(Test::Equal(one, other))) => match recipes {
            [left, right] => one.equals(left) && other.equals(right),
            _ => false,
        },
        _ => false,
    }
}

/// Which kind of test tells the frames of the letters apart: `v` for one on a value, `e` for one on equality, `s` for none.
fn kind(
    rt: &impl Abort,
    alloc: Global,
    theory: &Theory,
    one: &str,
    other: &str,
) -> Result<char, NoMemory> {
    let first = frame(alloc, one)?;
    let second = frame(alloc, other)?;
    assert!(rt; first.messages.len() == second.messages.len());
    assert!(rt; first.messages.len() < 100);
    match compare(alloc, theory, &first, &second)? {
        Comparison::Same => Ok('s'),
        Comparison::Differ(Test::Value(_)) => Ok('v'),
        Comparison::Differ(Test::Equal(_, _)) => Ok('e'),
    }
}

#[test]
fn frames_under_rules(rt: HostRuntime) -> Result<(), Fail> {
    let alloc = rt.alloc();
    let theory = ruled(&rt, alloc)?;
    let table = [
        ("ah", "ah", 's'),
        ("ah", "bh", 'e'),
        ("@kek", "@nen", 's'),
        ("@kek", "0kek", 'e'),
        ("@kek", "nkek", 'e'),
        ("@0e@", "nnep", 'e'),
        ("n@e", "n0e", 'v'),
        ("n@e@", "nkek", 'v'),
        ("kh", "k", 'v'),
        ("k", "kh", 'v'),
        ("kh0@", "k0@", 'v'),
        ("khhk", "nhhk", 'e'),
        ("knpe", "knpe", 's'),
    ];
    for (one, other, wanted) in &table {
        let found = kind(&rt, alloc, &theory, one, other)?;
        assert!(rt; found == *wanted, "{one} {other}");
    }
    Ok(())
}

#[test]
fn frames(rt: HostRuntime) -> Result<(), Fail> {
    let alloc = rt.alloc();
    let theory = Theory::without_rules(alloc, &signature(&rt, alloc))?;
    let table = [
        ("", "", ""),
        ("kk", "kn", "21"),
        ("kn", "kk", "21"),
        ("ake", "bke", ""),
        ("akek", "bkek", "1a2e"),
        ("a", "b", "1a"),
        ("k", "@", "1@"),
        ("@k", "@n", ""),
        ("kkh", "knh", "21h"),
        ("kh", "ah", "1ah"),
        ("khk", "nk", "12h"),
        ("knkne", "knnke", "312e"),
    ];
    for (one, other, recipes) in &table {
        let first = frame(alloc, one)?;
        let second = frame(alloc, other)?;
        let wanted = terms(alloc, recipes.as_bytes())?;
        assert_eq!(rt; first.messages.len(), second.messages.len());
        assert!(rt; first.messages.len() < 100);
        let answer = compare(alloc, &theory, &first, &second);
        assert!(rt; is_answer(answer, &wanted), "{one} {other}");
    }
    Ok(())
}

/// Whether the recipe of the letters was found, or none where there are none.
fn is_found(found: Result<Option<Term>, NoMemory>, recipe: &[Term]) -> bool {
    match (found, recipe) {
        (Ok(Some(found)), [wanted]) => found.equals(wanted),
        (Ok(None), []) => true,
        _ => false,
    }
}

#[test]
fn deductions(rt: HostRuntime) -> Result<(), Fail> {
    let alloc = rt.alloc();
    let theory = Theory::without_rules(alloc, &signature(&rt, alloc))?;
    let table = [
        ("", "a", "a"),
        ("", "k", ""),
        ("kn", "n", "2"),
        ("kn", "knhe", "12he"),
        ("kh", "k", ""),
        ("ake", "ake", "1"),
        ("ake", "@", "@"),
    ];
    for (messages, message, recipe) in &table {
        let known = frame(alloc, messages)?;
        let asked = terms(alloc, message.as_bytes())?;
        let wanted = terms(alloc, recipe.as_bytes())?;
        assert!(rt; known.messages.len() < 100);
        for one in &asked {
            let found = deduce(alloc, &theory, &known, one);
            assert!(rt;
                asked.len() > 1 || is_found(found, &wanted),
                "{messages} {message}"
            );
        }
        let pairs = saturate(alloc, &theory, &known)?.pairs;
        assert_eq!(rt; pairs.len(), known.messages.len());
    }
    Ok(())
}
