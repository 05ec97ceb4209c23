//! What is answered of rules, in tables of numbers, and each call once with ample memory.
use crate::{FormFault, Rule, Theory, TheoryRefusal, are_checkable};
use dps_signature::{AddRefusal, Signature, SymKind, is_identifier};
use dps_terms::{NoMemory, PublicName, Subst, Sym, Term};
use std::alloc::Global;
use std::process::Abort;
use std::test::Fail;

/// The symbols 0 `(2)`, 1 `proj_1_2`, 2 `proj_2_2`, 3 `f`, which is a constructor, and the destructors 4 `g` and 5 `h`; and
/// the names 0 and 1.
fn signature(rt: &impl Abort, alloc: Global) -> Result<Signature, AddRefusal> {
    let mut signature = Signature::new(alloc);
    let _ = signature.add_symbol("(2)", SymKind::Constructor, 2)?;
    let symbols = [
        ("proj_1_2", SymKind::Destructor),
        ("proj_2_2", SymKind::Destructor),
        ("f", SymKind::Constructor),
        ("g", SymKind::Destructor),
        ("h", SymKind::Destructor),
    ];
    for (text, kind) in symbols {
        assert!(rt; is_identifier(text));
        assert!(rt; signature.symbol_count() < 100);
        assert!(rt; signature.name_count() < 100);
        let _ = signature.add_symbol(text, kind, 1)?;
    }
    for text in ["a", "b"] {
        assert!(rt; is_identifier(text));
        assert!(rt; signature.symbol_count() < 100);
        assert!(rt; signature.name_count() < 100);
        let _ = signature.add_name(text, false)?;
    }
    Ok(signature)
}

/// Symbols over one another, and what stands below them: the name 0 or 1, or the variable with another number.
type Side = (&'static [u32], u32);

fn made(alloc: Global, side: Side) -> Result<Term, NoMemory> {
    let mut term = if side.1 < 2 {
        Term::public(alloc, PublicName::Declared(side.1))?
    } else {
        Term::var(alloc, side.1 as u64)?
    };
    for number in side.0.iter().rev() {
        term = Term::app(alloc, Sym { number: *number }, vec![in alloc; term]?)?;
    }
    Ok(term)
}

fn rule(alloc: Global, left: Side, right: Side) -> Result<Rule, NoMemory> {
    Ok(Rule {
        left: made(alloc, left)?,
        right: made(alloc, right)?,
    })
}

fn rules(alloc: Global, rows: &[(Side, Side)]) -> Result<Vec<Rule>, NoMemory> {
    let mut rules = Vec::new(alloc);
    for (left, right) in rows {
        rules.push(rule(alloc, *left, *right)?)?;
    }
    Ok(rules)
}

/// The theory of rules, and no answer where they may not be checked.
fn checked(
    alloc: Global,
    signature: &Signature,
    rows: &[(Side, Side)],
) -> Result<Option<Theory>, TheoryRefusal> {
    let Ok(rules) = rules(alloc, rows) else {
        return Err(TheoryRefusal::Memory);
    };
    match are_checkable(alloc, signature, &rules) {
        Ok(true) => match Theory::check(alloc, signature, rules) {
            Ok(theory) => Ok(Some(theory)),
            Err(refusal) => Err(refusal),
        },
        Ok(false) => Ok(None),
        Err(_) => Err(TheoryRefusal::Memory),
    }
}

fn fault_number(fault: FormFault) -> u32 {
    match fault {
        FormFault::RootNotDestructor => 1,
        FormFault::ArgumentNotConstructor => 2,
        FormFault::RightNotConstructor => 3,
        FormFault::NotSubterm => 4,
    }
}

/// Whether the variable of the first rule becomes the name 0.
fn binds(alloc: Global, unifier: &Subst) -> bool {
    match (unifier.get(7), made(alloc, (&[], 0))) {
        (Some(term), Ok(want)) => term.equals(&want),
        _ => false,
    }
}

/// 0 and the count of the theory's rules; 1 to 4 and the rule that is refused by itself; 5 and the two rules that overlap; 6
/// where the rules may not be checked; 7 without memory.
fn answer(alloc: Global, signature: &Signature, rows: &[(Side, Side)]) -> (u32, usize, u32) {
    match checked(alloc, signature, rows) {
        Ok(Some(theory)) => (0, theory.rules().len(), 0),
        Err(TheoryRefusal::Form { rule, fault }) => (fault_number(fault), rule as usize, 0),
        Err(
            TheoryRefusal::Overlap {
                first,
                second,
                unifier,
            },
        ) if binds(alloc, &unifier) => (5, first as usize, second),
        Ok(None) => (6, 0, 0),
        _ => (7, 0, 0),
    }
}

#[test]
fn rules_are_judged(rt: HostRuntime) -> Result<(), Fail> {
    let signature = signature(&rt, rt.alloc())?;
    let opens: (Side, Side) = ((&[4, 3], 7), (&[], 7));
    let table: [(&[(Side, Side)], (u32, usize, u32)); 10] = [
        (&[], (0, 2, 0)),
        (&[opens], (0, 3, 0)),
        (&[((&[3], 7), (&[], 7))], (1, 1, 0)),
        (&[((&[4, 5], 7), (&[], 7))], (2, 1, 0)),
        (&[((&[4], 7), (&[5], 7))], (3, 1, 0)),
        (&[((&[4, 3], 7), (&[3, 3], 7))], (4, 1, 0)),
        (&[opens, ((&[4, 3], 0), (&[], 0))], (0, 4, 0)),
        (&[opens, ((&[4, 3], 0), (&[], 1))], (5, 1, 2)),
        (
            &[opens, ((&[5], 7), (&[], 0)), ((&[3], 7), (&[], 7))],
            (1, 3, 0),
        ),
        (&[((&[1, 3], 7), (&[], 7))], (6, 0, 0)),
    ];
    for (rows, want) in table {
        assert_eq!(&rt; answer(rt.alloc(), &signature, rows), want);
    }
    Ok(())
}

/// The places of the rules of a symbol; its kind, 1 for a destructor; and its arity.
fn told(theory: &Theory, number: u32) -> (u32, Option<u32>, Option<u32>) {
    let sym = Sym { number };
    let first = match theory.of(sym).first() {
        Some(place) => *place,
        None => 9,
    };
    let kind = theory
        .kind(sym)
        .map(|kind| u32::from(kind == SymKind::Destructor));
    (first, kind, theory.arity(sym))
}

#[test]
fn theories_tell(rt: HostRuntime) -> Result<(), Fail> {
    let signature = signature(&rt, rt.alloc())?;
    let rows: [(Side, Side); 1] = [((&[5, 3], 7), (&[], 7))];
    let Ok(Some(theory)) = checked(rt.alloc(), &signature, &rows) else {
        return Err(Fail::from("no theory"));
    };
    let copy = theory.copy(rt.alloc())?;
    let bare = Theory::without_rules(rt.alloc(), &signature)?;
    let table = [
        (0, 9, Some(0), Some(2)),
        (1, 0, Some(1), Some(1)),
        (2, 1, Some(1), Some(1)),
        (3, 9, Some(0), Some(1)),
        (5, 2, Some(1), Some(1)),
        (6, 9, None, None),
    ];
    for (number, first, kind, arity) in table {
        assert_eq!(&rt; told(&theory, number), (first, kind, arity));
        assert_eq!(&rt; told(&copy, number), (first, kind, arity));
        assert_eq!(&rt; told(&bare, number), (9, kind, arity));
    }
    assert_eq!(&rt; bare.rules().len(), 0);
    Ok(())
}

/// The room of the first of rules that may be checked, where its copy has its sides.
fn room(alloc: Global, signature: &Signature, rules: &[Rule]) -> Result<Option<u64>, NoMemory> {
    if !are_checkable(alloc, signature, rules)? || rules.is_empty() {
        return Ok(None);
    }
    let rule = &rules[0];
    let room = rule.room(alloc)?;
    let copy = rule.copy(alloc)?;
    if copy.left.equals(&rule.left) && copy.right.equals(&rule.right) {
        return Ok(Some(room));
    }
    Ok(None)
}

#[test]
fn rules_have_room(rt: HostRuntime) -> Result<(), Fail> {
    let signature = signature(&rt, rt.alloc())?;
    let rules = rules(rt.alloc(), &[((&[4, 3], 7), (&[], 7))])?;
    assert_eq!(&rt; room(rt.alloc(), &signature, &rules)?, Some(8));
    Ok(())
}
