//! Theories as values.
ghost use Rattle.std.specs.Prelude.{◌≡◌, [], ◌++◌, map, slice_get, IfOk, IfErr};
ghost use Rattle.std.specs.Option.{option_map};
ghost use Rattle.dps_signature.specs.Signature.{shapes};
ghost use Rattle.dps_theory.specs.Theory.{Rule as RuleValue, HasRule, IsAccepted, HasPlainRules};
ghost use Rattle.dps_theory.specs.Held.{shape_of, theory_of};
ghost use Rattle.dps_theory.specs.Index.{places};
ghost use Rattle.dps_theory.specs.Projections.{projections as projection_rules};
ghost use Rattle.dps_theory.specs.Conditions.{AreCheckable, IsRuleOver};
ghost use Rattle.dps_theory.specs.Checking.{IsRefused};

use crate::Rule;
use crate::check::{TheoryRefusal, judge};
use crate::index::{RootIndex, index_of};
use crate::projections::projections;
use crate::rule::copied;
use crate::shapes::{SymbolShape, shapes_of};
use dps_signature::{Signature, SymKind};
use dps_terms::{NoMemory, Sym};
use std::alloc::Global;
use std::marker::Model;

/// An accepted theory whose rules hold declared names and variables alone: the kind and the arity of each symbol, and
/// rewrite rules.
#[derive(Drop)]
pub struct Theory {
    shapes: Vec<SymbolShape>,
    rules: Vec<Rule>,
    index: RootIndex,
}

impl Model for Theory {
    ghost use Rattle.dps_theory.specs.Theory.{Theory};
    ghost use Rattle.dps_theory.specs.Stored.{theory_code};

    ghost Value = { Theory };

    ghost coded = { theory_code };

    ghost use Rattle.dps_theory.specs.Held.{theory_of, IsKept};
    ghost use Rattle.dps_theory.specs.Index.{IsIndexOf};

    ghost view = { λ a. theory_of a.shapes.items a.rules.items };

    ghost invariant = { λ a. IsKept (theory_of a.shapes.items a.rules.items) × IsIndexOf a.rules.items a.index };
}

impl Theory {
    /// The theory of the signature's symbols without a rule.
    #[tactic(auto, using(crate::proofs::Symbols::unruled_is_kept))]
    pub fn without_rules(alloc: Global, signature: &Signature) -> Result<Theory, NoMemory>
        ensures { IfOk result (λ theory. theory ≡ record { shapes = shapes signature.now; rules = [] }) }
    {
        let shapes = shapes_of(alloc, signature)?;
        let index = RootIndex::empty(alloc, shapes.len())?;
        Ok(Theory {
            shapes,
            rules: Vec::new(alloc),
            index,
        })
    }

    /// The theory of the signature's symbols with the rules of its projections and then the given ones, where the given
    /// ones make an accepted theory.
    ///
    /// The rules of the projections are `proj_i_n((x1,..,xn)) -> xi`, for each symbol `(n)` of tuples, by n and i.
    ///
    /// There are fewer than 2^24 rules. They are over the signature, hold declared names and variables alone, with
    /// numbers of variables below 2^32, and have no projection at their left root. Where the symbol `(n)` is there, it is
    /// a constructor of arity n, and `proj_1_n` to `proj_n_n` are there, as destructors of arity 1.
    ///
    /// The rules are tried in order, each by itself and then with those before it, in order; the first fault is the
    /// refusal. `Memory` comes where memory ran out.
    pub fn check(
        alloc: Global,
        signature: &Signature,
        rules: Vec<Rule>,
    ) -> Result<Theory, TheoryRefusal>
        requires { AreCheckable signature.now rules.items }
        ensures theory { IfOk result (λ theory. theory ≡ record { shapes = shapes signature.now; rules = projection_rules signature.now ++ rules.items }) }
        ensures own { IfOk result (λ _. IsAccepted (record { shapes = shapes signature.now; rules = rules.items })) }
        ensures accepted { IfOk result IsAccepted }
        ensures plain { IfOk result HasPlainRules }
        ensures over { IfOk result (λ theory. (r : RuleValue) → HasRule theory r → IsRuleOver signature.now r) }
        ensures refused { IfErr result (IsRefused (shapes signature.now) rules.items) }
    {
        let Ok(shapes) = shapes_of(alloc, signature) else {
            return Err(TheoryRefusal::Memory);
        };
        judge(alloc, &shapes, &rules)?;
        match Theory::joined(alloc, signature, shapes, rules) {
            Ok(theory) => Ok(theory),
            Err(_) => Err(TheoryRefusal::Memory),
        }
    }

    /// The rules of the projections and rules that are accepted by themselves, as one theory.
    fn joined(
        alloc: Global,
        signature: &Signature,
        known: Vec<SymbolShape>,
        mut rules: Vec<Rule>,
    ) -> Result<Theory, NoMemory>
        requires checkable { AreCheckable signature.now rules.items }
        requires known { map shape_of known.items ≡ shapes signature.now }
        requires accepted { IsAccepted (theory_of known.items rules.items) }
        ensures { IfOk result (λ theory. theory ≡ record { shapes = shapes signature.now; rules = projection_rules signature.now ++ rules.items }) }
    {
        let mut all = projections(alloc, signature)?;
        all.append(&mut rules)?;
        let index = index_of(alloc, known.len(), &all)?;
        Ok(Theory {
            shapes: known,
            rules: all,
            index,
        })
    }

    /// A copy.
    pub fn copy(&self, alloc: Global) -> Result<Theory, NoMemory>
        ensures { IfOk result (λ theory. theory ≡ self.now) }
    {
        let mut shapes = Vec::new(alloc);
        shapes.extend_from_slice(self.shapes.as_slice())?;
        Ok(Theory {
            shapes,
            rules: copied(alloc, self.rules.as_slice())?,
            index: self.index.copy(alloc)?,
        })
    }

    /// The rules.
    pub fn rules(&self) -> &[Rule]
        ensures list { result.now ≡ self.now.rules }
        ensures accepted { IsAccepted self.now }
        ensures plain { HasPlainRules self.now }
    {
        self.rules.as_slice()
    }

    /// The places of the rules with this left root, in order.
    pub fn of(&self, destructor: Sym) -> &[u32]
        ensures { result.now ≡ places self.now.rules destructor.number }
    {
        self.index.of(destructor.number)
    }

    /// Whether the symbol is a constructor or a destructor, and `None` exactly where it is not there.
    pub fn kind(&self, sym: Sym) -> Option<SymKind>
        ensures { result ≡ option_map (λ s. s.kind) (slice_get self.now.shapes sym.number) }
    {
        match self.shapes.get(sym.number as usize) {
            Some(shape) => Some(shape.kind),
            None => None,
        }
    }

    /// How many arguments the symbol takes, and `None` exactly where it is not there.
    pub fn arity(&self, sym: Sym) -> Option<u32>
        ensures { result ≡ option_map (λ s. s.arity) (slice_get self.now.shapes sym.number) }
    {
        match self.shapes.get(sym.number as usize) {
            Some(shape) => Some(shape.arity),
            None => None,
        }
    }
}
