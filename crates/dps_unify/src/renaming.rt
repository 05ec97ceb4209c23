//! Variables with raised numbers.
ghost use Rattle.std.specs.Prelude.{◌≡◌, IfOk};
ghost use Rattle.dps_unify.specs.Renaming.{raised, HasRoom};

use dps_terms::{NoMemory, Replacement, Term, TermLeaf, TermStack};
use std::alloc::{AllocError, Global};

/// The term with `by` added to the number of each variable. No sum passes 2^64 - 1.
pub fn rename(alloc: Global, term: &Term, by: u64) -> Result<Term, NoMemory>
    requires { HasRoom term.now by }
    ensures { IfOk result (λ t. t ≡ raised by term.now) }
{
    term.whole().replaced(alloc, &Raised { by })
}

/// Variables with so much added to their numbers.
#[derive(Clone, Copy)]
struct Raised {
    by: u64,
}

impl Replacement for Raised {
    ghost use Rattle.std.specs.Prelude.{◌+◌};
    ghost use Rattle.dps_terms.specs.Tree.{leaf, var};
    ghost use Rattle.dps_terms.specs.Replace.{variables_to};

    ghost becomes = { λ s. variables_to (λ n. leaf (var (n + s.by))) };

    fn put(&self, leaf: TermLeaf, stack: &mut TermStack) -> Result<(), NoMemory> {
        let TermLeaf::Var(number) = leaf else {
            return stack.push_leaf(leaf);
        };
        match number.checked_add(self.by) {
            Some(sum) => stack.push_leaf(TermLeaf::Var(sum)),
            None => Err(AllocError),
        }
    }
}
