//! The laws of the search and small examples. Each function does nothing: its contract is the law.
ghost use Rattle.dps_solver.specs.Laws.{SearchIsDetermined};
ghost use Rattle.dps_solver.specs.Examples.{CiphertextIsComposed, CiphertextIsSpent, EarlierIsNone, LaterIsEntry, GreaterIsBound};

/// The search lists one list of solutions, in one order, with one number of moves.
pub fn search_is_determined()
    ensures { SearchIsDetermined }
{}

/// A variable that is to be a ciphertext under a public key is composed, in three moves.
pub fn ciphertext_is_composed()
    ensures { CiphertextIsComposed }
{}

/// With room for two moves that search is spent.
pub fn ciphertext_is_spent()
    ensures { CiphertextIsSpent }
{}

/// A variable that came before an entry can't be it.
pub fn earlier_is_none()
    ensures { EarlierIsNone }
{}

/// A variable that came after an entry can.
pub fn later_is_entry()
    ensures { LaterIsEntry }
{}

/// Of two variables of one level the one with the greater number is bound.
pub fn greater_is_bound()
    ensures { GreaterIsBound }
{}
