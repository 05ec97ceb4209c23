//! Small examples of the tree. Each function does nothing: its contract is the example.
ghost use Rattle.dps_node.specs.Examples.{AttackIsFound, BudgetIsSpent, InputIsDivided, EntryIsFound, SecretIsOpened};

/// The tree of `out(c,a)` against `out(c,b)` stops for an attack, with a budget of 6.
pub fn attack_is_found()
    ensures { AttackIsFound }
{}

/// With a budget of 5 it is spent.
pub fn budget_is_spent()
    ensures { BudgetIsSpent }
{}

/// The test of an input divides a node, and is decided in its kids.
pub fn input_is_divided()
    ensures { InputIsDivided }
{}

/// A ciphertext under a private key becomes an entry, and its node is closed.
pub fn entry_is_found()
    ensures { EntryIsFound }
{}

/// What a destructor computes of an entry becomes an entry.
pub fn secret_is_opened()
    ensures { SecretIsOpened }
{}
