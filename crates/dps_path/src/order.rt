ghost use Rattle.std.specs.Prelude.{◌≡◌, ℕ, List, Bool, true, false, [], ◌∷◌, ◌++◌, ◌⊎◌};
ghost use Rattle.dps_path.specs.Order.{before, is_prefix};

/// The order of paths is a strict total order, and a prefix comes first.
pub fn order_laws()
    ensures never { (p : List ℕ) → before p p ≡ false }
    ensures chain { (p q r : List ℕ) → before p q ≡ true → before q r ≡ true → before p r ≡ true }
    ensures total { (p q : List ℕ) → before p q ≡ false → (p ≡ q) ⊎ (before q p ≡ true) }
    ensures first { (p : List ℕ) (i : ℕ) (q : List ℕ) → before p (p ++ i ∷ q) ≡ true }
{}
