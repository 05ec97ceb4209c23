//! The order of the variables.
ghost use Rattle.std.specs.Prelude.{◌≡◌, ◌↔◌, IsTrue};
ghost use Rattle.dps_unify.specs.Order.{level_of, Precedes};

/// An order of the variables: those with a level first, by level and then by number, and then all others by number.
#[derive(Drop)]
pub struct VarOrder {
    /// Variables with their levels, each variable once. Where one stands twice, its first level counts.
    pub levels: Vec<(u64, u32)>,
}

impl VarOrder {
    /// Whether the first variable comes before the second.
    pub fn precedes(&self, first: u64, second: u64) -> bool
        ensures { IsTrue result ↔ Precedes self.now.levels.items first second }
    {
        match (self.level(first), self.level(second)) {
            (Some(i), Some(j)) => i < j || i == j && first < second,
            (Some(_), None) => true,
            (None, Some(_)) => false,
            (None, None) => first < second,
        }
    }

    #[tactic(auto, using(crate::proofs::Orders::level_of_drop))]
    fn level(&self, variable: u64) -> Option<u32>
        ensures { result ≡ level_of self.now.levels.items variable }
    {
        for pair in &self.levels {
            if pair.0 == variable {
                return Some(pair.1);
            }
        }
        None
    }
}
