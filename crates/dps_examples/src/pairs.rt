//! Pairs of small processes that an attacker tells apart or not: each answer is proved.
ghost use Rattle.std.specs.Prelude.{MatchOption};
ghost use Rattle.dps_examples.specs.Examples.{AreEquivalent, IsAttacked};

use dps_branch::Side;

/// Two processes. The names `a` and `b` are public and channels; `k` and `n` are private.
#[derive(Clone, Copy, Debug, PartialEq, Eq)]
pub enum ProcessPair {
    /// `out(a,a)` and `out(a,b)`.
    PublicNames,
    /// `out(a,k)` and `out(a,n)`.
    PrivateNames,
    /// `in(a,x); if x = a then out(a,a) else out(a,b)` and `in(a,x); out(a,b)`.
    PublicTest,
    /// `in(a,x); if x = k then out(a,a) else out(a,b)` and `in(a,x); out(a,b)`.
    PrivateTest,
    /// `out(a,a)` and `out(a,a) + out(a,b)`.
    OneOfTwo,
    /// `out(a,a)` and `out(b,a)`.
    TwoChannels,
}

/// The side that has an attack in each model, with labels that are stated; `None` where the processes are trace equivalent
/// in each model.
pub fn attacked_side(pair: ProcessPair) -> Option<Side>
    ensures { MatchOption result (AreEquivalent pair) (λ side. IsAttacked pair side) }
{
    match pair {
        ProcessPair::PublicNames => Some(Side::Left),
        ProcessPair::PrivateNames => None,
        ProcessPair::PublicTest => Some(Side::Left),
        ProcessPair::PrivateTest => None,
        ProcessPair::OneOfTwo => Some(Side::Right),
        ProcessPair::TwoChannels => Some(Side::Left),
    }
}
