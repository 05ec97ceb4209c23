//! Tests and bindings with symmetric encryption, and which branch they take: each answer is proved.
ghost use Rattle.std.specs.Prelude.{MatchBool};
ghost use Rattle.dps_examples.specs.Examples.{TakesFirst, TakesSecond};

/// A process of two branches over the names `a` and `b`.
#[derive(Clone, Copy, Debug, PartialEq, Eq)]
pub enum Branching {
    /// `if a = a then .. else ..`
    SameNames,
    /// `if a = b then .. else ..`
    DifferentNames,
    /// `if sdec(a,b) = sdec(a,b) then .. else ..`: both sides fail.
    SameFailure,
    /// `if sdec(senc(a,b),b) = a then .. else ..`
    SameValue,
    /// `if a = sdec(senc(a,b),b) then .. else ..`
    ValueOnTheRight,
    /// `if sdec(a,b) = a then .. else ..`: one side fails.
    LeftFailure,
    /// `if a = sdec(a,b) then .. else ..`
    RightFailure,
    /// `let x = sdec(senc(a,b),b) in .. else ..`
    BoundValue,
    /// `let x = sdec(a,b) in .. else ..`
    BoundFailure,
}

/// Whether the first branch is the only one that can be taken. If not, the second is.
pub fn takes_first(branching: Branching) -> bool
    ensures { MatchBool result (TakesFirst branching) (TakesSecond branching) }
{
    match branching {
        Branching::SameNames => true,
        Branching::DifferentNames => false,
        Branching::SameFailure => false,
        Branching::SameValue => true,
        Branching::ValueOnTheRight => true,
        Branching::LeftFailure => false,
        Branching::RightFailure => false,
        Branching::BoundValue => true,
        Branching::BoundFailure => false,
    }
}
