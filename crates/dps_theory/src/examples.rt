//! Small theories, terms and frames with symmetric encryption, and what holds of them: each answer is proved.
ghost use Rattle.std.specs.Prelude.{MatchBool, MatchOption};
ghost use Rattle.dps_theory.specs.Theory.{IsAccepted};
ghost use Rattle.dps_theory.specs.Evaluation.{Evaluates, IsMessage};
ghost use Rattle.dps_theory.specs.Frames.{AreStaticallyEquivalent, AreToldApart};
ghost use Rattle.dps_theory.specs.Examples.{signature, theory, rules_of, computed_under, term_of, value_of, first_of, second_of};

/// A rule list.
#[derive(Clone, Copy, Debug, PartialEq, Eq)]
pub enum RuleList {
    /// `sdec(senc(x,y),y) -> x`.
    Decryption,
    /// `sdec(x,y) -> x` and `sdec(a,y) -> b`: two results for `sdec(a,y)`.
    Overlap,
    /// `sdec(senc(x,y),y) -> x` and `sdec(a,y) -> b`.
    TwoRules,
    /// `sdec(x,y) -> a`.
    GroundRight,
    /// `sdec(x,y) -> senc(x,y)`.
    LargerRight,
    /// `senc(x,y) -> x`.
    ConstructorRoot,
    /// `sdec(x) -> x`: the symbol has two arguments.
    RootArity,
    /// `sdec(sdec(x,y),y) -> x`.
    InnerDestructor,
    /// `sdec(x,y) -> sdec(a,b)`.
    RightDestructor,
}

/// A term over the names `a` and `b`, under the rule of decryption where no other is told.
#[derive(Clone, Copy, Debug, PartialEq, Eq)]
pub enum Computation {
    /// `sdec(senc(a,b),b)`.
    RightKey,
    /// `sdec(senc(a,b),a)`.
    WrongKey,
    /// `sdec(a,b)`.
    NoCiphertext,
    /// `senc(sdec(a,b),b)`.
    BelowConstructor,
    /// `sdec(senc(a,sdec(senc(b,a),a)),b)`.
    NestedKey,
    /// `sdec(a,b)` under the rules `TwoRules`.
    SecondRule,
    /// A rigid name.
    RigidName,
    /// `ax1`.
    Handle,
    /// A variable.
    Variable,
}

/// The name that a term evaluates to.
#[derive(Clone, Copy, Debug, PartialEq, Eq)]
pub enum Name {
    /// `a`.
    A,
    /// `b`.
    B,
    /// The rigid name.
    Rigid,
}

/// Two frames; `k`, `m` and `n` are private names.
#[derive(Clone, Copy, Debug, PartialEq, Eq)]
pub enum FramePair {
    /// `k; k` and `k; n`.
    Repetition,
    /// `senc(a,k)` and `senc(b,k)`: the key is kept.
    KeptKey,
    /// `senc(a,k); k` and `senc(b,k); k`: the key is told.
    ToldKey,
    /// `senc(n,k); k` and `m; k`: only a ciphertext is opened.
    Ciphertext,
    /// No message and `k`: the second has one more.
    OneMore,
}

/// Whether the rules make an accepted theory.
pub fn is_accepted(list: RuleList) -> bool
    ensures { MatchBool result (IsAccepted (rules_of list)) (¬ IsAccepted (rules_of list)) }
{
    match list {
        RuleList::Decryption => true,
        RuleList::Overlap => false,
        RuleList::TwoRules => true,
        RuleList::GroundRight => true,
        RuleList::LargerRight => false,
        RuleList::ConstructorRoot => false,
        RuleList::RootArity => false,
        RuleList::InnerDestructor => false,
        RuleList::RightDestructor => false,
    }
}

/// What the term evaluates to, and `None` where it is no message.
pub fn value(term: Computation) -> Option<Name>
    ensures { MatchOption result (¬ IsMessage (computed_under term) (term_of term)) (λ v. Evaluates (computed_under term) (term_of term) (value_of v)) }
{
    match term {
        Computation::RightKey => Some(Name::A),
        Computation::WrongKey => None,
        Computation::NoCiphertext => None,
        Computation::BelowConstructor => None,
        Computation::NestedKey => Some(Name::A),
        Computation::SecondRule => Some(Name::B),
        Computation::RigidName => Some(Name::Rigid),
        Computation::Handle => None,
        Computation::Variable => None,
    }
}

/// Whether some test tells the frames apart; where none does, they are statically equivalent.
pub fn are_told_apart(pair: FramePair) -> bool
    ensures { MatchBool result (AreToldApart signature theory (first_of pair) (second_of pair)) (AreStaticallyEquivalent signature theory (first_of pair) (second_of pair)) }
{
    match pair {
        FramePair::Repetition => true,
        FramePair::KeptKey => false,
        FramePair::ToldKey => true,
        FramePair::Ciphertext => true,
        FramePair::OneMore => true,
    }
}
