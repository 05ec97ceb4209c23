//! Verdicts.
use dps_lex::Place;

/// What a text comes to.
#[derive(Drop)]
pub enum Verdict {
    /// The two processes of the problem that the text means are trace equivalent.
    Equivalent,
    /// They are not, and this is the text of a trace of one of them that the other can not match.
    NotEquivalent { trace: String },
    /// The text means no problem, or none that is judged yet: where, and what is printed as the cause.
    Refused { place: Place, cause: String },
}

/// What the rules of a text come to.
#[derive(Drop)]
pub enum TheoryVerdict {
    /// They make an accepted theory. The text writes so many, without those of projections.
    Accepted { rules: u32 },
    /// The text has a fault up to its rules: where, and what is printed as the cause.
    Refused { place: Place, cause: String },
}
