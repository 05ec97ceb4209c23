//! The law of answers. The function does nothing: its contract is the law.
ghost use Rattle.dps_static.specs.Answer.{AnswersDecide};

/// A right answer is `Same` exactly where the frames are statically equivalent.
pub fn answers_decide()
    ensures { AnswersDecide }
{}
