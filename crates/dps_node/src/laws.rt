//! The laws of questions and of the tree. Each function does nothing: its contract is the law.
ghost use Rattle.dps_node.specs.Laws.{ExpansionsTakeOneCount};
ghost use Rattle.dps_node.specs.Mixing.{MeetingsAreThose};
ghost use Rattle.dps_node.specs.Pruning.{PrunedCasesAnswerAlike, ThinnedAnswerAlike, ThinnedReplyAlike};
ghost use Rattle.dps_node.specs.Truth.{TrueHolds, FalseHoldsNever, OpenIsNotPlain, TestTells, EvalTells, EqualTells, SuccessTells, TreeFalse, CompositionFalse, TreeTrue, EvalIsKnown};
ghost use Rattle.dps_terms.specs.Kinds.{NoRigidName};
ghost use Rattle.dps_solver.specs.Levels.{AnyRigidName};

/// Cases that never hold may be left out of a question.
pub fn pruned_cases_answer_alike()
    ensures { PrunedCasesAnswerAlike }
{}

/// Asks that nothing solves may be left out of a question.
pub fn thinned_answer_alike()
    ensures { ThinnedAnswerAlike }
{}

/// They may be left out of questions that are asked in turn.
pub fn thinned_reply_alike()
    ensures { ThinnedReplyAlike }
{}

/// A true question holds under each solution.
pub fn true_holds()
    ensures { TrueHolds NoRigidName × TrueHolds AnyRigidName }
{}

/// A false question holds under none.
pub fn false_holds_never()
    ensures { FalseHoldsNever NoRigidName × FalseHoldsNever AnyRigidName }
{}

/// What divides is not plain.
pub fn open_is_not_plain()
    ensures { OpenIsNotPlain }
{}

/// A test that is decided tells whether the terms evaluate to one value.
pub fn test_tells()
    ensures { TestTells NoRigidName × TestTells AnyRigidName }
{}

/// An evaluation that is decided tells what the term evaluates to.
pub fn eval_tells()
    ensures { EvalTells NoRigidName × EvalTells AnyRigidName }
{}

/// An equality that is decided tells whether the terms have one value.
pub fn equal_tells()
    ensures { EqualTells NoRigidName × EqualTells AnyRigidName }
{}

/// Where no tree is found there is none.
pub fn tree_false()
    ensures { TreeFalse NoRigidName × TreeFalse AnyRigidName }
{}

/// The success of a destructor that is decided tells what it computes.
pub fn success_tells()
    ensures { SuccessTells NoRigidName × SuccessTells AnyRigidName }
{}

/// Where no composed tree is found there is none.
pub fn composition_false()
    ensures { CompositionFalse NoRigidName × CompositionFalse AnyRigidName }
{}

/// The tree that is found is over the node's variables and has the value.
pub fn tree_true()
    ensures { TreeTrue NoRigidName × TreeTrue AnyRigidName }
{}

/// What an evaluation finds is over the node's variables.
pub fn eval_is_known()
    ensures { EvalIsKnown NoRigidName × EvalIsKnown AnyRigidName }
{}

/// Each expansion of a node takes the same number of steps.
pub fn expansions_take_one_count()
    ensures { ExpansionsTakeOneCount }
{}

/// Parts are joined on just the channels on which the model lets them communicate unseen.
pub fn meetings_are_those()
    ensures { MeetingsAreThose }
{}
