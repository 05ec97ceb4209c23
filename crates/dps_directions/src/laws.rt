//! The laws of listed solutions. Each function does nothing: its contract is the law.
ghost use Rattle.dps_directions.specs.Laws.{ValuationsAreThere, ScenesUnderBindings};
ghost use Rattle.dps_directions.specs.Laws.{FirstDirection, SecondDirection, ThirdDirection, EmptyLists, OwnNames};
ghost use Rattle.dps_directions.specs.Laws.{PlainSolutions, PlainIdentities, PlainTerms, ExcludedBindings, FirstAnswers};
ghost use Rattle.dps_directions.specs.Laws.{LowBindings, NoRigidNames, OverSignatures, BindingsOfLevels};
ghost use Rattle.dps_directions.specs.Laws.{PartsOfChoices, NewVariables};

/// Under a choice the entries have exactly one list of values, and so they have under bindings.
pub fn valuations_are_there()
    ensures { ValuationsAreThere }
{}

/// A choice of a scene that bindings leave is, with the bindings, a choice of the scene itself, with the same values.
pub fn scenes_under_bindings()
    ensures { ScenesUnderBindings }
{}

/// What becomes of a listed solution under an assignment is a choice, and meets the ask by the listed answers.
pub fn first_direction()
    ensures { FirstDirection }
{}

/// Each solution that meets the ask is an instance of a listed one, by normal trees.
pub fn second_direction()
    ensures { SecondDirection }
{}

/// In a sharp scene a solution that meets the ask by normal trees is an instance of a listed one whose answers become
/// just these trees.
pub fn third_direction()
    ensures { ThirdDirection }
{}

/// The search lists nothing exactly where no solution meets the ask.
pub fn empty_lists()
    ensures { EmptyLists }
{}

/// Names of the attacker that stand nowhere in a valid scene are a solution, one for each variable.
pub fn own_names()
    ensures { OwnNames }
{}

/// A listed solution is plain exactly where no variable of the scene is bound in values.
pub fn plain_solutions()
    ensures { PlainSolutions }
{}

/// Where the ask holds no variable of a rule, a plain solution binds nothing, and its answers hold the scene's variables
/// alone.
pub fn plain_identities()
    ensures { PlainIdentities }
{}

/// Where equations are solved in turn, a plain solution puts terms over the scene's variables for those of rules.
pub fn plain_terms()
    ensures { PlainTerms }
{}

/// A disequation that excludes the bindings of a listed solution which is not plain is not matched.
pub fn excluded_bindings()
    ensures { ExcludedBindings }
{}

/// Where the ask holds no variable of a rule and the first solution is plain, no entry has the value of a composed part
/// of its answers, under any solution.
pub fn first_answers()
    ensures { FirstAnswers }
{}

/// Where all variables have smaller levels than the frame's length, no binding holds a rigid name.
pub fn low_bindings()
    ensures { LowBindings }
{}

/// Where the values of entries and the ask hold no rigid name, no listed solution holds one.
pub fn no_rigid_names()
    ensures { NoRigidNames }
{}

/// A new variable that a variable of the scene is bound to has a smaller level: it stands in the binding of such a one.
pub fn new_variables()
    ensures { NewVariables }
{}

/// Where the values of entries and the ask are over a signature, so is each listed solution.
pub fn over_signatures()
    ensures { OverSignatures }
{}

/// Bindings are trees of at most the levels of what they are bound to.
pub fn bindings_of_levels()
    ensures { BindingsOfLevels }
{}

/// What makes bindings a choice has at most their levels, and is normal where the choice is.
pub fn parts_of_choices()
    ensures { PartsOfChoices }
{}
