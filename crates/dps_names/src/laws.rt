//! Laws of the definitions. Each is the contract of a function without a body to speak of.
ghost use Rattle.dps_names.specs.Laws.{ProgramsAreWellFormed, RulesAreCheckable};

/// The rules of a text may be checked as they are.
pub fn rules_are_checkable()
    ensures { RulesAreCheckable }
{}

/// What declarations say is well formed.
pub fn programs_are_well_formed()
    ensures { ProgramsAreWellFormed }
{}
