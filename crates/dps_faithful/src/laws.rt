//! The laws of the tree's nodes. Each function does nothing: its contract is the law.
ghost use Rattle.dps_faithful.specs.Laws.{ScenesAreValid, SplitsGiveToOne, PartitionsKeepInvariant, PartitionsPart};
ghost use Rattle.dps_faithful.specs.Laws.{FirstKidsComeFromNodes, FirstKidsInheritMeaning};
ghost use Rattle.dps_faithful.specs.Laws.{FirstKidsKeepInvariant, SecondKidsKeepInvariant};
ghost use Rattle.dps_faithful.specs.Laws.{RecordingKeepsSolutions, NewEntriesKeepSolutions, HandlesKeepSolutions};

/// The scenes of a node that keeps the invariant are valid.
pub fn scenes_are_valid()
    ensures { ScenesAreValid }
{}

/// A split gives each solution of a node to just one of its kids, with the same word and instances.
pub fn splits_give_to_one()
    ensures { SplitsGiveToOne }
{}

/// Each solution of the first kid of a split is one of the node, with the same word and instances.
pub fn first_kids_come_from_nodes()
    ensures { FirstKidsComeFromNodes }
{}

/// What the invariant says of what configurations become passes to the first kid of a split.
pub fn first_kids_inherit_meaning()
    ensures { FirstKidsInheritMeaning }
{}

/// The first kid of a split keeps the invariant.
pub fn first_kids_keep_invariant()
    ensures { FirstKidsKeepInvariant }
{}

/// The second kid of a split keeps the invariant.
pub fn second_kids_keep_invariant()
    ensures { SecondKidsKeepInvariant }
{}

/// The kids of a partition keep the invariant.
pub fn partitions_keep_invariant()
    ensures { PartitionsKeepInvariant }
{}

/// The kids of a partition have the node's solutions and word, and between them its instances.
pub fn partitions_part()
    ensures { PartitionsPart }
{}

/// A composition that is recorded leaves the solutions of a node as they are.
pub fn recording_keeps_solutions()
    ensures { RecordingKeepsSolutions }
{}

/// A new entry leaves the solutions of a node as they are.
pub fn new_entries_keep_solutions()
    ensures { NewEntriesKeepSolutions }
{}

/// The tree that is found for a handle leaves them too.
pub fn handles_keep_solutions()
    ensures { HandlesKeepSolutions }
{}
