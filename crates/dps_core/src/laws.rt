ghost use Rattle.std.specs.Prelude.{ℕ, ◌≤◌, List};
ghost use Rattle.dps_core.specs.declared.event.Event.{Event};
ghost use Rattle.dps_core.specs.Pool.{Pool, Run, start};
ghost use Rattle.dps_core.specs.Facts.{IsSound};

/// Whatever the workers do, each open path is on its way once, and what was dropped is after the best stop.
pub fn facts_stay()
    ensures { (workers : ℕ) → 1 ≤ workers → (events : List Event) (now : Pool) → Run (start workers) events now → IsSound now }
{}
