//! What was synced is read, and damage is none of it.

ghost use Rattle.std.specs.Prelude.{◌≡◌, List, ℕ};
ghost use Rattle.event_log.specs.declared.owner.Owner.{Owner};
ghost use Rattle.event_log.specs.Logs.{Extends, IsDamaged, Keeps, Reads};

/// What a file is read as begins with all events that it keeps. A file is read as one list of events alone.
pub fn kept_events_are_read()
    ensures all { (owner : Owner) (events more : List (List ℕ)) (file : List ℕ) → Keeps owner events file
        → Reads owner file more → Extends events more }
    ensures one { (owner : Owner) (events other : List (List ℕ)) (file : List ℕ) → Reads owner file events
        → Reads owner file other → events ≡ other }
{}

/// A damaged file is read as no events.
pub fn damage_is_not_read()
    ensures { (owner : Owner) (events : List (List ℕ)) (file : List ℕ) → IsDamaged owner file
        → Reads owner file events → ⊥ }
{}
