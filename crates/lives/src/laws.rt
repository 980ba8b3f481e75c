//! What went out lasts.

ghost use Rattle.std.specs.Prelude.{List, ℕ, map};
ghost use Rattle.event_log.specs.Logs.{Extends, Keeps, Reads};
ghost use Rattle.event_log.specs.declared.owner.Owner.{Owner};
ghost use Rattle.lives.specs.Events.{Event, logged};
ghost use Rattle.lives.specs.Lives.{HasAll, Lives};

/// The history that a file tells begins with the events that were synced before a crash left it. So it begins with
/// those of each earlier life, and with all events of which anything went out.
pub fn what_went_out_lasts()
    ensures one { (owner : Owner) (synced history : List Event) (file : List ℕ) → Keeps owner (map logged synced) file
        → Reads owner file (map logged history) → Extends synced history }
    ensures all { (owner : Owner) (file : List ℕ) (lives : List (List Event)) (history : List Event)
        → Lives owner file lives → Reads owner file (map logged history) → HasAll lives history }
{}
