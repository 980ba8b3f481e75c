//! Timers.

ghost use Rattle.std.specs.Prelude.{◌≡◌, ◌≤◌, ◌*◌, min, List, [], ◌∷◌};
ghost use Rattle.patience.specs.Moments.{shortest};

use crate::standing::{Standing, Wait};
use std::marker::Model;

/// The milliseconds of the first timer.
pub const FIRST: u32 = 2_000;

/// The most milliseconds of a timer: twelve days.
pub const LONGEST: u32 = 1 << 30;

/// With so many timeouts that may cost a signature the shortest timer doubles.
pub const DOUBLES_AFTER: u8 = 4;

/// A timer that begins.
#[derive(Clone, Copy, Debug, PartialEq, Eq, Drop)]
pub struct Timer {
    /// By this number the replica is told that it is over. The first timer has 1.
    pub number: u64,
    pub milliseconds: u32,
}

/// The patience of a replica: which timer runs, what it watches, and how long the next one lasts.
#[derive(Drop)]
pub struct Patience {
    needed: u8,
    is_linked: bool,
    number: u64,
    watched: Option<Wait>,
    lasts: u32,
    costly: u8,
}

impl Model for Patience {
    ghost use Rattle.std.specs.Prelude.{◌≤◌};
    ghost use Rattle.patience.specs.declared.patience.TheConstants.{LONGEST};
    ghost use Rattle.patience.specs.PatienceView.{PatienceData};

    ghost Value = { PatienceData };

    ghost view = { λ p. record {
      needed = p.needed;
      is_linked = p.is_linked;
      number = p.number;
      watched = p.watched;
      lasts = p.lasts;
      costly = p.costly;
    } };

    ghost invariant = { λ p. p.lasts ≤ LONGEST };
}

impl Patience {
    ghost use Rattle.patience.specs.Moments.{Moment, linked};
    ghost use Rattle.patience.specs.PatienceView.{Fits, MayEndEarly, MayBegin, MayEnd};

    /// That of a replica that gets timeouts only while so many others are linked. Until it is told of links, they are.
    pub fn new(needed: u8) -> Patience
        ensures fits { Fits result [] }
        ensures needed { result.needed ≡ needed }
    {
        Patience {
            needed,
            is_linked: true,
            number: 0,
            watched: None,
            lasts: FIRST,
            costly: 0,
        }
    }

    /// Takes note that so many other replicas are linked.
    pub fn links(&mut self, count: u8)
        ensures fits { (past : List Moment) → Fits self.old past → Fits self.new (linked count ∷ past) }
        ensures needed { self.new.needed ≡ self.old.needed }
    {
        self.is_linked = count >= self.needed;
    }

    /// The timer that begins now, if one does. It takes the place of one that runs if the replica came to another view.
    pub fn begins(&mut self, standing: &Standing) -> Option<Timer>
        ensures fits { (past : List Moment) → Fits self.old past → MayBegin past standing.now result self.new }
        ensures needed { self.new.needed ≡ self.old.needed }
    {
        self.end_early(standing);
        if self.watched.is_some() {
            return None;
        }
        let wait = standing.wait()?;
        self.watched = Some(wait);
        self.number = self.number.wrapping_add(1);
        Some(Timer {
            number: self.number,
            milliseconds: self.lasts,
        })
    }

    // Ends the timer that runs, before it is over, if the replica came to another view.
    fn end_early(&mut self, standing: &Standing)
        ensures fits { (past : List Moment) → Fits self.old past → MayEndEarly past standing.now self.new }
        ensures needed { self.new.needed ≡ self.old.needed }
    {
        let Some(wait) = self.watched else {
            return;
        };
        if standing.waits_for(wait) {
            return;
        }
        if standing.view.is_some() {
            self.watched = None;
            self.lasts = twice(self.lasts);
            return;
        }
        if let Wait::View(_) = wait {
            self.watched = None;
        }
    }

    /// Takes note that the timer of this number is over. Gives whether the replica gets a timeout.
    pub fn ends(&mut self, number: u64, standing: &Standing) -> bool
        ensures fits { (past : List Moment) → Fits self.old past
            → MayEnd self.old.needed past number standing.now result self.new }
        ensures needed { self.new.needed ≡ self.old.needed }
    {
        let Some(wait) = self.watched else {
            return false;
        };
        if number != self.number {
            return false;
        }
        self.watched = None;
        if !standing.waits_for(wait) {
            self.lasts = (self.lasts / 2).max(shortest_after(self.costly));
            return false;
        }
        if !self.is_linked {
            return false;
        }
        self.lasts = twice(self.lasts);
        if standing.may_sign() {
            self.costly = self.costly.saturating_add(1);
        }
        true
    }
}

// Twice as many milliseconds, as far as a timer lasts.
fn twice(milliseconds: u32) -> u32
    requires { milliseconds ≤ LONGEST }
    ensures { result ≡ min (2 * milliseconds) LONGEST }
{
    (2 * milliseconds).min(LONGEST)
}

// The fewest milliseconds of a timer after so many timeouts that may cost a signature.
fn shortest_after(costly: u8) -> u32
    ensures { result ≡ shortest costly }
{
    let doublings = (costly / DOUBLES_AFTER).min(20);
    (FIRST << doublings).min(LONGEST)
}
