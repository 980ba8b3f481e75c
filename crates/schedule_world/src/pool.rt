//! The frames that were made.

ghost use Rattle.std.specs.Prelude.{◌≡◌, ◌≤◌, [], map, length, All, MatchOption, OnOk, OnErr};
ghost use Rattle.terms.specs.Parties.{party_number};
ghost use Rattle.schedule_world.specs.Pooled.{HasBytes, IsFirstWaiting, IsServed, added, noted, numbers_without};

use events::SharedBytes;
use std::alloc::Global;
use std::marker::Model;
use terms::{NoMemory, Party};

// A frame that was made, and the correct receivers that didn't get it yet, ascending.
#[derive(Drop)]
struct Made {
    bytes: SharedBytes,
    waiting: Vec<Party>,
}

/// The frames that were made, in order, and who waits for them.
#[derive(Drop)]
pub(crate) struct Pool {
    frames: Vec<Made>,
    /// Nobody waits for the frames before this one.
    first: usize,
}

impl Model for Pool {
    ghost use Rattle.std.specs.Prelude.{◌≤◌, List, length};
    ghost use Rattle.schedule_world.specs.Pooled.{Frame, AreServed};

    ghost Value = { List Frame };

    ghost use Rattle.schedule_world.specs.PoolView.{frames_in_pool};

    ghost view = { frames_in_pool };

    ghost invariant = { λ p. (p.first ≤ length p.frames.items) × AreServed (frames_in_pool p) p.first };
}

impl Pool {
    /// No frames.
    pub(crate) fn new(alloc: Global) -> Pool
        ensures { result ≡ [] }
    {
        Pool {
            frames: Vec::new(alloc),
            first: 0,
        }
    }

    /// Adds a frame for these correct receivers, which ascend. An `Err` adds none.
    pub(crate) fn add(&mut self, bytes: SharedBytes, waiting: Vec<Party>) -> Result<(), NoMemory>
        ensures ok { OnOk result (self.new ≡ added self.old bytes (map party_number waiting.items)) }
        ensures err { OnErr result (self.new ≡ self.old) }
    {
        self.frames.push(Made { bytes, waiting })?;
        Ok(())
    }

    /// The bytes of the frame of this number, from 0, if it was made.
    pub(crate) fn bytes(&self, frame: usize) -> Option<&SharedBytes>
        ensures { MatchOption result (length self.now ≤ frame) (λ bytes. HasBytes self.now frame bytes.now) }
    {
        Some(&self.frames.get(frame)?.bytes)
    }

    /// The party no longer waits for the frame.
    pub(crate) fn note_delivered(&mut self, frame: usize, party: Party)
        ensures { self.new ≡ noted self.old frame (party_number party) }
    {
        if let Some(made) = self.frames.get_mut(frame) {
            forget(&mut made.waiting, party);
        }
    }

    /// The first frame that a party waits for, and the first party that does.
    pub(crate) fn next(&mut self) -> Option<(usize, Party)>
        ensures kept { self.new ≡ self.old }
        ensures next { MatchOption result (All IsServed self.old)
            (λ n. IsFirstWaiting self.old n.0 (party_number n.1)) }
    {
        while self.first < self.frames.len() {
            if let Some(party) = self.frames[self.first].waiting.first() {
                return Some((self.first, *party));
            }
            self.first += 1;
        }
        None
    }
}

fn forget(waiting: &mut Vec<Party>, party: Party)
    ensures { map party_number waiting.new.items
        ≡ numbers_without (party_number party) (map party_number waiting.old.items) }
{
    let number = party.number();
    waiting.retain(|other| other.number() != number);
}
