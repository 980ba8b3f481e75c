//! A journal that time goes by in.

ghost use Rattle.std.specs.Prelude.{◌≡◌, ◌∷◌, [], IfOk};
ghost use Rattle.terms.specs.Parties.{party_number};
ghost use Rattle.protocol.specs.System.Trace.Entry.{Tick};

use crate::clusters::config_of;
use crate::left::{Call, Outcome, Tally, assert_right, under_each_size};
use events::{Config, Entry, EntryKind};
use journal::{AppendFault, Journal, Naming, Share};
use std::alloc::Global;
use std::marker::Brand;
use std::rt::Files;
use terms::{NoMemory, Party};

// More entries than are appended.
const LIMIT: u32 = 1024;

const CRUMBS: usize = 256;

const CRUMB: usize = 48;

// Time goes by at one party.
#[derive(Drop)]
struct Ticks<'a, N: Naming> {
    journal: &'a mut Journal<N>,
    share: &'a mut Share<N>,
}

impl<N: Naming> Call for Ticks<'_, N> {
    fn call(&mut self, alloc: Global) -> Outcome {
        let len = self.journal.len();
        let (appended, longer) = match ticked(alloc, self.journal, self.share) {
            Ok(()) => (Outcome::Done, 1),
            Err(AppendFault::NoMemory) => (Outcome::Refused, 0),
            Err(AppendFault::JournalFull | AppendFault::NotInJournal) => (Outcome::Wrong, 0),
        };
        if self.journal.len() == len.saturating_add(longer) && self.journal.agrees(self.share) {
            appended
        } else {
            Outcome::Wrong
        }
    }
}

fn ticked<N: Naming>(
    alloc: Global,
    journal: &mut Journal<N>,
    share: &mut Share<N>,
) -> Result<(), AppendFault> {
    let party = share.party();
    share.note_right();
    match tick_of(alloc, party) {
        Ok(entries) => journal.append(share, None, entries),
        Err(NoMemory) => Err(AppendFault::NoMemory),
    }
}

fn tick_of(alloc: Global, party: Party) -> Result<Vec<Entry>, NoMemory>
    ensures { IfOk result (λ entries. entries.items ≡ Tick (party_number party) ∷ []) }
{
    let mut entries = Vec::new(alloc);
    entries.push(Entry::new(EntryKind::Tick(party)))?;
    Ok(entries)
}

fn tally_with<N: Naming, R: Files>(
    rt: &R,
    alloc: Global,
    journal: &mut Journal<N>,
    shares: &mut [Share<N>],
) -> Option<Tally> {
    match shares.last_mut() {
        Some(share) => {
            let mut ticks = Ticks { journal, share };
            under_each_size(rt, alloc, CRUMBS, CRUMB, &mut ticks)
        }
        None => Tally::unprepared(),
    }
}

fn tally_of<N: Naming, R: Files>(rt: &R, alloc: Global, config: &Config) -> Option<Tally>
    requires config { config.now ≡ N.config }
{
    match Journal::<N>::new(alloc, config, LIMIT) {
        Ok((mut journal, mut shares, _orders)) => {
            tally_with(rt, alloc, &mut journal, shares.as_mut_slice())
        }
        Err(_) => Tally::unprepared(),
    }
}

fn appends<R: Files>(rt: &R, alloc: Global) -> Option<Tally> {
    match config_of(alloc) {
        Ok(config) => tally_of::<Brand, R>(rt, alloc, &config),
        Err(_) => Tally::unprepared(),
    }
}

#[test]
fn appends_under_each_size(rt: HostRuntime) {
    assert_right(&rt, appends(&rt, rt.alloc()));
}
