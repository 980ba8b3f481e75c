//! The events that a journal takes, and that a refusal changes nothing.

ghost use Rattle.std.specs.Prelude.{◌≡◌};

use crate::clusters::{begun, begun_tied, call, new_config, take_share, tick};
use events::Config;
use journal::{AppendFault, Journal, Naming, Opened, Share};
use std::alloc::Global;
use std::marker::Brand;
use std::test::Fail;
use terms::NoMemory;

// Two clients.
#[derive(Drop)]
struct Pair<N: Naming> {
    first: Share<N>,
    second: Share<N>,
}

fn pair_of<N: Naming>(mut shares: Vec<Share<N>>) -> Option<Pair<N>> {
    let second = shares.pop()?;
    let first = shares.pop()?;
    Some(Pair { first, second })
}

fn is_taken<N: Naming>(
    alloc: Global,
    journal: &mut Journal<N>,
    share: &mut Share<N>,
) -> Result<bool, NoMemory> {
    Ok(tick(alloc, journal, share)?.is_ok())
}

// A journal of limit 3 takes 2 entries, refuses 2 more and still holds 2. One more has room.
fn takes_three<N: Naming>(
    alloc: Global,
    config: &Config,
    journal: &mut Journal<N>,
    pair: &mut Pair<N>,
) -> Result<bool, Fail>
    requires config { config.now ≡ N.config }
    requires faults { config.now.faults ≡ 1 }
{
    Ok(
        call(alloc, config, journal, &mut pair.first)?.is_ok()
            && journal.len() == 2
            && call(alloc, config, journal, &mut pair.second)?.err()
                == Some(AppendFault::JournalFull)
            && journal.len() == 2
            && is_taken(alloc, journal, &mut pair.second)?
            && journal.len() == 3,
    )
}

fn takes_three_and_agrees<N: Naming>(
    alloc: Global,
    config: &Config,
    journal: &mut Journal<N>,
    pair: &mut Pair<N>,
) -> Result<bool, Fail>
    requires config { config.now ≡ N.config }
    requires faults { config.now.faults ≡ 1 }
{
    Ok(
        takes_three(alloc, config, journal, pair)?
            && journal.agrees(&pair.first)
            && journal.agrees(&pair.second),
    )
}

fn is_filled<N: Naming>(
    alloc: Global,
    config: &Config,
    journal: &mut Journal<N>,
    shares: Vec<Share<N>>,
) -> Result<bool, Fail>
    requires config { config.now ≡ N.config }
    requires faults { config.now.faults ≡ 1 }
{
    match pair_of(shares) {
        Some(mut pair) => {
            let is_right = takes_three_and_agrees(alloc, config, journal, &mut pair);
            drop(pair);
            is_right
        }
        None => Err(Fail::new("no shares")),
    }
}

// Whether a trace of so many entries is taken away.
fn gives_trace<N: Naming>(alloc: Global, journal: &mut Journal<N>, len: usize) -> bool {
    let trace = journal.take(alloc);
    trace.len() == len && journal.len() == 0
}

fn is_full<N: Naming>(alloc: Global, config: &Config) -> Result<bool, Fail>
    requires config { config.now ≡ N.config }
    requires faults { config.now.faults ≡ 1 }
{
    let (mut journal, shares, orders) = Journal::<N>::new(alloc, config, 3)?;
    let counts = (shares.len(), orders.len());
    drop(orders);
    let filled = is_filled(alloc, config, &mut journal, shares);
    let gives = gives_trace(alloc, &mut journal, 3);
    drop(journal);
    Ok(filled? && gives && counts == (6, 4))
}

#[test]
fn a_full_journal_takes_no_more(rt: HostRuntime) -> Result<(), Fail> {
    let config = new_config(rt.alloc(), Vec::new(rt.alloc()))?;
    assert!(rt; is_full::<Brand>(rt.alloc(), &config)?);
    Ok(())
}

// The same of one that is tied.
fn is_full_tied<N: Naming>(alloc: Global, opened: Opened, config: &Config) -> Result<bool, Fail>
    requires config { config.now ≡ N.config }
    requires book { opened ≡ N.book }
    requires faults { config.now.faults ≡ 1 }
{
    let (mut journal, shares, orders) = Journal::<N>::tied(alloc, opened, config, 3)?;
    drop(orders);
    let is_right = is_filled(alloc, config, &mut journal, shares);
    drop(journal);
    is_right
}

#[test]
fn a_tied_journal_is_full_too(rt: HostRuntime) -> Result<(), Fail> {
    let config = new_config(rt.alloc(), Vec::new(rt.alloc()))?;
    assert!(rt; is_full_tied::<Brand>(rt.alloc(), Opened::new(), &config)?);
    Ok(())
}

static LIMITS: [u32; 5] = [0, 1, 2, 3, 10];

fn is_full_for<N: Naming>(
    alloc: Global,
    journal: &mut Journal<N>,
    share: &mut Share<N>,
) -> Result<bool, NoMemory> {
    Ok(tick(alloc, journal, share)?.err() == Some(AppendFault::JournalFull))
}

// A journal takes as many ticks as its limit says, and refuses each more.
fn keeps_limit<N: Naming>(
    alloc: Global,
    journal: &mut Journal<N>,
    share: &mut Share<N>,
    limit: u32,
) -> Result<bool, Fail> {
    for _ in 0..limit {
        if !is_taken(alloc, journal, share)? {
            return Ok(false);
        }
    }
    Ok(
        is_full_for(alloc, journal, share)?
            && is_full_for(alloc, journal, share)?
            && journal.len() == u64::from(limit)
            && journal.agrees(share),
    )
}

fn is_limited<N: Naming>(alloc: Global, config: &Config, limit: u32) -> Result<bool, Fail>
    requires config { config.now ≡ N.config }
{
    let (mut journal, mut share) = begun::<N>(alloc, config, limit, 257)?;
    let is_right = keeps_limit(alloc, &mut journal, &mut share, limit);
    drop(share);
    drop(journal);
    is_right
}

#[test]
fn journals_keep_their_limits(rt: HostRuntime) -> Result<(), Fail> {
    let config = new_config(rt.alloc(), Vec::new(rt.alloc()))?;
    for limit in &LIMITS {
        assert!(rt; is_limited::<Brand>(rt.alloc(), &config, *limit)?);
    }
    Ok(())
}

fn is_out_of_step<N: Naming>(
    alloc: Global,
    journal: &mut Journal<N>,
    share: &mut Share<N>,
) -> Result<bool, NoMemory> {
    Ok(tick(alloc, journal, share)?.err() == Some(AppendFault::NotInJournal))
}

// An empty share of the same party.
fn is_empty_out_of_step<N: Naming>(
    alloc: Global,
    journal: &mut Journal<N>,
    share: &Share<N>,
) -> Result<bool, NoMemory> {
    let mut empty = Share::empty(alloc, share.party());
    is_out_of_step(alloc, journal, &mut empty)
}

// After the trace was taken away, each share that has a history is ahead.
fn is_ahead<N: Naming>(
    alloc: Global,
    journal: &mut Journal<N>,
    share: &mut Share<N>,
) -> Result<bool, NoMemory> {
    Ok(
        gives_trace(alloc, journal, 2)
            && is_out_of_step(alloc, journal, share)?
            && journal.len() == 0,
    )
}

// A share that lags is out of step, and so is one that has nothing. The right share, which was kept, is taken again.
fn goes_on_with<N: Naming>(
    alloc: Global,
    journal: &mut Journal<N>,
    share: &mut Share<N>,
    kept: &mut Share<N>,
) -> Result<bool, Fail> {
    Ok(
        is_out_of_step(alloc, journal, share)?
            && is_empty_out_of_step(alloc, journal, kept)?
            && is_taken(alloc, journal, kept)?
            && !journal.agrees(share)
            && journal.agrees(kept)
            && journal.len() == 2
            && is_ahead(alloc, journal, kept)?,
    )
}

fn is_refused_behind<N: Naming>(
    alloc: Global,
    journal: &mut Journal<N>,
    share: &mut Share<N>,
) -> Result<bool, Fail> {
    if !is_taken(alloc, journal, share)? {
        return Ok(false);
    }
    let mut kept = share.take(alloc);
    let is_right = goes_on_with(alloc, journal, share, &mut kept);
    drop(kept);
    is_right
}

fn is_compared<N: Naming>(alloc: Global, opened: Opened, config: &Config) -> Result<bool, Fail>
    requires config { config.now ≡ N.config }
    requires book { opened ≡ N.book }
{
    let (mut journal, mut share) = begun_tied::<N>(alloc, opened, config, 9, 2)?;
    let is_right = is_refused_behind(alloc, &mut journal, &mut share);
    drop(share);
    drop(journal);
    is_right
}

#[test]
fn shares_are_compared(rt: HostRuntime) -> Result<(), Fail> {
    let config = new_config(rt.alloc(), Vec::new(rt.alloc()))?;
    assert!(rt; is_compared::<Brand>(rt.alloc(), Opened::new(), &config)?);
    Ok(())
}

// If memory runs out nothing has changed, and the next try finds all in step.
fn is_whole_or_unchanged<N: Naming>(
    alloc: Global,
    journal: &mut Journal<N>,
    share: &mut Share<N>,
) -> bool {
    let (len, taken) = match tick(alloc, journal, share) {
        Ok(taken) => (1, taken.is_ok()),
        Err(NoMemory) => (0, true),
    };
    let next = tick(alloc, journal, share);
    taken
        && journal.agrees(share)
        && match next {
            Ok(taken) => taken.is_ok() && journal.len() == len + 1,
            Err(NoMemory) => journal.len() == len,
        }
}

fn is_safe_at<N: Naming>(
    alloc: Global,
    journal: &mut Journal<N>,
    shares: Vec<Share<N>>,
) -> Result<bool, Fail> {
    match take_share(shares, 256) {
        Some(mut share) => {
            let is_right = is_whole_or_unchanged(alloc, journal, &mut share);
            drop(share);
            Ok(is_right)
        }
        None => Err(Fail::new("no share")),
    }
}

fn is_safe<N: Naming>(alloc: Global, opened: Opened, config: &Config) -> Result<bool, Fail>
    requires config { config.now ≡ N.config }
    requires book { opened ≡ N.book }
{
    match Journal::<N>::tied(alloc, opened, config, 9) {
        Ok((mut journal, shares, orders)) => {
            drop(orders);
            let is_right = is_safe_at(alloc, &mut journal, shares);
            drop(journal);
            is_right
        }
        Err(NoMemory) => Ok(true),
    }
}

// `tools/growths` refuses each growth in turn.
#[test]
fn refused_memory(rt: HostRuntime) -> Result<(), Fail> {
    let config = new_config(rt.alloc(), Vec::new(rt.alloc()))?;
    assert!(rt; is_safe::<Brand>(rt.alloc(), Opened::new(), &config)?);
    Ok(())
}
