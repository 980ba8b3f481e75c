//! A replica's ordering, beside its reads.

ghost use Rattle.std.specs.Prelude.{◌≡◌, ◌∷◌, []};
ghost use Rattle.protocol.specs.System.Trace.Entry.{Tick};

use crate::clusters::{answer_of, get, new_config, take_share, tick, tick_entries};
use events::Config;
use journal::{AppendFault, Journal, Naming, Opened, OrderShare, Share};
use std::alloc::Global;
use std::marker::Brand;
use std::test::Fail;
use terms::NoMemory;

// The marks of a read-only request, on bytes that spell none.
static READ: [u8; 16] = *b"\0\0\0\0\x41\0\0\0\0\0\0\0\0\0\0\x01";

// A replica.
#[derive(Drop)]
struct ReplicaShares<N: Naming> {
    share: Share<N>,
    order: OrderShare<N>,
}

// The replica of the last number.
fn last_replica_shares<N: Naming>(
    shares: Vec<Share<N>>,
    orders: &mut Vec<OrderShare<N>>,
) -> Option<ReplicaShares<N>> {
    let order = orders.pop()?;
    let share = take_share(shares, order.party().number())?;
    Some(ReplicaShares { share, order })
}

// Time goes by at the ordering thread of the share's replica.
fn tick_by<N: Naming>(
    alloc: Global,
    journal: &mut Journal<N>,
    share: &mut Share<N>,
    order: &mut OrderShare<N>,
) -> Result<Result<(), AppendFault>, NoMemory> {
    let party = share.party();
    share.note_right();
    answer_of(journal.append_order(share, order, None, tick_entries(alloc, party)?))
}

fn tick_order<N: Naming>(
    alloc: Global,
    journal: &mut Journal<N>,
    replica_shares: &mut ReplicaShares<N>,
) -> Result<Result<(), AppendFault>, NoMemory> {
    tick_by(
        alloc,
        journal,
        &mut replica_shares.share,
        &mut replica_shares.order,
    )
}

// A read stands only in the journal and in the share, and the next ordering event goes on. An ordering event that
// came by `append` leaves the share of ordering out of step.
fn orders_beside_reads<N: Naming>(
    alloc: Global,
    journal: &mut Journal<N>,
    replica_shares: &mut ReplicaShares<N>,
) -> Result<bool, Fail> {
    Ok(
        tick_order(alloc, journal, replica_shares)?.is_ok()
            && get(alloc, journal, &mut replica_shares.share, None, &READ)?.is_ok()
            && tick_order(alloc, journal, replica_shares)?.is_ok()
            && replica_shares.share.history().len() == 3
            && replica_shares.order.history().len() == 2
            && tick(alloc, journal, &mut replica_shares.share)?.is_ok()
            && tick_order(alloc, journal, replica_shares)?.err() == Some(AppendFault::NotInJournal)
            && journal.len() == 4,
    )
}

fn is_last_ordered<N: Naming>(
    alloc: Global,
    journal: &mut Journal<N>,
    shares: Vec<Share<N>>,
    orders: &mut Vec<OrderShare<N>>,
) -> Result<bool, Fail> {
    match last_replica_shares(shares, orders) {
        Some(mut replica_shares) => {
            let is_right = orders_beside_reads(alloc, journal, &mut replica_shares);
            drop(replica_shares);
            is_right
        }
        None => Err(Fail::new("no replica_shares")),
    }
}

fn is_ordered<N: Naming>(alloc: Global, config: &Config) -> Result<bool, Fail>
    requires config { config.now ≡ N.config }
{
    let (mut journal, shares, mut orders) = Journal::<N>::new(alloc, config, 9)?;
    let is_right = is_last_ordered(alloc, &mut journal, shares, &mut orders);
    drop(orders);
    drop(journal);
    is_right
}

fn is_ordered_tied<N: Naming>(alloc: Global, opened: Opened, config: &Config) -> Result<bool, Fail>
    requires config { config.now ≡ N.config }
    requires book { opened ≡ N.book }
{
    let (mut journal, shares, mut orders) = Journal::<N>::tied(alloc, opened, config, 9)?;
    let is_right = is_last_ordered(alloc, &mut journal, shares, &mut orders);
    drop(orders);
    drop(journal);
    is_right
}

#[test]
fn reads_stand_beside(rt: HostRuntime) -> Result<(), Fail> {
    let config = new_config(rt.alloc(), Vec::new(rt.alloc()))?;
    assert!(rt; is_ordered::<Brand>(rt.alloc(), &config)?);
    Ok(())
}

#[test]
fn reads_stand_beside_where_tied(rt: HostRuntime) -> Result<(), Fail> {
    let config = new_config(rt.alloc(), Vec::new(rt.alloc()))?;
    assert!(rt; is_ordered_tied::<Brand>(rt.alloc(), Opened::new(), &config)?);
    Ok(())
}

// Whether the ordering differs from the share, and has so many entries.
fn is_apart<N: Naming>(
    alloc: Global,
    journal: &mut Journal<N>,
    share: &mut Share<N>,
    order: &mut OrderShare<N>,
    len: usize,
) -> Result<bool, NoMemory> {
    let taken = tick_by(alloc, journal, share, order)?;
    Ok(taken.err() == Some(AppendFault::NotInJournal) && order.history().len() == len)
}

// An empty ordering of the same replica.
fn is_empty_apart<N: Naming>(
    alloc: Global,
    journal: &mut Journal<N>,
    share: &mut Share<N>,
    order: &OrderShare<N>,
) -> Result<bool, NoMemory> {
    let mut empty = OrderShare::empty(alloc, order.party());
    is_apart(alloc, journal, share, &mut empty, 0)
}

// One that was taken away and an empty one differ from the share; the right one, which was kept, is taken again.
fn goes_on_with<N: Naming>(
    alloc: Global,
    journal: &mut Journal<N>,
    replica_shares: &mut ReplicaShares<N>,
    kept: &mut OrderShare<N>,
) -> Result<bool, Fail> {
    Ok(
        tick_order(alloc, journal, replica_shares)?.err() == Some(AppendFault::NotInJournal)
            && is_empty_apart(alloc, journal, &mut replica_shares.share, kept)?
            && tick_by(alloc, journal, &mut replica_shares.share, kept)?.is_ok()
            && kept.history().len() == 2
            && journal.len() == 2,
    )
}

// And so does the ordering of another replica.
fn is_refused_apart<N: Naming>(
    alloc: Global,
    journal: &mut Journal<N>,
    replica_shares: &mut ReplicaShares<N>,
    other: &mut OrderShare<N>,
) -> Result<bool, Fail> {
    if !is_apart(alloc, journal, &mut replica_shares.share, other, 0)?
        || tick_order(alloc, journal, replica_shares)?.is_err()
    {
        return Ok(false);
    }
    let mut kept = replica_shares.order.take(alloc);
    let is_right = goes_on_with(alloc, journal, replica_shares, &mut kept);
    drop(kept);
    is_right
}

fn is_other_refused<N: Naming>(
    alloc: Global,
    journal: &mut Journal<N>,
    replica_shares: &mut ReplicaShares<N>,
    orders: &mut Vec<OrderShare<N>>,
) -> Result<bool, Fail> {
    match orders.pop() {
        Some(mut other) => {
            let is_right = is_refused_apart(alloc, journal, replica_shares, &mut other);
            drop(other);
            is_right
        }
        None => Err(Fail::new("no other order")),
    }
}

fn is_last_compared<N: Naming>(
    alloc: Global,
    journal: &mut Journal<N>,
    shares: Vec<Share<N>>,
    orders: &mut Vec<OrderShare<N>>,
) -> Result<bool, Fail> {
    match last_replica_shares(shares, orders) {
        Some(mut replica_shares) => {
            let is_right = is_other_refused(alloc, journal, &mut replica_shares, orders);
            drop(replica_shares);
            is_right
        }
        None => Err(Fail::new("no replica_shares")),
    }
}

fn is_compared<N: Naming>(alloc: Global, opened: Opened, config: &Config) -> Result<bool, Fail>
    requires config { config.now ≡ N.config }
    requires book { opened ≡ N.book }
{
    let (mut journal, shares, mut orders) = Journal::<N>::tied(alloc, opened, config, 9)?;
    let is_right = is_last_compared(alloc, &mut journal, shares, &mut orders);
    drop(orders);
    drop(journal);
    is_right
}

#[test]
fn orderings_are_compared(rt: HostRuntime) -> Result<(), Fail> {
    let config = new_config(rt.alloc(), Vec::new(rt.alloc()))?;
    assert!(rt; is_compared::<Brand>(rt.alloc(), Opened::new(), &config)?);
    Ok(())
}
