//! The shares of a new journal.

ghost use Rattle.std.specs.Prelude.{◌≡◌, ◌-◌, ◌<◌, [], ◌∷◌, map, IfOk, IfSome};
ghost use Rattle.std.specs.List.{range_with_len};
ghost use Rattle.journal.specs.Comparing.{AddsShares};
ghost use Rattle.journal.specs.Histories.{correct_parties, correct_replicas};
ghost use Rattle.journal.specs.Parts.{fresh};

use crate::carrying::is_correct;
use crate::front::{Front, again};
use crate::naming::Naming;
use crate::order_share::OrderShare;
use crate::parties::party;
use crate::share::Share;
use events::Config;
use std::alloc::Global;
use terms::{FIRST_CLIENT, NoMemory};

/// A share for each correct party, tied to an empty journal.
pub(crate) fn new_shares<N: Naming>(
    alloc: Global,
    config: &Config,
    seen: &Option<Front<N>>,
) -> Result<Vec<Share<N>>, NoMemory>
    requires config { config.now ≡ N.config }
    requires seen { IfSome seen.now (λ front. front ≡ []) }
    ensures { IfOk result (λ shares. shares.items ≡ map fresh (correct_parties config.now)) }
{
    let mut shares = Vec::new(alloc);
    let replicas = u16::from(config.replicas());
    add_shares(alloc, config, seen, 0, replicas, &mut shares)?;
    let end = FIRST_CLIENT + config.clients();
    add_shares(alloc, config, seen, FIRST_CLIENT, end, &mut shares)?;
    Ok(shares)
}

/// A share of ordering for each correct replica.
pub(crate) fn new_order_shares<N: Naming>(
    alloc: Global,
    config: &Config,
    seen: &Option<Front<N>>,
) -> Result<Vec<OrderShare<N>>, NoMemory>
    requires config { config.now ≡ N.config }
    requires seen { IfSome seen.now (λ front. front ≡ []) }
    ensures { IfOk result (λ shares. shares.items ≡ map fresh (correct_replicas config.now)) }
{
    let mut shares = Vec::new(alloc);
    for number in 0..u16::from(config.replicas()) {
        add_order_share(alloc, config, seen, number, &mut shares)?;
    }
    Ok(shares)
}

// Adds a share for each correct party from one number up to another.
fn add_shares<N: Naming>(
    alloc: Global,
    config: &Config,
    seen: &Option<Front<N>>,
    from: u16,
    to: u16,
    shares: &mut Vec<Share<N>>,
) -> Result<(), NoMemory>
    requires config { config.now ≡ N.config }
    requires seen { IfSome seen.now (λ front. front ≡ []) }
    ensures { AddsShares config.now (range_with_len from (to - from)) shares.old.items shares.new.items result }
{
    for number in from..to {
        add_share(alloc, config, seen, number, shares)?;
    }
    Ok(())
}

fn add_share<N: Naming>(
    alloc: Global,
    config: &Config,
    seen: &Option<Front<N>>,
    number: u16,
    shares: &mut Vec<Share<N>>,
) -> Result<(), NoMemory>
    requires config { config.now ≡ N.config }
    requires seen { IfSome seen.now (λ front. front ≡ []) }
    ensures { AddsShares config.now (number ∷ []) shares.old.items shares.new.items result }
{
    if is_correct(config, number) {
        shares.push(Share::new(alloc, party(number), again(seen)))?;
    }
    Ok(())
}

fn add_order_share<N: Naming>(
    alloc: Global,
    config: &Config,
    seen: &Option<Front<N>>,
    number: u16,
    shares: &mut Vec<OrderShare<N>>,
) -> Result<(), NoMemory>
    requires config { config.now ≡ N.config }
    requires replica { number < FIRST_CLIENT }
    requires seen { IfSome seen.now (λ front. front ≡ []) }
    ensures { AddsShares config.now (number ∷ []) shares.old.items shares.new.items result }
{
    if is_correct(config, number) {
        shares.push(OrderShare::new(alloc, party(number), again(seen)))?;
    }
    Ok(())
}
