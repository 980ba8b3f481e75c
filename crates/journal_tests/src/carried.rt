//! Frames that were sent, and others.

ghost use Rattle.std.specs.Prelude.{◌≡◌};

use crate::clusters::{begun, call, first_frame, get, new_config, take_share};
use events::Config;
use journal::{AppendFault, Journal, Naming, Share};
use std::alloc::Global;
use std::marker::Brand;
use std::test::Fail;
use terms::{ClientId, NoMemory};

// A client and a replica.
#[derive(Drop)]
struct Pair<N: Naming> {
    client: Share<N>,
    replica: Share<N>,
}

fn pair_of<N: Naming>(mut shares: Vec<Share<N>>) -> Option<Pair<N>> {
    let client = shares.pop()?;
    let replica = take_share(shares, 1)?;
    Some(Pair { client, replica })
}

fn is_refused<N: Naming>(
    alloc: Global,
    journal: &mut Journal<N>,
    share: &mut Share<N>,
    from: Option<u64>,
    bytes: &[u8],
) -> Result<bool, Fail> {
    let taken = get(alloc, journal, share, from, bytes)?;
    Ok(taken.err() == Some(AppendFault::NotInJournal))
}

// The same of the first frame of this client.
fn is_first_refused<N: Naming>(
    alloc: Global,
    config: &Config,
    journal: &mut Journal<N>,
    share: &mut Share<N>,
    from: Option<u64>,
    client: ClientId,
) -> Result<bool, Fail>
    requires faults { config.now.faults ≡ 1 }
{
    let frame = first_frame(alloc, config, client)?;
    is_refused(alloc, journal, share, from, frame.as_slice())
}

// The positions that are given for the frame of position 1, one after another, and why they are refused.
static SOURCES: [(Option<u64>, Option<AppendFault>); 6] = [
    (None, Some(AppendFault::NotInJournal)),
    (Some(0), Some(AppendFault::NotInJournal)),
    (Some(2), Some(AppendFault::NotInJournal)),
    (Some(1), None),
    (Some(2), Some(AppendFault::NotInJournal)),
    (Some(1), None),
];

// A frame that a client sent comes only from the position at which it was sent, again and again. It doesn't come from
// the position at which it was received, nor from past the end.
fn comes_as_sent<N: Naming>(
    alloc: Global,
    journal: &mut Journal<N>,
    share: &mut Share<N>,
    frame: &[u8],
) -> Result<bool, NoMemory> {
    for &(from, fault) in &SOURCES {
        if get(alloc, journal, share, from, frame)?.err() != fault {
            return Ok(false);
        }
    }
    Ok(true)
}

// Bytes that are no frame come from anywhere.
fn is_carried<N: Naming>(
    alloc: Global,
    journal: &mut Journal<N>,
    share: &mut Share<N>,
    frame: &[u8],
) -> Result<bool, Fail> {
    Ok(
        comes_as_sent(alloc, journal, share, frame)?
            && get(alloc, journal, share, None, b"no frame")?.is_ok()
            && get(alloc, journal, share, Some(0), b"")?.is_ok()
            && journal.len() == 6,
    )
}

fn is_first_carried<N: Naming>(
    alloc: Global,
    config: &Config,
    journal: &mut Journal<N>,
    share: &mut Share<N>,
) -> Result<bool, Fail>
    requires faults { config.now.faults ≡ 1 }
{
    let frame = first_frame(alloc, config, ClientId { number: 1 })?;
    is_carried(alloc, journal, share, frame.as_slice())
}

fn calls_and_comes<N: Naming>(
    alloc: Global,
    config: &Config,
    journal: &mut Journal<N>,
    pair: &mut Pair<N>,
) -> Result<bool, Fail>
    requires config { config.now ≡ N.config }
    requires faults { config.now.faults ≡ 1 }
{
    Ok(
        call(alloc, config, journal, &mut pair.client)?.is_ok()
            && is_first_refused(
                alloc,
                config,
                journal,
                &mut pair.replica,
                Some(1),
                ClientId { number: 0 },
            )?
            && is_first_carried(alloc, config, journal, &mut pair.replica)?,
    )
}

fn comes_from_first<N: Naming>(
    alloc: Global,
    config: &Config,
    journal: &mut Journal<N>,
    shares: Vec<Share<N>>,
) -> Result<bool, Fail>
    requires config { config.now ≡ N.config }
    requires faults { config.now.faults ≡ 1 }
{
    match pair_of(shares) {
        Some(mut pair) => {
            let is_right = calls_and_comes(alloc, config, journal, &mut pair);
            drop(pair);
            is_right
        }
        None => Err(Fail::new("no shares")),
    }
}

fn comes_from_client<N: Naming>(alloc: Global, config: &Config) -> Result<bool, Fail>
    requires config { config.now ≡ N.config }
    requires faults { config.now.faults ≡ 1 }
{
    let (mut journal, shares, orders) = Journal::<N>::new(alloc, config, 9)?;
    drop(orders);
    let is_right = comes_from_first(alloc, config, &mut journal, shares);
    drop(journal);
    is_right
}

#[test]
fn frames_were_sent(rt: HostRuntime) -> Result<(), Fail> {
    let config = new_config(rt.alloc(), Vec::new(rt.alloc()))?;
    assert!(rt; comes_from_client::<Brand>(rt.alloc(), &config)?);
    Ok(())
}

fn is_faulty_taken<N: Naming>(
    alloc: Global,
    config: &Config,
    journal: &mut Journal<N>,
    share: &mut Share<N>,
) -> Result<bool, Fail>
    requires faults { config.now.faults ≡ 1 }
{
    let frame = first_frame(alloc, config, ClientId { number: 0 })?;
    Ok(get(alloc, journal, share, None, frame.as_slice())?.is_ok())
}

// A frame that names a faulty client comes from anywhere; one that names a client outside the configuration does not.
fn takes_faulty_alone<N: Naming>(
    alloc: Global,
    config: &Config,
    journal: &mut Journal<N>,
    share: &mut Share<N>,
) -> Result<bool, Fail>
    requires faults { config.now.faults ≡ 1 }
{
    Ok(
        is_faulty_taken(alloc, config, journal, share)?
            && is_first_refused(alloc, config, journal, share, None, ClientId { number: 1 })?
            && is_first_refused(alloc, config, journal, share, None, ClientId { number: 2 })?,
    )
}

fn comes_from_faulty<N: Naming>(alloc: Global, config: &Config) -> Result<bool, Fail>
    requires config { config.now ≡ N.config }
    requires faults { config.now.faults ≡ 1 }
{
    let (mut journal, mut share) = begun::<N>(alloc, config, 9, 3)?;
    let is_right = takes_faulty_alone(alloc, config, &mut journal, &mut share);
    drop(share);
    drop(journal);
    is_right
}

#[test]
fn faulty_senders_are_exempt(rt: HostRuntime) -> Result<(), Fail> {
    let faulty = vec![in rt.alloc(); 0]?;
    let config = new_config(rt.alloc(), faulty)?;
    assert!(rt; comes_from_faulty::<Brand>(rt.alloc(), &config)?);
    Ok(())
}
