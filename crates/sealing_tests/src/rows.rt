//! Rows of keys, as a seed gives them to its parties, and frames under them.

use crate::codes::is_code;
use crate::frames::{
    CLIENT, SECOND_CLIENT, is_opened, is_worked, refusal, replica, sealed_for_all,
};
use authenticator::{OpenFault, Ring, SharedKey, deal, hmac};
use sha2::{Digest, Sha256};
use std::alloc::Global;
use std::test::Fail;
use terms::{ClientId, NoMemory, Party};
use test_bytes::{FRAME_SEED, seed};

// A key from one party to another.
type Row<'a> = (u16, u16, &'a str);

// The rows of replica 2 and of client 1 under the seed 00 01 .. 1f, of which one replica of four may be faulty, and
// there are two clients. The keys are Python's hmac(seed, 4d || be16 from || be16 to).
static OF_REPLICA_2: [Row<'static>; 10] = [
    (
        0,
        2,
        "397de7029d048a3a99ac4498c05e973efd859dd1afc780e446ab67899d30c053",
    ),
    (
        2,
        0,
        "3d468356c8b4b997e85efcec5245a3e593e468607eeb8e2dc6ba03b5548639d2",
    ),
    (
        1,
        2,
        "26f88d364780b7254bdd89b90a5f4b7cdcf86bf52e81682af091fe15d2aea4a4",
    ),
    (
        2,
        1,
        "2176c79a52023fea0ac0bc3ad8c7f9d8328c342373caccffe7569cf09245bd05",
    ),
    (
        3,
        2,
        "1d26865335a15cad0ce826bf40d2db36795b88e0f0a8c3ffec1752837e47bd58",
    ),
    (
        2,
        3,
        "faed2d2d29568e9b00a769340fe5dfa87d9e4712de3474c666c7fe4c2ea44a55",
    ),
    (
        256,
        2,
        "4a26c066790ea7ccef4b7cafd01dd96b4418d8a816a35b3166167f9b4e301094",
    ),
    (
        2,
        256,
        "cbb57ffad63ca315d00c580898cc5bbf1d82909f34367edcc06becc19672036c",
    ),
    (
        257,
        2,
        "21ed720f013f534b621756cf7828cf89ff7d3aeb776669293d6e990f75fc536f",
    ),
    (
        2,
        257,
        "2c527abfe7c4e2e9d966146eb19d9df2b616f247810ca7c8e646a5903873f147",
    ),
];

static OF_CLIENT_1: [Row<'static>; 8] = [
    (
        0,
        257,
        "0800c80d1b414cfc519a445696aa2aeb1482b7888ca88972d0f02860e2ef6ffb",
    ),
    (
        257,
        0,
        "b157809ea12c7bd8e3c2f323671c2ed064a9548b6f810f4657fcd70f45005df2",
    ),
    (
        1,
        257,
        "64cce6a5db326cc0a818d2e4f535766772fb87de91bbcbed7fa8fea54fbf16ae",
    ),
    (
        257,
        1,
        "bd8389c3e8983f9c1d4a31e811f7b67a4bc83b524090d9768d9cc7cf87f2fcdf",
    ),
    (
        2,
        257,
        "2c527abfe7c4e2e9d966146eb19d9df2b616f247810ca7c8e646a5903873f147",
    ),
    (
        257,
        2,
        "21ed720f013f534b621756cf7828cf89ff7d3aeb776669293d6e990f75fc536f",
    ),
    (
        3,
        257,
        "cefdcccf928138b985b2760ef3620affa4ba2cf2bf385538942b5eb50e15eb0a",
    ),
    (
        257,
        3,
        "f139f23dbd6d36bfd171a88b50891c214b4b6836efa5e7323cfb705c3b8e42fa",
    ),
];

fn is_shared(shared: &SharedKey, (from, to, digits): Row<'_>) -> bool {
    shared.from == from && shared.to == to && is_code(shared.key, digits)
}

fn are_shared(keys: &[SharedKey], rows: &[Row<'_>]) -> bool {
    for (shared, row) in keys.iter().zip(rows) {
        if !is_shared(shared, *row) {
            return false;
        }
    }
    keys.len() == rows.len()
}

fn has_row(alloc: Global, me: Party, rows: &[Row<'_>]) -> Result<bool, NoMemory> {
    let keys = deal(alloc, &seed(), 1, 2, me)?;
    Ok(are_shared(&keys, rows))
}

#[test]
fn rows_of_parties(rt: HostRuntime) -> Result<(), Fail> {
    assert!(rt; has_row(rt.alloc(), replica(2), &OF_REPLICA_2)?);
    assert!(rt; has_row(rt.alloc(), SECOND_CLIENT, &OF_CLIENT_1)?);
    Ok(())
}

// Each key behind its two parties.
fn digest_of(keys: &[SharedKey]) -> [u8; 32] {
    let mut hash = Sha256::new();
    for shared in keys {
        hash.update(&shared.from.to_be_bytes());
        hash.update(&shared.to.to_be_bytes());
        hash.update(&shared.key);
    }
    hash.finalize()
}

// Among ten replicas and 256 clients: a party, how many keys it has, and Python's hashlib.sha256 of be16 from, be16 to
// and the key, for all of them in order.
fn has_large_row(alloc: Global, me: Party, count: usize, digits: &str) -> Result<bool, NoMemory> {
    let keys = deal(alloc, &seed(), 3, 256, me)?;
    Ok(keys.len() == count && is_code(digest_of(&keys), digits))
}

const LAST_CLIENT: Party = Party::Client(ClientId { number: 255 });

const OF_REPLICA_9: &str = "e9a9f19ac837428d7ed570b23836c99ea52773e60b43501172cd7de0d046e435";

const OF_CLIENT_255: &str = "845cc3562d3dbb7bf512eede9344c89932503ad73706474b10eb29618b820213";

#[test]
fn the_largest_rows(rt: HostRuntime) -> Result<(), Fail> {
    assert!(rt; has_large_row(rt.alloc(), replica(9), 530, OF_REPLICA_9)?);
    assert!(rt; has_large_row(rt.alloc(), LAST_CLIENT, 20, OF_CLIENT_255)?);
    Ok(())
}

// The party's ring of its own keys under this seed.
fn own_ring(alloc: Global, seed: &[u8; 32], me: Party) -> Result<Ring, NoMemory> {
    Ring::of_party(alloc, 1, 2, deal(alloc, seed, 1, 2, me)?)
}

// The frame of the first client's request for the four replicas, by the client's own keys.
fn sealed_by_client(alloc: Global) -> Result<Vec<u8>, Fail> {
    let mut ring = own_ring(alloc, &seed(), CLIENT)?;
    sealed_for_all(&mut ring, alloc)
}

// Whether the replica opens the frame by its own keys, of the same seed, and each other one refuses it by these. A
// ring of the same row does as the first one.
fn opens_own(alloc: Global, bytes: &[u8], me: u8) -> Result<bool, Fail> {
    let mut ring = own_ring(alloc, &seed(), replica(me))?;
    let mut shared = ring.share()?;
    Ok(opens_alone(&mut ring, alloc, bytes, me)? && opens_alone(&mut shared, alloc, bytes, me)?)
}

// Whether a ring of what the seed gives the replica does so too. Its row is dealt at its first code.
fn opens_dealt(alloc: Global, bytes: &[u8], me: u8) -> Result<bool, Fail> {
    let mut ring = Ring::dealt(alloc, &seed(), 1, 2, replica(me));
    let mut shared = ring.share()?;
    Ok(opens_alone(&mut ring, alloc, bytes, me)? && opens_alone(&mut shared, alloc, bytes, me)?)
}

fn opens_alone(ring: &mut Ring, alloc: Global, bytes: &[u8], me: u8) -> Result<bool, Fail> {
    Ok(is_opened(ring, alloc, bytes, replica(me))? && refuses_others(ring, alloc, bytes, me)?)
}

fn refuses_others(ring: &mut Ring, alloc: Global, bytes: &[u8], me: u8) -> Result<bool, Fail> {
    for other in 0..4 {
        if other != me && !is_bad(ring, alloc, bytes, other)? {
            return Ok(false);
        }
    }
    Ok(true)
}

// Whether the replica finds no right entry for it. Out of memory is no answer, and is handed on.
fn is_bad(ring: &mut Ring, alloc: Global, bytes: &[u8], me: u8) -> Result<bool, OpenFault> {
    match refusal(ring, alloc, bytes, replica(me)) {
        Some(OpenFault::NoMemory) => Err(OpenFault::NoMemory),
        fault => Ok(fault == Some(OpenFault::BadMac)),
    }
}

// A client seals by its row as a ring of all keys does. A replica opens by its row, and nobody else does by that.
#[test]
fn each_party_has_its_own_keys(rt: HostRuntime) -> Result<(), Fail> {
    let frame = sealed_by_client(rt.alloc())?;
    assert!(rt; is_worked(&frame));
    for me in 0..4 {
        assert!(rt; opens_own(rt.alloc(), &frame, me)?);
        assert!(rt; opens_dealt(rt.alloc(), &frame, me)?);
    }
    Ok(())
}

// Whether the ring gives the code under this key.
fn codes_by(ring: &mut Ring, shared: &SharedKey) -> bool {
    match ring.shared_mac(shared.from, shared.to, b"text") {
        Some(code) => code == hmac(&shared.key, b"text"),
        None => false,
    }
}

fn codes_by_all(ring: &mut Ring, keys: &[SharedKey]) -> bool {
    for shared in keys {
        if !codes_by(ring, shared) {
            return false;
        }
    }
    true
}

// Whether a ring of what the seed gives replica 2 has the keys of its row, and none between two others.
fn has_own_codes(alloc: Global) -> Result<bool, NoMemory> {
    let keys = deal(alloc, &seed(), 1, 2, replica(2))?;
    let mut ring = Ring::dealt(alloc, &seed(), 1, 2, replica(2));
    let is_apart = ring.shared_mac(0, 1, b"text").is_none();
    Ok(is_apart && codes_by_all(&mut ring, &keys) && ring.shared_mac(257, 256, b"text").is_none())
}

#[test]
fn codes_are_shared_by_two(rt: HostRuntime) -> Result<(), Fail> {
    assert!(rt; has_own_codes(rt.alloc())?);
    Ok(())
}

// Whether the replica refuses the frame by its own keys of another seed.
fn is_refused(alloc: Global, bytes: &[u8], me: u8) -> Result<bool, Fail> {
    let mut ring = own_ring(alloc, &FRAME_SEED, replica(me))?;
    Ok(is_bad(&mut ring, alloc, bytes, me)?)
}

#[test]
fn keys_of_another_seed(rt: HostRuntime) -> Result<(), Fail> {
    let frame = sealed_by_client(rt.alloc())?;
    for me in 0..4 {
        assert!(rt; is_refused(rt.alloc(), &frame, me)?);
    }
    Ok(())
}
