//! Files of parties that are read and written, and texts that are none.

use crate::texts::{CLIENT, REPLICA, STRANGER};
use authenticator::{OpenFault, Ring};
use party_keys::{FileFault, PartyKeys, read_file};
use std::alloc::{AllocError, Global};
use std::test::Fail;
use terms::{Party, ReplicaId};

// A text in a file, another in its place, and how the reason begins why the file is refused then.
#[derive(Clone, Copy)]
struct Row {
    file: &'static str,
    old: &'static str,
    new: &'static str,
    reason: &'static str,
}

static REFUSED: [Row; 28] = [
    Row {
        file: CLIENT,
        old: "f = 1",
        new: "f = 0",
        reason: "`f` is 0, and has to be from 1 to 3",
    },
    Row {
        file: CLIENT,
        old: "f = 1",
        new: "f = 4",
        reason: "`f` is 4, and has to be from 1 to 3",
    },
    Row {
        file: CLIENT,
        old: "f = 1",
        new: "f = 2",
        reason: "`from` has 4 keys, and has to have 7",
    },
    Row {
        file: CLIENT,
        old: "f = 1",
        new: "f = true",
        reason: "`f` is no whole number",
    },
    Row {
        file: CLIENT,
        old: "f = 1",
        new: "",
        reason: "`f` is missing",
    },
    Row {
        file: CLIENT,
        old: "f = 1",
        new: "f = 1\nf = 1",
        reason: "line 4, column 1: ",
    },
    Row {
        file: CLIENT,
        old: "f = 1",
        new: "f = 1\nseed = 1",
        reason: "`seed` is no key of a party's file",
    },
    Row {
        file: CLIENT,
        old: "clients = 1",
        new: "clients = 0",
        reason: "`clients` is 0, and has to be from 1 to 256",
    },
    Row {
        file: CLIENT,
        old: "clients = 1",
        new: "clients = 257",
        reason: "`clients` is 257, and has to be from 1 to 256",
    },
    Row {
        file: REPLICA,
        old: "clients = 1",
        new: "clients = 2",
        reason: "`from` has 4 keys, and has to have 5",
    },
    Row {
        file: CLIENT,
        old: "checkpoint = 16",
        new: "checkpoint = 17",
        reason: "`checkpoint` is 17, and has to be from 1 to 16",
    },
    Row {
        file: CLIENT,
        old: "checkpoint = 16",
        new: "",
        reason: "`checkpoint` is missing",
    },
    Row {
        file: CLIENT,
        old: "party = 256",
        new: "party = 257",
        reason: "`party` is 257, and has to be from 0 to 3 or from 256 to 256",
    },
    Row {
        file: CLIENT,
        old: "party = 256",
        new: "party = 4",
        reason: "`party` is 4, and has to be from 0 to 3 or from 256 to 256",
    },
    Row {
        file: CLIENT,
        old: "party = 256",
        new: "party = -1",
        reason: "`party` is -1, and has to be from 0 to 3 or from 256 to 256",
    },
    Row {
        file: CLIENT,
        old: "party = 256",
        new: "party = 0",
        reason: "`signing_seed` is missing",
    },
    Row {
        file: CLIENT,
        old: "party = 256",
        new: "party = 256\nsigning_seed = \"9efc05b4fd5971ae7d5ca10e8db8996574640f6c9781a03d61ed2591f7f41076\"",
        reason: "`signing_seed` is that of a replica, and `party` is a client",
    },
    Row {
        file: REPLICA,
        old: "party = 1",
        new: "party = 0",
        reason: "`public` has another key of replica 0 than `signing_seed` gives",
    },
    Row {
        file: REPLICA,
        old: "9efc05b4fd5971ae7d5ca10e8db8996574640f6c9781a03d61ed2591f7f41076",
        new: "b1d311e8c0d6c6f194e1d70c6d592c078636435b2a225a82262305bed1fb2986",
        reason: "`public` has another key of replica 1 than `signing_seed` gives",
    },
    Row {
        file: REPLICA,
        old: "55988f367e3beb01619982e45a36dee205cc56eafc7bdeeb5600509ccfb3f383",
        new: "e3c42377806c0d69f5f8e88d365d358f25c25b5cabf29e83f0822de755e4c8eb",
        reason: "`public` has another key of replica 1 than `signing_seed` gives",
    },
    Row {
        file: REPLICA,
        old: "9efc05b4fd5971ae7d5ca10e8db8996574640f6c9781a03d61ed2591f7f41076",
        new: "9efc05b4fd5971ae7d5ca10e8db8996574640f6c9781a03d61ed2591f7f4107",
        reason: "`signing_seed` has 63 digits, and has to have 64",
    },
    Row {
        file: REPLICA,
        old: "e3c42377806c0d69f5f8e88d365d358f25c25b5cabf29e83f0822de755e4c8eb",
        new: "e3c42377806c0d69f5f8e88d365d358f25c25b5cabf29e83f0822de755e4c8eg",
        reason: "`from`[0] has no hexadecimal digit at place 63, counted from 0",
    },
    Row {
        file: REPLICA,
        old: "e3c42377806c0d69f5f8e88d365d358f25c25b5cabf29e83f0822de755e4c8eb",
        new: "e3c42377806c0d69f5f8e88d365d358f25c25b5cabf29e83f0822de755e4c8eb00",
        reason: "`from`[0] has 66 digits, and has to have 64",
    },
    Row {
        file: REPLICA,
        old: "\"e3c42377806c0d69f5f8e88d365d358f25c25b5cabf29e83f0822de755e4c8eb\"",
        new: "7",
        reason: "`from`[0] is no string",
    },
    Row {
        file: REPLICA,
        old: "    \"e3c42377806c0d69f5f8e88d365d358f25c25b5cabf29e83f0822de755e4c8eb\",\n",
        new: "",
        reason: "`from` has 3 keys, and has to have 4",
    },
    Row {
        file: REPLICA,
        old: "    \"55988f367e3beb01619982e45a36dee205cc56eafc7bdeeb5600509ccfb3f383\",\n",
        new: "",
        reason: "`public` has 3 keys, and has to have 4",
    },
    Row {
        file: REPLICA,
        old: "to = [",
        new: "to = 1\nmore = [",
        reason: "`more` is no key of a party's file",
    },
    Row {
        file: REPLICA,
        old: "public = [",
        new: "publics = [",
        reason: "`publics` is no key of a party's file",
    },
];

fn comes_back(alloc: Global, text: &str) -> Result<bool, Fail> {
    let mut written = Vec::new(alloc);
    read_file(alloc, text.as_bytes())?.write(&mut written)?;
    Ok(written.as_slice() == text.as_bytes())
}

// Whether the file is refused for this reason, or one that begins so. Out of memory is no answer, and is handed on.
fn is_refused(alloc: Global, row: Row) -> Result<bool, Fail> {
    let Some((front, rest)) = row.file.split_once(row.old) else {
        return Ok(false);
    };
    let text = format!(in alloc; "{front}{}{rest}", row.new)?;
    match read_file(alloc, text.as_bytes()) {
        Ok(_) => Ok(false),
        Err(FileFault::NoMemory) => Err(Fail::from(AllocError)),
        Err(fault) => {
            let told = format!(in alloc; "{fault}")?;
            Ok(told.as_str().starts_with(row.reason))
        }
    }
}

fn ring_of(alloc: Global, text: &str) -> Result<Ring, Fail> {
    let keys: PartyKeys = read_file(alloc, text.as_bytes())?;
    Ok(keys.ring(alloc)?)
}

#[test]
fn files_of_python_come_back(rt: HostRuntime) -> Result<(), Fail> {
    assert!(rt; comes_back(rt.alloc(), REPLICA)?);
    assert!(rt; comes_back(rt.alloc(), CLIENT)?);
    Ok(())
}

#[test]
fn each_mistake_is_told(rt: HostRuntime) -> Result<(), Fail> {
    for &row in &REFUSED {
        assert!(rt; is_refused(rt.alloc(), row)?);
    }
    Ok(())
}

// Client 0 and replica 1 have the same keys between them, and a replica of another seed has others.
#[test]
fn rows_of_one_seed_agree(rt: HostRuntime) -> Result<(), Fail> {
    let mut replica = ring_of(rt.alloc(), REPLICA)?;
    let mut client = ring_of(rt.alloc(), CLIENT)?;
    let mut stranger = ring_of(rt.alloc(), STRANGER)?;
    let here = replica.mac(256, 1, b"text");
    assert!(rt; here == client.mac(256, 1, b"text"));
    assert!(rt; here != stranger.mac(256, 1, b"text"));
    assert!(rt; here != replica.mac(1, 256, b"text"));
    Ok(())
}

// The request of client 0 for out (1), with timestamp 1, for replica 1 alone. Python's hmac made its MAC under the seed
// 00 01 .. 1f: be32 23 || 41 || be16 256 || be64 1 || 00 || 21 01 01 || be64 1 || 00 01 || be16 1 || MAC.
static REQUEST: [u8; 63] = [
    0x00, 0x00, 0x00, 0x17, 0x41, 0x01, 0x00, 0x00, 0x00, 0x00, 0x00, 0x00, 0x00, 0x00, 0x01, 0x00,
    0x21, 0x01, 0x01, 0x00, 0x00, 0x00, 0x00, 0x00, 0x00, 0x00, 0x01, 0x00, 0x01, 0x00, 0x01, 0x53,
    0x89, 0x59, 0x03, 0x69, 0x92, 0xe8, 0x4e, 0x4b, 0x34, 0x66, 0xc6, 0xc9, 0xdc, 0xbd, 0xe8, 0x9a,
    0x45, 0xcb, 0xde, 0xbf, 0x8a, 0xf8, 0xac, 0x8b, 0x3f, 0x0e, 0x24, 0x4a, 0x91, 0xe3, 0x95,
];

// Whether replica 1 opens the request by the keys of its file.
fn opens(alloc: Global, file: &str) -> Result<bool, Fail> {
    let mut ring = ring_of(alloc, file)?;
    match ring.open(alloc, &REQUEST, Party::Replica(ReplicaId(1))) {
        Ok(opened) => {
            drop(opened);
            Ok(true)
        }
        Err(OpenFault::BadMac) => Ok(false),
        Err(fault) => Err(Fail::from(fault)),
    }
}

#[test]
fn a_file_of_another_seed_opens_nothing(rt: HostRuntime) -> Result<(), Fail> {
    assert!(rt; opens(rt.alloc(), REPLICA)?);
    assert!(rt; !opens(rt.alloc(), STRANGER)?);
    Ok(())
}
