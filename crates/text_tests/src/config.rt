//! Texts that are configurations, and texts that are none.

use config_text::{ConfigFault, Settings, read_config};
use std::alloc::{AllocError, Global};
use std::test::Fail;

const SEED: &str = "seed = \"000102030405060708090a0b0c0d0e0f101112131415161718191A1B1C1D1E1F\"\n";

// The text before the seed, and the values in the order of the keys.
#[derive(Clone, Copy)]
struct Row {
    text: &'static str,
    faults: u8,
    clients: u16,
    period: u8,
    journal: u32,
    is_replica_correct: bool,
    is_client_correct: bool,
}

static ROWS: [Row; 4] = [
    Row {
        text: "f = 1\nclients = 1\n",
        faults: 1,
        clients: 1,
        period: 16,
        journal: 65_536,
        is_replica_correct: true,
        is_client_correct: true,
    },
    Row {
        text: "clients = 256\nf = 3\ncheckpoint = 1\nfaulty_replicas = [9, 0, 3]\n",
        faults: 3,
        clients: 256,
        period: 1,
        journal: 65_536,
        is_replica_correct: false,
        is_client_correct: true,
    },
    Row {
        text: "f = 2\nclients = 2\nfaulty_replicas = []\nfaulty_clients = [1, 0]\njournal = 1\n",
        faults: 2,
        clients: 2,
        period: 16,
        journal: 1,
        is_replica_correct: true,
        is_client_correct: false,
    },
    Row {
        text: "# a comment\nf = 1 # one\n\nclients = 0x10\ncheckpoint = 16\njournal = 65536\n",
        faults: 1,
        clients: 16,
        period: 16,
        journal: 65_536,
        is_replica_correct: true,
        is_client_correct: true,
    },
];

// Texts before a right seed, and how the reason begins.
static REFUSED: [(&str, &str); 56] = [
    ("", "`f` is missing"),
    ("f = 1\n", "`clients` is missing"),
    ("clients = 1\n", "`f` is missing"),
    (
        "f = 0\nclients = 1\n",
        "`f` is 0, and has to be from 1 to 3",
    ),
    (
        "f = 4\nclients = 1\n",
        "`f` is 4, and has to be from 1 to 3",
    ),
    (
        "f = -1\nclients = 1\n",
        "`f` is -1, and has to be from 1 to 3",
    ),
    (
        "f = 257\nclients = 1\n",
        "`f` is 257, and has to be from 1 to 3",
    ),
    (
        "f = 4294967297\nclients = 1\n",
        "`f` is 4294967297, and has to be from 1 to 3",
    ),
    ("f = 1.0\nclients = 1\n", "`f` is no whole number"),
    ("f = \"1\"\nclients = 1\n", "`f` is no whole number"),
    ("f = true\nclients = 1\n", "`f` is no whole number"),
    ("f = [1]\nclients = 1\n", "`f` is no whole number"),
    (
        "f = 1\nclients = 0\n",
        "`clients` is 0, and has to be from 1 to 256",
    ),
    (
        "f = 1\nclients = 257\n",
        "`clients` is 257, and has to be from 1 to 256",
    ),
    (
        "f = 1\nclients = 65537\n",
        "`clients` is 65537, and has to be from 1 to 256",
    ),
    (
        "f = 1\nclients = 1\ncheckpoint = 0\n",
        "`checkpoint` is 0, and has to be from 1 to 16",
    ),
    (
        "f = 1\nclients = 1\ncheckpoint = 17\n",
        "`checkpoint` is 17, and has to be from 1 to 16",
    ),
    (
        "f = 1\nclients = 1\njournal = 0\n",
        "`journal` is 0, and has to be from 1 to 65536",
    ),
    (
        "f = 1\nclients = 1\njournal = 65537\n",
        "`journal` is 65537, and has to be from 1 to 65536",
    ),
    (
        "f = 1\nclients = 1\nfaulty_replicas = [0, 1]\n",
        "`faulty_replicas` names 2 replicas, and `f` is 1",
    ),
    (
        "f = 1\nclients = 1\nfaulty_replicas = [4]\n",
        "`faulty_replicas` names 4, and the numbers are below 4",
    ),
    (
        "f = 1\nclients = 2\nfaulty_clients = [0, 0]\n",
        "`faulty_clients` names 0 twice",
    ),
    (
        "f = 1\nclients = 1\nfaulty_clients = 0\n",
        "`faulty_clients` is no array of whole numbers",
    ),
    (
        "f = 1\nclients = 1\nF = 1\n",
        "`F` is no key of a configuration",
    ),
    (
        "f = 1\nf = 1\nclients = 1\n",
        "line 2, column 1: duplicate key",
    ),
    ("f = 1\nclients = 1e2\n", "`clients` is no whole number"),
    (
        "f = 1\nclients = 2024-01-01\n",
        "`clients` is no whole number",
    ),
    ("f = { a = 1 }\nclients = 1\n", "`f` is no whole number"),
    ("f.a = 1\nclients = 1\n", "`f` is no whole number"),
    ("f = 1\nclients = \n", "line 2, column 11: "),
    ("f = 01\nclients = 1\n", "line 1, column 5: "),
    (
        "f = 1\nclients = 1\ncheckpoint = \"1\"\n",
        "`checkpoint` is no whole number",
    ),
    (
        "f = 1\nclients = 1\ncheckpoint = -1\n",
        "`checkpoint` is -1, and has to be from 1 to 16",
    ),
    (
        "f = 1\nclients = 1\ncheckpoint = 272\n",
        "`checkpoint` is 272, and has to be from 1 to 16",
    ),
    (
        "f = 1\nclients = 1\njournal = \"1\"\n",
        "`journal` is no whole number",
    ),
    (
        "f = 1\nclients = 1\njournal = -1\n",
        "`journal` is -1, and has to be from 1 to 65536",
    ),
    (
        "f = 1\nclients = 1\njournal = 4294967297\n",
        "`journal` is 4294967297, and has to be from 1 to 65536",
    ),
    (
        "f = 1\nclients = 1\njournal = [1]\n",
        "`journal` is no whole number",
    ),
    (
        "f = 1\nclients = 1\nfaulty_replicas = 0\n",
        "`faulty_replicas` is no array of whole numbers",
    ),
    (
        "f = 1\nclients = 1\nfaulty_replicas = [true]\n",
        "`faulty_replicas` is no array of whole numbers",
    ),
    (
        "f = 1\nclients = 1\nfaulty_replicas = [\"0\"]\n",
        "`faulty_replicas` is no array of whole numbers",
    ),
    (
        "f = 1\nclients = 1\nfaulty_replicas = [-1]\n",
        "`faulty_replicas` names -1, and the numbers are below 4",
    ),
    (
        "f = 1\nclients = 1\nfaulty_replicas = [65536]\n",
        "`faulty_replicas` names 65536, and the numbers are below 4",
    ),
    (
        "f = 1\nclients = 1\nfaulty_replicas = [[0]]\n",
        "`faulty_replicas` is no array of whole numbers",
    ),
    (
        "f = 2\nclients = 1\nfaulty_replicas = [1, 1]\n",
        "`faulty_replicas` names 1 twice",
    ),
    (
        "f = 1\nclients = 1\nfaulty_clients = [1]\n",
        "`faulty_clients` names 1, and the numbers are below 1",
    ),
    (
        "f = 1\nclients = 1\nfaulty_clients = [-1]\n",
        "`faulty_clients` names -1, and the numbers are below 1",
    ),
    (
        "f = 1\nclients = 1\nfaulty_clients = [256]\n",
        "`faulty_clients` names 256, and the numbers are below 1",
    ),
    (
        "f = 1\nclients = 1\nfaulty_clients = [0.0]\n",
        "`faulty_clients` is no array of whole numbers",
    ),
    (
        "f = 1\nclients = 1\nfaulty_clients = {}\n",
        "`faulty_clients` is no array of whole numbers",
    ),
    (
        "f = 1\nclients = 1\nkey = 1\n",
        "`key` is no key of a configuration",
    ),
    (
        "f = 1\nclients = 1\n\"\" = 1\n",
        "`` is no key of a configuration",
    ),
    (
        "f = 1\nclients = 1\n\"\\u001b[2J\\u009b\" = 1\n",
        "`\\u{1b}[2J\\u{9b}` is no key of a configuration",
    ),
    (
        "f = 1\nclients = 1\ncheckpoints = 1\n",
        "`checkpoints` is no key of a configuration",
    ),
    (
        "f = 1\nclients = 1\ncheck = 1\n",
        "`check` is no key of a configuration",
    ),
    (
        "f = 1\nclients = 1\n[more]\n",
        "`more` is no key of a configuration",
    ),
];

// The same behind two right values, with what is no seed.
static REFUSED_SEEDS: [(&str, &str); 11] = [
    ("f = 1\nclients = 1\n", "`seed` is missing"),
    ("f = 1\nclients = 1\nseed = 0\n", "`seed` is no string"),
    (
        "f = 1\nclients = 1\nseed = \"\"\n",
        "`seed` has 0 digits, and has to have 64",
    ),
    (
        "f = 1\nclients = 1\nseed = \"00010203040506070809\"\n",
        "`seed` has 20 digits, and has to have 64",
    ),
    (
        "f = 1\nclients = 1\nseed = \"000102030405060708090a0b0c0d0e0f101112131415161718191A1B1C1D1E1g\"\n",
        "`seed` has no hexadecimal digit at place 63, counted from 0",
    ),
    (
        "f = 1\nclients = 1\nseed = \"000000000000000000000000000000000000000000000000000000000000000\"\n",
        "`seed` has 63 digits, and has to have 64",
    ),
    (
        "f = 1\nclients = 1\nseed = \"00000000000000000000000000000000000000000000000000000000000000000\"\n",
        "`seed` has 65 digits, and has to have 64",
    ),
    (
        "f = 1\nclients = 1\nseed = \"000000000000000000000000000000000000000000000000000000000000000000\"\n",
        "`seed` has 66 digits, and has to have 64",
    ),
    (
        "f = 1\nclients = 1\nseed = [\"0000000000000000000000000000000000000000000000000000000000000000\"]\n",
        "`seed` is no string",
    ),
    (
        "f = 1\nclients = 1\nseed = \"x000000000000000000000000000000000000000000000000000000000000000\"\n",
        "`seed` has no hexadecimal digit at place 0, counted from 0",
    ),
    (
        "f = 1\nclients = 1\nseed = \" 0000000000000000000000000000000000000000000000000000000000000000\"\n",
        "`seed` has 65 digits, and has to have 64",
    ),
];

fn is_as_said(alloc: Global, row: Row) -> Result<bool, Fail> {
    let text = format!(in alloc; "{}{}", row.text, SEED)?;
    let settings = read_config(alloc, text.as_bytes())?;
    Ok(has_values(&settings, row) && has_seed(&settings))
}

fn has_values(settings: &Settings, row: Row) -> bool {
    settings.config.faults() == row.faults
        && settings.config.clients() == row.clients
        && settings.config.period() == row.period
        && settings.journal == row.journal
        && settings.config.is_correct_replica(3) == row.is_replica_correct
        && settings.config.is_correct_client(256) == row.is_client_correct
}

fn has_seed(settings: &Settings) -> bool {
    settings
        .config
        .seed()
        .iter()
        .enumerate()
        .all(|(i, byte)| usize::from(*byte) == i)
}

// Whether these bytes are refused for this reason, or one that begins so. Out of memory is no answer, and is handed on.
fn are_refused(alloc: Global, text: &[u8], reason: &str) -> Result<bool, Fail> {
    match read_config(alloc, text) {
        Ok(_) => Ok(false),
        Err(ConfigFault::NoMemory) => Err(Fail::from(AllocError)),
        Err(fault) => {
            let told = format!(in alloc; "{fault}")?;
            Ok(told.as_str().starts_with(reason))
        }
    }
}

// Whether the two together are refused so.
fn is_none(alloc: Global, front: &str, seed: &str, reason: &str) -> Result<bool, Fail> {
    let text = format!(in alloc; "{front}{seed}")?;
    are_refused(alloc, text.as_bytes(), reason)
}

// The last byte is no UTF-8.
const NO_UTF8: &[u8] = b"f = 1\nclients = 1\n\
    seed = \"000102030405060708090a0b0c0d0e0f101112131415161718191A1B1C1D1E1F\"\n# \xff";

#[test]
fn reads_configurations(rt: HostRuntime) -> Result<(), Fail> {
    for &row in &ROWS {
        assert!(rt; is_as_said(rt.alloc(), row)?, "{}", row.text);
    }
    Ok(())
}

#[test]
fn refuses_what_is_none(rt: HostRuntime) -> Result<(), Fail> {
    for &(text, reason) in &REFUSED {
        assert!(rt; is_none(rt.alloc(), text, SEED, reason)?, "{text}");
    }
    for &(text, reason) in &REFUSED_SEEDS {
        assert!(rt; is_none(rt.alloc(), text, "", reason)?, "{text}");
    }
    Ok(())
}

// Places are told by lines and characters.
#[test]
fn refuses_what_is_no_toml(rt: HostRuntime) -> Result<(), Fail> {
    let alloc = rt.alloc();
    assert!(rt; are_refused(alloc, NO_UTF8, "line 4, column 3: invalid UTF-8")?);
    assert!(rt;
        are_refused(
            alloc,
            "f = 1\n# ä\näf = 1\n".as_bytes(),
            "line 3, column 1: "
        )?
    );
    assert!(rt;
        are_refused(
            alloc,
            "# äöü\nf = \"äöü\" 1\n".as_bytes(),
            "line 2, column 11: "
        )?
    );
    Ok(())
}

// So many line feeds behind a configuration.
fn padded(alloc: Global, len: usize) -> Result<Vec<u8>, Fail> {
    let mut text = Vec::from_slice(alloc, WHOLE)?;
    text.resize(len, b'\n')?;
    Ok(text)
}

#[test]
fn refuses_what_is_too_long(rt: HostRuntime) -> Result<(), Fail> {
    let alloc = rt.alloc();
    let text = padded(alloc, 65_536)?;
    assert!(rt; read_config(alloc, text.as_slice()).is_ok());
    let text = padded(alloc, 65_537)?;
    assert!(rt;
        are_refused(
            alloc,
            text.as_slice(),
            "the configuration has more than 65536 bytes"
        )?
    );
    Ok(())
}

const WHOLE: &[u8] =
    b"f = 2\nclients = 2\nfaulty_replicas = [6, 0]\nfaulty_clients = [1]\njournal = 7\n\
    seed = \"000102030405060708090a0b0c0d0e0f101112131415161718191A1B1C1D1E1F\"\n";

const OUT_OF_RANGE: &[u8] = b"f = 2\nclients = 2\nfaulty_replicas = [7, 0]\nfaulty_clients = [1]\n\
    seed = \"000102030405060708090a0b0c0d0e0f101112131415161718191A1B1C1D1E1F\"\n";

fn read_again(alloc: Global, text: &[u8]) -> Result<Settings, ConfigFault> {
    match read_config(alloc, text) {
        Err(ConfigFault::NoMemory) => read_config(alloc, text),
        first => first,
    }
}

fn is_whole(settings: &Settings) -> bool {
    settings.config.faults() == 2
        && settings.config.clients() == 2
        && settings.journal == 7
        && !settings.config.is_correct_replica(6)
        && settings.config.is_correct_replica(1)
        && !settings.config.is_correct_client(257)
        && has_seed(settings)
}

// Passes whichever growth is refused, as by `tools/growths`: a second try gives the same as the first one gives if
// nothing is refused, and out of memory refuses no text.
#[test]
fn refused_memory(rt: HostRuntime) {
    match read_again(rt.alloc(), WHOLE) {
        Ok(settings) => assert!(rt; is_whole(&settings)),
        Err(_) => assert!(rt; false),
    }
    match read_again(rt.alloc(), OUT_OF_RANGE) {
        Err(ConfigFault::NoParty { number: 7, .. }) => (),
        _ => assert!(rt; false),
    }
}
