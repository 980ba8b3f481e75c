//! A folder in memory, into which the files of all parties are put.

use crate::texts::{CLIENT, REPLICA};
use events::Config;
use keys_command::{Folder, KeysFault, write_keys};
use std::alloc::Global;
use std::io;
use std::test::Fail;

const SEED: [u8; 32] = [
    0, 1, 2, 3, 4, 5, 6, 7, 8, 9, 10, 11, 12, 13, 14, 15, 16, 17, 18, 19, 20, 21, 22, 23, 24, 25,
    26, 27, 28, 29, 30, 31,
];

// The names of files, and their texts at the same places.
#[derive(Drop)]
struct Memory {
    alloc: Global,
    names: Vec<String>,
    texts: Vec<Vec<u8>>,
}

impl Memory {
    fn text_of(&self, name: &str) -> Option<&[u8]> {
        let at = self.names.iter().position(|it| it.as_str() == name)?;
        Some(self.texts.get(at)?.as_slice())
    }
}

impl Folder for Memory {
    fn has(&self, name: &str) -> io::Result<bool> {
        Ok(self.names.iter().any(|it| it.as_str() == name))
    }

    fn put(&mut self, name: &str, text: &[u8]) -> io::Result<()> {
        let name = format!(in self.alloc; "{name}")?;
        let text = Vec::from_slice(self.alloc, text)?;
        self.texts.push(text)?;
        self.names.push(name)?;
        Ok(())
    }
}

fn config_of(alloc: Global, seed: [u8; 32]) -> Result<Config, Fail> {
    Ok(Config::new(1, 1, seed, 16, Vec::new(alloc), Vec::new(alloc))?)
}

#[test]
fn each_party_has_its_file(rt: HostRuntime) -> Result<(), Fail> {
    let alloc = rt.alloc();
    let config = config_of(alloc, SEED)?;
    let mut folder = Memory {
        alloc,
        names: Vec::new(alloc),
        texts: Vec::new(alloc),
    };
    write_keys(alloc, &config, &mut folder)?;
    assert!(rt; folder.names.len() == 5);
    assert!(rt; folder.text_of("r1.toml") == Some(REPLICA.as_bytes()));
    assert!(rt; folder.text_of("c0.toml") == Some(CLIENT.as_bytes()));
    let again = write_keys(alloc, &config, &mut folder);
    assert!(rt; matches!(again, Err(KeysFault::Exists(_))));
    assert!(rt; folder.names.len() == 5);
    Ok(())
}
