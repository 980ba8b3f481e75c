//! The command, from two paths to the status that the program ends with.

use crate::configuring::{Given, draw_seed, read_given, read_text, with_seed};
use crate::fault::{KeysFault, RANDOMNESS, end_keys};
use crate::folder::FileFolder;
use crate::writing::write_keys;
use events::Config;
use one_space::is_standard_input;
use std::rt::Files;
use std::{fs, io};

// What is said of the seed when all files are written.
const SEED_GIVEN: &str =
    "the seed of the configuration gives all keys: keep it apart, and give each party its own file alone";

const SEED_DRAWN: &str =
    "the keys are of a fresh seed, which is kept nowhere: give each party its own file alone";

/// Writes the file of each party of the configuration at one path into the folder at the other. Without a seed in the
/// configuration a fresh one is drawn, and kept nowhere. Gives the status of the program.
pub fn deal_keys<R: Files + Input + Eprint + AllocGlobal>(
    rt: &R,
    config: &str,
    folder: &str,
) -> u8 {
    match deal(rt, config, folder) {
        Ok(said) => {
            let _ = eprintln!(rt; "{said}");
            0
        }
        Err(fault) => end_keys(rt, &fault, config),
    }
}

// What is to be said of the seed.
fn deal<R: Files + Input + AllocGlobal>(
    rt: &R,
    config: &str,
    folder: &str,
) -> Result<&'static str, KeysFault> {
    match given_at(rt, config)? {
        Given::Whole(config) => {
            put_keys(rt, &config, folder)?;
            Ok(SEED_GIVEN)
        }
        Given::Seedless(text) => {
            deal_fresh(rt, text, folder)?;
            Ok(SEED_DRAWN)
        }
    }
}

fn given_at<R: Files + Input + AllocGlobal>(rt: &R, path: &str) -> Result<Given, KeysFault> {
    let text = if is_standard_input(path) {
        read_text(rt.alloc(), rt.reader())?
    } else {
        match fs::open(rt, path) {
            Ok(file) => read_text(rt.alloc(), file)?,
            Err(error) => return Err(KeysFault::of_read(error)),
        }
    };
    read_given(rt.alloc(), text)
}

fn deal_fresh<R: Files + AllocGlobal>(
    rt: &R,
    text: Vec<u8>,
    folder: &str,
) -> Result<(), KeysFault> {
    let seed = match fresh_seed(rt) {
        Ok(seed) => seed,
        Err(error) => return Err(KeysFault::Draw(error)),
    };
    let config = with_seed(rt.alloc(), text, &seed)?;
    put_keys(rt, &config, folder)
}

fn fresh_seed<R: Files>(rt: &R) -> io::Result<[u8; 32]> {
    let mut source = fs::open(rt, RANDOMNESS)?;
    draw_seed(&mut source)
}

fn put_keys<R: Files + AllocGlobal>(
    rt: &R,
    config: &Config,
    folder: &str,
) -> Result<(), KeysFault> {
    match FileFolder::new(rt, folder) {
        Ok(mut folder) => write_keys(rt.alloc(), config, &mut folder),
        Err(error) => Err(KeysFault::of_write(error)),
    }
}
