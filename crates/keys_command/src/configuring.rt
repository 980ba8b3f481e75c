//! The configuration whose keys are written.

ghost use Rattle.std.specs.Prelude.{◌≡◌, ◌++◌, IfOk, IsTrue, OnOk};
ghost use Rattle.std.specs.Io.KnownBytes.{Consumes};
ghost use Rattle.keys_command.specs.Configuring.{IsConfigFault, ReadsText, TellsConfig, TellsGiven, seed_line};

use crate::fault::KeysFault;
use config_text::{ConfigFault, Key, MAX_CONFIG, read_config};
use events::Config;
use std::alloc::Global;
use std::io::{self, Read};
use terms::NoMemory;

/// What a text gives.
#[derive(Drop)]
pub enum Given {
    Whole(Config),
    /// The text has no seed. It may have other mistakes.
    Seedless(Vec<u8>),
}

/// Reads the text of a configuration. Of one that is too long one byte more than may be is read.
pub fn read_text<R: Read + Drop>(alloc: Global, reader: R) -> Result<Vec<u8>, KeysFault>
    ensures { ReadsText (R.remaining reader) result }
{
    let mut text = Vec::new(alloc);
    let mut front = reader.take(MAX_CONFIG as u64 + 1);
    match front.read_to_end(&mut text) {
        Ok(_) => Ok(text),
        Err(error) => Err(KeysFault::of_read(error)),
    }
}

/// The configuration that the text says, or that it has no seed.
///
/// # Errors
///
/// Why the text is no configuration, or that memory ran out.
pub fn read_given(alloc: Global, text: Vec<u8>) -> Result<Given, KeysFault>
    ensures { TellsGiven text.items result }
{
    match read_config(alloc, text.as_slice()) {
        Ok(settings) => Ok(Given::Whole(settings.config)),
        Err(fault) => {
            if lacks_seed(fault) {
                Ok(Given::Seedless(text))
            } else {
                Err(fault_of(fault))
            }
        }
    }
}

fn lacks_seed(fault: ConfigFault) -> bool
    ensures { IsTrue result → fault ≡ ConfigFault.Missing Key.Seed }
{
    match fault {
        ConfigFault::Missing(Key::Seed) => true,
        _ => false,
    }
}

/// The configuration that the text says with the line of this seed behind it.
///
/// # Errors
///
/// Why it is none, or that memory ran out.
pub fn with_seed(alloc: Global, mut text: Vec<u8>, seed: &[u8; 32]) -> Result<Config, KeysFault>
    ensures { TellsConfig (text.items ++ seed_line seed.now) result }
{
    put_seed(seed, &mut text)?;
    match read_config(alloc, text.as_slice()) {
        Ok(settings) => Ok(settings.config),
        Err(fault) => Err(fault_of(fault)),
    }
}

fn fault_of(fault: ConfigFault) -> KeysFault
    ensures { IsConfigFault fault result }
{
    match fault {
        ConfigFault::NoMemory => KeysFault::NoMemory,
        other => KeysFault::Configuration(other),
    }
}

fn put_seed(seed: &[u8; 32], text: &mut Vec<u8>) -> Result<(), NoMemory>
    ensures { OnOk result (text.new.items ≡ text.old.items ++ seed_line seed.now) }
{
    let mut digits = [0; 64];
    let Ok(()) = hex::encode_to_slice(seed, &mut digits) else {
        unreachable!();
    };
    text.extend_from_slice(b"\nseed = \"")?;
    text.extend_from_slice(&digits)?;
    Ok(text.extend_from_slice(b"\"\n")?)
}

/// The first 32 bytes of this reader, as a seed.
pub fn draw_seed<R: Read>(reader: &mut R) -> io::Result<[u8; 32]>
    ensures { IfOk result (λ seed. Consumes (R.remaining reader.old) (R.remaining reader.new) seed) }
{
    let mut seed = [0; 32];
    reader.read_exact(&mut seed)?;
    Ok(seed)
}
