//! The configuration that a command names.

ghost use Rattle.std.specs.Prelude.{IfSome};
ghost use Rattle.schedule_command.specs.Settings.{IsConfigFault, TellsSettings};

use crate::fault::ScheduleFault;
use config_text::{ConfigFault, MAX_CONFIG, Settings, read_config};
use std::alloc::Global;
use std::io::Read;

/// Reads a configuration, and how many entries a journal takes. Of a text that is too long one byte more than may be is
/// read.
///
/// # Errors
///
/// Why the reader gave no configuration: the text is none, it was not read, or memory ran out.
pub fn read_settings<R: Read + Drop>(alloc: Global, reader: R) -> Result<Settings, ScheduleFault>
    // The given settings are those that the text says, and a refused text says no configuration.
    ensures { IfSome (R.remaining reader) (λ text. TellsSettings text result) }
{
    let mut text = Vec::new(alloc);
    let mut front = reader.take(MAX_CONFIG as u64 + 1);
    if let Err(error) = front.read_to_end(&mut text) {
        return Err(ScheduleFault::of_read(error));
    }
    match read_config(alloc, text.as_slice()) {
        Ok(settings) => Ok(settings),
        Err(fault) => Err(fault_of(fault)),
    }
}

fn fault_of(fault: ConfigFault) -> ScheduleFault
    ensures { IsConfigFault fault result }
{
    match fault {
        ConfigFault::NoMemory => ScheduleFault::NoMemory,
        other => ScheduleFault::Configuration(other),
    }
}
