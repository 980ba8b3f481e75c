//! The text of a party's file.

ghost use Rattle.std.specs.Prelude.{◌≡◌, ◌++◌, ◌∷◌, [], flat_map, OnOk, codes};
ghost use Rattle.hex.specs.Hex.{encode_lower};
ghost use Rattle.party_keys.specs.Names.{key_name};
ghost use Rattle.party_keys.specs.Text.{file_text, key_text, keys_lines, number_line, seed_line};

use crate::key::Key;
use crate::party_keys::PartyKeys;
use itoa::Buffer;
use terms::NoMemory;

impl PartyKeys {
    /// Appends the text of the file of these keys.
    pub fn write(&self, out: &mut Vec<u8>) -> Result<(), NoMemory>
        ensures { OnOk result (out.new.items ≡ out.old.items ++ file_text self.now) }
    {
        put_number(Key::Checkpoint, u16::from(self.period), out)?;
        put_number(Key::Clients, self.clients, out)?;
        put_number(Key::Faults, u16::from(self.faults), out)?;
        put_keys(Key::From, self.from.as_slice(), out)?;
        put_number(Key::Party, self.me.number(), out)?;
        put_keys(Key::Public, self.publics.as_slice(), out)?;
        put_seed(&self.seed, out)?;
        put_keys(Key::To, self.to.as_slice(), out)
    }
}

#[tactic(auto, unfolding(crate::specs::Text::number_line))]
fn put_number(key: Key, number: u16, out: &mut Vec<u8>) -> Result<(), NoMemory>
    ensures { OnOk result (out.new.items ≡ out.old.items ++ number_line (key_name key) number) }
{
    let mut buffer = Buffer::new();
    put(key.name(), out)?;
    put(" = ", out)?;
    put(buffer.format(number), out)?;
    put("\n", out)
}

#[tactic(auto, unfolding(crate::specs::Text::keys_lines))]
fn put_keys(key: Key, keys: &[[u8; 32]], out: &mut Vec<u8>) -> Result<(), NoMemory>
    ensures { OnOk result (out.new.items ≡ out.old.items ++ keys_lines (key_name key) keys.now) }
{
    put(key.name(), out)?;
    put(" = [", out)?;
    put_items(keys, out)?;
    put("\n]\n", out)
}

fn put_items(keys: &[[u8; 32]], out: &mut Vec<u8>) -> Result<(), NoMemory>
    ensures { OnOk result (out.new.items ≡ out.old.items ++ flat_map key_text keys.now) }
{
    for key in keys {
        put_item(key, out)?;
    }
    Ok(())
}

fn put_item(key: &[u8; 32], out: &mut Vec<u8>) -> Result<(), NoMemory>
    ensures { OnOk result (out.new.items ≡ out.old.items ++ key_text key.now) }
{
    put("\n    \"", out)?;
    put_digits(key, out)?;
    put("\",", out)
}

#[tactic(auto, unfolding(crate::specs::Text::seed_line))]
fn put_seed(seed: &Option<[u8; 32]>, out: &mut Vec<u8>) -> Result<(), NoMemory>
    ensures { OnOk result (out.new.items ≡ out.old.items ++ seed_line seed.now) }
{
    let Some(seed) = seed else {
        return Ok(());
    };
    put("signing_seed = \"", out)?;
    put_digits(seed, out)?;
    put("\"\n", out)
}

// Appends two hexadecimal digits for each byte.
fn put_digits(key: &[u8; 32], out: &mut Vec<u8>) -> Result<(), NoMemory>
    ensures { OnOk result (out.new.items ≡ out.old.items ++ encode_lower key.now) }
{
    let mut digits = [0; 64];
    match hex::encode_to_slice(key, &mut digits) {
        Ok(()) => Ok(out.extend_from_slice(&digits)?),
        Err(_) => unreachable!(),
    }
}

fn put(text: &str, out: &mut Vec<u8>) -> Result<(), NoMemory>
    ensures { OnOk result (out.new.items ≡ out.old.items ++ text.now) }
{
    Ok(out.extend_from_slice(text.as_bytes())?)
}
