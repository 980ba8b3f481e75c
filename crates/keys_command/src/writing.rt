//! The files of all parties.

ghost use Rattle.std.specs.Prelude.{◌≡◌, [], ◌∷◌, IfOk, IsTrue, string_bytes};
ghost use Rattle.terms.specs.Parties.{party_number};
ghost use Rattle.authenticator.specs.Dealing.{all_clients, all_replicas};
ghost use Rattle.party_keys.specs.PartyData.{takes_part};
ghost use Rattle.keys_command.specs.Files.{DealsFiles, PutsAll, RefusesAny, file_name};

use crate::fault::KeysFault;
use crate::folder::Folder;
use events::Config;
use party_keys::PartyKeys;
use signing::PublicKeys;
use std::alloc::Global;
use terms::{ClientId, NoMemory, Party, ReplicaId};
use trace_text::Name;

/// Puts the file of each party into the folder, replicas before clients. If a file of one of them is there, none is
/// put.
///
/// # Errors
///
/// Which file is there, that memory ran out, or why a file was not put. Files that were put before stay then.
pub fn write_keys<F: Folder>(
    alloc: Global,
    config: &Config,
    folder: &mut F,
) -> Result<(), KeysFault>
    ensures { DealsFiles config.now result (F.files folder.old) (F.files folder.new) }
{
    refuse_replicas(alloc, config, folder)?;
    refuse_clients(alloc, config, folder)?;
    let publics = PublicKeys::new(alloc, config.seed(), config.faults())?;
    put_replicas(alloc, config, &publics, folder)?;
    put_clients(alloc, config, &publics, folder)
}

// Refuses if a replica's file is there.
fn refuse_replicas<F: Folder>(alloc: Global, config: &Config, folder: &F) -> Result<(), KeysFault>
    ensures { RefusesAny (F.files folder.now) (all_replicas config.now.faults) result }
{
    for replica in 0..config.replicas() {
        refuse_one(alloc, Party::Replica(ReplicaId(replica)), folder)?;
    }
    Ok(())
}

fn refuse_clients<F: Folder>(alloc: Global, config: &Config, folder: &F) -> Result<(), KeysFault>
    ensures { RefusesAny (F.files folder.now) (all_clients config.now.clients) result }
{
    for number in 0..config.clients() {
        refuse_one(alloc, Party::Client(ClientId { number }), folder)?;
    }
    Ok(())
}

// Refuses if this party's file is there.
fn refuse_one<F: Folder>(alloc: Global, party: Party, folder: &F) -> Result<(), KeysFault>
    ensures { RefusesAny (F.files folder.now) (party_number party ∷ []) result }
{
    let name = file_name(alloc, party)?;
    match folder.has(name.as_str()) {
        Ok(false) => Ok(()),
        Ok(true) => Err(KeysFault::Exists(Name(party))),
        Err(error) => Err(KeysFault::of_write(error)),
    }
}

fn put_replicas<F: Folder>(
    alloc: Global,
    config: &Config,
    publics: &PublicKeys,
    folder: &mut F,
) -> Result<(), KeysFault>
    requires { publics.now ≡ config.now.publics }
    ensures { PutsAll config.now (all_replicas config.now.faults) result (F.files folder.old) (F.files folder.new) }
{
    for replica in 0..config.replicas() {
        put_file(
            alloc,
            config,
            publics,
            Party::Replica(ReplicaId(replica)),
            folder,
        )?;
    }
    Ok(())
}

fn put_clients<F: Folder>(
    alloc: Global,
    config: &Config,
    publics: &PublicKeys,
    folder: &mut F,
) -> Result<(), KeysFault>
    requires { publics.now ≡ config.now.publics }
    ensures { PutsAll config.now (all_clients config.now.clients) result (F.files folder.old) (F.files folder.new) }
{
    for number in 0..config.clients() {
        put_file(
            alloc,
            config,
            publics,
            Party::Client(ClientId { number }),
            folder,
        )?;
    }
    Ok(())
}

// Puts the file of one party.
fn put_file<F: Folder>(
    alloc: Global,
    config: &Config,
    publics: &PublicKeys,
    party: Party,
    folder: &mut F,
) -> Result<(), KeysFault>
    requires publics { publics.now ≡ config.now.publics }
    requires part { IsTrue (takes_part config.now.faults config.now.clients (party_number party)) }
    ensures { PutsAll config.now (party_number party ∷ []) result (F.files folder.old) (F.files folder.new) }
{
    let mut text = Vec::new(alloc);
    PartyKeys::deal(alloc, config, publics, party)?.write(&mut text)?;
    let name = file_name(alloc, party)?;
    match folder.put(name.as_str(), text.as_slice()) {
        Ok(()) => Ok(()),
        Err(error) => Err(KeysFault::of_write(error)),
    }
}

/// The name of a party's file, as `r0.toml` or `c0.toml`.
pub fn file_name(alloc: Global, party: Party) -> Result<String, NoMemory>
    ensures { IfOk result (λ name. string_bytes name ≡ file_name (party_number party)) }
{
    let party = Name(party);
    Ok(format!(in alloc; "{party}.toml")?)
}
