//! Laws of the definitions.

ghost use Rattle.party_keys.specs.Laws.{FilesAreRead, TextsSayOne};

/// The file that is written of a party is read as that party's keys, and a text says the keys of one party at most.
pub fn files_are_read()
    ensures read { FilesAreRead }
    ensures once { TextsSayOne }
{}
