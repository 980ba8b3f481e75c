//! Made by tools/manual.

pub const ANSWERS: &str = r#"$ btspace keys --help
$ btspace keys -h
Writes a file for each party, with the keys that it may have

Usage: btspace keys <CONFIG> <FOLDER>

Arguments:
  <CONFIG>  The file of the configuration, in TOML, or -
  <FOLDER>  The folder of the files r0.toml .. and c0.toml .., which is made if it isn't there

Options:
  -h, --help  Print help

The seed gives all keys, so no party may have it. Without a seed in the configuration a fresh one is drawn from
/dev/urandom, and kept nowhere.
$ btspace keys [-q]
error: unexpected argument '-q' found

  tip: to pass '-q' as a value, use '-- -q'

Usage: btspace keys <CONFIG> <FOLDER>

For more information, try '--help'.
$ btspace keys one two [nope]
error: unexpected argument 'nope' found

Usage: btspace keys <CONFIG> <FOLDER>

For more information, try '--help'.
$ btspace keys
error: the following required arguments were not provided:
  <CONFIG>
  <FOLDER>

Usage: btspace keys <CONFIG> <FOLDER>

For more information, try '--help'.
$ btspace keys one
error: the following required arguments were not provided:
  <FOLDER>

Usage: btspace keys <CONFIG> <FOLDER>

For more information, try '--help'.
$ btspace keys [--nope]
$ btspace keys one [--nope]
error: unexpected argument '--nope' found

  tip: to pass '--nope' as a value, use '-- --nope'

Usage: btspace keys <CONFIG> <FOLDER>

For more information, try '--help'.
$ btspace keys [--helpp]
error: unexpected argument '--helpp' found

  tip: a similar argument exists: '--help'

Usage: btspace keys --help <CONFIG> <FOLDER>

For more information, try '--help'.
$ btspace keys --help=[nope]
error: unexpected value 'nope' for '--help' found; no more were expected

Usage: btspace keys --help <CONFIG> <FOLDER>

For more information, try '--help'.
"#;
