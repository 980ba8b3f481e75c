//! Made by tools/manual.

pub const ANSWERS: &str = r#"$ btspace replica --help
$ btspace replica -h
Serves a replica by the file of its keys, over records

Usage: btspace replica <KEYS>

Arguments:
  <KEYS>  The file of the replica's keys, as keys writes it

Options:
  -h, --help  Print help

It reads records from standard input and writes records to standard output: frames that come and go, and timers.
Something else has to carry them between the parties. It ends with its input.
$ btspace replica [-q]
error: unexpected argument '-q' found

  tip: to pass '-q' as a value, use '-- -q'

Usage: btspace replica <KEYS>

For more information, try '--help'.
$ btspace replica one [nope]
error: unexpected argument 'nope' found

Usage: btspace replica <KEYS>

For more information, try '--help'.
$ btspace replica
error: the following required arguments were not provided:
  <KEYS>

Usage: btspace replica <KEYS>

For more information, try '--help'.
$ btspace replica [--nope]
$ btspace replica one [--nope]
error: unexpected argument '--nope' found

  tip: to pass '--nope' as a value, use '-- --nope'

Usage: btspace replica <KEYS>

For more information, try '--help'.
$ btspace replica [--helpp]
error: unexpected argument '--helpp' found

  tip: a similar argument exists: '--help'

Usage: btspace replica --help <KEYS>

For more information, try '--help'.
$ btspace replica --help=[nope]
error: unexpected value 'nope' for '--help' found; no more were expected

Usage: btspace replica --help <KEYS>

For more information, try '--help'.
"#;
