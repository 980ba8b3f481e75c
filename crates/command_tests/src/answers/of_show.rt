//! Made by tools/manual.

pub const ANSWERS: &str = r#"$ btspace show --help
$ btspace show -h
Prints the tuple that is encoded by these bytes

Usage: btspace show <HEX>

Arguments:
  <HEX>  The bytes of a tuple, two hexadecimal digits a byte

Options:
  -h, --help  Print help
$ btspace show [-q]
error: unexpected argument '-q' found

  tip: to pass '-q' as a value, use '-- -q'

Usage: btspace show <HEX>

For more information, try '--help'.
$ btspace show one [nope]
error: unexpected argument 'nope' found

Usage: btspace show <HEX>

For more information, try '--help'.
$ btspace show
error: the following required arguments were not provided:
  <HEX>

Usage: btspace show <HEX>

For more information, try '--help'.
$ btspace show [--nope]
$ btspace show one [--nope]
error: unexpected argument '--nope' found

  tip: to pass '--nope' as a value, use '-- --nope'

Usage: btspace show <HEX>

For more information, try '--help'.
$ btspace show [--helpp]
error: unexpected argument '--helpp' found

  tip: a similar argument exists: '--help'

Usage: btspace show --help <HEX>

For more information, try '--help'.
$ btspace show --help=[nope]
error: unexpected value 'nope' for '--help' found; no more were expected

Usage: btspace show --help <HEX>

For more information, try '--help'.
"#;
