//! Made by tools/manual.

pub const ANSWERS: &str = r#"$ btspace local --help
$ btspace local -h
Runs a script on a space of its own and prints a result line for each operation

Usage: btspace local [OPTIONS] <SCRIPT>

Arguments:
  <SCRIPT>  The file of the script, a line for each operation, or -

Options:
      --space <VERSION>  The version of the space; one of version 2 also takes wide numbers and inAll [default: 1] [possible values: 1, 2]
      --keep-going       Go on after a refused line; the status is 1 at the end if there was one
  -h, --help             Print help
$ btspace local [-q]
error: unexpected argument '-q' found

  tip: to pass '-q' as a value, use '-- -q'

Usage: btspace local [OPTIONS] <SCRIPT>

For more information, try '--help'.
$ btspace local one [nope]
error: unexpected argument 'nope' found

Usage: btspace local [OPTIONS] <SCRIPT>

For more information, try '--help'.
$ btspace local
error: the following required arguments were not provided:
  <SCRIPT>

Usage: btspace local <SCRIPT>

For more information, try '--help'.
$ btspace local --space 1
error: the following required arguments were not provided:
  <SCRIPT>

Usage: btspace local --space <VERSION> <SCRIPT>

For more information, try '--help'.
$ btspace local --keep-going
error: the following required arguments were not provided:
  <SCRIPT>

Usage: btspace local --keep-going <SCRIPT>

For more information, try '--help'.
$ btspace local --space 1 --keep-going
error: the following required arguments were not provided:
  <SCRIPT>

Usage: btspace local --space <VERSION> --keep-going <SCRIPT>

For more information, try '--help'.
$ btspace local --keep-going --space 1
error: the following required arguments were not provided:
  <SCRIPT>

Usage: btspace local --keep-going --space <VERSION> <SCRIPT>

For more information, try '--help'.
$ btspace local [--nope]
error: unexpected argument '--nope' found

  tip: to pass '--nope' as a value, use '-- --nope'

Usage: btspace local [OPTIONS] <SCRIPT>

For more information, try '--help'.
$ btspace local one [--nope]
error: unexpected argument '--nope' found

  tip: to pass '--nope' as a value, use '-- --nope'

Usage: btspace local <SCRIPT>

For more information, try '--help'.
$ btspace local --space 1 [--nope]
error: unexpected argument '--nope' found

  tip: to pass '--nope' as a value, use '-- --nope'

Usage: btspace local --space <VERSION> <SCRIPT>

For more information, try '--help'.
$ btspace local --keep-going [--nope]
error: unexpected argument '--nope' found

  tip: to pass '--nope' as a value, use '-- --nope'

Usage: btspace local --keep-going <SCRIPT>

For more information, try '--help'.
$ btspace local [--spacee]
error: unexpected argument '--spacee' found

  tip: a similar argument exists: '--space'

Usage: btspace local --space <VERSION> <SCRIPT>

For more information, try '--help'.
$ btspace local --keep-going [--spacee]
error: unexpected argument '--spacee' found

  tip: a similar argument exists: '--space'

Usage: btspace local --keep-going --space <VERSION> <SCRIPT>

For more information, try '--help'.
$ btspace local [--keep-goingg]
error: unexpected argument '--keep-goingg' found

  tip: a similar argument exists: '--keep-going'

Usage: btspace local --keep-going <SCRIPT>

For more information, try '--help'.
$ btspace local --space 1 [--keep-goingg]
error: unexpected argument '--keep-goingg' found

  tip: a similar argument exists: '--keep-going'

Usage: btspace local --space <VERSION> --keep-going <SCRIPT>

For more information, try '--help'.
$ btspace local [--helpp]
error: unexpected argument '--helpp' found

  tip: a similar argument exists: '--help'

Usage: btspace local --help <SCRIPT>

For more information, try '--help'.
$ btspace local --space 1 [--helpp]
error: unexpected argument '--helpp' found

  tip: a similar argument exists: '--help'

Usage: btspace local --space <VERSION> --help <SCRIPT>

For more information, try '--help'.
$ btspace local --keep-going [--helpp]
error: unexpected argument '--helpp' found

  tip: a similar argument exists: '--help'

Usage: btspace local --keep-going --help <SCRIPT>

For more information, try '--help'.
$ btspace local --space
error: a value is required for '--space <VERSION>' but none was supplied
  [possible values: 1, 2]

For more information, try '--help'.
$ btspace local --space [nope]
error: invalid value 'nope' for '--space <VERSION>'
  [possible values: 1, 2]

For more information, try '--help'.
$ btspace local --space [1x]
error: invalid value '1x' for '--space <VERSION>'
  [possible values: 1, 2]

  tip: a similar value exists: '1'

For more information, try '--help'.
$ btspace local --space [2x]
error: invalid value '2x' for '--space <VERSION>'
  [possible values: 1, 2]

  tip: a similar value exists: '2'

For more information, try '--help'.
$ btspace local --keep-going=[nope]
error: unexpected value 'nope' for '--keep-going' found; no more were expected

Usage: btspace local --keep-going <SCRIPT>

For more information, try '--help'.
$ btspace local --help=[nope]
error: unexpected value 'nope' for '--help' found; no more were expected

Usage: btspace local --help <SCRIPT>

For more information, try '--help'.
$ btspace local --space 1 --space 1
error: the argument '--space <VERSION>' cannot be used multiple times

Usage: btspace local [OPTIONS] <SCRIPT>

For more information, try '--help'.
$ btspace local --keep-going --keep-going
error: the argument '--keep-going' cannot be used multiple times

Usage: btspace local [OPTIONS] <SCRIPT>

For more information, try '--help'.
"#;
