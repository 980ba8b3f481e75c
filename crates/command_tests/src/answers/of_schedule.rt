//! Made by tools/manual.

pub const ANSWERS: &str = r#"$ btspace schedule --help
$ btspace schedule -h
Runs a schedule in a world of replicas and clients and prints what was accepted

Usage: btspace schedule [OPTIONS] <CONFIG> <FILE>

Arguments:
  <CONFIG>  The file of the configuration, in TOML, or -
  <FILE>    The file of the schedule, a line for each step, or -

Options:
      --trace            Print the entries of the trace before the report, a line each
      --picture          Print the run as an SVG message sequence chart in place of the report
      --from <POSITION>  The position of the first entry that the chart shows [default: 0]
      --to <POSITION>    The position of the last entry that the chart shows [default: the last one]
  -h, --help             Print help
$ btspace schedule [-q]
error: unexpected argument '-q' found

  tip: to pass '-q' as a value, use '-- -q'

Usage: btspace schedule [OPTIONS] <CONFIG> <FILE>

For more information, try '--help'.
$ btspace schedule one two [nope]
error: unexpected argument 'nope' found

Usage: btspace schedule [OPTIONS] <CONFIG> <FILE>

For more information, try '--help'.
$ btspace schedule
error: the following required arguments were not provided:
  <CONFIG>
  <FILE>

Usage: btspace schedule <CONFIG> <FILE>

For more information, try '--help'.
$ btspace schedule one
error: the following required arguments were not provided:
  <FILE>

Usage: btspace schedule <CONFIG> <FILE>

For more information, try '--help'.
$ btspace schedule --trace
error: the following required arguments were not provided:
  <CONFIG>
  <FILE>

Usage: btspace schedule --trace <CONFIG> <FILE>

For more information, try '--help'.
$ btspace schedule --trace one
error: the following required arguments were not provided:
  <FILE>

Usage: btspace schedule --trace <CONFIG> <FILE>

For more information, try '--help'.
$ btspace schedule --picture
error: the following required arguments were not provided:
  <CONFIG>
  <FILE>

Usage: btspace schedule --picture <CONFIG> <FILE>

For more information, try '--help'.
$ btspace schedule --picture one
error: the following required arguments were not provided:
  <FILE>

Usage: btspace schedule --picture <CONFIG> <FILE>

For more information, try '--help'.
$ btspace schedule --trace --picture
$ btspace schedule --trace --picture one
$ btspace schedule --trace --picture one two
error: the argument '--trace' cannot be used with '--picture'

Usage: btspace schedule --trace <CONFIG> <FILE>

For more information, try '--help'.
$ btspace schedule --picture --trace
$ btspace schedule --picture --trace one
$ btspace schedule --picture --trace one two
error: the argument '--picture' cannot be used with '--trace'

Usage: btspace schedule --picture <CONFIG> <FILE>

For more information, try '--help'.
$ btspace schedule [--nope]
error: unexpected argument '--nope' found

  tip: to pass '--nope' as a value, use '-- --nope'

Usage: btspace schedule [OPTIONS] <CONFIG> <FILE>

For more information, try '--help'.
$ btspace schedule one [--nope]
error: unexpected argument '--nope' found

  tip: to pass '--nope' as a value, use '-- --nope'

Usage: btspace schedule <CONFIG> <FILE>

For more information, try '--help'.
$ btspace schedule --trace [--nope]
error: unexpected argument '--nope' found

  tip: to pass '--nope' as a value, use '-- --nope'

Usage: btspace schedule --trace <CONFIG> <FILE>

For more information, try '--help'.
$ btspace schedule --picture [--nope]
error: unexpected argument '--nope' found

  tip: to pass '--nope' as a value, use '-- --nope'

Usage: btspace schedule --picture <CONFIG> <FILE>

For more information, try '--help'.
$ btspace schedule [--tracee]
error: unexpected argument '--tracee' found

  tip: a similar argument exists: '--trace'

Usage: btspace schedule --trace <CONFIG> <FILE>

For more information, try '--help'.
$ btspace schedule --picture [--tracee]
error: unexpected argument '--tracee' found

  tip: a similar argument exists: '--trace'

Usage: btspace schedule --picture --trace <CONFIG> <FILE>

For more information, try '--help'.
$ btspace schedule [--picturee]
error: unexpected argument '--picturee' found

  tip: a similar argument exists: '--picture'

Usage: btspace schedule --picture <CONFIG> <FILE>

For more information, try '--help'.
$ btspace schedule --trace [--picturee]
error: unexpected argument '--picturee' found

  tip: a similar argument exists: '--picture'

Usage: btspace schedule --trace --picture <CONFIG> <FILE>

For more information, try '--help'.
$ btspace schedule [--fromm]
error: unexpected argument '--fromm' found

  tip: a similar argument exists: '--from'

Usage: btspace schedule --from <POSITION> <CONFIG> <FILE>

For more information, try '--help'.
$ btspace schedule --trace [--fromm]
error: unexpected argument '--fromm' found

  tip: a similar argument exists: '--from'

Usage: btspace schedule --trace --from <POSITION> <CONFIG> <FILE>

For more information, try '--help'.
$ btspace schedule --picture [--fromm]
error: unexpected argument '--fromm' found

  tip: a similar argument exists: '--from'

Usage: btspace schedule --picture --from <POSITION> <CONFIG> <FILE>

For more information, try '--help'.
$ btspace schedule [--too]
error: unexpected argument '--too' found

  tip: a similar argument exists: '--to'

Usage: btspace schedule --to <POSITION> <CONFIG> <FILE>

For more information, try '--help'.
$ btspace schedule --trace [--too]
error: unexpected argument '--too' found

  tip: a similar argument exists: '--to'

Usage: btspace schedule --trace --to <POSITION> <CONFIG> <FILE>

For more information, try '--help'.
$ btspace schedule --picture [--too]
error: unexpected argument '--too' found

  tip: a similar argument exists: '--to'

Usage: btspace schedule --picture --to <POSITION> <CONFIG> <FILE>

For more information, try '--help'.
$ btspace schedule [--helpp]
error: unexpected argument '--helpp' found

  tip: a similar argument exists: '--help'

Usage: btspace schedule --help <CONFIG> <FILE>

For more information, try '--help'.
$ btspace schedule --trace [--helpp]
error: unexpected argument '--helpp' found

  tip: a similar argument exists: '--help'

Usage: btspace schedule --trace --help <CONFIG> <FILE>

For more information, try '--help'.
$ btspace schedule --picture [--helpp]
error: unexpected argument '--helpp' found

  tip: a similar argument exists: '--help'

Usage: btspace schedule --picture --help <CONFIG> <FILE>

For more information, try '--help'.
$ btspace schedule --trace=[nope]
error: unexpected value 'nope' for '--trace' found; no more were expected

Usage: btspace schedule --trace <CONFIG> <FILE>

For more information, try '--help'.
$ btspace schedule --picture=[nope]
error: unexpected value 'nope' for '--picture' found; no more were expected

Usage: btspace schedule --picture <CONFIG> <FILE>

For more information, try '--help'.
$ btspace schedule --from
error: a value is required for '--from <POSITION>' but none was supplied

For more information, try '--help'.
$ btspace schedule --to
error: a value is required for '--to <POSITION>' but none was supplied

For more information, try '--help'.
$ btspace schedule --help=[nope]
error: unexpected value 'nope' for '--help' found; no more were expected

Usage: btspace schedule --help <CONFIG> <FILE>

For more information, try '--help'.
$ btspace schedule --trace --trace
error: the argument '--trace' cannot be used multiple times

Usage: btspace schedule [OPTIONS] <CONFIG> <FILE>

For more information, try '--help'.
$ btspace schedule --picture --picture
error: the argument '--picture' cannot be used multiple times

Usage: btspace schedule [OPTIONS] <CONFIG> <FILE>

For more information, try '--help'.
"#;
