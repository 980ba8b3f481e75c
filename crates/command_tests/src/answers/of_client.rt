//! Made by tools/manual.

pub const ANSWERS: &str = r#"$ btspace client --help
$ btspace client -h
Serves a client by the file of its keys, over a script and records

Usage: btspace client [OPTIONS] <KEYS> <IN> <OUT>

Arguments:
  <KEYS>  The file of the client's keys, as keys writes it
  <IN>    The file from which it reads records
  <OUT>   The file to which it writes records

Options:
      --above <TIMESTAMP>  Begin above this timestamp, below 2^62 [default: the milliseconds since 1970, times 2^20]
  -h, --help               Print help

It calls the operations of the lines on standard input, and prints a line for each: the result, or ! and why the line
is refused. Something else has to carry records between the parties: they are read at IN and written to OUT, which are
named pipes or /dev/fd/N. A client that is started again has to begin above all its earlier timestamps. By the clock it
does, unless that is set back.
$ btspace client [-q]
error: unexpected argument '-q' found

  tip: to pass '-q' as a value, use '-- -q'

Usage: btspace client [OPTIONS] <KEYS> <IN> <OUT>

For more information, try '--help'.
$ btspace client one two three [nope]
error: unexpected argument 'nope' found

Usage: btspace client [OPTIONS] <KEYS> <IN> <OUT>

For more information, try '--help'.
$ btspace client
error: the following required arguments were not provided:
  <KEYS>
  <IN>
  <OUT>

Usage: btspace client <KEYS> <IN> <OUT>

For more information, try '--help'.
$ btspace client one
error: the following required arguments were not provided:
  <IN>
  <OUT>

Usage: btspace client <KEYS> <IN> <OUT>

For more information, try '--help'.
$ btspace client one two
error: the following required arguments were not provided:
  <OUT>

Usage: btspace client <KEYS> <IN> <OUT>

For more information, try '--help'.
$ btspace client [--nope]
error: unexpected argument '--nope' found

  tip: to pass '--nope' as a value, use '-- --nope'

Usage: btspace client [OPTIONS] <KEYS> <IN> <OUT>

For more information, try '--help'.
$ btspace client one [--nope]
error: unexpected argument '--nope' found

  tip: to pass '--nope' as a value, use '-- --nope'

Usage: btspace client <KEYS> <IN> <OUT>

For more information, try '--help'.
$ btspace client [--abovee]
error: unexpected argument '--abovee' found

  tip: a similar argument exists: '--above'

Usage: btspace client --above <TIMESTAMP> <KEYS> <IN> <OUT>

For more information, try '--help'.
$ btspace client [--helpp]
error: unexpected argument '--helpp' found

  tip: a similar argument exists: '--help'

Usage: btspace client --help <KEYS> <IN> <OUT>

For more information, try '--help'.
$ btspace client --above
error: a value is required for '--above <TIMESTAMP>' but none was supplied

For more information, try '--help'.
$ btspace client --help=[nope]
error: unexpected value 'nope' for '--help' found; no more were expected

Usage: btspace client --help <KEYS> <IN> <OUT>

For more information, try '--help'.
"#;
