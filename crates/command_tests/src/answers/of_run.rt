//! Made by tools/manual.

pub const ANSWERS: &str = r#"$ btspace run --help
$ btspace run -h
Runs a script on a running cluster and prints a result line for each operation

Usage: btspace run [OPTIONS] <CONFIG> <SCRIPT>

Arguments:
  <CONFIG>  The file of the configuration, in TOML, which names no faulty party, or -
  <SCRIPT>  The file of the script, a line for each operation, which the clients take in turn, or -

Options:
      --drill <REPLICA=DRILL>  Let a replica lie, up to f of them: 3=silent sends nothing, 3=stale answers reads from an empty space
      --summary                Tell the views, numbers, entries, stopped parties and time of the run on standard error
  -h, --help                   Print help

The journal takes 65,536 entries, or as many as the configuration says. One client's writes that fit:
about 1,250 at f = 1, 490 at f = 2, 260 at f = 3. Reads that fit: about 4,300, 2,700, 1,980.
$ btspace run [-q]
error: unexpected argument '-q' found

  tip: to pass '-q' as a value, use '-- -q'

Usage: btspace run [OPTIONS] <CONFIG> <SCRIPT>

For more information, try '--help'.
$ btspace run one two [nope]
error: unexpected argument 'nope' found

Usage: btspace run [OPTIONS] <CONFIG> <SCRIPT>

For more information, try '--help'.
$ btspace run
error: the following required arguments were not provided:
  <CONFIG>
  <SCRIPT>

Usage: btspace run <CONFIG> <SCRIPT>

For more information, try '--help'.
$ btspace run one
error: the following required arguments were not provided:
  <SCRIPT>

Usage: btspace run <CONFIG> <SCRIPT>

For more information, try '--help'.
$ btspace run --summary
error: the following required arguments were not provided:
  <CONFIG>
  <SCRIPT>

Usage: btspace run --summary <CONFIG> <SCRIPT>

For more information, try '--help'.
$ btspace run --summary one
error: the following required arguments were not provided:
  <SCRIPT>

Usage: btspace run --summary <CONFIG> <SCRIPT>

For more information, try '--help'.
$ btspace run [--nope]
error: unexpected argument '--nope' found

  tip: to pass '--nope' as a value, use '-- --nope'

Usage: btspace run [OPTIONS] <CONFIG> <SCRIPT>

For more information, try '--help'.
$ btspace run one [--nope]
error: unexpected argument '--nope' found

  tip: to pass '--nope' as a value, use '-- --nope'

Usage: btspace run <CONFIG> <SCRIPT>

For more information, try '--help'.
$ btspace run --summary [--nope]
error: unexpected argument '--nope' found

  tip: to pass '--nope' as a value, use '-- --nope'

Usage: btspace run --summary <CONFIG> <SCRIPT>

For more information, try '--help'.
$ btspace run [--drilll]
error: unexpected argument '--drilll' found

  tip: a similar argument exists: '--drill'

Usage: btspace run --drill <REPLICA=DRILL> <CONFIG> <SCRIPT>

For more information, try '--help'.
$ btspace run --summary [--drilll]
error: unexpected argument '--drilll' found

  tip: a similar argument exists: '--drill'

Usage: btspace run --summary --drill <REPLICA=DRILL> <CONFIG> <SCRIPT>

For more information, try '--help'.
$ btspace run [--summaryy]
error: unexpected argument '--summaryy' found

  tip: a similar argument exists: '--summary'

Usage: btspace run --summary <CONFIG> <SCRIPT>

For more information, try '--help'.
$ btspace run [--helpp]
error: unexpected argument '--helpp' found

  tip: a similar argument exists: '--help'

Usage: btspace run --help <CONFIG> <SCRIPT>

For more information, try '--help'.
$ btspace run --summary [--helpp]
error: unexpected argument '--helpp' found

  tip: a similar argument exists: '--help'

Usage: btspace run --summary --help <CONFIG> <SCRIPT>

For more information, try '--help'.
$ btspace run --drill
error: a value is required for '--drill <REPLICA=DRILL>' but none was supplied
  [possible values: 0=silent, 0=stale, 1=silent, 1=stale, 2=silent, 2=stale, 3=silent, 3=stale, 4=silent, 4=stale, 5=silent, 5=stale, 6=silent, 6=stale, 7=silent, 7=stale, 8=silent, 8=stale, 9=silent, 9=stale]

For more information, try '--help'.
$ btspace run --summary=[nope]
error: unexpected value 'nope' for '--summary' found; no more were expected

Usage: btspace run --summary <CONFIG> <SCRIPT>

For more information, try '--help'.
$ btspace run --help=[nope]
error: unexpected value 'nope' for '--help' found; no more were expected

Usage: btspace run --help <CONFIG> <SCRIPT>

For more information, try '--help'.
$ btspace run --summary --summary
error: the argument '--summary' cannot be used multiple times

Usage: btspace run [OPTIONS] <CONFIG> <SCRIPT>

For more information, try '--help'.
"#;
