//! Made by tools/manual.

pub const ANSWERS: &str = r#"$ btspace
error: 'btspace' requires a subcommand but one was not provided
  [subcommands: local, run, schedule, keys, replica, client, show, help]

Usage: btspace <COMMAND>

For more information, try '--help'.
$ btspace --help
$ btspace -h
$ btspace help
A tuple space

Usage: btspace <COMMAND>

Commands:
  local     Runs a script on a space of its own and prints a result line for each operation
  run       Runs a script on a running cluster and prints a result line for each operation
  schedule  Runs a schedule in a world of replicas and clients and prints what was accepted
  keys      Writes a file for each party, with the keys that it may have
  replica   Serves a replica by the file of its keys, over records
  client    Serves a client by the file of its keys, over a script and records
  show      Prints the tuple that is encoded by these bytes
  help      Print this message or the help of the given subcommand(s)

Options:
  -h, --help     Print help
  -V, --version  Print version
$ btspace --version
$ btspace -V
btspace 0.1.0
$ btspace [nope]
$ btspace help [nope]
error: unrecognized subcommand 'nope'

Usage: btspace <COMMAND>

For more information, try '--help'.
$ btspace [-q]
error: unexpected argument '-q' found

Usage: btspace <COMMAND>

For more information, try '--help'.
$ btspace [--nope]
error: unexpected argument '--nope' found

Usage: btspace <COMMAND>

For more information, try '--help'.
$ btspace [locall]
error: unrecognized subcommand 'locall'

  tip: a similar subcommand exists: 'local'

Usage: btspace <COMMAND>

For more information, try '--help'.
$ btspace [runn]
error: unrecognized subcommand 'runn'

  tip: a similar subcommand exists: 'run'

Usage: btspace <COMMAND>

For more information, try '--help'.
$ btspace [schedulee]
error: unrecognized subcommand 'schedulee'

  tip: a similar subcommand exists: 'schedule'

Usage: btspace <COMMAND>

For more information, try '--help'.
$ btspace [schedlue]
error: unrecognized subcommand 'schedlue'

  tip: some similar subcommands exist: 'help', 'schedule'

Usage: btspace <COMMAND>

For more information, try '--help'.
$ btspace [keyss]
error: unrecognized subcommand 'keyss'

  tip: a similar subcommand exists: 'keys'

Usage: btspace <COMMAND>

For more information, try '--help'.
$ btspace [replicaa]
error: unrecognized subcommand 'replicaa'

  tip: a similar subcommand exists: 'replica'

Usage: btspace <COMMAND>

For more information, try '--help'.
$ btspace [relpica]
error: unrecognized subcommand 'relpica'

  tip: some similar subcommands exist: 'help', 'replica'

Usage: btspace <COMMAND>

For more information, try '--help'.
$ btspace [clientt]
error: unrecognized subcommand 'clientt'

  tip: a similar subcommand exists: 'client'

Usage: btspace <COMMAND>

For more information, try '--help'.
$ btspace [showw]
error: unrecognized subcommand 'showw'

  tip: a similar subcommand exists: 'show'

Usage: btspace <COMMAND>

For more information, try '--help'.
$ btspace [hepl]
error: unrecognized subcommand 'hepl'

  tip: some similar subcommands exist: 'schedule', 'replica', 'help'

Usage: btspace <COMMAND>

For more information, try '--help'.
$ btspace [helpp]
error: unrecognized subcommand 'helpp'

  tip: a similar subcommand exists: 'help'

Usage: btspace <COMMAND>

For more information, try '--help'.
$ btspace -- local
error: unexpected argument 'local' found

  tip: subcommand 'local' exists; to use it, remove the '--' before it

Usage: btspace <COMMAND>

For more information, try '--help'.
$ btspace -- run
error: unexpected argument 'run' found

  tip: subcommand 'run' exists; to use it, remove the '--' before it

Usage: btspace <COMMAND>

For more information, try '--help'.
$ btspace -- schedule
error: unexpected argument 'schedule' found

  tip: subcommand 'schedule' exists; to use it, remove the '--' before it

Usage: btspace <COMMAND>

For more information, try '--help'.
$ btspace -- keys
error: unexpected argument 'keys' found

  tip: subcommand 'keys' exists; to use it, remove the '--' before it

Usage: btspace <COMMAND>

For more information, try '--help'.
$ btspace -- replica
error: unexpected argument 'replica' found

  tip: subcommand 'replica' exists; to use it, remove the '--' before it

Usage: btspace <COMMAND>

For more information, try '--help'.
$ btspace -- client
error: unexpected argument 'client' found

  tip: subcommand 'client' exists; to use it, remove the '--' before it

Usage: btspace <COMMAND>

For more information, try '--help'.
$ btspace -- show
error: unexpected argument 'show' found

  tip: subcommand 'show' exists; to use it, remove the '--' before it

Usage: btspace <COMMAND>

For more information, try '--help'.
$ btspace -- help
error: unexpected argument 'help' found

  tip: subcommand 'help' exists; to use it, remove the '--' before it

Usage: btspace <COMMAND>

For more information, try '--help'.
$ btspace [--helpp]
error: unexpected argument '--helpp' found

  tip: a similar argument exists: '--help'

Usage: btspace --help <COMMAND>

For more information, try '--help'.
$ btspace [--versionn]
error: unexpected argument '--versionn' found

  tip: a similar argument exists: '--version'

Usage: btspace --version <COMMAND>

For more information, try '--help'.
$ btspace --help=[nope]
error: unexpected value 'nope' for '--help' found; no more were expected

Usage: btspace --help <COMMAND>

For more information, try '--help'.
$ btspace --version=[nope]
error: unexpected value 'nope' for '--version' found; no more were expected

Usage: btspace --version <COMMAND>

For more information, try '--help'.
$ btspace help local
Runs a script on a space of its own and prints a result line for each operation

Usage: btspace local [OPTIONS] <SCRIPT>

Arguments:
  <SCRIPT>  The file of the script, a line for each operation, or -

Options:
      --space <VERSION>  The version of the space; one of version 2 also takes wide numbers and inAll [default: 1] [possible values: 1, 2]
      --keep-going       Go on after a refused line; the status is 1 at the end if there was one
  -h, --help             Print help
$ btspace help run
Runs a script on a running cluster and prints a result line for each operation

Usage: btspace run [OPTIONS] <CONFIG> <SCRIPT>

Arguments:
  <CONFIG>  The file of the configuration, in TOML, which names no faulty party, or -
  <SCRIPT>  The file of the script, a line for each operation, which the clients take in turn, or -

Options:
      --drill <REPLICA=DRILL>  Let a replica lie, up to f of them: 3=silent sends nothing, 3=stale answers reads from an empty space
      --summary                Tell the views, numbers, entries, stopped parties and time of the run on standard error
  -h, --help                   Print help

The journal takes 65,536 entries, or as many as the configuration says. One client's writes that fit:
about 1,250 at f = 1, 490 at f = 2, 260 at f = 3. Reads that fit: about 4,300, 2,700, 1,980.
$ btspace help schedule
Runs a schedule in a world of replicas and clients and prints what was accepted

Usage: btspace schedule [OPTIONS] <CONFIG> <FILE>

Arguments:
  <CONFIG>  The file of the configuration, in TOML, or -
  <FILE>    The file of the schedule, a line for each step, or -

Options:
      --trace            Print the entries of the trace before the report, a line each
      --picture          Print the run as an SVG message sequence chart in place of the report
      --from <POSITION>  The position of the first entry that the chart shows [default: 0]
      --to <POSITION>    The position of the last entry that the chart shows [default: the last one]
  -h, --help             Print help
$ btspace help keys
Writes a file for each party, with the keys that it may have

Usage: btspace keys <CONFIG> <FOLDER>

Arguments:
  <CONFIG>  The file of the configuration, in TOML, or -
  <FOLDER>  The folder of the files r0.toml .. and c0.toml .., which is made if it isn't there

Options:
  -h, --help  Print help

The seed gives all keys, so no party may have it. Without a seed in the configuration a fresh one is drawn from
/dev/urandom, and kept nowhere.
$ btspace help replica
Serves a replica by the file of its keys, over records

Usage: btspace replica <KEYS>

Arguments:
  <KEYS>  The file of the replica's keys, as keys writes it

Options:
  -h, --help  Print help

It reads records from standard input and writes records to standard output: frames that come and go, and timers.
Something else has to carry them between the parties. It ends with its input.
$ btspace help client
Serves a client by the file of its keys, over a script and records

Usage: btspace client [OPTIONS] <KEYS> <IN> <OUT>

Arguments:
  <KEYS>  The file of the client's keys, as keys writes it
  <IN>    The file from which it reads records
  <OUT>   The file to which it writes records

Options:
      --above <TIMESTAMP>  Begin above this timestamp, below 2^62 [default: the milliseconds since 1970, times 2^20]
  -h, --help               Print help

It calls the operations of the lines on standard input, and prints a line for each: the result, or ! and why the line
is refused. Something else has to carry records between the parties: they are read at IN and written to OUT, which are
named pipes or /dev/fd/N. A client that is started again has to begin above all its earlier timestamps. By the clock it
does, unless that is set back.
$ btspace help show
Prints the tuple that is encoded by these bytes

Usage: btspace show <HEX>

Arguments:
  <HEX>  The bytes of a tuple, two hexadecimal digits a byte

Options:
  -h, --help  Print help
$ btspace [--spacee] local
error: unexpected argument '--spacee' found

  tip: 'local --space' exists

Usage: btspace <COMMAND>

For more information, try '--help'.
$ btspace [--keep-goingg] local
error: unexpected argument '--keep-goingg' found

  tip: 'local --keep-going' exists

Usage: btspace <COMMAND>

For more information, try '--help'.
$ btspace [--drilll] run
error: unexpected argument '--drilll' found

  tip: 'run --drill' exists

Usage: btspace <COMMAND>

For more information, try '--help'.
$ btspace [--summaryy] run
error: unexpected argument '--summaryy' found

  tip: 'run --summary' exists

Usage: btspace <COMMAND>

For more information, try '--help'.
$ btspace [--tracee] schedule
error: unexpected argument '--tracee' found

  tip: 'schedule --trace' exists

Usage: btspace <COMMAND>

For more information, try '--help'.
$ btspace [--picturee] schedule
error: unexpected argument '--picturee' found

  tip: 'schedule --picture' exists

Usage: btspace <COMMAND>

For more information, try '--help'.
$ btspace [--fromm] schedule
error: unexpected argument '--fromm' found

  tip: 'schedule --from' exists

Usage: btspace <COMMAND>

For more information, try '--help'.
$ btspace [--too] schedule
error: unexpected argument '--too' found

  tip: 'schedule --to' exists

Usage: btspace <COMMAND>

For more information, try '--help'.
$ btspace [--abovee] client
error: unexpected argument '--abovee' found

  tip: 'client --above' exists

Usage: btspace <COMMAND>

For more information, try '--help'.
"#;
