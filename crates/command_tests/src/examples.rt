//! The example scripts, and their results.

use crate::clusters::{CLUSTER_SETTINGS, is_answered};
use one_space::local;
use space::Version;
use std::alloc::Global;
use std::process::Abort;

const LOCK_SCRIPT: &str =
    r#"# A lock on a printer: a tuple names who holds it, and since which term. The term is the highest that a tuple names,
# or 0.
#
# A holder that dies keeps the lock, and nothing else is lost. Whoever knows that it is dead gives it up: the next
# term begins, and then the holder's tuple is taken away. If the holder was only slow, its older term shows that it
# holds the lock no more. If whoever gives it up dies in between, anybody may do the same once more.

# Ann asks for the lock in term 0, and gets it: no holder's tuple is there.
cas ("lock" "printer" * *) ("lock" "printer" 0 "ann")

# She looks again. No later term has begun meanwhile, so she holds the lock.
rdAll 64 ("term" "printer" ?int)

# Ben asks, and has to ask again later. He can see who holds the lock.
cas ("lock" "printer" * *) ("lock" "printer" 0 "ben")
rdp ("lock" "printer" * *)

# Ann lets go: she takes her own tuple away.
inp ("lock" "printer" 0 "ann")

# Ben asks again, and holds the lock. Then he dies.
cas ("lock" "printer" * *) ("lock" "printer" 0 "ben")
rdAll 64 ("term" "printer" ?int)

# Ann knows it, and gives him up: term 1 begins, and then his tuple is taken away.
cas ("term" "printer" 1) ("term" "printer" 1)
inp ("lock" "printer" 0 "ben")

# Cal knows of no term but 0. He gets the lock in it, but sees the later term when he looks again. So he lets go, and
# asks in that one.
cas ("lock" "printer" * *) ("lock" "printer" 0 "cal")
rdAll 64 ("term" "printer" ?int)
inp ("lock" "printer" 0 "cal")
cas ("lock" "printer" * *) ("lock" "printer" 1 "cal")
rdAll 64 ("term" "printer" ?int)

# Ben was only slow. He lets go, finds his tuple gone, and knows that he was given up.
inp ("lock" "printer" 0 "ben")
"#;

const LOCK_RESULTS: &str = r#"swapped true
all 0
swapped false
found ("lock" "printer" 0 "ann")
found ("lock" "printer" 0 "ann")
swapped true
all 0
swapped true
found ("lock" "printer" 0 "ben")
swapped true
all 1 ("term" "printer" 1)
found ("lock" "printer" 0 "cal")
swapped true
all 1 ("term" "printer" 1)
absent
"#;

const BARRIER_SCRIPT: &str =
    r#"# A barrier for three workers: nobody begins the next round before all have arrived. Each arrives by a tuple of its
# own.
#
# A worker that dies before it arrives keeps the others waiting, who see that its tuple isn't there. Whoever takes its
# work over arrives in its name. A worker that dies later costs nothing.

# Ann arrives at round 1, and looks who is there. Three are awaited, so she looks again later.
cas ("arrived" 1 "ann") ("arrived" 1 "ann")
rdAll 64 ("arrived" ?int ?text)

# Ben arrives. He is started again and arrives once more, which changes nothing.
cas ("arrived" 1 "ben") ("arrived" 1 "ben")
cas ("arrived" 1 "ben") ("arrived" 1 "ben")
rdAll 64 ("arrived" ?int ?text)

# Cal has died on the way. Dora takes his work over, and arrives in his name. Now all three are there.
cas ("arrived" 1 "cal") ("arrived" 1 "cal")
rdAll 64 ("arrived" ?int ?text)

# Ann goes on, and has arrived at round 2 before Ben looks. Where a later round has begun, round 1 is over.
cas ("arrived" 2 "ann") ("arrived" 2 "ann")
rdAll 64 ("arrived" ?int ?text)

# Ben and Dora arrive at round 2. Whoever sees that it is over takes its own tuple of round 1 away.
cas ("arrived" 2 "ben") ("arrived" 2 "ben")
cas ("arrived" 2 "cal") ("arrived" 2 "cal")
rdAll 64 ("arrived" 2 ?text)
inp ("arrived" 1 "ann")
inp ("arrived" 1 "ben")
inp ("arrived" 1 "cal")

# Cal was only slow, and arrives at round 1 now. He sees round 2, so he was replaced. He takes his tuple away.
cas ("arrived" 1 "cal") ("arrived" 1 "cal")
rdAll 64 ("arrived" ?int ?text)
inp ("arrived" 1 "cal")
"#;

const BARRIER_RESULTS: &str = r#"swapped true
all 1 ("arrived" 1 "ann")
swapped true
swapped false
all 2 ("arrived" 1 "ann") ("arrived" 1 "ben")
swapped true
all 3 ("arrived" 1 "ann") ("arrived" 1 "ben") ("arrived" 1 "cal")
swapped true
all 4 ("arrived" 1 "ann") ("arrived" 1 "ben") ("arrived" 1 "cal") ("arrived" 2 "ann")
swapped true
swapped true
all 3 ("arrived" 2 "ann") ("arrived" 2 "ben") ("arrived" 2 "cal")
found ("arrived" 1 "ann")
found ("arrived" 1 "ben")
found ("arrived" 1 "cal")
swapped true
all 4 ("arrived" 2 "ann") ("arrived" 2 "ben") ("arrived" 2 "cal") ("arrived" 1 "cal")
found ("arrived" 1 "cal")
"#;

const ELECTION_SCRIPT: &str =
    r#"# The election of a leader: a tuple for each term names who leads in it, and the highest term counts.
#
# A leader that dies leads until another stands for the next term, and nothing is lost. If it was only slow, it sees
# the higher term when it looks. What it has ordered meanwhile shows by its term.

# Nobody leads yet. Ann stands for term 1. She looks again: hers is the highest term, so she leads.
rdAll 64 ("leader" ?int ?text)
cas ("leader" 1 ?text) ("leader" 1 "ann")
rdAll 64 ("leader" ?int ?text)

# Ben stands for term 1 too, and isn't the first. He follows Ann.
cas ("leader" 1 ?text) ("leader" 1 "ben")
rdAll 64 ("leader" ?int ?text)

# Ann dies. Ben and Cal know it, and stand for term 2. Ben is first: he looks again, leads, and takes term 1 away.
cas ("leader" 2 ?text) ("leader" 2 "ben")
cas ("leader" 2 ?text) ("leader" 2 "cal")
rdAll 64 ("leader" ?int ?text)
inp ("leader" 1 ?text)

# Dora had looked before anybody led, and stands for term 1 only now. No tuple of term 1 is there, so hers is put. She
# looks again and sees a higher term. So she takes hers away, and follows Ben.
cas ("leader" 1 ?text) ("leader" 1 "dora")
rdAll 64 ("leader" ?int ?text)
inp ("leader" 1 "dora")

# What a leader orders has its term. Ann was only slow, and orders in term 1: whoever knows of term 2 passes that
# over.
out ("order" 2 "open the gate")
out ("order" 1 "close the gate")
rdAll 64 ("order" ?int ?text)
"#;

const ELECTION_RESULTS: &str = r#"all 0
swapped true
all 1 ("leader" 1 "ann")
swapped false
all 1 ("leader" 1 "ann")
swapped true
swapped false
all 2 ("leader" 1 "ann") ("leader" 2 "ben")
found ("leader" 1 "ann")
swapped true
all 2 ("leader" 2 "ben") ("leader" 1 "dora")
found ("leader" 1 "dora")
done
done
all 2 ("order" 2 "open the gate") ("order" 1 "close the gate")
"#;

const CONFIGURATION_SCRIPT: &str =
    r#"# A configuration that is shared: a tuple has the name of a setting, its version and its value. The highest version
# counts.
#
# A change puts the next version, and takes the lower ones away after that. So a setting has a value wherever a worker
# dies. One that dies in between leaves a tuple too many, which the next change takes away.

# Each setting gets a first version, unless it has one.
cas ("setting" "color" ?int *) ("setting" "color" 1 "dark red")
cas ("setting" "limit" ?int *) ("setting" "limit" 1 100)
cas ("setting" "verbose" ?int *) ("setting" "verbose" 1 false)
cas ("setting" "mask" ?int *) ("setting" "mask" 1 x00ff)
cas ("setting" "origin" ?int *) ("setting" "origin" 1 (3 -4))

# The limit has a value already, so it keeps it.
cas ("setting" "limit" ?int *) ("setting" "limit" 1 5)

# Ann and Ben read the limit, and both change it. Ann is first with version 2, so Ben has to read again.
rdAll 64 ("setting" "limit" ?int *)
cas ("setting" "limit" 2 *) ("setting" "limit" 2 250)
cas ("setting" "limit" 2 *) ("setting" "limit" 2 300)

# Ann dies before she takes version 1 away. Ben reads both versions, and version 2 counts.
rdAll 64 ("setting" "limit" ?int *)

# He puts version 3 and looks again: it is the highest, so his change is made. He takes the lower versions away.
cas ("setting" "limit" 3 *) ("setting" "limit" 3 300)
rdAll 64 ("setting" "limit" ?int *)
inp ("setting" "limit" 1 *)
inp ("setting" "limit" 2 *)

# Cal had read version 1. No tuple of version 2 is there any more, so his is put. He looks again and sees a higher
# version. So he takes his away, and decides anew.
cas ("setting" "limit" 2 *) ("setting" "limit" 2 7)
rdAll 64 ("setting" "limit" ?int *)
inp ("setting" "limit" 2 *)

# All settings, the oldest first.
rdAll 64 ("setting" ?text ?int *)

# The oldest two.
rdAll 2 ("setting" ?text ?int *)

# The settings whose value is a tuple, those whose value is a byte string, and those whose value is true.
rdAll 64 ("setting" ?text ?int ?tuple)
rdAll 64 ("setting" ?text ?int ?bytes)
rdAll 64 ("setting" ?text ?int true)

# No setting has this name.
rdp ("setting" "size" ?int *)
"#;

const CONFIGURATION_RESULTS: &str = r#"swapped true
swapped true
swapped true
swapped true
swapped true
swapped false
all 1 ("setting" "limit" 1 100)
swapped true
swapped false
all 2 ("setting" "limit" 1 100) ("setting" "limit" 2 250)
swapped true
all 3 ("setting" "limit" 1 100) ("setting" "limit" 2 250) ("setting" "limit" 3 300)
found ("setting" "limit" 1 100)
found ("setting" "limit" 2 250)
swapped true
all 2 ("setting" "limit" 3 300) ("setting" "limit" 2 7)
found ("setting" "limit" 2 7)
all 5 ("setting" "color" 1 "dark red") ("setting" "verbose" 1 false) ("setting" "mask" 1 x00ff) ("setting" "origin" 1 (3 -4)) ("setting" "limit" 3 300)
all 2 ("setting" "color" 1 "dark red") ("setting" "verbose" 1 false)
all 1 ("setting" "origin" 1 (3 -4))
all 1 ("setting" "mask" 1 x00ff)
all 0
absent
"#;

const QUEUE_SCRIPT: &str =
    r#"# A queue of work: a job stays until its result is there. A claim names the worker that does it.
#
# A worker that dies keeps its claim, and nothing is lost. Whoever knows that it is dead takes the claim away, and
# claims the job. If the worker was only slow, the job is done twice, and the first result counts.

# Three jobs are put. Each has a number that no other job ever has.
out ("job" 1 "wash")
out ("job" 2 "dry \"warm\"")
out ("job" 3 "fold")

# Ann looks which jobs there are, and claims the oldest. She looks again: it is still to do.
rdAll 64 ("job" ?int ?text)
cas ("claim" 1 ?text) ("claim" 1 "ann")
rdp ("job" 1 ?text)

# Ben finds job 1 claimed, and claims job 2.
cas ("claim" 1 ?text) ("claim" 1 "ben")
cas ("claim" 2 ?text) ("claim" 2 "ben")
rdp ("job" 2 ?text)

# Ann has done job 1. She puts the result, takes the job away after that, and last her claim.
cas ("result" 1 ?text) ("result" 1 "clean")
inp ("job" 1 ?text)
inp ("claim" 1 "ann")

# Ben dies. Cal knows it. He takes the claim away, claims job 2, and does it.
inp ("claim" 2 "ben")
cas ("claim" 2 ?text) ("claim" 2 "cal")
rdp ("job" 2 ?text)
cas ("result" 2 ?text) ("result" 2 "dry")

# Cal dies too, right after that. Whoever waits for the result takes the job away, and then the result.
rdp ("result" 2 ?text)
inp ("job" 2 ?text)
inp ("result" 2 ?text)

# Dora had seen job 1, and claims it only now. She looks again: it is gone. So she takes her claim away.
cas ("claim" 1 ?text) ("claim" 1 "dora")
rdp ("job" 1 ?text)
inp ("claim" 1 "dora")

# Anybody may take the claim on a job away that is gone.
inp ("claim" 2 "cal")

# Job 3 is still to do, and the result of job 1 is there.
rdAll 64 ("job" ?int ?text)
rdAll 64 ("result" ?int ?text)
"#;

const QUEUE_RESULTS: &str = r#"done
done
done
all 3 ("job" 1 "wash") ("job" 2 "dry \"warm\"") ("job" 3 "fold")
swapped true
found ("job" 1 "wash")
swapped false
swapped true
found ("job" 2 "dry \"warm\"")
swapped true
found ("job" 1 "wash")
found ("claim" 1 "ann")
found ("claim" 2 "ben")
swapped true
found ("job" 2 "dry \"warm\"")
swapped true
found ("result" 2 "dry")
found ("job" 2 "dry \"warm\"")
found ("result" 2 "dry")
swapped true
absent
found ("claim" 1 "dora")
found ("claim" 2 "cal")
all 1 ("job" 3 "fold")
all 1 ("result" 1 "clean")
"#;

const EVENTS_SCRIPT: &str =
    r#"# Events that a collector takes in batches. It needs a space of version 2: btspace local --space 2.
#
# A collector that dies has taken its last batch with it. Where that matters, it reads the batch, works, and takes each
# event after that.

# Each event has an identifier of 128 bits, a wide number.
out ("event" w73786976294838206465 "start")
out ("event" w73786976294838206466 "load")
out ("event" w73786976294838206467 "stop")

# A wide number is of a kind of its own: ?int asks for another.
rdp ("event" ?int ?text)
rdp ("event" ?wide ?text)

# An event that comes again changes nothing.
cas ("event" w73786976294838206465 *) ("event" w73786976294838206465 "start")

# The collector takes the oldest two events at once.
inAll 2 ("event" ?wide ?text)

# It takes all that are left, up to 64.
inAll 64 ("event" ?wide ?text)

# Nothing is left to take.
inAll 64 ("event" ?wide ?text)

# The numbers 3 and w3 are two values, and each is read by its own kind.
out ("count" 3)
out ("count" w3)
rdp ("count" ?int)
rdp ("count" ?wide)
rdAll 64 ("count" *)
"#;

const EVENTS_RESULTS: &str = r#"done
done
done
absent
found ("event" w73786976294838206465 "start")
swapped false
all 2 ("event" w73786976294838206465 "start") ("event" w73786976294838206466 "load")
all 1 ("event" w73786976294838206467 "stop")
all 0
done
done
found ("count" 3)
found ("count" w3)
all 2 ("count" 3) ("count" w3)
"#;

const UPGRADE_SCRIPT: &str =
    r#"# Serial numbers outgrow 64 bits: the space is upgraded while it runs, and goes on with wide numbers.
#
# One cas gives a number out, and its tuple stays. So no number is lost or given out twice, wherever a worker dies.

# Ann and Ben get the last numbers of 64 bits.
cas ("serial" 9223372036854775806 ?text) ("serial" 9223372036854775806 "ann")
cas ("serial" 9223372036854775807 ?text) ("serial" 9223372036854775807 "ben")

# The next one is a wide number, which a space of version 1 refuses.
cas ("serial" w9223372036854775808 ?text) ("serial" w9223372036854775808 "cal")

# It refuses all that is of version 2: to ask for a wide number, and to take several tuples at once.
rdp ("serial" ?wide ?text)
inAll 2 ("serial" * ?text)

# Client 0 upgrades the space. From any other client this would be refused.
upgrade

# The tuples are those from before.
rdAll 64 (?text * *)

# Now Cal gets the number. It is of another kind, which ?int doesn't ask for.
cas ("serial" w9223372036854775808 ?text) ("serial" w9223372036854775808 "cal")
rdAll 64 ("serial" ?int ?text)
rdAll 64 ("serial" ?wide ?text)

# Dan asks for the same number, and gets the next one.
cas ("serial" w9223372036854775808 ?text) ("serial" w9223372036854775808 "dan")
cas ("serial" w9223372036854775809 ?text) ("serial" w9223372036854775809 "dan")

# An upgrade that comes again changes nothing.
upgrade

# The book is closed. The oldest two numbers are taken at once, and then all that are left, of either kind.
inAll 2 ("serial" * ?text)
inAll 64 ("serial" * ?text)
"#;

const UPGRADE_RESULTS: &str = r#"swapped true
swapped true
refused
refused
refused
done
all 2 ("serial" 9223372036854775806 "ann") ("serial" 9223372036854775807 "ben")
swapped true
all 2 ("serial" 9223372036854775806 "ann") ("serial" 9223372036854775807 "ben")
all 1 ("serial" w9223372036854775808 "cal")
swapped false
swapped true
done
all 2 ("serial" 9223372036854775806 "ann") ("serial" 9223372036854775807 "ben")
all 2 ("serial" w9223372036854775808 "cal") ("serial" w9223372036854775809 "dan")
"#;

static ROWS: [(&str, &str); 6] = [
    (LOCK_SCRIPT, LOCK_RESULTS),
    (BARRIER_SCRIPT, BARRIER_RESULTS),
    (ELECTION_SCRIPT, ELECTION_RESULTS),
    (CONFIGURATION_SCRIPT, CONFIGURATION_RESULTS),
    (QUEUE_SCRIPT, QUEUE_RESULTS),
    (UPGRADE_SCRIPT, UPGRADE_RESULTS),
];

// A cluster's space begins as one of version 1, so these scripts run only on a space of their own.
static WIDE_ROWS: [(&str, &str); 1] = [(EVENTS_SCRIPT, EVENTS_RESULTS)];

fn is_run(alloc: Global, version: Version, (script, results): (&str, &str)) -> bool {
    let mut written = Vec::new(alloc);
    local(alloc, version, script.as_bytes(), &mut written).is_ok()
        && written.as_slice() == results.as_bytes()
}

// Each example has its results on a space of its own.
fn are_run<R: Abort>(rt: &R, alloc: Global, version: Version, rows: &[(&str, &str)]) {
    for row in rows {
        assert!(rt; is_run(alloc, version, *row), "{}", row.0);
    }
}

#[test]
fn runs_the_examples(rt: HostRuntime) {
    are_run(&rt, rt.alloc(), Version::One, &ROWS);
    are_run(&rt, rt.alloc(), Version::Two, &WIDE_ROWS);
}

// With one client a cluster answers as one space does.
#[test]
fn runs_the_examples_on_a_cluster(rt: HostRuntime) {
    for (script, results) in &ROWS {
        assert!(rt;
            is_answered(&rt, rt.alloc(), (CLUSTER_SETTINGS, script, results)),
            "{script}"
        );
    }
}
