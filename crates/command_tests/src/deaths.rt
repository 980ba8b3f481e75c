//! Workers that follow the examples, and die between two of their calls: others go on from each such place.
//!
//! The results follow from the rules of a space. Where two places leave the same tuples, a script stands for both.

use one_space::local;
use space::Version;
use std::alloc::Global;
use std::process::Abort;

// Scripts, and their results.
type Row = (&'static str, &'static str);

static LOCKS: [Row; 4] = [
    (
        r#"# Ann dies with the lock, whether she has looked again or not. Ben gives her up.
cas ("lock" "printer" * *) ("lock" "printer" 0 "ann")
cas ("lock" "printer" * *) ("lock" "printer" 0 "ben")
cas ("term" "printer" 1) ("term" "printer" 1)
inp ("lock" "printer" 0 "ann")
cas ("lock" "printer" * *) ("lock" "printer" 1 "ben")
rdAll 64 ("term" "printer" ?int)
"#,
        r#"swapped true
swapped false
swapped true
found ("lock" "printer" 0 "ann")
swapped true
all 1 ("term" "printer" 1)
"#,
    ),
    (
        r#"# Ben dies once the next term has begun, while Ann's tuple is there. Cal gives her up too.
cas ("lock" "printer" * *) ("lock" "printer" 0 "ann")
cas ("term" "printer" 1) ("term" "printer" 1)
cas ("lock" "printer" * *) ("lock" "printer" 1 "cal")
cas ("term" "printer" 1) ("term" "printer" 1)
inp ("lock" "printer" 0 "ann")
cas ("lock" "printer" * *) ("lock" "printer" 1 "cal")
rdAll 64 ("term" "printer" ?int)
"#,
        r#"swapped true
swapped true
swapped false
swapped false
found ("lock" "printer" 0 "ann")
swapped true
all 1 ("term" "printer" 1)
"#,
    ),
    (
        r#"# Ben dies once he has given Ann up, and term 0 is still there. Cal gets the lock, and dies with it. Dora takes the
# lower terms away.
cas ("term" "printer" 1) ("term" "printer" 1)
cas ("lock" "printer" * *) ("lock" "printer" 1 "ann")
cas ("term" "printer" 2) ("term" "printer" 2)
inp ("lock" "printer" 1 "ann")
cas ("lock" "printer" * *) ("lock" "printer" 2 "cal")
cas ("term" "printer" 3) ("term" "printer" 3)
inp ("lock" "printer" 2 "cal")
rdAll 64 ("term" "printer" ?int)
inp ("term" "printer" 1)
inp ("term" "printer" 2)
rdAll 64 ("term" "printer" ?int)
"#,
        r#"swapped true
swapped true
swapped true
found ("lock" "printer" 1 "ann")
swapped true
swapped true
found ("lock" "printer" 2 "cal")
all 3 ("term" "printer" 1) ("term" "printer" 2) ("term" "printer" 3)
found ("term" "printer" 1)
found ("term" "printer" 2)
all 1 ("term" "printer" 3)
"#,
    ),
    (
        r#"# Cal gets the lock in term 0 after term 1 has begun, and dies before he lets go. Dora gives him up.
cas ("term" "printer" 1) ("term" "printer" 1)
cas ("lock" "printer" * *) ("lock" "printer" 0 "cal")
rdp ("lock" "printer" * *)
cas ("term" "printer" 1) ("term" "printer" 1)
inp ("lock" "printer" 0 "cal")
cas ("lock" "printer" * *) ("lock" "printer" 1 "dora")
rdAll 64 ("term" "printer" ?int)
"#,
        r#"swapped true
swapped true
found ("lock" "printer" 0 "cal")
swapped false
found ("lock" "printer" 0 "cal")
swapped true
all 1 ("term" "printer" 1)
"#,
    ),
];

static BARRIERS: [Row; 3] = [
    (
        r#"# Ben dies before he arrives. Cal arrives in his name, and the round is over.
cas ("arrived" 1 "ann") ("arrived" 1 "ann")
rdAll 64 ("arrived" ?int ?text)
cas ("arrived" 1 "ben") ("arrived" 1 "ben")
rdAll 64 ("arrived" ?int ?text)
"#,
        r#"swapped true
all 1 ("arrived" 1 "ann")
swapped true
all 2 ("arrived" 1 "ann") ("arrived" 1 "ben")
"#,
    ),
    (
        r#"# Ben dies once he has arrived. Ann sees that round 1 is over; round 2 is, once Cal arrives in Ben's name.
cas ("arrived" 1 "ben") ("arrived" 1 "ben")
cas ("arrived" 1 "ann") ("arrived" 1 "ann")
rdAll 64 ("arrived" ?int ?text)
cas ("arrived" 2 "ann") ("arrived" 2 "ann")
rdAll 64 ("arrived" 2 ?text)
cas ("arrived" 2 "ben") ("arrived" 2 "ben")
rdAll 64 ("arrived" 2 ?text)
"#,
        r#"swapped true
swapped true
all 2 ("arrived" 1 "ben") ("arrived" 1 "ann")
swapped true
all 1 ("arrived" 2 "ann")
swapped true
all 2 ("arrived" 2 "ann") ("arrived" 2 "ben")
"#,
    ),
    (
        r#"# Ben dies before he takes his tuple of round 1 away. It is in nobody's way: Ann looks for round 3, and takes it away.
cas ("arrived" 1 "ben") ("arrived" 1 "ben")
cas ("arrived" 3 "ann") ("arrived" 3 "ann")
rdAll 64 ("arrived" ?int ?text)
inp ("arrived" 1 "ben")
cas ("arrived" 3 "ben") ("arrived" 3 "ben")
rdAll 64 ("arrived" ?int ?text)
"#,
        r#"swapped true
swapped true
all 2 ("arrived" 1 "ben") ("arrived" 3 "ann")
found ("arrived" 1 "ben")
swapped true
all 2 ("arrived" 3 "ann") ("arrived" 3 "ben")
"#,
    ),
];

static ELECTIONS: [Row; 3] = [
    (
        r#"# Ann dies as the leader of term 1, whether she has looked again or not. Ben leads in term 2.
cas ("leader" 1 ?text) ("leader" 1 "ann")
rdAll 64 ("leader" ?int ?text)
cas ("leader" 2 ?text) ("leader" 2 "ben")
rdAll 64 ("leader" ?int ?text)
"#,
        r#"swapped true
all 1 ("leader" 1 "ann")
swapped true
all 2 ("leader" 1 "ann") ("leader" 2 "ben")
"#,
    ),
    (
        r#"# Ben dies as the leader of term 2, before he takes term 1 away. Cal leads in term 3, and takes both away.
cas ("leader" 1 ?text) ("leader" 1 "ann")
cas ("leader" 2 ?text) ("leader" 2 "ben")
cas ("leader" 3 ?text) ("leader" 3 "cal")
rdAll 64 ("leader" ?int ?text)
inp ("leader" 1 ?text)
inp ("leader" 2 ?text)
rdAll 64 ("leader" ?int ?text)
"#,
        r#"swapped true
swapped true
swapped true
all 3 ("leader" 1 "ann") ("leader" 2 "ben") ("leader" 3 "cal")
found ("leader" 1 "ann")
found ("leader" 2 "ben")
all 1 ("leader" 3 "cal")
"#,
    ),
    (
        r#"# Dora stands for term 1 after term 2 has begun, and dies before she takes her tuple away. Ben leads on.
cas ("leader" 2 ?text) ("leader" 2 "ben")
cas ("leader" 1 ?text) ("leader" 1 "dora")
rdAll 64 ("leader" ?int ?text)
cas ("leader" 3 ?text) ("leader" 3 "cal")
rdAll 64 ("leader" ?int ?text)
"#,
        r#"swapped true
swapped true
all 2 ("leader" 2 "ben") ("leader" 1 "dora")
swapped true
all 3 ("leader" 2 "ben") ("leader" 1 "dora") ("leader" 3 "cal")
"#,
    ),
];

static CONFIGURATIONS: [Row; 3] = [
    (
        r#"# Ann dies once she has put version 2. Ben changes the limit on, and takes both lower versions away.
cas ("setting" "limit" ?int *) ("setting" "limit" 1 100)
cas ("setting" "limit" 2 *) ("setting" "limit" 2 250)
rdAll 64 ("setting" "limit" ?int *)
cas ("setting" "limit" 3 *) ("setting" "limit" 3 300)
rdAll 64 ("setting" "limit" ?int *)
inp ("setting" "limit" 1 *)
inp ("setting" "limit" 2 *)
rdAll 64 ("setting" "limit" ?int *)
"#,
        r#"swapped true
swapped true
all 2 ("setting" "limit" 1 100) ("setting" "limit" 2 250)
swapped true
all 3 ("setting" "limit" 1 100) ("setting" "limit" 2 250) ("setting" "limit" 3 300)
found ("setting" "limit" 1 100)
found ("setting" "limit" 2 250)
all 1 ("setting" "limit" 3 300)
"#,
    ),
    (
        r#"# Ben dies between the two: version 2 is left, and version 3 counts.
cas ("setting" "limit" 2 *) ("setting" "limit" 2 250)
cas ("setting" "limit" 3 *) ("setting" "limit" 3 300)
rdAll 64 ("setting" "limit" ?int *)
cas ("setting" "limit" 4 *) ("setting" "limit" 4 350)
rdAll 64 ("setting" "limit" ?int *)
"#,
        r#"swapped true
swapped true
all 2 ("setting" "limit" 2 250) ("setting" "limit" 3 300)
swapped true
all 3 ("setting" "limit" 2 250) ("setting" "limit" 3 300) ("setting" "limit" 4 350)
"#,
    ),
    (
        r#"# Cal puts version 2 too late, and dies before he takes it away. Version 3 counts, as before.
cas ("setting" "limit" 3 *) ("setting" "limit" 3 300)
cas ("setting" "limit" 2 *) ("setting" "limit" 2 7)
rdAll 64 ("setting" "limit" ?int *)
inp ("setting" "limit" 2 *)
rdAll 64 ("setting" "limit" ?int *)
"#,
        r#"swapped true
swapped true
all 2 ("setting" "limit" 3 300) ("setting" "limit" 2 7)
found ("setting" "limit" 2 7)
all 1 ("setting" "limit" 3 300)
"#,
    ),
];

static QUEUES: [Row; 5] = [
    (
        r#"# Ann dies once she has claimed the job, whether she has looked again or not. Ben gives her up.
out ("job" 1 "wash")
cas ("claim" 1 ?text) ("claim" 1 "ann")
cas ("claim" 1 ?text) ("claim" 1 "ben")
inp ("claim" 1 "ann")
cas ("claim" 1 ?text) ("claim" 1 "ben")
rdp ("job" 1 ?text)
"#,
        r#"done
swapped true
swapped false
found ("claim" 1 "ann")
swapped true
found ("job" 1 "wash")
"#,
    ),
    (
        r#"# Ann dies once she has put the result. Ben gives her up, and does the job again: the first result counts.
out ("job" 1 "wash")
cas ("claim" 1 ?text) ("claim" 1 "ann")
cas ("result" 1 ?text) ("result" 1 "clean")
inp ("claim" 1 "ann")
cas ("claim" 1 ?text) ("claim" 1 "ben")
rdp ("job" 1 ?text)
cas ("result" 1 ?text) ("result" 1 "cleaner")
inp ("job" 1 ?text)
inp ("claim" 1 "ben")
rdAll 64 (?text ?int ?text)
"#,
        r#"done
swapped true
swapped true
found ("claim" 1 "ann")
swapped true
found ("job" 1 "wash")
swapped false
found ("job" 1 "wash")
found ("claim" 1 "ben")
all 1 ("result" 1 "clean")
"#,
    ),
    (
        r#"# Ann dies once she has taken the job away. The result is there, and anybody takes her claim away.
out ("job" 1 "wash")
cas ("claim" 1 ?text) ("claim" 1 "ann")
cas ("result" 1 ?text) ("result" 1 "clean")
inp ("job" 1 ?text)
rdp ("job" 1 ?text)
inp ("claim" 1 "ann")
rdp ("result" 1 ?text)
"#,
        r#"done
swapped true
swapped true
found ("job" 1 "wash")
absent
found ("claim" 1 "ann")
found ("result" 1 "clean")
"#,
    ),
    (
        r#"# Dan dies once he has taken the job away, before he takes the result. Eve takes it.
out ("job" 1 "wash")
cas ("result" 1 ?text) ("result" 1 "clean")
rdp ("result" 1 ?text)
inp ("job" 1 ?text)
rdp ("result" 1 ?text)
inp ("job" 1 ?text)
inp ("result" 1 ?text)
"#,
        r#"done
swapped true
found ("result" 1 "clean")
found ("job" 1 "wash")
found ("result" 1 "clean")
absent
found ("result" 1 "clean")
"#,
    ),
    (
        r#"# Ben dies once he has taken Ann's claim away. Cal finds the job as if nobody had claimed it.
out ("job" 1 "wash")
cas ("claim" 1 ?text) ("claim" 1 "ann")
inp ("claim" 1 "ann")
cas ("claim" 1 ?text) ("claim" 1 "cal")
rdp ("job" 1 ?text)
"#,
        r#"done
swapped true
found ("claim" 1 "ann")
swapped true
found ("job" 1 "wash")
"#,
    ),
];

fn is_run(alloc: Global, (script, results): Row) -> bool {
    let mut written = Vec::new(alloc);
    local(alloc, Version::One, script.as_bytes(), &mut written).is_ok()
        && written.as_slice() == results.as_bytes()
}

fn are_run<R: Abort>(rt: &R, alloc: Global, rows: &[Row]) {
    for row in rows {
        assert!(rt; is_run(alloc, *row), "{}", row.0);
    }
}

#[test]
fn others_go_on(rt: HostRuntime) {
    are_run(&rt, rt.alloc(), &LOCKS);
    are_run(&rt, rt.alloc(), &BARRIERS);
    are_run(&rt, rt.alloc(), &ELECTIONS);
    are_run(&rt, rt.alloc(), &CONFIGURATIONS);
    are_run(&rt, rt.alloc(), &QUEUES);
}
