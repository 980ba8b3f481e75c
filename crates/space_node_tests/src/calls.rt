//! Calls in a thread of their own, which the test watches. So the test goes on if memory runs out in a node that the
//! calls need.

use journal::Naming;
use space_node::{CallFault, ClientHandle, Cluster};
use std::alloc::Global;
use std::rt::Clock;
use std::sync::Wait;
use std::sync::atomic::{AtomicU64, Ordering};
use std::thread;
use std::thread::Threads;
use std::time::Duration;
use terms::{ClientId, NoMemory, Party};
use tuple_codec::{Answer, Op};
use tuple_text::{read_line, write_answer};

// After so many looks, with a pause of a millisecond after each, the clients learn that time went by.
const LOOKS_OF_CLIENTS: u32 = 500;

// After so many the calls have no answer.
const MOST_LOOKS: u32 = 6_000;

// How many clients a cluster has here.
const CLIENTS: u16 = 2;

/// How often a test tries before it fails, if memory may have run out.
pub const TRIES: u32 = 2;

/// The line of a call, and the line of its answer.
pub type Call = (&'static str, &'static str);

/// Has the client call one operation after another, and says whether all were answered so. If more nodes stop than
/// the calls can spare, or no answer comes, the cluster ends, and the `Err` says that memory may have run out. The
/// same happens if no thread starts: the calls then come after the cluster has ended.
pub fn call_each<N: Naming + Send + Sync + 'static, R: Threads + Wait + Clock + Sync>(
    rt: &R,
    alloc: Global,
    cluster: &Cluster<N>,
    spare: u8,
    client: &mut ClientHandle<N>,
    calls: &[Call],
) -> Result<bool, NoMemory> {
    let ended = AtomicU64::new(0);
    let flag = &ended;
    let (answered, ended_alone) = thread::join(
        rt,
        move || call_in_thread(rt, alloc, client, calls, flag),
        move || watch(rt, cluster, spare, flag),
    );
    if ended_alone { answered } else { Err(NoMemory) }
}

fn call_in_thread<N: Naming, R: Wait>(
    rt: &R,
    alloc: Global,
    client: &mut ClientHandle<N>,
    calls: &[Call],
    ended: &AtomicU64,
) -> Result<bool, NoMemory> {
    let answered = are_answered(rt, alloc, client, calls);
    ended.store(1, Ordering::SeqCst);
    answered
}

fn are_answered<N: Naming, R: Wait>(
    rt: &R,
    alloc: Global,
    client: &mut ClientHandle<N>,
    calls: &[Call],
) -> Result<bool, NoMemory> {
    for (line, answer) in calls {
        if !is_answered(rt, alloc, client, line, answer)? {
            return Ok(false);
        }
    }
    Ok(true)
}

// A line that is no operation has no answer.
fn is_answered<N: Naming, R: Wait>(
    rt: &R,
    alloc: Global,
    client: &mut ClientHandle<N>,
    line: &str,
    answer: &str,
) -> Result<bool, NoMemory> {
    match read_line(alloc, line.as_bytes()) {
        Ok(Some(op)) => is_answer_to(rt, alloc, client, op, answer),
        Ok(None) => Ok(false),
        Err(_) => Err(NoMemory),
    }
}

fn is_answer_to<N: Naming, R: Wait>(
    rt: &R,
    alloc: Global,
    client: &mut ClientHandle<N>,
    op: Op<Global>,
    line: &str,
) -> Result<bool, NoMemory> {
    match client.call(rt, alloc, op) {
        Ok(answer) => is_line(alloc, &answer, line),
        Err(CallFault::NoMemory) => Err(NoMemory),
        Err(_) => Ok(false),
    }
}

fn is_line(alloc: Global, answer: &Answer<Global>, line: &str) -> Result<bool, NoMemory> {
    let mut text = Vec::new(alloc);
    write_answer(answer, &mut text)?;
    Ok(text.as_slice() == line.as_bytes())
}

// Waits until the calls have ended, and says whether they did by themselves. If more nodes stop than they can spare,
// the cluster ends. It also ends after a time without an end: a frame for which there was no memory is lost, and
// replicas that executed its number don't send it again to the one that missed it.
fn watch<N: Naming + Send + Sync + 'static, R: Wait + Clock>(
    rt: &R,
    cluster: &Cluster<N>,
    spare: u8,
    ended: &AtomicU64,
) -> bool {
    let mut looks = 0u32;
    for _ in rt.forever() {
        if cluster.count_stopped(rt) > spare || looks == MOST_LOOKS {
            cluster.end(rt);
            return false;
        }
        if ended.load(Ordering::SeqCst) != 0 {
            return true;
        }
        looks = looks.wrapping_add(1);
        if looks.is_multiple_of(LOOKS_OF_CLIENTS) {
            tell_clients(rt, cluster);
        }
        thread::sleep(rt, Duration::from_millis(1));
    }
    true
}

fn tell_clients<N: Naming + Send + Sync + 'static, R: Wait>(rt: &R, cluster: &Cluster<N>) {
    for number in 0..CLIENTS {
        cluster.pulse(rt, Party::Client(ClientId { number }));
    }
}
