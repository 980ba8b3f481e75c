//! Traces that are put together by hand, and their points.

use crate::answers::{all_hold, spells_answer, spells_op};
use crate::order::frames::{Request, put_batch, reply_frame};
use events::{Config, Entry, EntryKind, SharedBytes};
use points::{Point, points};
use std::alloc::Global;
use std::sync::Arc;
use terms::{ClientId, NoMemory, Number, Party, ReplicaId, Timestamp};
use test_bytes::{FRAME_SEED, Reply};
use tuple_codec::{decode_op, decode_result};

/// The next entry of a trace. One function puts the entries of every test, so each test is a table.
#[derive(Clone, Copy)]
pub enum Step<'a> {
    /// A client calls, with this timestamp, the operation of these bytes.
    Invoke(u8, u64, &'a [u8]),
    /// These replicas execute the batch of this number, of these requests.
    Execute(&'a [u8], u64, &'a [Request<'a>]),
    /// A replica installs the state of this number.
    Install(u8, u64),
    /// A client gets a reply.
    Get(u8, Reply<'a>),
    /// The same, but a bit of the MAC is another one.
    GetForged(u8, Reply<'a>),
    /// A client accepts, for the call of this timestamp, the answer of these bytes.
    Accept(u8, u64, &'a [u8]),
    /// Time goes by at a client.
    Tick(u8),
}

/// The client and the timestamp of a point, the bytes of its operation and its answer, and its position.
pub type Row<'a> = (u16, u64, &'a [u8], &'a [u8], usize);

// Four replicas, of which these are faulty, and three clients.
fn world(alloc: Global, faulty_replicas: &[u16]) -> Option<Config> {
    let faulty_replicas = Vec::from_slice(alloc, faulty_replicas).ok()?;
    Config::new(1, 3, FRAME_SEED, 16, faulty_replicas, Vec::new(alloc)).ok()
}

fn client_of(client: u8) -> ClientId {
    ClientId {
        number: u16::from(client),
    }
}

fn put(trace: &mut Vec<Entry>, kind: EntryKind) -> Result<(), NoMemory> {
    match trace.push(Entry::new(kind)) {
        Ok(()) => Ok(()),
        Err(_) => Err(NoMemory),
    }
}

fn invoke(
    alloc: Global,
    trace: &mut Vec<Entry>,
    client: u8,
    timestamp: u64,
    op: &[u8],
) -> Result<(), NoMemory> {
    match decode_op(alloc, op) {
        Ok((op, _)) => {
            let op = Arc::new(alloc, op)?;
            put(
                trace,
                EntryKind::Invoke(client_of(client), Timestamp(timestamp), op),
            )
        }
        Err(_) => Err(NoMemory),
    }
}

fn execute_text(
    alloc: Global,
    trace: &mut Vec<Entry>,
    replicas: &[u8],
    number: u64,
    batch: &[u8],
) -> Result<(), NoMemory> {
    for &replica in replicas {
        let text = SharedBytes::new(Vec::from_slice(alloc, batch)?)?;
        put(
            trace,
            EntryKind::Executed(ReplicaId(replica), Number(number), text),
        )?;
    }
    Ok(())
}

fn execute(
    alloc: Global,
    trace: &mut Vec<Entry>,
    replicas: &[u8],
    number: u64,
    requests: &[Request<'_>],
) -> Result<(), NoMemory> {
    let mut text = Vec::new(alloc);
    let done = match put_batch(alloc, &mut text, requests) {
        Ok(()) => execute_text(alloc, trace, replicas, number, &text),
        Err(_) => Err(NoMemory),
    };
    drop(text);
    done
}

// A reply whose last bit is turned by this.
fn get(
    alloc: Global,
    trace: &mut Vec<Entry>,
    client: u8,
    reply: Reply<'_>,
    turned: u8,
) -> Result<(), NoMemory> {
    let mut frame = reply_frame(alloc, client, reply)?;
    if let Some(last) = frame.last_mut() {
        *last ^= turned;
    }
    put(
        trace,
        EntryKind::Got(Party::Client(client_of(client)), SharedBytes::new(frame)?),
    )
}

fn accept(
    alloc: Global,
    trace: &mut Vec<Entry>,
    client: u8,
    timestamp: u64,
    answer: &[u8],
) -> Result<(), NoMemory> {
    match decode_result(alloc, answer) {
        Ok((answer, _)) => {
            let answer = Arc::new(alloc, answer)?;
            put(
                trace,
                EntryKind::Accepted(client_of(client), Timestamp(timestamp), answer),
            )
        }
        Err(_) => Err(NoMemory),
    }
}

fn install(
    alloc: Global,
    trace: &mut Vec<Entry>,
    replica: u8,
    number: u64,
) -> Result<(), NoMemory> {
    let root = Arc::new(alloc, [7; 32])?;
    put(
        trace,
        EntryKind::Installed(ReplicaId(replica), Number(number), root),
    )
}

fn tick(trace: &mut Vec<Entry>, client: u8) -> Result<(), NoMemory> {
    put(trace, EntryKind::Tick(Party::Client(client_of(client))))
}

fn put_step(alloc: Global, trace: &mut Vec<Entry>, step: Step<'_>) -> Result<(), NoMemory> {
    match step {
        Step::Invoke(client, timestamp, op) => invoke(alloc, trace, client, timestamp, op),
        Step::Execute(replicas, number, requests) => {
            execute(alloc, trace, replicas, number, requests)
        }
        Step::Install(replica, number) => install(alloc, trace, replica, number),
        Step::Get(client, reply) => get(alloc, trace, client, reply, 0),
        Step::GetForged(client, reply) => get(alloc, trace, client, reply, 1),
        Step::Accept(client, timestamp, answer) => accept(alloc, trace, client, timestamp, answer),
        Step::Tick(client) => tick(trace, client),
    }
}

fn put_steps(alloc: Global, trace: &mut Vec<Entry>, steps: &[Step<'_>]) -> Result<(), NoMemory> {
    for &step in steps {
        put_step(alloc, trace, step)?;
    }
    Ok(())
}

fn is_row(
    alloc: Global,
    point: &Point,
    (client, timestamp, op, answer, position): Row<'_>,
) -> Result<bool, NoMemory> {
    let stands = point.client.number == client
        && point.timestamp.0 == timestamp
        && point.position == position;
    all_hold(&[
        Ok(stands),
        spells_op(alloc, &point.op, op),
        spells_answer(alloc, &point.answer, answer),
    ])
}

fn are_rows(alloc: Global, found: &[Point], rows: &[Row<'_>]) -> Result<bool, NoMemory> {
    for (point, row) in found.iter().zip(rows) {
        if !is_row(alloc, point, *row)? {
            return Ok(false);
        }
    }
    Ok(found.len() == rows.len())
}

fn finds(
    alloc: Global,
    config: &Config,
    trace: &[Entry],
    rows: &[Row<'_>],
) -> Result<bool, NoMemory> {
    let found = points(alloc, config, trace)?;
    let is_right = are_rows(alloc, found.as_slice(), rows);
    drop(found);
    is_right
}

fn finds_in_world(
    alloc: Global,
    faulty_replicas: &[u16],
    trace: &[Entry],
    rows: &[Row<'_>],
) -> Result<bool, NoMemory> {
    match world(alloc, faulty_replicas) {
        Some(config) => {
            let is_right = finds(alloc, &config, trace, rows);
            drop(config);
            is_right
        }
        None => Err(NoMemory),
    }
}

/// Whether these are the points of the trace of these steps, in this order, if these replicas are faulty.
pub fn has_points(
    alloc: Global,
    faulty_replicas: &[u16],
    steps: &[Step<'_>],
    rows: &[Row<'_>],
) -> Result<bool, NoMemory> {
    let mut trace = Vec::new(alloc);
    let is_right = match put_steps(alloc, &mut trace, steps) {
        Ok(()) => finds_in_world(alloc, faulty_replicas, &trace, rows),
        Err(NoMemory) => Err(NoMemory),
    };
    drop(trace);
    is_right
}
