//! The parts of a picture.

use events::{Config, Entry, EntryKind, SharedBytes};
use hex::FromHexError;
use picture::{MAX_ROWS, PictureFault, Run, write_picture};
use points::Point;
use std::alloc::{AllocError, Global};
use std::sync::Arc;
use std::test::Fail;
use terms::{ClientId, NoMemory, Number, Party, ReplicaId, Timestamp};
use tuple_codec::{Answer, Op};
use tuple_text::read_line;

// The request of client 0 to put `(1)`, and one of client 1, each with its MAC for replica 0, which Python's hmac made.
const FIRST: &str =
    "000000174101000000000000000001002101010000000000000001000100009efa0fc8983df7540993c5e96e1d36789fcbb97eefca8058b7e4662d542918bc";

const SECOND: &str =
    "0000001741010100000000000000010021010100000000000000020001000077f90a085434b911a4dce95d161062ed653447004d21cdc0b2f1c3c6c791e95a";

// Lanes stand at 96, 246, 396 and so on, and the row of entry `n` at 146 + 14n. An arrow begins at the sending of its
// frame. A dashed one begins 6 above its end, at the lane of a faulty sender or at the margin, 48.
static ARROWS: [&str; 5] = [
    "<path class=\"request\" d=\"M696 160L96 174\"><title>2 got r0 request c0 time 1 ordered out (1)</title></path>",
    "<path class=\"request\" d=\"M696 160L246 188\"><title>3 got r1 request c0 time 1 ordered out (1)</title></path>",
    "<path class=\"request\" d=\"M696 160L246 202\"><title>4 got r1 request c0 time 1 ordered out (1)</title></path>",
    "<path class=\"request fed\" d=\"M846 210L396 216\"><title>5 got r2 request c1 time 1 ordered out (2)</title></path>",
    "<path class=\"no-frame fed\" d=\"M48 224L546 230\"><title>6 got r3 1 bytes that are no frame</title></path>",
];

// No MAC of a frame is for replica 1 or 2, and the last bytes are no frame.
static CROSSES: [&str; 4] = [
    "<title>3 dropped: got r1 request c0 time 1 ordered out (1)</title><path class=\"dropped\" d=\"M242 184l8 8m0-8l-8 8\"/>",
    "<title>4 dropped: got r1 request c0 time 1 ordered out (1)</title><path class=\"dropped\" d=\"M242 198l8 8m0-8l-8 8\"/>",
    "<title>5 dropped: got r2 request c1 time 1 ordered out (2)</title><path class=\"dropped\" d=\"M392 212l8 8m0-8l-8 8\"/>",
    "<title>6 dropped: got r3 1 bytes that are no frame</title><path class=\"dropped\" d=\"M542 226l8 8m0-8l-8 8\"/>",
];

static MARKS: [&str; 8] = [
    "<path class=\"invoked\" d=\"M687 142l8 4-8 4z\"/>",
    "<circle class=\"request\" cx=\"696\" cy=\"160\" r=\"2\"/>",
    "<circle class=\"tick\" cx=\"546\" cy=\"244\" r=\"3\"/>",
    "<circle class=\"executed\" cx=\"96\" cy=\"258\" r=\"4\"/><text x=\"104\" y=\"261\">7</text>",
    "<path class=\"installed\" d=\"M246 266l6 6-6 6-6-6z\"/><text x=\"256\" y=\"275\">16</text>",
    "<circle class=\"accepted\" cx=\"696\" cy=\"286\" r=\"6\"/>",
    ">found (&quot;&lt;&amp;&gt;&quot;)</text>",
    "<title>10 accepted c0 time 1 found (&quot;&lt;&amp;&gt;&quot;)</title>",
];

// Two points of one client at the executed batch, beside each other.
static STARS: [&str; 2] = [
    "<title>point 8 client 0 time 1 found (&quot;&lt;&amp;&gt;&quot;)</title><path class=\"point\" d=\"M678 252l",
    "<title>point 8 client 0 time 2 found (&quot;&lt;&amp;&gt;&quot;)</title><path class=\"point\" d=\"M665 252l",
];

// Four replicas and two clients, the second of them faulty.
fn config(alloc: Global) -> Result<Config, Fail> {
    let faulty = vec![in alloc; 1]?;
    Ok(Config::new(1, 2, [0; 32], 16, Vec::new(alloc), faulty)?)
}

fn frame(alloc: Global, digits: &str) -> Result<Vec<u8>, Fail> {
    match hex::decode(alloc, digits) {
        Err(FromHexError::OutOfMemory) => Err(Fail::from(AllocError)),
        decoded => Ok(decoded?),
    }
}

fn op(alloc: Global, line: &[u8]) -> Result<Op<Global>, Fail> {
    Ok(read_line(alloc, line)?.ok_or("no operation")?)
}

// The tuple that was put by `out`.
fn found(alloc: Global, line: &[u8]) -> Result<Answer<Global>, Fail> {
    match op(alloc, line)? {
        Op::Out(tuple) => Ok(Answer::Found(tuple)),
        _ => Err(Fail::new("no tuple")),
    }
}

const CLIENT: ClientId = ClientId { number: 0 };

fn replica(number: u8) -> Party {
    Party::Replica(ReplicaId(number))
}

fn add(trace: &mut Vec<Entry>, kind: EntryKind) -> Result<(), AllocError> {
    Ok(trace.push(Entry::new(kind))?)
}

fn add_got(alloc: Global, trace: &mut Vec<Entry>, number: u8, digits: &str) -> Result<(), Fail> {
    let frame = SharedBytes::new(frame(alloc, digits)?)?;
    Ok(add(trace, EntryKind::Got(replica(number), frame))?)
}

// A call, whose frame comes to two replicas, to one of them twice; a frame that nobody sent, and bytes that are none;
// and one mark of each other kind.
fn trace(alloc: Global) -> Result<Vec<Entry>, Fail> {
    let mut trace = Vec::new(alloc);
    let call = Arc::new(alloc, op(alloc, b"out (1)")?)?;
    add(&mut trace, EntryKind::Invoke(CLIENT, Timestamp(1), call))?;
    let sent = SharedBytes::new(frame(alloc, FIRST)?)?;
    add(&mut trace, EntryKind::Sent(Party::Client(CLIENT), sent))?;
    add_got(alloc, &mut trace, 0, FIRST)?;
    add_got(alloc, &mut trace, 1, FIRST)?;
    add_got(alloc, &mut trace, 1, FIRST)?;
    add_got(alloc, &mut trace, 2, SECOND)?;
    add_rest(alloc, &mut trace)?;
    Ok(trace)
}

fn add_rest(alloc: Global, trace: &mut Vec<Entry>) -> Result<(), Fail> {
    let mut byte = Vec::new(alloc);
    byte.push(7)?;
    let byte = SharedBytes::new(byte)?;
    add(trace, EntryKind::Got(replica(3), byte))?;
    add(trace, EntryKind::Tick(replica(3)))?;
    let mut null = Vec::new(alloc);
    null.push(0)?;
    let null = SharedBytes::new(null)?;
    add(trace, EntryKind::Executed(ReplicaId(0), Number(7), null))?;
    let root = Arc::new(alloc, [0; 32])?;
    add(trace, EntryKind::Installed(ReplicaId(1), Number(16), root))?;
    let answer = Arc::new(alloc, found(alloc, b"out (\"<&>\")")?)?;
    Ok(add(trace, EntryKind::Accepted(CLIENT, Timestamp(1), answer))?)
}

// How often a text stands in the bytes.
fn count(bytes: &[u8], text: &str) -> usize {
    let text = text.as_bytes();
    let mut count: usize = 0;
    for start in 0..bytes.len() {
        if bytes[start..].starts_with(text) {
            count = count.saturating_add(1);
        }
    }
    count
}

// A point of client 0 at this position.
fn add_point(
    alloc: Global,
    points: &mut Vec<Point>,
    position: usize,
    time: u64,
) -> Result<(), Fail> {
    Ok(points.push(Point {
        client: CLIENT,
        timestamp: Timestamp(time),
        op: op(alloc, b"inp (*)")?,
        answer: found(alloc, b"out (\"<&>\")")?,
        position,
    })?)
}

fn points(alloc: Global) -> Result<Vec<Point>, Fail> {
    let mut points = Vec::new(alloc);
    add_point(alloc, &mut points, 8, 1)?;
    add_point(alloc, &mut points, 8, 2)?;
    Ok(points)
}

// The picture of these entries and points, from one position to another.
fn part(
    alloc: Global,
    trace: &[Entry],
    points: &[Point],
    from: u64,
    to: u64,
) -> Result<Vec<u8>, Fail> {
    let config = config(alloc)?;
    let run = Run {
        config: &config,
        trace,
        points,
    };
    let mut out = Vec::new(alloc);
    write_picture(alloc, run, from, to, &mut out)?;
    Ok(out)
}

// The picture of all of these entries.
fn drawn(alloc: Global, trace: &[Entry]) -> Result<Vec<u8>, Fail> {
    let points = points(alloc)?;
    part(alloc, trace, points.as_slice(), 0, u64::MAX)
}

// Each of the texts stands there once.
fn has_each(picture: &[u8], texts: &[&str]) -> bool {
    texts.iter().all(|text| count(picture, text) == 1)
}

#[test]
fn draws_arrows_and_marks(rt: HostRuntime) -> Result<(), Fail> {
    let trace = trace(rt.alloc())?;
    let picture = drawn(rt.alloc(), trace.as_slice())?;
    assert!(rt; has_each(picture.as_slice(), &ARROWS));
    assert!(rt; has_each(picture.as_slice(), &CROSSES));
    assert!(rt; has_each(picture.as_slice(), &MARKS));
    assert!(rt; has_each(picture.as_slice(), &STARS));
    Ok(())
}

// Each entry, cross and point has one title, and so has the picture. The lines of the legend are no arrows: they go
// straight on.
#[test]
fn draws_nothing_else(rt: HostRuntime) -> Result<(), Fail> {
    let trace = trace(rt.alloc())?;
    let picture = drawn(rt.alloc(), trace.as_slice())?;
    let titles = 1 + trace.len() + CROSSES.len() + STARS.len();
    assert!(rt; count(picture.as_slice(), "<title>") == titles);
    assert!(rt; count(picture.as_slice(), "\"><title>") == ARROWS.len());
    Ok(())
}

// The names of the parties, each at the top and at the foot.
static NAMES: [&str; 6] = [">r0<", ">r1<", ">r2<", ">r3<", ">c0<", ">c1 faulty<"];

#[test]
fn names_who_takes_part(rt: HostRuntime) -> Result<(), Fail> {
    let trace = trace(rt.alloc())?;
    let picture = drawn(rt.alloc(), trace.as_slice())?;
    assert!(rt;
        NAMES
            .iter()
            .all(|name| count(picture.as_slice(), name) == 2)
    );
    Ok(())
}

// Of the entries 4 to 6 the first comes from a sending above them. Its sender has a lane, and so has the faulty client.
// Replica 0 has no part in these.
static PART: [&str; 4] = [
    "<title>Entries 4 to 6 of a run of 11</title>",
    "<path class=\"request before\" d=\"M546 140L96 146\"><title>4 got",
    "<path class=\"request fed\" d=\"M696 154L246 160\"><title>5 got",
    "<path class=\"no-frame fed\" d=\"M48 168L396 174\"><title>6 got",
];

#[test]
fn draws_a_part(rt: HostRuntime) -> Result<(), Fail> {
    let trace = trace(rt.alloc())?;
    let picture = part(rt.alloc(), trace.as_slice(), &[], 4, 6)?;
    assert!(rt; has_each(picture.as_slice(), &PART));
    assert!(rt; count(picture.as_slice(), ">r0<") == 0);
    assert!(rt; count(picture.as_slice(), "\"><title>") == 3);
    Ok(())
}

#[test]
fn draws_an_empty_trace(rt: HostRuntime) -> Result<(), Fail> {
    let picture = part(rt.alloc(), &[], &[], 0, u64::MAX)?;
    assert!(rt; picture.starts_with(b"<?xml version=\"1.0\" encoding=\"UTF-8\"?>\n<svg "));
    assert!(rt; picture.ends_with(b"</svg>\n"));
    assert!(rt; has_each(picture.as_slice(), &["<title>", "A run of 0 entries"]));
    Ok(())
}

// A party that the configuration does not have is drawn too.
#[test]
fn draws_strangers(rt: HostRuntime) -> Result<(), Fail> {
    let mut trace = Vec::new(rt.alloc());
    add(&mut trace, EntryKind::Tick(replica(9)))?;
    let picture = part(rt.alloc(), trace.as_slice(), &[], 0, 0)?;
    assert!(rt; count(picture.as_slice(), ">r9 unknown<") == 2);
    Ok(())
}

// Ticks of client 0, or of one client after another.
fn ticks(alloc: Global, count: u16, is_one: bool) -> Result<Vec<Entry>, Fail> {
    let mut trace = Vec::new(alloc);
    for number in 0..count {
        let client = if is_one { 0 } else { number.min(255) };
        add(
            &mut trace,
            EntryKind::Tick(Party::Client(ClientId { number: client })),
        )?;
    }
    Ok(trace)
}

// Why no picture of these entries from the one position to the other is drawn.
fn refusal(
    alloc: Global,
    trace: &[Entry],
    from: u64,
    to: u64,
) -> Result<Option<PictureFault>, Fail> {
    let config = config(alloc)?;
    let run = Run {
        config: &config,
        trace,
        points: &[],
    };
    let mut out = Vec::new(alloc);
    Ok(write_picture(alloc, run, from, to, &mut out).err())
}

// 2,129 rows of 14 pixels leave room for 190 more.
#[test]
fn refuses_what_is_too_high(rt: HostRuntime) -> Result<(), Fail> {
    let alloc = rt.alloc();
    let trace = ticks(alloc, 2130, true)?;
    let high = PictureFault::TooHigh {
        entries: 2130,
        most: 2129,
    };
    assert_eq!(rt; MAX_ROWS, 2129);
    assert_eq!(rt; refusal(alloc, trace.as_slice(), 0, u64::MAX)?, Some(high));
    assert_eq!(rt; refusal(alloc, trace.as_slice(), 1, u64::MAX)?, None);
    assert_eq!(rt; refusal(alloc, trace.as_slice(), 0, 2128)?, None);
    Ok(())
}

// 198 lanes, 150 pixels apart, leave room for 336 beside them.
#[test]
fn refuses_what_is_too_wide(rt: HostRuntime) -> Result<(), Fail> {
    let alloc = rt.alloc();
    let trace = ticks(alloc, 199, false)?;
    let wide = PictureFault::TooWide {
        parties: 199,
        most: 198,
    };
    assert_eq!(rt; refusal(alloc, trace.as_slice(), 0, u64::MAX)?, Some(wide));
    assert_eq!(rt; refusal(alloc, trace.as_slice(), 0, 197)?, None);
    Ok(())
}

#[test]
fn refuses_what_is_not_there(rt: HostRuntime) -> Result<(), Fail> {
    let alloc = rt.alloc();
    let trace = ticks(alloc, 3, true)?;
    let none = PictureFault::NoEntry { entries: 3 };
    assert_eq!(rt; refusal(alloc, trace.as_slice(), 3, u64::MAX)?, Some(none));
    assert_eq!(rt; refusal(alloc, trace.as_slice(), 2, 1)?, Some(none));
    assert_eq!(rt; refusal(alloc, trace.as_slice(), 2, 2)?, None);
    Ok(())
}

// The whole picture, after a byte that a refusal leaves alone.
fn is_drawn(alloc: Global, run: Run<'_>, whole: &[u8]) -> Result<bool, PictureFault> {
    let mut out = Vec::new(alloc);
    out.push(b'\n')?;
    if write_picture(alloc, run, 0, u64::MAX, &mut out).is_err() {
        if out.as_slice() != b"\n".as_slice() {
            return Ok(false);
        }
        write_picture(alloc, run, 0, u64::MAX, &mut out)?;
    }
    Ok(out.as_slice().strip_prefix(b"\n".as_slice()) == Some(whole))
}

// Passes whichever growth of the last picture is refused, as by `tools/growths`: the bytes are as before, and a second
// try gives the picture that was drawn before.
#[test]
fn refused_memory(rt: HostRuntime) -> Result<(), Fail> {
    let alloc = rt.alloc();
    let (trace, points) = (trace(alloc)?, points(alloc)?);
    let whole = drawn(alloc, trace.as_slice())?;
    let config = config(alloc)?;
    let run = Run {
        config: &config,
        trace: trace.as_slice(),
        points: points.as_slice(),
    };
    assert!(rt; is_drawn(alloc, run, whole.as_slice())?);
    Ok(())
}
