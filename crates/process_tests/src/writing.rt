//! Records that are written.

use records::{PutFault, put_frame, put_timer};
use std::alloc::Global;
use terms::{ClientId, Party, ReplicaId};

// The parties 0, 3 and 256.
fn parties() -> [Party; 3] {
    [
        Party::Replica(ReplicaId(0)),
        Party::Replica(ReplicaId(3)),
        Party::Client(ClientId { number: 0 }),
    ]
}

// Whether the bytes follow what stood there.
fn follow(text: &[u8], bytes: &[u8]) -> bool {
    text.len() == bytes.len() + 2 && text.starts_with(&[7, 7]) && text.ends_with(bytes)
}

fn start(alloc: Global) -> Vec<u8> {
    let mut text = Vec::new(alloc);
    let _ = text.extend_from_slice(&[7, 7]);
    text
}

fn puts_frame(alloc: Global, receivers: &[Party], frame: &[u8], bytes: &[u8]) -> bool {
    let mut text = start(alloc);
    put_frame(receivers, frame, &mut text).is_ok() && follow(text.as_slice(), bytes)
}

fn puts_timer(alloc: Global, number: u64, milliseconds: u32, bytes: &[u8]) -> bool {
    let mut text = start(alloc);
    put_timer(number, milliseconds, &mut text).is_ok() && follow(text.as_slice(), bytes)
}

// The bytes were made by Python's struct: '>IB', then for a frame a count, '>H' for each receiver and the frame, and
// for a timer '>QI'.
#[test]
fn records_have_their_bytes(rt: HostRuntime) {
    let alloc = rt.alloc();
    let frame = [0, 0, 0, 10, 1, 3, 0, 0, 0, 3, 1, 0, 0xaa, 0xbb];
    assert!(rt; puts_frame(alloc, &parties(), &[0xaa, 0xbb], &frame));
    assert!(rt; puts_frame(alloc, &[], &[], &[0, 0, 0, 2, 1, 0]));
    let timer = [0, 0, 0, 13, 2, 0, 0, 0, 0, 0, 0, 0, 1, 0, 0, 7, 0xd0];
    assert!(rt; puts_timer(alloc, 1, 2_000, &timer));
    let last = [
        0, 0, 0, 13, 2, 255, 255, 255, 255, 255, 255, 255, 255, 255, 255, 255, 255,
    ];
    assert!(rt; puts_timer(alloc, u64::MAX, u32::MAX, &last));
}

// How a frame of so many bytes for so many receivers goes, and how many bytes it takes.
fn outcome(alloc: Global, receivers: usize, len: usize) -> Option<(Result<(), PutFault>, usize)> {
    let Ok(receivers) = vec![in alloc; Party::Replica(ReplicaId(1)); receivers] else {
        return None;
    };
    let Ok(frame) = vec![in alloc; 9u8; len] else {
        return None;
    };
    let mut text = Vec::new(alloc);
    let put = put_frame(receivers.as_slice(), frame.as_slice(), &mut text);
    Some((put, text.len()))
}

#[test]
fn the_largest_frames_have_a_record(rt: HostRuntime) {
    let alloc = rt.alloc();
    let largest = outcome(alloc, 255, 4_194_304);
    assert!(rt; largest == Some((Ok(()), 4 + 2 + 510 + 4_194_304)));
    assert!(rt; outcome(alloc, 255, 4_194_305) == Some((Err(PutFault::TooLarge), 0)));
    assert!(rt; outcome(alloc, 256, 4_194_304) == Some((Err(PutFault::TooLarge), 0)));
}
