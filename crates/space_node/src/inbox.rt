//! Inboxes, and their contents.

use crossbeam_channel::{Receiver, SendError, Sender, TryRecvError};
use events::SharedBytes;
use std::sync::Wait;
use std::sync::atomic::{AtomicU64, Ordering};
use std::thread;

/// A message in an inbox.
#[derive(Drop)]
pub(crate) enum InboxMessage {
    /// The bytes of a frame, and the position in the journal at which it was sent.
    Frame(SharedBytes, u64),
    /// Time went by.
    Pulse,
    /// The cluster ends.
    End,
}

/// The end of a channel by which messages are sent to one thread. The thread sleeps on a word beside the channel. The
/// channel itself would wake it under a lock that it needs next, and often more than once.
#[derive(Drop)]
pub(crate) struct Inbox {
    messages: Sender<InboxMessage>,
    // How many frames are to come before the thread that takes the messages is woken, and 0 while it doesn't sleep.
    awaited: AtomicU64,
    // How many more requests may come without waking it.
    left: AtomicU64,
}

impl Inbox {
    pub(crate) fn new(messages: Sender<InboxMessage>) -> Inbox {
        Inbox {
            messages,
            awaited: AtomicU64::new(0),
            left: AtomicU64::new(0),
        }
    }

    /// Sends a frame, and the position at which it was sent. If there is no memory for the message, it is lost.
    pub(crate) fn send<R: Wait>(&self, rt: &R, bytes: SharedBytes, from: u64) {
        let may_lie = is_request(bytes.as_slice()) && self.leaves_one();
        let _ = self.messages.send(rt, InboxMessage::Frame(bytes, from));
        if !may_lie {
            self.count();
        }
    }

    /// Lets so many requests, from now on, lie until another message comes.
    pub(crate) fn leave_requests(&self, count: u64) {
        if self.left.load(Ordering::SeqCst) != count {
            self.left.store(count, Ordering::SeqCst);
        }
    }

    // Whether a request may lie. Of several at once perhaps only one may.
    fn leaves_one(&self) -> bool {
        let left = self.left.load(Ordering::SeqCst);
        left != 0
            && self
                .left
                .compare_exchange(left, left - 1, Ordering::SeqCst, Ordering::SeqCst)
                .is_ok()
    }

    /// Tells the thread that time went by, whatever it waits for. If there is no memory for the message, it is lost.
    pub(crate) fn pulse<R: Wait>(&self, rt: &R) {
        let _ = self.messages.send(rt, InboxMessage::Pulse);
        self.wake();
    }

    /// Ends the thread that takes the messages. A message that the channel has no room for is sent again.
    pub(crate) fn end<R: Wait>(&self, rt: &R) {
        for _ in rt.forever() {
            match self.messages.send(rt, InboxMessage::End) {
                Ok(()) => break,
                Err(SendError::Disconnected(_)) => break,
                Err(SendError::OutOfMemory(_)) => thread::yield_now(),
            }
        }
        self.wake();
    }

    // Counts a frame. Of all threads that have sent one, that of the last awaited frame wakes the thread. Threads that
    // count at once may pass 0: then one of them has found the 1, and the woken thread sets the word again.
    fn count(&self) {
        if self.awaited.load(Ordering::SeqCst) != 0
            && self.awaited.fetch_sub(1, Ordering::SeqCst) == 1
        {
            self.awaited.wake_one();
        }
    }

    // Wakes the thread if it sleeps.
    fn wake(&self) {
        if self.awaited.load(Ordering::SeqCst) != 0 && self.awaited.swap(0, Ordering::SeqCst) != 0 {
            self.awaited.wake_one();
        }
    }

    /// The next message, or None if no thread can send any more. If there is none yet, the thread sleeps until
    /// `awaited` frames have come, or another message; it may wake before. The messages come out of the channel's other
    /// end.
    pub(crate) fn take<R: Wait>(
        &self,
        rt: &R,
        messages: &Receiver<InboxMessage>,
        awaited: u32,
    ) -> Option<InboxMessage> {
        let awaited = awaited.max(1);
        for _ in rt.forever() {
            match messages.try_recv(rt) {
                Ok(message) => return Some(message),
                Err(TryRecvError::Disconnected) => return None,
                Err(TryRecvError::Empty) => {}
            }
            // The word is set before the last look. So a thread that sends after the look finds it set.
            self.awaited.store(u64::from(awaited), Ordering::SeqCst);
            if messages.is_empty() {
                self.awaited.park(rt, awaited);
            }
            self.awaited.store(0, Ordering::SeqCst);
        }
        unreachable!()
    }
}

fn is_request(bytes: &[u8]) -> bool {
    match bytes {
        [_, _, _, _, 0x41, ..] => true,
        _ => false,
    }
}
