//! The loop of a replica's process.

ghost use Rattle.std.specs.Prelude.{◌≡◌, ◌++◌, [], List, ℕ, IfSome, OnOk, OnErr, MatchResult, Option};
ghost use Rattle.std.specs.Io.{StartsWith};
ghost use Rattle.protocol.specs.System.Configuration.{Configuration};
ghost use Rattle.protocol.specs.System.Trace.{Entry};
ghost use Rattle.patience.specs.Moments.{Moment};
ghost use Rattle.records.specs.Records.{came, timer_over};
ghost use Rattle.records.specs.NoticeView.{notice_data};
ghost use Rattle.records.specs.ReaderView.{left_of, at_hand_of};
ghost use Rattle.replica_process.specs.Endings.{EndsServing};
ghost use Rattle.replica_process.specs.Texts.{outputs_text, HeldForRecord, WritesAll, WritesSome};
ghost use Rattle.replica_process.specs.Texts.{Holds, MayBeginTimer, TakesNotice};
ghost use Rattle.replica_process.specs.Texts.{IsAt, HasServed, HasStopped, ServesNext};

use crate::fault::ServeFault;
use crate::machine::Machine;
use events::Output;
use patience::Patience;
use records::{Notice, RecordReader, put_frame, put_timer};
use std::alloc::Global;
use std::io::{self, ErrorKind, Read, Write};
use terms::NoMemory;

/// Most bytes of records that are held back, apart from those of one event.
const HELD: usize = 65_536;

/// Serves a replica over the records of a reader: it steps the replica by each, and writes the records of what that
/// gives. It gets timeouts only while it is linked to so many other replicas, which are 2f.
///
/// It asks the reader for more bytes only after it wrote and flushed all that is due for the records that came whole.
///
/// # Errors
///
/// NoMemory if memory runs out, and the replica stops; Read and Write if reading or writing fails. Then it served a
/// front of the records. All that was due for these is written, unless writing failed.
pub fn serve<M: Machine + Drop, R: Read + Drop, W: Write>(
    alloc: Global,
    machine: M,
    needed: u8,
    reader: R,
    writer: &mut W,
) -> Result<(), ServeFault>
    ensures { (c : Configuration) → M.fits machine c [] → IfSome (R.remaining reader) (λ bytes.
        EndsServing c (M.me machine) needed result bytes (W.contents writer.old) (W.contents writer.new)) }
{
    let mut records = RecordReader::new(alloc, reader)?;
    let mut process = Process {
        machine,
        patience: Patience::new(needed),
        text: Vec::new(alloc),
    };
    process.run(alloc, &mut records, writer)
}

// A replica between two records: its timers, and the records that are not written yet.
#[derive(Drop)]
struct Process<M> {
    machine: M,
    patience: Patience,
    text: Vec<u8>,
}

impl<M: Machine> Process<M> {
    // Serves all records, and writes what is left at the end or at a fault.
    fn run<R: Read + Drop, W: Write>(
        &mut self,
        alloc: Global,
        records: &mut RecordReader<R>,
        writer: &mut W,
    ) -> Result<(), ServeFault>
        ensures { (c : Configuration) (p needed : ℕ) (bytes : List ℕ) (start : Option (List ℕ))
            → IsAt M.me M.fits c p needed bytes start
            (left_of R.remaining records.old) (W.contents writer.old) self.old
            → EndsServing c p needed result bytes start (W.contents writer.new) }
    {
        let fault = match self.serve_records(alloc, records, writer) {
            Ok(()) => return write_out(&mut self.text, writer),
            Err(fault) => fault,
        };
        if fault.is_of_writing() {
            return Err(fault);
        }
        write_out(&mut self.text, writer)?;
        Err(fault)
    }

    fn serve_records<R: Read + Drop, W: Write>(
        &mut self,
        alloc: Global,
        records: &mut RecordReader<R>,
        writer: &mut W,
    ) -> Result<(), ServeFault>
        ensures { (c : Configuration) (p needed : ℕ) (bytes : List ℕ) (start : Option (List ℕ))
            → IsAt M.me M.fits c p needed bytes start
            (left_of R.remaining records.old) (W.contents writer.old) self.old
            → MatchResult result
            (λ _. HasServed c p needed bytes start (W.contents writer.new) self.new.text.items)
            (λ fault. HasStopped c p needed fault bytes start (W.contents writer.new) self.new.text.items) }
    {
        for _ in 0..u64::MAX {
            if !self.serve_record(alloc, records, writer)? {
                return Ok(());
            }
        }
        Err(ServeFault::Read(io::Error::from(ErrorKind::Interrupted)))
    }

    // Serves the next record, and gives whether there was one.
    fn serve_record<R: Read + Drop, W: Write>(
        &mut self,
        alloc: Global,
        records: &mut RecordReader<R>,
        writer: &mut W,
    ) -> Result<bool, ServeFault>
        ensures { (c : Configuration) (p needed : ℕ) (bytes : List ℕ) (start : Option (List ℕ))
            → IsAt M.me M.fits c p needed bytes start
            (left_of R.remaining records.old) (W.contents writer.old) self.old
            → ServesNext M.me M.fits c p needed result bytes start
            (left_of R.remaining records.new) (W.contents writer.new) self.new }
    {
        write_due(&mut self.text, records, writer)?;
        self.take_record(alloc, records)
    }

    // Takes the next record, and gives whether there was one.
    fn take_record<R: Read + Drop>(
        &mut self,
        alloc: Global,
        records: &mut RecordReader<R>,
    ) -> Result<bool, ServeFault>
        requires none_waits { HeldForRecord (at_hand_of records.old) self.old.text.items }
        ensures { (c : Configuration) (p needed : ℕ) (bytes : List ℕ) (start written : Option (List ℕ))
            → IsAt M.me M.fits c p needed bytes start (left_of R.remaining records.old) written self.old
            → ServesNext M.me M.fits c p needed result bytes start
            (left_of R.remaining records.new) written self.new }
    {
        match records.advance() {
            Ok(true) => {}
            Ok(false) => return Ok(false),
            Err(error) => return Err(ServeFault::Read(error)),
        }
        let Some(notice) = records.notice() else {
            return Ok(true);
        };
        self.take(alloc, notice)?;
        Ok(true)
    }

    // Takes what a record tells. At an error the text is as it was.
    fn take(&mut self, alloc: Global, notice: Notice<'_>) -> Result<(), ServeFault>
        ensures takes { OnOk result ((c : Configuration) (p needed : ℕ) (history : List Entry) (past : List Moment)
            → Holds M.me M.fits c p needed history past self.old
            → TakesNotice M.me M.fits c p needed history past (notice_data notice.entry) self.old self.new) }
        ensures err { OnErr result (self.new.text.items ≡ self.old.text.items) }
    {
        let held = self.text.len();
        match self.take_notice(alloc, notice) {
            Ok(()) => Ok(()),
            Err(fault) => {
                self.text.truncate(held);
                Err(fault)
            }
        }
    }

    fn take_notice(&mut self, alloc: Global, notice: Notice<'_>) -> Result<(), ServeFault>
        ensures takes { OnOk result ((c : Configuration) (p needed : ℕ) (history : List Entry) (past : List Moment)
            → Holds M.me M.fits c p needed history past self.old
            → TakesNotice M.me M.fits c p needed history past (notice_data notice.entry) self.old self.new) }
        ensures kept { StartsWith self.new.text.items self.old.text.items }
    {
        match notice {
            Notice::Came(frame) => self.take_frame(alloc, frame),
            Notice::TimerOver(number) => self.end_timer(alloc, number),
            Notice::Linked(count) => {
                self.patience.links(count);
                Ok(())
            }
        }
    }

    fn take_frame(&mut self, alloc: Global, frame: &[u8]) -> Result<(), ServeFault>
        ensures takes { OnOk result ((c : Configuration) (p needed : ℕ) (history : List Entry) (past : List Moment)
            → Holds M.me M.fits c p needed history past self.old
            → TakesNotice M.me M.fits c p needed history past (came frame.now) self.old self.new) }
        ensures kept { StartsWith self.new.text.items self.old.text.items }
    {
        let outputs = self.machine.got(alloc, frame)?;
        put_frames(outputs.as_slice(), &mut self.text)?;
        self.begin_timer()
    }

    fn end_timer(&mut self, alloc: Global, number: u64) -> Result<(), ServeFault>
        ensures takes { OnOk result ((c : Configuration) (p needed : ℕ) (history : List Entry) (past : List Moment)
            → Holds M.me M.fits c p needed history past self.old
            → TakesNotice M.me M.fits c p needed history past (timer_over number) self.old self.new) }
        ensures kept { StartsWith self.new.text.items self.old.text.items }
    {
        if !self.patience.ends(number, &self.machine.standing()) {
            return self.begin_timer();
        }
        let outputs = self.machine.time_out(alloc)?;
        put_frames(outputs.as_slice(), &mut self.text)?;
        self.begin_timer()
    }

    // Appends the record of the timer that begins, if one does.
    fn begin_timer(&mut self) -> Result<(), ServeFault>
        ensures begins { OnOk result ((c : Configuration) (p needed : ℕ) (history : List Entry) (past : List Moment)
            → Holds M.me M.fits c p needed history past self.old
            → MayBeginTimer M.me M.fits c p needed history past self.old self.new) }
        ensures kept { StartsWith self.new.text.items self.old.text.items }
    {
        let Some(timer) = self.patience.begins(&self.machine.standing()) else {
            return Ok(());
        };
        put_timer(timer.number, timer.milliseconds, &mut self.text)?;
        Ok(())
    }
}

// Appends the record of each frame among the outputs.
fn put_frames(outputs: &[Output], text: &mut Vec<u8>) -> Result<(), ServeFault>
    ensures ok { OnOk result (text.new.items ≡ text.old.items ++ outputs_text outputs.now) }
    ensures kept { StartsWith text.new.items text.old.items }
{
    for output in outputs {
        if let Output::Send(receivers, frame) = output {
            put_frame(receivers.as_slice(), frame.as_slice(), text)?;
        }
    }
    Ok(())
}

// Writes the held records if there are many, or if the next record has not come whole. The reader may then wait for
// that one, and its sender may wait for these.
fn write_due<R: Read + Drop, W: Write>(
    text: &mut Vec<u8>,
    records: &RecordReader<R>,
    writer: &mut W,
) -> Result<(), ServeFault>
    ensures held { OnOk result (HeldForRecord (at_hand_of records.now) text.new.items) }
    ensures some { WritesSome result
        (W.contents writer.old) (W.contents writer.new) text.old.items text.new.items }
{
    if text.is_empty() {
        return Ok(());
    }
    if text.len() < HELD && records.is_at_hand() {
        return Ok(());
    }
    write_out(text, writer)
}

// Writes the records and leaves none. At an error a front of them was written.
fn write_out<W: Write>(text: &mut Vec<u8>, writer: &mut W) -> Result<(), ServeFault>
    ensures all { WritesAll result (W.contents writer.old) (W.contents writer.new) text.old.items }
    ensures none { OnOk result (text.new.items ≡ []) }
{
    write_all(text.as_slice(), writer)?;
    if let Err(error) = writer.flush() {
        return Err(ServeFault::Write(error));
    }
    text.clear();
    Ok(())
}

// Writes the bytes, piece by piece.
fn write_all<W: Write>(bytes: &[u8], writer: &mut W) -> Result<(), ServeFault>
    ensures { WritesAll result (W.contents writer.old) (W.contents writer.new) bytes.now }
{
    let mut left = bytes;
    for _ in 0..u64::MAX {
        if left.is_empty() {
            return Ok(());
        }
        match writer.write(left) {
            Ok(0) => return Err(ServeFault::Write(io::Error::from(ErrorKind::WriteZero))),
            Ok(count) => left = &left[count..],
            Err(error) => {
                if error.kind() != ErrorKind::Interrupted {
                    return Err(ServeFault::Write(error));
                }
            }
        }
    }
    Err(ServeFault::Write(io::Error::from(ErrorKind::Interrupted)))
}
