//! A call of a client's process, and the records that it reads and writes.

ghost use Rattle.std.specs.Prelude.{◌≡◌, ◌++◌, ◌+◌, [], List, ℕ, false, option_map, IfOk, IfErr, OnOk, Option};
ghost use Rattle.tuple_codec.specs.OperationView.{operation_of, outcome_of};
ghost use Rattle.tuple_text.specs.Lines.{IsLine};
ghost use Rattle.one_space.specs.Run.{result_line};
ghost use Rattle.records.specs.Records.{came, timer_over};
ghost use Rattle.records.specs.NoticeView.{notice_data};
ghost use Rattle.records.specs.ReaderView.{left_of};
ghost use Rattle.client_process.specs.Serving.{idle, waits};
ghost use Rattle.client_process.specs.Endings.{Scene, scene};
ghost use Rattle.client_process.specs.Faults.{StopsBetween};
ghost use Rattle.client_process.specs.Texts.{output_text, outputs_text, accepted_of, WritesAll, IsClear};
ghost use Rattle.client_process.specs.Texts.{TakesNotice, BeginsCall, BeginsTimer};
ghost use Rattle.client_process.specs.Texts.{Opening, IsAt, BringsLine, GoesOn, ServesRecord};

use crate::caller::Caller;
use crate::fault::ConverseFault;
use crate::timer::Timer;
use events::Output;
use records::{Notice, PutFault, RecordReader, put_frame, put_timer};
use std::alloc::Global;
use std::io::{self, ErrorKind, Read, Write};
use terms::NoMemory;
use tuple_codec::{Answer, Op};
use tuple_text::write_answer;

// A client between two inputs: its last timer, room for a line, and the records and the result line that are not
// written yet.
#[derive(Drop)]
pub(crate) struct Process<C> {
    pub(crate) client: C,
    pub(crate) timer: Timer,
    pub(crate) line: Vec<u8>,
    pub(crate) text: Vec<u8>,
    pub(crate) told: Vec<u8>,
}

impl<C: Caller> Process<C> {
    // Calls the operation of a line, and takes records until it is answered. The answer's line is left to write.
    pub(crate) fn call<R: Read + Drop, F: Write>(
        &mut self,
        alloc: Global,
        op: Op<Global>,
        records: &mut RecordReader<R>,
        frames: &mut F,
    ) -> Result<(), ConverseFault>
        requires none_due { IsClear self.old }
        ensures none_due { OnOk result (self.new.text.items ≡ []) }
        ensures calls { (o : Opening) (n : ℕ) (l : List ℕ) (unread rest told : Option (List ℕ))
            → BringsLine l unread rest → IsLine (operation_of op) l
            → IsAt C.me C.fits o (idle self.old.timer.number) n unread (left_of R.remaining records.old)
            (scene (F.contents frames.old) told) self.old
            → GoesOn C.me C.fits result o (idle self.new.timer.number) (n + 1) rest
            (left_of R.remaining records.new) (scene (F.contents frames.new) told) self.new }
    {
        self.begin(alloc, op)?;
        write_out(&mut self.text, frames)?;
        self.wait(alloc, records, frames)
    }

    // Takes records until the open call is answered.
    fn wait<R: Read + Drop, F: Write>(
        &mut self,
        alloc: Global,
        records: &mut RecordReader<R>,
        frames: &mut F,
    ) -> Result<(), ConverseFault>
        requires none_due { IsClear self.old }
        ensures none_due { OnOk result (self.new.text.items ≡ []) }
        ensures ends { (o : Opening) (n : ℕ) (unread told : Option (List ℕ))
            → IsAt C.me C.fits o (waits self.old.timer) n unread (left_of R.remaining records.old)
            (scene (F.contents frames.old) told) self.old
            → GoesOn C.me C.fits result o (idle self.new.timer.number) n unread
            (left_of R.remaining records.new) (scene (F.contents frames.new) told) self.new }
    {
        for _ in 0..u64::MAX {
            if self.serve_record(alloc, records, frames)? {
                return Ok(());
            }
        }
        Err(ConverseFault::Read(io::Error::from(ErrorKind::Interrupted)))
    }

    // Serves the next record, and gives whether the call was answered.
    fn serve_record<R: Read + Drop, F: Write>(
        &mut self,
        alloc: Global,
        records: &mut RecordReader<R>,
        frames: &mut F,
    ) -> Result<bool, ConverseFault>
        requires none_due { IsClear self.old }
        ensures none_due { OnOk result (self.new.text.items ≡ []) }
        ensures quiet { IfOk result (λ answered. answered ≡ false → self.new.told.items ≡ []) }
        ensures serves { (o : Opening) (n : ℕ) (unread told : Option (List ℕ))
            → IsAt C.me C.fits o (waits self.old.timer) n unread (left_of R.remaining records.old)
            (scene (F.contents frames.old) told) self.old
            → ServesRecord C.me C.fits result o n unread
            (left_of R.remaining records.new) (scene (F.contents frames.new) told) self.new }
    {
        let is_answered = self.take_record(alloc, records)?;
        write_out(&mut self.text, frames)?;
        Ok(is_answered)
    }

    // Takes the next record, and gives whether the call was answered.
    fn take_record<R: Read + Drop>(
        &mut self,
        alloc: Global,
        records: &mut RecordReader<R>,
    ) -> Result<bool, ConverseFault>
        requires none_due { IsClear self.old }
        ensures quiet { IfOk result (λ answered. answered ≡ false → self.new.told.items ≡ []) }
        ensures takes { (o : Opening) (n : ℕ) (unread : Option (List ℕ)) (now : Scene)
            → IsAt C.me C.fits o (waits self.old.timer) n unread (left_of R.remaining records.old) now self.old
            → ServesRecord C.me C.fits result o n unread (left_of R.remaining records.new) now self.new }
    {
        match records.advance() {
            Ok(true) => {}
            Ok(false) => return Err(ConverseFault::Unanswered),
            Err(error) => return Err(ConverseFault::Read(error)),
        }
        match records.notice() {
            Some(notice) => self.take(alloc, notice),
            None => Ok(false),
        }
    }

    // Takes what a record tells, and gives whether the call was answered.
    fn take(&mut self, alloc: Global, notice: Notice<'_>) -> Result<bool, ConverseFault>
        ensures takes { IfOk result (λ answered. TakesNotice C.me C.fits (notice_data notice.entry) answered
            self.old self.new) }
        ensures quiet { IfOk result (λ answered. answered ≡ false
            → self.new.told.items ≡ self.old.told.items) }
        ensures err { IfErr result StopsBetween }
    {
        match notice {
            Notice::Came(frame) => self.take_frame(alloc, frame),
            Notice::TimerOver(number) => {
                self.end_timer(alloc, number)?;
                Ok(false)
            }
            Notice::Linked(_) => Ok(false),
        }
    }

    fn take_frame(&mut self, alloc: Global, frame: &[u8]) -> Result<bool, ConverseFault>
        ensures takes { IfOk result (λ answered. TakesNotice C.me C.fits (came frame.now) answered self.old self.new) }
        ensures quiet { IfOk result (λ answered. answered ≡ false
            → self.new.told.items ≡ self.old.told.items) }
        ensures err { IfErr result StopsBetween }
    {
        let outputs = self.client.got(alloc, frame)?;
        put_frames(outputs.as_slice(), &mut self.text)?;
        match accepted(outputs.as_slice()) {
            Some(answer) => {
                put_result(answer, &mut self.told)?;
                Ok(true)
            }
            None => Ok(false),
        }
    }

    fn end_timer(&mut self, alloc: Global, number: u64) -> Result<(), ConverseFault>
        ensures takes { OnOk result (TakesNotice C.me C.fits (timer_over number) false self.old self.new) }
        ensures quiet { OnOk result (self.new.told.items ≡ self.old.told.items) }
        ensures err { IfErr result StopsBetween }
    {
        if number != self.timer.number {
            return Ok(());
        }
        let outputs = self.client.retry(alloc)?;
        put_frames(outputs.as_slice(), &mut self.text)?;
        self.begin_timer(self.timer.next())
    }

    // Begins the call of an operation.
    fn begin(&mut self, alloc: Global, op: Op<Global>) -> Result<(), ConverseFault>
        ensures begins { OnOk result (BeginsCall C.me C.fits (operation_of op) self.old self.new) }
        ensures quiet { OnOk result (self.new.told.items ≡ self.old.told.items) }
        ensures err { IfErr result StopsBetween }
    {
        let outputs = self.client.call(alloc, op)?;
        put_frames(outputs.as_slice(), &mut self.text)?;
        self.begin_timer(Timer::first(self.timer.number))
    }

    fn begin_timer(&mut self, timer: Timer) -> Result<(), ConverseFault>
        ensures begins { OnOk result (BeginsTimer timer self.old self.new) }
        ensures err { IfErr result StopsBetween }
    {
        put_timer(timer.number, timer.milliseconds, &mut self.text)?;
        self.timer = timer;
        Ok(())
    }
}

// Appends the record of each frame among the outputs.
fn put_frames(outputs: &[Output], text: &mut Vec<u8>) -> Result<(), PutFault>
    ensures { OnOk result (text.new.items ≡ text.old.items ++ outputs_text outputs.now) }
{
    for output in outputs {
        put_output(output, text)?;
    }
    Ok(())
}

fn put_output(output: &Output, text: &mut Vec<u8>) -> Result<(), PutFault>
    ensures { OnOk result (text.new.items ≡ text.old.items ++ output_text output.now) }
{
    match output {
        Output::Send(receivers, frame) => put_frame(receivers.as_slice(), frame.as_slice(), text),
        _ => Ok(()),
    }
}

// The answer that is accepted among the outputs.
fn accepted(outputs: &[Output]) -> Option<&Answer<Global>>
    ensures { option_map (λ answer. outcome_of answer.now) result ≡ accepted_of outputs.now }
{
    for output in outputs {
        if let Output::Accepted(_, answer) = output {
            return Some(answer);
        }
    }
    None
}

// Appends the line of an answer.
fn put_result(answer: &Answer<Global>, told: &mut Vec<u8>) -> Result<(), NoMemory>
    ensures { OnOk result (told.new.items ≡ told.old.items ++ result_line (outcome_of answer.now)) }
{
    write_answer(answer, told)?;
    Ok(told.push(b'\n')?)
}

// Writes and flushes the bytes, and leaves none. At an error a front of them was written.
pub(crate) fn write_out<W: Write>(text: &mut Vec<u8>, writer: &mut W) -> Result<(), ConverseFault>
    ensures all { WritesAll result (W.contents writer.old) (W.contents writer.new) text.old.items }
    ensures none { OnOk result (text.new.items ≡ []) }
{
    write_all(text.as_slice(), writer)?;
    if let Err(error) = writer.flush() {
        return Err(ConverseFault::Write(error));
    }
    text.clear();
    Ok(())
}

// Writes the bytes, piece by piece.
fn write_all<W: Write>(bytes: &[u8], writer: &mut W) -> Result<(), ConverseFault>
    ensures { WritesAll result (W.contents writer.old) (W.contents writer.new) bytes.now }
{
    let mut left = bytes;
    for _ in 0..u64::MAX {
        if left.is_empty() {
            return Ok(());
        }
        match writer.write(left) {
            Ok(0) => {
                return Err(ConverseFault::Write(io::Error::from(ErrorKind::WriteZero)));
            }
            Ok(count) => left = &left[count..],
            Err(error) => {
                if error.kind() != ErrorKind::Interrupted {
                    return Err(ConverseFault::Write(error));
                }
            }
        }
    }
    Err(ConverseFault::Write(io::Error::from(ErrorKind::Interrupted)))
}
