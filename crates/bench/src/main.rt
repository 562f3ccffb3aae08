// The program: reads lines from standard input and prints one answer line each. Paper: 01, "Lines", the program
// `bench`. It reads blocks and has each line's answer written straight after the answers that wait in the output array.
// These are put out where less than an answer line's room is left and after every block, before the next read, so that
// a partner on a pipe is never left waiting. What is decided about lines stands in the crate line_serving. Everything
// here is said of any input and any output: where their bytes are known, the output gets what is printed for the input.
// That standard input and output bring and take the bytes is the system's, and held to stdout.
#![tactic(auto)]

ghost use Rattle.std.specs.Prelude.{◌≤◌, OnOk};
ghost use Rattle.std.specs.Io.KnownBytes.{Appends};

use line_session::Session;
use std::io;
use std::io::{Read, Write};
use words::Limit;

// Whether the input may bring more: its end has not come, or it came, or a read failed, which ends it too.
#[derive(Clone, Copy)]
pub enum Reading {
    Open,
    Ended,
    Failed,
}

// Where the program is, in fixed memory: the line that has begun and how many of its bytes were counted, how many lines
// were answered, the session value with the tables and the report that it is lent, whether more lines are taken, the
// output array with how many bytes wait in it, how many were handed to write before them, and what the last read said.
// Whether lines are taken is a flag: no other field hangs on it.
#[derive(Clone, Copy)]
pub struct State {
    pub line: [u8; Limit::LINE],
    pub have: usize,
    pub lines: u32,
    pub session: Session,
    pub tasks: [u16; Limit::TASKS],
    pub promises: [u16; Limit::PROMISES],
    pub report: [u16; Limit::REPORT],
    pub going: bool,
    // Memory is fixed, without a heap, so the bytes that wait are counted beside the array that holds them.
    pub out: [u8; 32768],
    pub used: usize,
    pub put: u64,
    pub reading: Reading,
    ghost waits_within: { used ≤ 32768 },
}

// Writes all of the bytes, or stops at the first write that takes none of them or fails, an interrupted one too, which
// std's `write_all` would try again. This is the one place that writes.
fn write_all<W: Write>(output: &mut W, bytes: &[u8]) -> io::Result<()>
    ensures { OnOk result (Appends (W.contents output.old) (W.contents output.new) bytes.now) }
{
    let mut done = 0;
    while done < bytes.len() {
        match output.write(&bytes[done..])? {
            0 => return Err(io::ErrorKind::WriteZero.into()),
            n => done += n,
        }
    }
    Ok(())
}

impl State {
    ghost use Rattle.std.specs.Prelude.{◌≡◌, ℕ, ◌+◌, ◌<◌, ◌&&◌, true, not, Option, List, length, is_ok, OnOk};
    ghost use Rattle.std.specs.Prelude.{OnErr, IfOk};
    ghost use Rattle.std.specs.Io.KnownBytes.{IsAtEnd};
    ghost use Rattle.words.specs.Words.{longest_answer};
    ghost use Rattle.line_serving.specs.Input.{Desk, feed, ended};
    ghost use Rattle.bench.specs.Carrying.{SameLine, PutOut, At, Fed};
    ghost use Rattle.bench.specs.Running.{Opens, RanTo, Runs, Heard, Answers, has_ended};

    // Before the first line.
    fn new() -> State
        ensures { Opens result }
    {
        State {
            line: [0; Limit::LINE],
            have: 0,
            lines: 0,
            session: Session::Unopened,
            tasks: [0; Limit::TASKS],
            promises: [0; Limit::PROMISES],
            report: [0; Limit::REPORT],
            going: true,
            out: [0; 32768],
            used: 0,
            put: 0,
            reading: Reading::Open,
        }
    }

    // Puts out the answers that wait. An error says that not all of them were taken; the program goes on from the same
    // place all the same, and they wait no more.
    fn put_out<W: Write>(&mut self, output: &mut W) -> io::Result<()>
        ensures put { PutOut self.old self.new }
        ensures same { self.new.reading ≡ self.old.reading }
        ensures at { (d : Desk) (held : Option (List ℕ)) → At d self.old held (W.contents output.old)
            → OnOk result (At d self.new held (W.contents output.new)) }
    {
        let taken = write_all(output, &self.out[..self.used]);
        self.put = self.put.wrapping_add(self.used as u64);
        self.used = 0;
        taken
    }

    // Sees that the output array has room for an answer line. What waited still waits, or was put out.
    fn make_room<W: Write>(&mut self, output: &mut W) -> io::Result<()>
        ensures room { self.new.used + longest_answer ≤ 32768 }
        ensures line { SameLine self.old self.new }
        ensures same { self.new.reading ≡ self.old.reading }
        ensures at { (d : Desk) (held : Option (List ℕ)) → At d self.old held (W.contents output.old)
            → OnOk result (At d self.new held (W.contents output.new)) }
        ensures closed { OnErr result (PutOut self.old self.new) }
    {
        if self.out.len() - self.used < Limit::ANSWER {
            return self.put_out(output);
        }
        Ok(())
    }

    // One line of the block from `from` on, or what there is of it: also where making room for its answer failed.
    // Answers where the next one starts.
    fn serve_line<W: Write>(
        &mut self,
        output: &mut W,
        block: &[u8],
        from: usize,
    ) -> io::Result<usize>
        requires { from < length block.now }
        ensures next { IfOk result (λ next. (from < next) × (next ≤ length block.now)) }
        ensures fed { (d : Desk) (held : Option (List ℕ)) → self.old.going ≡ true
            → At d self.old held (W.contents output.old)
            → IfOk result (λ next. Fed d block.now from next self.new held (W.contents output.new)) }
        ensures same { self.new.reading ≡ self.old.reading }
    {
        let room = self.make_room(output);
        let out: &mut [u8] = &mut self.out;
        let served = line_serving::serve(
            block,
            from,
            &mut self.line,
            self.have,
            self.lines,
            self.session,
            &mut self.tasks,
            &mut self.promises,
            &mut self.report,
            &mut out[self.used..],
        );
        self.have = served.have;
        self.lines = served.lines;
        self.session = served.session;
        self.going = served.going;
        self.used += served.bytes;
        room?;
        Ok(served.next)
    }

    // Every line of a block, while lines are taken and the output takes their answers.
    fn serve_lines<W: Write>(&mut self, output: &mut W, block: &[u8]) -> io::Result<()>
        ensures same { self.new.reading ≡ self.old.reading }
        ensures at { (d : Desk) (held : Option (List ℕ)) → At d self.old held (W.contents output.old)
            → OnOk result (At (feed d block.now) self.new held (W.contents output.new)) }
    {
        // Nothing is counted here: only serving a line tells where the next one starts.
        let mut from = 0;
        while self.going && from < block.len() {
            from = self.serve_line(output, block, from)?;
        }
        Ok(())
    }

    // The lines of a block, and then puts out the answers that wait: after a failed write that of the line at hand.
    // Wherever the program was, it is after the block where the bytes taken one by one lead.
    fn serve_block<W: Write>(&mut self, output: &mut W, block: &[u8]) -> io::Result<()>
        ensures none_waits { self.new.used ≡ 0 }
        ensures same { self.new.reading ≡ self.old.reading }
        ensures at { (d : Desk) (held : Option (List ℕ)) → At d self.old held (W.contents output.old)
            → OnOk result (At (feed d block.now) self.new held (W.contents output.new)) }
    {
        let served = self.serve_lines(output, block);
        let put = self.put_out(output);
        served?;
        put
    }

    // The input ended. A last line without LF is served as if it had one.
    fn finish<W: Write>(&mut self, output: &mut W, reading: Reading) -> io::Result<()>
        requires { self.old.used ≡ 0 }
        ensures none_waits { self.new.used ≡ 0 }
        ensures same { self.new.reading ≡ reading }
        ensures at { (d : Desk) (held : Option (List ℕ)) → At d self.old held (W.contents output.old)
            → OnOk result (At (ended d) self.new held (W.contents output.new)) }
    {
        self.reading = reading;
        if line_gather::is_last(self.have) {
            return self.serve_block(output, b"\n");
        }
        Ok(())
    }

    // One read, the one place that reads, and what it brings: the lines of a block, or the input's end. A read that
    // fails ends the input.
    fn read_on<R: Read, W: Write>(
        &mut self,
        input: &mut R,
        output: &mut W,
        block: &mut [u8],
    ) -> io::Result<()>
        requires { (self.old.used ≡ 0) × (self.old.reading ≡ Reading.Open) }
        ensures ran_to { (had held : Option (List ℕ)) (reads : ℕ)
            → RanTo reads true self.old had (R.remaining input.old) held (W.contents output.old)
            → RanTo (reads + 1) (is_ok result) self.new had (R.remaining input.new) held (W.contents output.new) }
        ensures end { 0 < length block.old → self.new.reading ≡ Reading.Ended → IsAtEnd (R.remaining input.new) }
    {
        match input.read(block) {
            Ok(0) => self.finish(output, Reading::Ended),
            Ok(n) => self.serve_block(output, &block[..n]),
            Err(_) => self.finish(output, Reading::Failed),
        }
    }

    // Whether the program reads on.
    fn reads_on(&self) -> bool
        ensures { result ≡ (self.now.going && not (has_ended self.now.reading)) }
    {
        self.going && matches!(self.reading, Reading::Open)
    }

    // The whole run.
    fn run<R: Read, W: Write>(
        &mut self,
        input: &mut R,
        output: &mut W,
        block: &mut [u8],
    ) -> io::Result<()>
        requires { Opens self.old }
        ensures runs { Runs (is_ok result) self.new (R.remaining input.old) (R.remaining input.new)
            (W.contents output.old) (W.contents output.new) }
        ensures end { 0 < length block.old → self.new.reading ≡ Reading.Ended → IsAtEnd (R.remaining input.new) }
        ensures answers { 0 < length block.old → Heard self.new
            → OnOk result (Answers (R.remaining input.old) (W.contents output.old) (W.contents output.new)) }
    {
        for _ in 0..u64::MAX {
            self.read_on(input, output, block)?;
            if !self.reads_on() {
                break;
            }
        }
        Ok(())
    }
}

fn main(rt: HostRuntime) {
    let mut block = [0; 16384];
    // Where the output is closed, the program ends as it does at the input's end.
    let _ = State::new().run(&mut rt.stdin(), &mut rt.stdout(), &mut block);
}
