// An input that comes in blocks, answered line by line.
#![tactic(auto)]

ghost use Rattle.std.specs.Prelude.{◌≡◌, true, length};
ghost use Rattle.rules.specs.Tables.{tables as tables_of};
ghost use Rattle.line_serving.specs.Serving.{turn_of, answered_turn, Serves};
ghost use Rattle.line_entry.specs.Lines.{reply_of};

use line_entry::Entered;
use line_gather::Got;
use line_session::Session;

// What there is after a piece of a block: where the next piece starts, how many bytes of the line that has begun were
// counted, how many lines were answered, the session value, how many bytes were written for an answer, and whether more
// lines are taken: no other field hangs on that one, so it is a flag and no `Option`.
#[derive(Clone, Copy)]
pub struct Served {
    pub next: usize,
    pub have: usize,
    pub lines: u32,
    pub session: Session,
    pub bytes: usize,
    pub going: bool,
}

// Answers line `number`, which the buffer `line` gathered and of which `have` bytes were counted. The next one starts
// at `next`.
fn answer(
    line: &[u8],
    have: usize,
    number: u32,
    next: usize,
    session: Session,
    tasks: &mut [u16],
    promises: &mut [u16],
    report: &mut [u16],
    out: &mut [u8],
) -> Served
    ensures { Serves (answered_turn line.now number next
        (reply_of line.now have number session (tables_of tasks.old promises.old)
        report.old out.old))
        result line.now (tables_of tasks.new promises.new) report.new
        out.new }
{
    let entered = line_entry::reply(
        line, have, number, session, tasks, promises, report, out,
    ).unwrap_or(Entered { session, bytes: 0 });
    Served {
        next,
        have: 0,
        lines: number,
        session: entered.session,
        bytes: entered.bytes,
        going: true,
    }
}

// Where the block ended, with so many bytes of the line that has begun.
fn at_end(block: &[u8], have: usize, lines: u32, session: Session) -> Served
    ensures { result ≡ record {
      next = length block.now;
      have = have;
      lines = lines;
      session = session;
      bytes = 0;
      going = true;
    } }
{
    Served {
        next: block.len(),
        have,
        lines,
        session,
        bytes: 0,
        going: true,
    }
}

// Takes the bytes of the block from `from` on, up to the end of the line there: gathers them into the line buffer and,
// where the line ends, answers it. At the millionth line it says `full`, and no more lines are taken.
pub fn serve(
    block: &[u8],
    from: usize,
    line: &mut [u8],
    have: usize,
    lines: u32,
    session: Session,
    tasks: &mut [u16],
    promises: &mut [u16],
    report: &mut [u16],
    out: &mut [u8],
) -> Served
    ensures { Serves (turn_of block.now from line.old have lines session
        (tables_of tasks.old promises.old) report.old out.old)
        result line.new (tables_of tasks.new promises.new) report.new
        out.new }
{
    let Some(number) = line_gather::number_after(lines) else {
        let bytes = text_writers::put_bytes(out, b"full\n");
        return Served {
            bytes,
            going: false,
            ..at_end(block, have, lines, session)
        };
    };
    let Got { count, next } = line_gather::gather(line, have, block, from);
    match next {
        Some(next) => answer(
            line, count, number, next, session, tasks, promises, report, out,
        ),
        None => at_end(block, count, lines, session),
    }
}
