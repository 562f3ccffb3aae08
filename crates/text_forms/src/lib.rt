// Whether a line has one of the forms, which, and the column where it goes bad if it has none.
#![tactic(auto)]

ghost use Rattle.std.specs.Prelude.{◌≡◌, ◌≤◌, drop};
ghost use Rattle.words.specs.Words.{longest_line};
ghost use Rattle.words.specs.Lists.{over};
ghost use Rattle.text_buffers.specs.Buffers.{fitting};
ghost use Rattle.text_lists.specs.Lists.{list_of, list_entries};
ghost use Rattle.text_forms.specs.Judging.{at_column, InLine, Judged, with_list};

use step_kinds::Kind;
use text_fields::BadByte;
use text_lists::list_after;
use text_records::{LineRecord, record_of};
use words::Limit;

// The form of a line. `Step` holds the kind, its numbers, and how many entries its list has: they stand in the lent
// words. A step of one number has 0 for the other, and a step without a list 0 entries.
#[derive(Clone, Copy)]
pub enum LineForm {
    Open(u16, u16),
    Step(Kind, u16, u16, usize),
}

// Where a line goes bad that has no form. The column fits a word: it is at most `Limit::LINE`.
#[derive(Clone, Copy)]
pub struct BadLine {
    pub column: u16,
}

// The column of a line's first bad byte.
fn at_column(bad: BadByte) -> BadLine
    requires { bad.place ≤ longest_line }
    ensures { result ≡ at_column bad.place }
{
    BadLine {
        column: bad.place as u16,
    }
}

// A step whose numbers end at `at`, with the list behind them.
fn with_list(
    line: &[u8],
    kind: Kind,
    t: u16,
    c: u16,
    at: usize,
    list: &mut [u16],
) -> Result<LineForm, BadLine>
    requires { InLine (with_list kind t c at (list_of (drop at line.now))) }
    ensures value { result ≡ with_list kind t c at (list_of (drop at line.now)) }
    ensures list_after { list.new ≡ over (fitting (list_entries (drop at line.now)) list.old)
        list.old }
{
    let count = list_after(line, at, list).map_err(|bad| at_column(bad.behind(at)))?;
    Ok(LineForm::Step(kind, t, c, count))
}

// The form of the line; the entries of its list are written into the lent words, of which `Limit::ENTRIES` are enough
// for any line.
pub fn judge(line: &[u8], list: &mut [u16]) -> Result<LineForm, BadLine>
    ensures { Judged line.now list.old list.new result }
{
    if Limit::LINE < line.len() {
        return Err(BadLine {
            column: Limit::LINE as u16,
        });
    }
    match record_of(line).map_err(at_column)? {
        LineRecord::Open(tasks, promises) => Ok(LineForm::Open(tasks, promises)),
        LineRecord::Plain(kind, t, p) => Ok(LineForm::Step(kind, t, p, 0)),
        LineRecord::Listing(kind, t, c, at) => with_list(line, kind, t, c, at, list),
    }
}
