// A whole scan's steps in one call. The tables are tested once for the call; that a step leaves sound tables sound is
// a theorem.
#![tactic(auto)]

ghost use Rattle.std.specs.Prelude.{◌≡◌, ◌<◌, List, length};
ghost use Rattle.words.specs.Words.{small};
ghost use Rattle.rules.specs.Tables.{tables as tables_of};
ghost use Rattle.rules.specs.Refusals.{first, refused_by};
ghost use Rattle.steps.specs.Lending.{tables_lent, SameLoan};
ghost use Rattle.batch_record.specs.declared.Record.{Record};
ghost use Rattle.batch.specs.Batches.{record_at, has_room, call_rows, batched, Batches};

use batch_record::{Record, turn};
use rules::Refusal;
use steps::Lent;
use table_sound::tables_pass;
use words::{Limit, room_for, sizes_in_bounds};

// The records of a call, wherever they lie.
pub trait Records {
    ghost listed: { Self → List Record };

    fn count(&self) -> usize
        ensures { result ≡ length (listed self.now) };

    fn record_at(&self, i: usize) -> Record
        requires { i < length (listed self.now) }
        ensures { result ≡ record_at (listed self.now) i };
}

impl Records for &[Record] {
    ghost listed = { λ records. records.now };

    fn count(&self) -> usize {
        self.len()
    }

    fn record_at(&self, i: usize) -> Record {
        self[i]
    }
}

// Whether the sizes are within their bounds, the records are not too many, and the report and the answers have room
// for all of them.
fn has_room(tasks: usize, promises: usize, records: usize, report: usize, answers: usize) -> bool
    ensures { result ≡ has_room small tasks promises records report answers }
{
    if Limit::RECORDS < records {
        return false;
    }
    if !sizes_in_bounds(tasks, promises) {
        return false;
    }
    records * room_for(tasks, promises) <= report && 4 * records <= answers
}

// Refusals 1 and 2 of the call; of the records, the report and the answers the lengths are told.
pub fn call_refusal(
    tasks: &[u16],
    promises: &[u16],
    records: usize,
    report: usize,
    answers: usize,
) -> Result<(), Refusal>
    ensures { refused_by result ≡ first (call_rows small (tables_of tasks.now promises.now) records report
        answers) }
{
    if !has_room(tasks.len(), promises.len(), records, report, answers) {
        return Err(Refusal::OutOfBounds);
    }
    if !tables_pass(tasks, promises) {
        return Err(Refusal::Damaged);
    }
    Ok(())
}

// The same, of what is lent.
fn check(lent: &Lent<'_>, records: usize, answers: usize) -> Result<(), Refusal>
    ensures { refused_by result ≡ first (call_rows small (tables_lent lent.now) records (length lent.now.report.now)
        answers) }
{
    let report = lent.report.len();
    call_refusal(lent.tasks, lent.promises, records, report, answers)
}

// The call: for tables, a report and answers of any lengths, with any words in them, and any records and list. Answers
// how many report words its steps gave, or its refusal, by which nothing was written.
pub fn batch<R: Records>(
    lent: &mut Lent<'_>,
    records: &R,
    list: &[u16],
    answers: &mut [u16],
) -> Result<usize, Refusal>
    ensures same_loan { SameLoan lent.old lent.new }
    ensures batched { Batches (batched small list.now (tables_lent lent.old) (R.listed records.now)
        (length lent.old.report.now) (length answers.old)) lent.old.report.now answers.old
        result (tables_lent lent.new) lent.new.report.now answers.new }
{
    let count = records.count();
    check(lent, count, answers.len())?;
    let mut at = 0;
    for i in 0..count {
        at = turn(lent, at, records.record_at(i), list, answers, i);
    }
    Ok(at)
}
