// One step of a batch, as its record names it.
#![tactic(auto)]

ghost use Rattle.std.specs.Prelude.{◌≡◌, true, ◌+◌, ◌*◌, ◌-◌, ◌≤◌, length};
ghost use Rattle.words.specs.Words.{small};
ghost use Rattle.rules.specs.Tables.{tables as tables_of, in_bounds};
ghost use Rattle.rules.specs.StepContracts.{Gives};
ghost use Rattle.steps.specs.Lending.{tables_lent, SameLoan};
ghost use Rattle.batch_record.specs.Records.{raw_record, Names, Turns};

use answer_words::{tell, word_count};
use rules::{Answer, Refusal};
use step_kinds::{Kind, takes_list};
use steps::{Lent, Step, step_by};

// A step with its numbers: `other` is the promise, or the child of an async. A step that takes a list takes the part
// of the lent list that begins at `start` and has `length` entries. What a step does not name is ignored.
#[derive(Clone, Copy)]
pub struct Record {
    pub kind: Kind,
    pub task: u16,
    pub other: u16,
    pub start: usize,
    pub length: usize,
}

// The step that the record names; none where its part passes the end of the list.
fn step_of(asked: Record, list: &[u16]) -> Option<Step<'_>>
    ensures { Names list.now asked result }
{
    let Record {
        kind,
        task,
        other,
        start,
        length,
    } = asked;
    if !takes_list(kind) {
        return Some(step_by(kind, task, other, &[]));
    }
    let part = list.get(start..)?.get(..length)?;
    Some(step_by(kind, task, other, part))
}

// Takes the step that the record names, or gives refusal 16; without refusals 1 and 2, for a caller that has tested the
// bounds and the tables. The slices stand by themselves: the proof of a `Lent` made of parts of one did not close.
fn raw_record(
    tasks: &mut [u16],
    promises: &mut [u16],
    report: &mut [u16],
    asked: Record,
    list: &[u16],
) -> Answer
    requires { in_bounds small (length report.old) (tables_of tasks.old promises.old) ≡ true }
    ensures { Gives (raw_record small list.now
        (tables_of tasks.old promises.old) asked) report.old result
        (tables_of tasks.new promises.new) report.new }
{
    let Some(step) = step_of(asked, list) else {
        return Answer::from(Refusal::BadPart);
    };
    let mut lent = Lent {
        tasks,
        promises,
        report,
    };
    lent.take_raw(step)
}

// The turn of the `i`-th record: its step is taken on the report's words from `at` on, and its answer written behind
// those of the records before it. Returns where the next step's words begin.
pub fn turn(
    lent: &mut Lent<'_>,
    at: usize,
    asked: Record,
    list: &[u16],
    answers: &mut [u16],
    i: usize,
) -> usize
    requires { (in_bounds small (length lent.old.report.now - at) (tables_lent lent.old) ≡ true)
        × (at ≤ length lent.old.report.now) × (4 * i + 4 ≤ length answers.old) }
    ensures same_loan { SameLoan lent.old lent.new }
    ensures turned { Turns (raw_record small list.now (tables_lent lent.old) asked) at i
        lent.old.report.now answers.old result (tables_lent lent.new) lent.new.report.now answers.new }
{
    let tasks = &mut *lent.tasks;
    let promises = &mut *lent.promises;
    let report = &mut *lent.report;
    let answer = raw_record(tasks, promises, &mut report[at..], asked, list);
    tell(&mut answers[4 * i..], answer);
    at + word_count(answer)
}
