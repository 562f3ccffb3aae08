// A step, as its kind and its numbers name it: the one place that goes from a kind to the function of its step.
#![tactic(auto)]

ghost use Rattle.std.specs.Prelude.{◌≡◌, true, length};
ghost use Rattle.words.specs.Words.{small};
ghost use Rattle.rules.specs.Tables.{in_bounds};
ghost use Rattle.rules.specs.Refusals.{first, refused_by, table_rows};
ghost use Rattle.rules.specs.StepContracts.{Takes, TakesRaw};
ghost use Rattle.steps.specs.Lending.{tables_lent, SameLoan};
ghost use Rattle.steps.specs.Named.{of_rules, step_by};

use rules::{Answer, Refusal};
use step_async::raw_async;
use step_end::raw_end;
use step_get::raw_get;
use step_kinds::Kind;
use step_new::raw_new;
use step_set::raw_set;
use table_sound::check_tables;

// What a step is lent: the two tables and the report, each of any length and with any words.
#[derive(Drop)]
pub struct Lent<'a> {
    pub tasks: &'a mut [u16],
    pub promises: &'a mut [u16],
    pub report: &'a mut [u16],
}

// A step with its numbers. The acting task comes first, then the promise, or the child of an async and the promises
// that it lists.
#[derive(Clone, Copy)]
pub enum Step<'a> {
    New(u16, u16),
    Set(u16, u16),
    Get(u16, u16),
    Async(u16, u16, &'a [u16]),
    End(u16),
}

// The step of a kind; `other` is the promise, or the child of an async. What the kind does not take is ignored.
pub fn step_by(kind: Kind, task: u16, other: u16, list: &[u16]) -> Step<'_>
    ensures { of_rules result ≡ step_by kind task other list.now }
{
    match kind {
        Kind::New => Step::New(task, other),
        Kind::Set => Step::Set(task, other),
        Kind::Get => Step::Get(task, other),
        Kind::Async => Step::Async(task, other, list),
        Kind::End => Step::End(task),
    }
}

impl Lent<'_> {
    // Takes the step without refusals 1 and 2, for a caller that has tested the bounds and the tables.
    pub fn take_raw(&mut self, step: Step<'_>) -> Answer
        requires { in_bounds small (length self.old.report.now) (tables_lent self.old) ≡ true }
        ensures same_loan { SameLoan self.old self.new }
        ensures taken { TakesRaw small (of_rules step.entry) (tables_lent self.old) self.old.report.now
            result (tables_lent self.new) self.new.report.now }
    {
        let tasks = &mut *self.tasks;
        let promises = &mut *self.promises;
        let report = &mut *self.report;
        match step {
            Step::New(task, promise) => raw_new(tasks, promises, task, promise),
            Step::Set(task, promise) => raw_set(tasks, promises, report, task, promise),
            Step::Get(task, promise) => raw_get(tasks, promises, report, task, promise),
            Step::Async(task, child, list) => raw_async(tasks, promises, task, child, list),
            Step::End(task) => raw_end(tasks, promises, report, task),
        }
    }

    // Refusals 1 and 2.
    fn check(&self) -> Result<(), Refusal>
        ensures { refused_by result
            ≡ first (table_rows small (length self.now.report.now) (tables_lent self.now)) }
    {
        let room = self.report.len();
        check_tables(self.tasks, self.promises, room)
    }

    // Takes the step: for tables and a report of any lengths, with any words in them, and any numbers and list.
    pub fn take(&mut self, step: Step<'_>) -> Answer
        ensures same_loan { SameLoan self.old self.new }
        ensures taken { Takes small (of_rules step.entry) (tables_lent self.old) self.old.report.now
            result (tables_lent self.new) self.new.report.now }
    {
        if let Err(refusal) = self.check() {
            return refusal.into();
        }
        self.take_raw(step)
    }
}
