// The registry for C and Rust: the steps as exported functions on numbers and slices of 16-bit words. A slice passes
// as a pointer and a length. A step returns its answer's number and writes four words to `answer`: the number, then
// the answer's values, 0 where it has none. A batch takes its records as five words each, and returns the refusal of
// the call, or 0. The C interface needs the slices one by one, and a number for an answer.
#![tactic(auto)]

ghost use Rattle.std.specs.Prelude.{◌≡◌, length};
ghost use Rattle.words.specs.Words.{small};
ghost use Rattle.rules.specs.Tables.{tables as tables_of};
ghost use Rattle.rules.specs.Sound.{is_sound};
ghost use Rattle.rules.specs.Steps.{step_new, step_set, step_get, step_async, step_end};
ghost use Rattle.rules.specs.StepContracts.{Freshens};
ghost use Rattle.steps.specs.Named.{of_rules};
ghost use Rattle.batch_words.specs.Flat.{flatly, Flats};
ghost use Rattle.registry.specs.Exports.{ExportsStep};

use answer_words::tell;
use rules::Refusal;
use steps::{Lent, Step};

// Whether the tables are sound; those that are too short or too long are not.
#[unsafe(no_mangle)]
pub extern "C" fn registry_is_sound(tasks: &[u16], promises: &[u16]) -> bool
    ensures { result ≡ is_sound small (tables_of tasks.now promises.now) }
{
    table_sound::is_sound(tasks, promises)
}

// Makes the lent tables fresh: 0, or 1 if one is too short or too long.
#[unsafe(no_mangle)]
pub extern "C" fn registry_fresh(tasks: &mut [u16], promises: &mut [u16]) -> u16
    ensures { Freshens small (tables_of tasks.old promises.old)
        result (tables_of tasks.new promises.new) }
{
    if let Err(refusal) = table_fresh::fresh(tasks, promises) {
        return refusal.number();
    }
    0
}

// The step, its answer told in `answer`; refused by 1 if that has fewer than four words.
fn step_told(
    tasks: &mut [u16],
    promises: &mut [u16],
    report: &mut [u16],
    step: Step<'_>,
    answer: &mut [u16],
) -> u16
    ensures { ExportsStep (of_rules step.entry) (tables_of tasks.old promises.old)
        report.old answer.old
        result (tables_of tasks.new promises.new) report.new answer.new }
{
    if answer.len() < 4 {
        return Refusal::OutOfBounds.number();
    }
    let mut lent = Lent {
        tasks,
        promises,
        report,
    };
    tell(answer, lent.take(step))
}

#[unsafe(no_mangle)]
pub extern "C" fn registry_step_new(
    tasks: &mut [u16],
    promises: &mut [u16],
    report: &mut [u16],
    t: u16,
    p: u16,
    answer: &mut [u16],
) -> u16
    ensures { ExportsStep (step_new t p) (tables_of tasks.old promises.old)
        report.old answer.old
        result (tables_of tasks.new promises.new) report.new answer.new }
{
    step_told(tasks, promises, report, Step::New(t, p), answer)
}

#[unsafe(no_mangle)]
pub extern "C" fn registry_step_set(
    tasks: &mut [u16],
    promises: &mut [u16],
    report: &mut [u16],
    t: u16,
    p: u16,
    answer: &mut [u16],
) -> u16
    ensures { ExportsStep (step_set t p) (tables_of tasks.old promises.old)
        report.old answer.old
        result (tables_of tasks.new promises.new) report.new answer.new }
{
    step_told(tasks, promises, report, Step::Set(t, p), answer)
}

#[unsafe(no_mangle)]
pub extern "C" fn registry_step_get(
    tasks: &mut [u16],
    promises: &mut [u16],
    report: &mut [u16],
    t: u16,
    p: u16,
    answer: &mut [u16],
) -> u16
    ensures { ExportsStep (step_get t p) (tables_of tasks.old promises.old)
        report.old answer.old
        result (tables_of tasks.new promises.new) report.new answer.new }
{
    step_told(tasks, promises, report, Step::Get(t, p), answer)
}

#[unsafe(no_mangle)]
pub extern "C" fn registry_step_async(
    tasks: &mut [u16],
    promises: &mut [u16],
    report: &mut [u16],
    t: u16,
    c: u16,
    list: &[u16],
    answer: &mut [u16],
) -> u16
    ensures { ExportsStep (step_async t c list.now)
        (tables_of tasks.old promises.old)
        report.old answer.old
        result (tables_of tasks.new promises.new) report.new answer.new }
{
    step_told(tasks, promises, report, Step::Async(t, c, list), answer)
}

#[unsafe(no_mangle)]
pub extern "C" fn registry_step_end(
    tasks: &mut [u16],
    promises: &mut [u16],
    report: &mut [u16],
    t: u16,
    answer: &mut [u16],
) -> u16
    ensures { ExportsStep (step_end t) (tables_of tasks.old promises.old)
        report.old answer.old
        result (tables_of tasks.new promises.new) report.new answer.new }
{
    step_told(tasks, promises, report, Step::End(t), answer)
}

#[unsafe(no_mangle)]
pub extern "C" fn registry_batch(
    tasks: &mut [u16],
    promises: &mut [u16],
    report: &mut [u16],
    steps: &[u16],
    list: &[u16],
    answers: &mut [u16],
) -> u16
    ensures { Flats (flatly small list.now (tables_of tasks.old promises.old)
        steps.now (length report.old) (length answers.old))
        report.old answers.old
        result (tables_of tasks.new promises.new) report.new answers.new }
{
    let mut lent = Lent {
        tasks,
        promises,
        report,
    };
    match batch_words::batch_words(&mut lent, steps, list, answers) {
        Ok(_) => 0,
        Err(refusal) => refusal.number(),
    }
}
