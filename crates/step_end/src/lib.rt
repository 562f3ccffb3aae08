// The step end: the acting task ends, the promises that it owns are blamed on it, and every task that waits on one of
// these becomes ready.
#![tactic(auto)]

ghost use Rattle.std.specs.Prelude.{◌≡◌, true, length};
ghost use Rattle.words.specs.Words.{small};
ghost use Rattle.rules.specs.Tables.{tables as tables_of, in_bounds};
ghost use Rattle.rules.specs.Steps.{step_end, awaits};
ghost use Rattle.rules.specs.StepContracts.{TakesRaw};

use rules::Answer;
use step_guards::check_actor;
use table_access::{at, collect_where, put, replace_where};
use words::{PromiseWord, TaskWord};

// Whether a task with the word `w` waits on a promise whose word is `v`.
fn awaits_word(promises: &[u16], v: u16, w: u16) -> bool
    ensures { result ≡ awaits promises.now v w }
{
    TaskWord::FIRST_WAIT <= w && at(promises, usize::from(w - TaskWord::FIRST_WAIT)) == v
}

// The step without refusals 1 and 2, for a caller that has tested the bounds and the tables. Who waits is found
// before the promises are blamed.
pub fn raw_end(tasks: &mut [u16], promises: &mut [u16], report: &mut [u16], t: u16) -> Answer
    requires { in_bounds small (length report.old) (tables_of tasks.old promises.old) ≡ true }
    ensures { TakesRaw small (step_end t) (tables_of tasks.old promises.old)
        report.old result (tables_of tasks.new promises.new) report.new }
{
    if let Err(refusal) = check_actor(tasks, t) {
        return refusal.into();
    }
    let v = PromiseWord::owned_by(t);
    let owned = |w| w == v;
    let waits = |w| awaits_word(promises, v, w);
    let m = collect_where(promises, owned, report, 0);
    let e = collect_where(tasks, waits, report, m);
    replace_where(tasks, waits, TaskWord::READY);
    put(tasks, usize::from(t), TaskWord::ENDED);
    replace_where(promises, owned, PromiseWord::blamed_on(t));
    let omitted = m as u16;
    let woken = (e - m) as u16;
    Answer::Ended { omitted, woken }
}
