// The step get: the value or the blame of a closed promise; otherwise owners are followed, and the task waits, or the
// ring that it would close is reported.
#![tactic(auto)]

ghost use Rattle.std.specs.Prelude.{◌≡◌, true, ◌*◌, ◌≤◌, ◌<◌, length, set};
ghost use Rattle.words.specs.Words.{small, Form, waits_on};
ghost use Rattle.rules.specs.Tables.{tables as tables_of, in_bounds};
ghost use Rattle.rules.specs.Refusals.{first, refused_by};
ghost use Rattle.rules.specs.Steps.{step_get, asked_of, effect, rows};
ghost use Rattle.rules.specs.StepContracts.{Gives, TakesRaw};

use rules::{Answer, Refusal};
use step_guards::{check_actor, check_get};
use table_access::{at, number_at, put};
use table_walks::{Trail, follow, write_pairs};
use words::{PromiseState, PromiseWord, TaskWord};

// Refusals 3, 4, 5, 6 and 8.
#[tactic(auto, using(rules::proofs::RefusalLaws::number_not_0), unfolding(rules::specs::Refusals::first))]
fn check(tasks: &[u16], promises: &[u16], t: u16, p: u16) -> Result<(), Refusal>
    ensures { refused_by result ≡ first (rows small (tables_of tasks.now promises.now) (step_get t p)) }
{
    check_actor(tasks, t)?;
    check_get(promises, p)
}

// Task `t` now waits on `p`.
fn wait_on(tasks: &mut [u16], t: u16, p: u16)
    requires { p < 65520 }
    ensures { tasks.new ≡ set tasks.old t (waits_on p) }
{
    put(tasks, usize::from(t), TaskWord::waits_on(p));
}

// Follows owners from `p`, which is not closed.
fn get_owned(tasks: &mut [u16], promises: &[u16], report: &mut [u16], t: u16, p: u16) -> Answer
    requires { (length tasks.old ≤ small.most_tasks) × (2 * length tasks.old ≤ length report.old)
        × (p < small.most_promises) }
    ensures { Gives (asked_of (tables_of tasks.old promises.now) t p)
        report.old result (tables_of tasks.new promises.now) report.new }
{
    let from = number_at(promises, PromiseWord::FIRST_OWNED, p);
    match follow(tasks, promises, usize::from(t), usize::from(from)) {
        Trail::Back(k) => {
            let n = k as u16;
            write_pairs(tasks, promises, report, n, t, p);
            Answer::Cycle(n)
        }
        Trail::Free(k) => {
            let n = k as u16;
            wait_on(tasks, t, p);
            Answer::Waits(n)
        }
        Trail::Astray => {
            let most = tasks.len() as u16;
            wait_on(tasks, t, p);
            Answer::Waits(most)
        }
    }
}

// A promise that was made: a closed one answers at once.
fn get_made(tasks: &mut [u16], promises: &[u16], report: &mut [u16], t: u16, p: u16) -> Answer
    requires { (length tasks.old ≤ small.most_tasks) × (2 * length tasks.old ≤ length report.old)
        × (p < small.most_promises) }
    ensures { Gives (effect small (tables_of tasks.old promises.now) (step_get t p))
        report.old result (tables_of tasks.new promises.now) report.new }
{
    match PromiseState::from(at(promises, usize::from(p))) {
        PromiseState::Set => Answer::Value,
        PromiseState::Blamed(task) => Answer::Blamed(task),
        _ => get_owned(tasks, promises, report, t, p),
    }
}

// The step without refusals 1 and 2, for a caller that has tested the bounds and the tables.
pub fn raw_get(tasks: &mut [u16], promises: &[u16], report: &mut [u16], t: u16, p: u16) -> Answer
    requires { in_bounds small (length report.old) (tables_of tasks.old promises.now) ≡ true }
    ensures { TakesRaw small (step_get t p) (tables_of tasks.old promises.now)
        report.old result (tables_of tasks.new promises.now) report.new }
{
    if let Err(refusal) = check(tasks, promises, t, p) {
        return refusal.into();
    }
    get_made(tasks, promises, report, t, p)
}
