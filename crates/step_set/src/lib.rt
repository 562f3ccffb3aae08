// The step set: its owner sets a promise, and every task that waits on it becomes ready.
#![tactic(auto)]

ghost use Rattle.std.specs.Prelude.{◌≡◌, true, ◌-◌, length, get_or};
ghost use Rattle.words.specs.Words.{small};
ghost use Rattle.rules.specs.Tables.{tables as tables_of, in_bounds};
ghost use Rattle.rules.specs.Answers.{refused_with};
ghost use Rattle.rules.specs.Refusals.{first, refusal_number, refused_by};
ghost use Rattle.rules.specs.Steps.{step_set, rows};
ghost use Rattle.rules.specs.StepContracts.{TakesRaw};

use rules::{Answer, Refusal};
use step_guards::{check_actor, check_own};
use table_access::{collect_where, number_at, put, replace_where};
use words::{PromiseWord, TaskWord};

// Refusals 3, 4, 5, 6, 8, 9, 17 and 10.
#[tactic(auto, using(rules::proofs::RefusalLaws::number_not_0), unfolding(rules::specs::Refusals::first))]
fn check(tasks: &[u16], promises: &[u16], t: u16, p: u16) -> Result<(), Refusal>
    ensures { refused_by result ≡ first (rows small (tables_of tasks.now promises.now) (step_set t p)) }
{
    check_actor(tasks, t)?;
    check_own(promises, t, p)
}

// The answer that refuses: 17 with the task that `p` is blamed on, any other refusal by its number alone.
#[tactic(auto, using(rules::proofs::RefusalLaws::one_refusal), unfolding(rules::specs::Answers::refused_with))]
fn refused(promises: &[u16], p: u16, refusal: Refusal) -> Answer
    ensures { result ≡ refused_with (get_or promises.now p 0 - small.base) (refusal_number refusal) }
{
    match refusal {
        Refusal::Blamed => Answer::RefusedBlamed(number_at(promises, PromiseWord::FIRST_BLAMED, p)),
        _ => refusal.into(),
    }
}

// The step without refusals 1 and 2, for a caller that has tested the bounds and the tables.
pub fn raw_set(
    tasks: &mut [u16],
    promises: &mut [u16],
    report: &mut [u16],
    t: u16,
    p: u16,
) -> Answer
    requires { in_bounds small (length report.old) (tables_of tasks.old promises.old) ≡ true }
    ensures { TakesRaw small (step_set t p) (tables_of tasks.old promises.old)
        report.old result (tables_of tasks.new promises.new) report.new }
{
    if let Err(refusal) = check(tasks, promises, t, p) {
        return refused(promises, p, refusal);
    }
    let w = TaskWord::waits_on(p);
    let waits = |v| v == w;
    let n = collect_where(tasks, waits, report, 0);
    replace_where(tasks, waits, TaskWord::READY);
    put(promises, usize::from(p), PromiseWord::SET);
    let woken = n as u16;
    Answer::Set(woken)
}
