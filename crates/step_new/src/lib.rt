// The step new: a promise that was never made becomes owned by the acting task.
#![tactic(auto)]

ghost use Rattle.std.specs.Prelude.{◌≡◌, true};
ghost use Rattle.words.specs.Words.{small};
ghost use Rattle.rules.specs.Tables.{tables as tables_of, sizes_fit};
ghost use Rattle.rules.specs.Refusals.{first, refused_by};
ghost use Rattle.rules.specs.Steps.{step_new, rows};
ghost use Rattle.rules.specs.StepContracts.{TakesQuietly};

use rules::{Answer, Refusal};
use step_guards::{check_actor, check_new};
use table_access::put;
use words::PromiseWord;

// Refusals 3, 4, 5, 6 and 7.
#[tactic(auto, using(rules::proofs::RefusalLaws::number_not_0), unfolding(rules::specs::Refusals::first))]
fn check(tasks: &[u16], promises: &[u16], t: u16, p: u16) -> Result<(), Refusal>
    ensures { refused_by result ≡ first (rows small (tables_of tasks.now promises.now) (step_new t p)) }
{
    check_actor(tasks, t)?;
    check_new(promises, p)
}

// The step without refusals 1 and 2, for a caller that has tested the bounds and the tables.
pub fn raw_new(tasks: &[u16], promises: &mut [u16], t: u16, p: u16) -> Answer
    requires { sizes_fit small (tables_of tasks.now promises.old) ≡ true }
    ensures { TakesQuietly small (step_new t p) (tables_of tasks.now promises.old)
        result (tables_of tasks.now promises.new) }
{
    if let Err(refusal) = check(tasks, promises, t, p) {
        return refusal.into();
    }
    put(promises, usize::from(p), PromiseWord::owned_by(t));
    Answer::Made
}
