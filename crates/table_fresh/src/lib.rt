// Fresh tables: task 0 is ready and every other word is 0.
#![tactic(auto)]

ghost use Rattle.std.specs.Prelude.{◌≡◌, length};
ghost use Rattle.words.specs.Words.{small};
ghost use Rattle.rules.specs.Tables.{tables as tables_of};
ghost use Rattle.rules.specs.Refusals.{fresh_refusal, refused_by};
ghost use Rattle.rules.specs.StepContracts.{Freshens};

use rules::Refusal;
use words::{PromiseWord, TaskWord};

// Refusal 1 by the sizes alone.
#[tactic(auto, unfolding(rules::specs::Refusals::first, rules::specs::Refusals::fresh_refusal))]
pub fn check_sizes(tasks: usize, promises: usize) -> Result<(), Refusal>
    ensures { refused_by result ≡ fresh_refusal small tasks promises }
{
    if !words::sizes_in_bounds(tasks, promises) {
        return Err(Refusal::OutOfBounds);
    }
    Ok(())
}

// Makes the lent tables fresh, whatever they held; refused by 1 if one is too short or too long, and then nothing is
// written.
pub fn fresh(tasks: &mut [u16], promises: &mut [u16]) -> Result<(), Refusal>
    ensures { Freshens small (tables_of tasks.old promises.old)
        (refused_by result) (tables_of tasks.new promises.new) }
{
    check_sizes(tasks.len(), promises.len())?;
    tasks.fill(TaskWord::unused());
    table_access::put(tasks, 0, TaskWord::ready());
    promises.fill(PromiseWord::unmade());
    Ok(())
}
