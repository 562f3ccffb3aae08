// The soundness test of the tables, and refusals 1 and 2, which every step gives first.
#![tactic(auto)]

ghost use Rattle.std.specs.Prelude.{true, ◌≡◌};
ghost use Rattle.words.specs.Words.{small};
ghost use Rattle.rules.specs.Tables.{tables, sizes_fit, in_bounds};
ghost use Rattle.rules.specs.Sound.{sound_test, is_sound};
ghost use Rattle.rules.specs.Refusals.{first, refused_by, table_rows};

use rules::Refusal;
use table_chains::chains_pass;
use table_words::{nobody_waits, promises_pass, task_words_pass};
use words::{room_for, sizes_in_bounds};

// Whether the words of tables within their bounds pass: such tables are sound exactly then. The words are tested
// first, each by itself, and chains only where somebody waits.
#[tactic(auto, using(crate::proofs::TestLaws::test_in_turn, rules::proofs::BoundsLaws::sizes_fit_true))]
pub fn tables_pass(tasks: &[u16], promises: &[u16]) -> bool
    requires { sizes_fit small (tables tasks.now promises.now) ≡ true }
    ensures { result ≡ sound_test small.base (tables tasks.now promises.now) }
{
    task_words_pass(tasks, promises.len())
        && promises_pass(tasks, promises)
        && (nobody_waits(tasks) || chains_pass(tasks, promises))
}

// Whether the tables are sound, whatever their lengths: those that are too short or too long are not.
#[tactic(auto, unfolding(rules::specs::Tables::sizes_fit))]
pub fn is_sound(tasks: &[u16], promises: &[u16]) -> bool
    ensures { result ≡ is_sound small (tables tasks.now promises.now) }
{
    sizes_in_bounds(tasks.len(), promises.len()) && tables_pass(tasks, promises)
}

// Whether the lengths of the tables and the report's length are within their bounds: the one test of lengths.
#[tactic(auto, unfolding(rules::specs::Tables::in_bounds, rules::specs::Tables::sizes_fit))]
fn in_bounds(tasks: &[u16], promises: &[u16], report: usize) -> bool
    ensures { result ≡ in_bounds small report (tables tasks.now promises.now) }
{
    sizes_in_bounds(tasks.len(), promises.len()) && room_for(tasks.len(), promises.len()) <= report
}

// Refusals 1 and 2; `report` is the report's length.
#[tactic(auto, using(rules::proofs::BoundsLaws::in_bounds_sizes), unfolding(rules::specs::Refusals::first))]
pub fn check_tables(tasks: &[u16], promises: &[u16], report: usize) -> Result<(), Refusal>
    ensures { refused_by result ≡ first (table_rows small report (tables tasks.now promises.now)) }
{
    if !in_bounds(tasks, promises, report) {
        return Err(Refusal::OutOfBounds);
    }
    if !tables_pass(tasks, promises) {
        return Err(Refusal::Damaged);
    }
    Ok(())
}
