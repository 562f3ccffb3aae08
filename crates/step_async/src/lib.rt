// The step async: a child that was never used becomes ready, and every listed promise passes from the acting task to
// it, or none does.
#![tactic(auto)]

ghost use Rattle.std.specs.Prelude.{◌≡◌, [], ◌∷◌, ◌++◌, true, false, ◌-◌, ◌≤◌, ◌<◌, length, get_or, set, replicate};
ghost use Rattle.std.specs.Prelude.{OnOk};
ghost use Rattle.words.specs.Words.{small};
ghost use Rattle.rules.specs.Tables.{tables as tables_of, sizes_fit};
ghost use Rattle.rules.specs.Answers.{refused_at_with};
ghost use Rattle.rules.specs.Refusals.{refusal_number, refused_by, first, actor_rows, child_rows, own_rows};
ghost use Rattle.rules.specs.Refusals.{entry_refusal};
ghost use Rattle.rules.specs.Steps.{step_async, given};
ghost use Rattle.rules.specs.StepContracts.{TakesQuietly};
ghost use Rattle.step_async.specs.Entries.{Judges};

use rules::{Answer, Refusal};
use step_guards::{check_actor, check_child, check_own};
use table_access::{number_at, put};
use words::{Limit, PromiseWord, TaskWord};

// A bad entry of the list: its place, and what refuses it.
#[derive(Clone, Copy)]
struct BadEntry {
    place: usize,
    refusal: Refusal,
}

// Refusals 3, 4, 5, 11 and 12.
#[tactic(auto, using(rules::proofs::RefusalLaws::number_not_0), unfolding(rules::specs::Refusals::first))]
fn check(tasks: &[u16], t: u16, c: u16) -> Result<(), Refusal>
    ensures { refused_by result ≡ first (actor_rows tasks.now t ++ child_rows tasks.now c) }
{
    check_actor(tasks, t)?;
    check_child(tasks, c)
}

// Refusals 6, 8, 9, 17, 10 and 13 of an entry that names promise `q`: `seen` has a mark for each promise that an
// earlier entry names, and gets one for `q`.
#[tactic(auto, using(rules::proofs::RefusalLaws::number_not_0), unfolding(rules::specs::Refusals::first))]
fn check_entry(promises: &[u16], t: u16, q: u16, seen: &mut [bool]) -> Result<(), Refusal>
    requires { length promises.now ≤ length seen.old }
    ensures refused { refused_by result
        ≡ first (own_rows small.base promises.now t q ++ (13, get_or seen.old q false) ∷ []) }
    ensures marked { OnOk result (seen.new ≡ set seen.old q true) }
{
    check_own(promises, t, q)?;
    let place = usize::from(q);
    if seen[place] {
        return Err(Refusal::ListedTwice);
    }
    seen[place] = true;
    Ok(())
}

// The first bad entry, if there is one. `seen` has a mark for each promise, none of them set: each is set at the first
// entry that names its promise.
fn check_entries(promises: &[u16], t: u16, list: &[u16], seen: &mut [bool]) -> Result<(), BadEntry>
    requires { (length promises.now ≤ length seen.old) × (seen.old ≡ replicate (length seen.old) false) }
    ensures { Judges (entry_refusal small.base promises.now t list.now) (length list.now) result }
{
    for (place, &q) in list.iter().enumerate() {
        if let Err(refusal) = check_entry(promises, t, q, seen) {
            return Err(BadEntry { place, refusal });
        }
    }
    Ok(())
}

// The same, with marks of its own.
fn check_list(promises: &[u16], t: u16, list: &[u16]) -> Result<(), BadEntry>
    requires { length promises.now ≤ small.most_promises }
    ensures { Judges (entry_refusal small.base promises.now t list.now) (length list.now) result }
{
    let mut seen = [false; Limit::PROMISES];
    check_entries(promises, t, list, &mut seen)
}

// The answer that refuses for a bad entry, at its place: 17 with the task that the entry is blamed on.
#[tactic(auto, using(rules::proofs::RefusalLaws::one_refusal), unfolding(rules::specs::Answers::refused_at_with))]
fn refused_entry(promises: &[u16], list: &[u16], bad: BadEntry) -> Answer
    requires { (bad.place < length list.now) × (bad.place < 65536) }
    ensures { result
        ≡ refused_at_with (get_or promises.now (get_or list.now bad.place 0) 0 - small.base) bad.place
        (refusal_number bad.refusal) }
{
    let place = bad.place as u16;
    match bad.refusal {
        Refusal::Blamed => Answer::RefusedBlamedAt {
            place,
            blamed: number_at(promises, PromiseWord::FIRST_BLAMED, list[bad.place]),
        },
        refusal => Answer::RefusedAt {
            number: refusal.number(),
            place,
        },
    }
}

// Each listed promise gets the word `w`.
fn give(promises: &mut [u16], w: u16, list: &[u16])
    ensures { promises.new ≡ given w list.now promises.old }
{
    for &q in list {
        put(promises, usize::from(q), w);
    }
}

// The step without refusals 1 and 2, for a caller that has tested the bounds and the tables. Nothing is stored before
// the whole list has passed.
pub fn raw_async(tasks: &mut [u16], promises: &mut [u16], t: u16, c: u16, list: &[u16]) -> Answer
    requires { sizes_fit small (tables_of tasks.old promises.old) ≡ true }
    ensures { TakesQuietly small (step_async t c list.now)
        (tables_of tasks.old promises.old)
        result (tables_of tasks.new promises.new) }
{
    if let Err(refusal) = check(tasks, t, c) {
        return refusal.into();
    }
    if let Err(bad) = check_list(promises, t, list) {
        return refused_entry(promises, list, bad);
    }
    put(tasks, usize::from(c), TaskWord::READY);
    give(promises, PromiseWord::owned_by(c), list);
    Answer::Started
}
