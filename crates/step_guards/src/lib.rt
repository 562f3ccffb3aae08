// The refusals that look at one number of a step: each function gives the first that applies, or passes. They ask
// nothing of their caller.
#![tactic(auto, unfolding(rules::specs::Refusals::first))]

ghost use Rattle.std.specs.Prelude.{◌≡◌, ◌<◌, ◌≤◌, length, get_or, MatchResult};
ghost use Rattle.words.specs.Words.{small};
ghost use Rattle.words.specs.States.{ReadsPromise};
ghost use Rattle.rules.specs.Refusals.{refused_by, first, actor_rows, child_rows, new_rows, get_rows, own_rows};

use rules::Refusal;
use words::{Limit, PromiseState, PromiseWord, TaskState};

// Refusals 3, 4 and 5: the acting task.
pub fn check_actor(tasks: &[u16], t: u16) -> Result<(), Refusal>
    ensures { refused_by result ≡ first (actor_rows tasks.now t) }
{
    let word = tasks.get(usize::from(t)).ok_or(Refusal::NoTask)?;
    match TaskState::from(*word) {
        TaskState::Ready => Ok(()),
        TaskState::Waits(_) => Err(Refusal::Waits),
        _ => Err(Refusal::NotLive),
    }
}

// Refusals 11 and 12: the child of an async.
pub fn check_child(tasks: &[u16], c: u16) -> Result<(), Refusal>
    ensures { refused_by result ≡ first (child_rows tasks.now c) }
{
    let word = tasks.get(usize::from(c)).ok_or(Refusal::NoChild)?;
    match TaskState::from(*word) {
        TaskState::Unused => Ok(()),
        _ => Err(Refusal::ChildInUse),
    }
}

// What the word of promise `p` says, or refusal 6.
fn promise_at(promises: &[u16], p: u16) -> Result<PromiseState, Refusal>
    ensures { MatchResult result
        (λ state. (p < length promises.now) × ReadsPromise (get_or promises.now p 0) state)
        (λ refusal. (length promises.now ≤ p) × (refusal ≡ Refusal.NoPromise)) }
{
    let word = promises.get(usize::from(p)).ok_or(Refusal::NoPromise)?;
    Ok(PromiseState::from(*word))
}

// Refusals 6 and 7: the promise of a new.
pub fn check_new(promises: &[u16], p: u16) -> Result<(), Refusal>
    ensures { refused_by result ≡ first (new_rows promises.now p) }
{
    match promise_at(promises, p)? {
        PromiseState::Unmade => Ok(()),
        _ => Err(Refusal::AlreadyMade),
    }
}

// Refusals 6 and 8: the promise of a get.
pub fn check_get(promises: &[u16], p: u16) -> Result<(), Refusal>
    ensures { refused_by result ≡ first (get_rows promises.now p) }
{
    if promise_at(promises, p)? == PromiseState::Unmade {
        return Err(Refusal::NeverMade);
    }
    Ok(())
}

// Refusals 6, 8, 9, 17 and 10: a promise that only its owner may set or hand on.
pub fn check_own(promises: &[u16], t: u16, p: u16) -> Result<(), Refusal>
    ensures { refused_by result ≡ first (own_rows small.base promises.now t p) }
{
    let word = *promises.get(usize::from(p)).ok_or(Refusal::NoPromise)?;
    // Asked first, and of the word itself: async asks it of each promise of its list. Where the state was read first, a
    // list of 256 took two fifths longer.
    if usize::from(t) < Limit::TASKS && word == PromiseWord::owned_by(t) {
        return Ok(());
    }
    match PromiseState::from(word) {
        PromiseState::Unmade => Err(Refusal::NeverMade),
        PromiseState::Set => Err(Refusal::AlreadySet),
        PromiseState::Blamed(_) => Err(Refusal::Blamed),
        _ => Err(Refusal::NotOwner),
    }
}
