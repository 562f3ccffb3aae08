// Where a hop from a task leads: what every chain is made of.
#![tactic(auto)]

ghost use Rattle.std.specs.Prelude.{◌≡◌, length};
ghost use Rattle.rules.specs.Chains.{view_of};
ghost use Rattle.rules.specs.Sound.{hop as hop_of, hop_owner};
ghost use Rattle.table_hops.specs.Hops.{hop_read};

use table_access::at;
use words::{PromiseWord, TaskState};

// Where a hop from a task leads: it is ready, or it leads nowhere, or to the owner of what it awaits. Three answers, so
// no `Option`: it is `Hop` of the rules, case by case.
#[derive(Clone, Copy)]
pub enum Next {
    Ready,
    Lost,
    To(usize),
}

// The owner that a promise's word names, if it names one of `count` tasks. The word is not read as a `PromiseState`:
// the contract holds for any number of tasks, and that reading is of at most 64.
fn hop_owner(count: usize, w: u16) -> Next
    ensures { hop_read result ≡ hop_owner count w }
{
    match w.checked_sub(PromiseWord::FIRST_OWNED) {
        Some(owner) if usize::from(owner) < count => Next::To(usize::from(owner)),
        _ => Next::Lost,
    }
}

// From task `v` to the owner of what it awaits.
#[tactic(auto, unfolding(rules::specs::Sound::hop))]
pub fn hop(tasks: &[u16], promises: &[u16], v: usize) -> Next
    ensures { hop_read result ≡ hop_of (length tasks.now) (view_of tasks.now promises.now) v }
{
    match TaskState::from(at(tasks, v)) {
        TaskState::Ready => Next::Ready,
        TaskState::Waits(p) => hop_owner(tasks.len(), at(promises, usize::from(p))),
        TaskState::Unused | TaskState::Ended | TaskState::Damaged => Next::Lost,
    }
}
