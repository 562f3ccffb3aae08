// Whether every chain comes to a ready task. No link is walked twice: a walk marks the tasks on its way, and ends where
// an earlier walk has been.
#![tactic(auto)]

ghost use Rattle.std.specs.Prelude.{◌≡◌, true, ◌<◌, length};
ghost use Rattle.words.specs.Words.{small};
ghost use Rattle.words.specs.Lists.{all_below};
ghost use Rattle.rules.specs.Tables.{tables, sizes_fit};
ghost use Rattle.rules.specs.Sound.{comes_in_time};
ghost use Rattle.table_chains.specs.Marks.{Marked, MarksFor, chain_passes, LeadsWithin};

use std::ops::Range;
use table_access::at;
use table_hops::{Next, hop};
use words::{Limit, PromiseWord, TaskWord};

// Follows owners from task `v` and marks the tasks on the way with `v` + 1, to a ready task or to one with another
// mark, whose chain is known to end well: whether the chain of `v` comes to a ready task.
fn mark_way(tasks: &[u16], promises: &[u16], marks: &mut [u16], v: usize) -> bool
    requires { (v < length tasks.now) × MarksFor (tables tasks.now promises.now) marks.old }
    ensures { (result ≡ comes_in_time (tables tasks.now promises.now) v)
        × (result ≡ true → Marked (tables tasks.now promises.now) marks.new) }
{
    let me = (v + 1) as u16;
    let mut u = v;
    for _ in 0..tasks.len() {
        let mark = marks[u];
        if mark != 0 && mark != me {
            return true;
        }
        marks[u] = me;
        match hop(tasks, promises, u) {
            Next::Ready => return true,
            Next::Lost => return false,
            Next::To(x) => u = x,
        }
    }
    false
}

// The same of a task that waits; nothing is asked of any other.
fn chain_passes(tasks: &[u16], promises: &[u16], marks: &mut [u16], v: usize) -> bool
    requires { (v < length tasks.now) × MarksFor (tables tasks.now promises.now) marks.old }
    ensures { (result ≡ chain_passes (tables tasks.now promises.now) v)
        × (result ≡ true → Marked (tables tasks.now promises.now) marks.new) }
{
    tasks[v] < TaskWord::FIRST_WAIT || mark_way(tasks, promises, marks, v)
}

// Whether the chain of every waiting task comes to a ready task, from the last task to the first; `marks` has a word
// for each task, and whoever is marked at the start has such a chain.
fn chains_marked(tasks: &[u16], promises: &[u16], marks: &mut [u16]) -> bool
    requires { MarksFor (tables tasks.now promises.now) marks.old }
    ensures { result ≡ all_below (length tasks.now)
        (chain_passes (tables tasks.now promises.now)) }
{
    for v in (0..tasks.len()).rev() {
        if !chain_passes(tasks, promises, marks, v) {
            return false;
        }
    }
    true
}

// The same with marks of its own.
fn marked_pass(tasks: &[u16], promises: &[u16]) -> bool
    requires { sizes_fit small (tables tasks.now promises.now) ≡ true }
    ensures { result ≡ all_below (length tasks.now)
        (chain_passes (tables tasks.now promises.now)) }
{
    let mut marks = [0; Limit::TASKS];
    chains_marked(tasks, promises, &mut marks)
}

// Whether task `v` does not wait, or a hop from it leads to a live task with a number among `owners`. A promise's word
// below those of owners wraps to a number past every task, so that no test of its own is needed.
fn leads_within(tasks: &[u16], promises: &[u16], v: usize, owners: Range<usize>) -> bool
    ensures { result ≡ true
        → LeadsWithin (tables tasks.now promises.now) owners.start owners.end v }
{
    let Some(p) = at(tasks, v).checked_sub(TaskWord::FIRST_WAIT) else {
        return true;
    };
    let owned = usize::from(at(promises, usize::from(p)));
    let x = owned.wrapping_sub(usize::from(PromiseWord::FIRST_OWNED));
    owners.contains(&x) && matches!(at(tasks, x), TaskWord::READY | TaskWord::FIRST_WAIT..)
}

// Whether the chain of every waiting task comes to a ready task. Where all links lead to higher numbers, or all to
// lower ones, no chain comes back, and no marks are needed.
//
// Not inlined, and the second time from the last task on: compiled so, no jump of the first two loops crosses a
// multiple of 32 bytes or ends at one, wherever the function is put. Processors from Skylake to Cascade Lake take up
// to twice as long for a loop with such a jump.
#[inline(never)]
pub fn chains_pass(tasks: &[u16], promises: &[u16]) -> bool
    requires { sizes_fit small (tables tasks.now promises.now) ≡ true }
    ensures { result ≡ all_below (length tasks.now)
        (chain_passes (tables tasks.now promises.now)) }
{
    let count = tasks.len();
    (0..count).all(|v| leads_within(tasks, promises, v, v + 1..count))
        || (0..count)
            .rev()
            .all(|v| leads_within(tasks, promises, v, 0..v))
        || marked_pass(tasks, promises)
}
