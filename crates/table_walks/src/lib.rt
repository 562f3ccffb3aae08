// Following owners on behalf of a get: whether the way comes back to the asker, and the pairs of the ring that it
// closes.
#![tactic(auto)]

ghost use Rattle.std.specs.Prelude.{◌≡◌, length};
ghost use Rattle.std.proofs.lemmas.List.Edits.{sets};
ghost use Rattle.rules.specs.Chains.{view_of};
ghost use Rattle.rules.specs.Steps.{walk, pairs};
ghost use Rattle.table_walks.specs.Trails.{found_read};

use table_access::{number_at, put};
use table_hops::{Next, hop};
use words::{PromiseWord, TaskWord};

// Where the way led, with the number of owners reached: back to the asker, or to another ready task. In damaged
// tables it may be lost. Three answers, so no `Option`: each is one of the rules' `Found`.
#[derive(Clone, Copy)]
pub enum Trail {
    Astray,
    Back(usize),
    Free(usize),
}

// Follows owners from `from`, the first reached, until `t` or a ready task.
pub fn follow(tasks: &[u16], promises: &[u16], t: usize, from: usize) -> Trail
    ensures { found_read result ≡ walk (length tasks.now) (length tasks.now)
        (view_of tasks.now promises.now) t from 1 }
{
    let mut u = from;
    for k in 1..=tasks.len() {
        if u == t {
            return Trail::Back(k);
        }
        match hop(tasks, promises, u) {
            Next::Ready => return Trail::Free(k),
            Next::Lost => return Trail::Astray,
            Next::To(x) => u = x,
        }
    }
    Trail::Astray
}

// Writes the pairs of a ring of `k` owners from the report's start: `t` and `p`, then each next task and what it
// awaits. What has no room is left out.
pub fn write_pairs(tasks: &[u16], promises: &[u16], report: &mut [u16], k: u16, t: u16, p: u16)
    ensures { report.new ≡ sets report.old 0
        (pairs k (view_of tasks.now promises.now) t p) }
{
    let mut a = t;
    let mut q = p;
    for i in 0..usize::from(k) {
        put(report, 2 * i, a);
        put(report, 2 * i + 1, q);
        a = number_at(promises, PromiseWord::FIRST_OWNED, q);
        q = number_at(tasks, TaskWord::FIRST_WAIT, a);
    }
}
