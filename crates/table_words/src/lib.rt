// Each word of the tables by itself: whether it is one that may stand there. No loop here leaves before its end, so
// that it goes through several words at once.
#![tactic(auto)]

ghost use Rattle.std.specs.Prelude.{◌≡◌, ℕ, Bool, true, ◌+◌, ◌≤◌, ◌<◌, length, get_or};
ghost use Rattle.words.specs.Words.{small};
ghost use Rattle.words.specs.Lists.{Decides, all_below};
ghost use Rattle.rules.specs.Tables.{tables, sizes_fit, live as live_word};
ghost use Rattle.rules.specs.Sound.{promise_passes};
ghost use Rattle.table_words.specs.Allowed.{every_word, task_word_passes, idle, below, allowed};
ghost use Rattle.table_words.specs.Allowed.{LargestOf, owners_up_to, OnlyOwners};
ghost use Rattle.table_words.specs.Allowed.{Noted, MayHold, Fills};

use words::{Limit, PromiseWord, TaskWord};

// Whether each word of the table passes the test.
fn every_word<F: Fn(u16) -> bool>(table: &[u16], test: F) -> bool
    requires { (k : ℕ) → k < length table.now → F.pre test (get_or table.now k 0) }
    ensures { (t : ℕ → Bool) → Decides (F.post test) t → result ≡ every_word t table.now }
{
    // Not `all`: that leaves at the first word that fails, and so takes one word at a time.
    let mut good = true;
    for w in table {
        good &= test(*w);
    }
    good
}

// Whether each task's word is one of these; `promises` is how many promises there are.
pub fn task_words_pass(tasks: &[u16], promises: usize) -> bool
    requires { promises < 65520 }
    ensures { result ≡ every_word (task_word_passes promises) tasks.now }
{
    let top = TaskWord::FIRST_WAIT + promises as u16;
    every_word(
        tasks,
        |w| w <= TaskWord::ENDED || (TaskWord::FIRST_WAIT <= w && w < top),
    )
}

// Whether no task waits.
pub fn nobody_waits(tasks: &[u16]) -> bool
    ensures { result ≡ every_word idle tasks.now }
{
    every_word(tasks, |w| w < TaskWord::FIRST_WAIT)
}

// The largest word of the table, and 0 where it has none.
fn largest(table: &[u16]) -> u16
    ensures { LargestOf table.now result }
{
    // Not `max`: that takes the first word by itself, and the rest is then no whole number of vectors.
    table.iter().fold(0, |most, w| most.max(*w))
}

// Whether a task with this word is live.
fn live(w: u16) -> bool
    ensures { result ≡ live_word w }
{
    w == TaskWord::READY || TaskWord::FIRST_WAIT <= w
}

// How many tasks there are up to the last one that is an owner, if `most` is the largest word of a promise.
fn owners_up_to(most: u16) -> usize
    ensures { result ≡ owners_up_to most }
{
    (usize::from(most) + 1).saturating_sub(usize::from(PromiseWord::FIRST_OWNED))
}

// A short way to a yes, where no promise is blamed and no task before the last owner is dead; `most` is the largest
// word of a promise.
fn all_owned(tasks: &[u16], promises: &[u16], most: u16) -> bool
    requires { LargestOf promises.now most }
    ensures { result ≡ true → OnlyOwners tasks.now promises.now }
{
    let Some(owners) = tasks.get(..owners_up_to(most)) else {
        return false;
    };
    every_word(owners, live)
        && every_word(
            promises,
            |w| w <= PromiseWord::SET || PromiseWord::FIRST_OWNED <= w,
        )
}

// Notes of each task, from `from` on, whether its word passes the test.
fn note<F: Fn(u16) -> bool>(tasks: &[u16], test: F, may: &mut [bool], from: usize)
    requires callable { F.IsAlwaysCallable test }
    requires room { from + length tasks.now ≤ length may.old }
    ensures { (t : ℕ → Bool) → Decides (F.post test) t → Noted t tasks.now from may.old may.new }
{
    for (t, w) in tasks.iter().enumerate() {
        may[from + t] = test(*w);
    }
}

// Whether each word of the table may stand there.
fn look_up(promises: &[u16], may: &[bool]) -> bool
    requires { every_word (below (length may.now)) promises.now ≡ true }
    ensures { result ≡ every_word (allowed may.now) promises.now }
{
    every_word(promises, |w| may[usize::from(w)])
}

// Fills `may`, in which no word may stand yet, with what a promise's word may be; `base` is the first blamed word.
fn fill_may(tasks: &[u16], may: &mut [bool], base: u16)
    requires { MayHold base (length tasks.now) may.old }
    ensures { Fills base tasks.now may.new }
{
    may[usize::from(PromiseWord::UNMADE)] = true;
    may[usize::from(PromiseWord::SET)] = true;
    note(tasks, live, may, usize::from(PromiseWord::FIRST_OWNED));
    note(tasks, |w| w == TaskWord::ENDED, may, usize::from(base));
}

// Whether each promise's word is one of these, its owner is live, and who is blamed is ended: each is looked up in
// `may`, in which no word may stand yet.
fn promises_may(tasks: &[u16], promises: &[u16], may: &mut [bool], base: u16) -> bool
    requires { MayHold base (length tasks.now) may.old }
    ensures { result ≡ all_below (length promises.now)
        (promise_passes base (tables tasks.now promises.now)) }
{
    let most = largest(promises);
    if may.len() <= usize::from(most) {
        return false;
    }
    if all_owned(tasks, promises, most) {
        return true;
    }
    fill_may(tasks, may, base);
    look_up(promises, may)
}

// The same with a look-up table of its own.
pub fn promises_pass(tasks: &[u16], promises: &[u16]) -> bool
    requires { sizes_fit small (tables tasks.now promises.now) ≡ true }
    ensures { result ≡ all_below (length promises.now)
        (promise_passes small.base (tables tasks.now promises.now)) }
{
    let mut may = [false; Limit::PROMISE_WORDS];
    promises_may(tasks, promises, &mut may, PromiseWord::FIRST_BLAMED)
}
