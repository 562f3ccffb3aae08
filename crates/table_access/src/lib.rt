// Reads and stores that ask nothing of their caller, and the loops that go through a table of words.
#![tactic(auto)]

ghost use Rattle.std.specs.Prelude.{ℕ, Bool, ◌≡◌, ◌+◌, ◌-◌, ◌≤◌, ◌<◌, length, get_or, set};
ghost use Rattle.std.proofs.lemmas.List.Edits.{sets};
ghost use Rattle.words.specs.Lists.{Decides, places, replaced};

// The word at an index, and 0 past the end.
pub fn at(table: &[u16], i: usize) -> u16
    ensures { result ≡ get_or table.now i 0 }
{
    table.get(i).copied().unwrap_or(0)
}

// The number in the word at an index, where the words that hold one begin at `base`: what a task awaits, who owns a
// promise or is blamed for it. 0 where there is none.
pub fn number_at(table: &[u16], base: u16, i: u16) -> u16
    ensures { result ≡ get_or table.now i 0 - base }
{
    at(table, usize::from(i)).saturating_sub(base)
}

// A store; past the end it does nothing, as `set` on a list.
pub fn put(table: &mut [u16], i: usize, w: u16)
    ensures { table.new ≡ set table.old i w }
{
    // Tried with `get_mut`: after a write through what it lends, a proof knows of the table only its length.
    if i < table.len() {
        table[i] = w;
    }
}

// Each word of the table that passes the test becomes `x`.
pub fn replace_where<F: Fn(u16) -> bool>(table: &mut [u16], test: F, x: u16)
    requires callable { F.IsAlwaysCallable test }
    ensures { (t : ℕ → Bool) → Decides (F.post test) t → table.new ≡ replaced t x table.old }
{
    for w in table.iter_mut() {
        // Every word is written: a store under an `if` takes five times as long, since it is not done for several at
        // once.
        *w = if test(*w) { x } else { *w };
    }
}

// Writes the places of the words that pass the test to `out` from index `from` on, rising. Returns the index after the
// last.
pub fn collect_where<F: Fn(u16) -> bool>(
    table: &[u16],
    test: F,
    out: &mut [u16],
    from: usize,
) -> usize
    requires callable { F.IsAlwaysCallable test }
    requires room { (from + length table.now ≤ length out.old) × (length table.now ≤ 65536) }
    ensures { (t : ℕ → Bool) → Decides (F.post test) t →
        (result ≡ from + length (places t 0 table.now))
        × (out.new ≡ sets out.old from (places t 0 table.now)) }
{
    let mut n = from;
    for (i, w) in table.iter().enumerate() {
        if test(*w) {
            out[n] = i as u16;
            n += 1;
        }
    }
    n
}
