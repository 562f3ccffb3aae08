// A row of words in an array of a fixed length: the program takes no memory from the heap, and so has no Vec.
ghost use Rattle.std.specs.Prelude.{◌≡◌, ◌+◌, ◌-◌, ◌≤◌, ◌<◌, ◌↔◌, ◌++◌, length, take, drop, replicate};
ghost use Rattle.std.specs.Prelude.{IsOk, OnOk, OnErr, IfOk};

use crate::read::NotUnderstood;

// The first `length` words of the array are the row's.
#[derive(Clone, Copy)]
pub struct Row<const N: usize> {
    pub words: [u16; N],
    pub length: usize,
    ghost within: { length ≤ N },
}

// No words.
impl<const N: usize> Default for Row<N> {
    ghost is_default = { λ r. (r.words ≡ replicate N 0) × (r.length ≡ 0) };

    fn default() -> Row<N> {
        Row {
            words: [0; N],
            length: 0,
        }
    }
}

impl<const N: usize> Row<N> {
    // The words of the row.
    pub fn as_slice(&self) -> &[u16]
        ensures { result.now ≡ take self.now.length self.now.words }
    {
        &self.words[..self.length]
    }

    // The word, as many times as told, after those of the row, if there is room.
    #[tactic(auto, using(std::proofs::lemmas::Slice::overwrites))]
    pub fn push_times(&mut self, word: u16, times: usize) -> Result<(), NotUnderstood>
        ensures room { IsOk result ↔ (self.old.length + times ≤ N) }
        ensures words { OnOk result (take self.new.length self.new.words
            ≡ take self.old.length self.old.words ++ replicate times word) }
        ensures rest { OnOk result (drop self.new.length self.new.words
            ≡ drop (self.old.length + times) self.old.words) }
        ensures length { OnOk result (self.new.length ≡ self.old.length + times) }
        ensures full { OnErr result (self.new ≡ self.old) }
    {
        if N - self.length < times {
            return Err(NotUnderstood);
        }
        let end = self.length + times;
        let all = &mut self.words[..];
        all[self.length..end].fill(word);
        self.length = end;
        Ok(())
    }
}

// These words, if there is room for them.
impl<const N: usize> TryFrom<&[u16]> for Row<N> {
    type Error = NotUnderstood;

    ghost try_from_gives = { λ s r. (IsOk r ↔ (length s.now ≤ N))
        × IfOk r (λ row. row.words ≡ s.now ++ replicate (N - length s.now) 0)
        × IfOk r (λ row. row.length ≡ length s.now) };

    fn try_from(words: &[u16]) -> Result<Row<N>, NotUnderstood> {
        if N < words.len() {
            return Err(NotUnderstood);
        }
        let mut all = [0; N];
        all[..words.len()].copy_from_slice(words);
        Ok(Row {
            words: all,
            length: words.len(),
        })
    }
}
