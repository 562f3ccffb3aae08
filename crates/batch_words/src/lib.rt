// The batch for callers that know numbers alone: a record is five words, its kind, its task, its other number, and
// the start and the length of its part of the list.
#![tactic(auto)]

ghost use Rattle.std.specs.Prelude.{◌≡◌, ◌*◌, ◌≤◌, length};
ghost use Rattle.words.specs.Words.{small};
ghost use Rattle.steps.specs.Lending.{tables_lent, SameLoan};
ghost use Rattle.batch.specs.Batches.{Batches};
ghost use Rattle.batch_words.specs.Flat.{kind_of, record_in, records_of, is_record, is_flat, flatly};

use batch::{Records, batch};
use batch_record::Record;
use rules::Refusal;
use step_kinds::Kind;
use steps::Lent;

// The kind that a word stands for; a word above 4 stands for none.
#[tactic(auto, unfolding(crate::specs::Flat::kind_of))]
fn kind_of(word: u16) -> Kind
    ensures { result ≡ kind_of word }
{
    match word {
        0 => Kind::New,
        1 => Kind::Set,
        2 => Kind::Get,
        3 => Kind::Async,
        _ => Kind::End,
    }
}

// The record of five words.
fn record_of(five: &[u16]) -> Record
    requires { length five.now ≡ 5 }
    ensures { result ≡ record_in five.now 0 }
{
    match five {
        [kind, task, other, start, length] => Record {
            kind: kind_of(*kind),
            task: *task,
            other: *other,
            start: *start as usize,
            length: *length as usize,
        },
        _ => unreachable!(),
    }
}

// The records that words stand for, five words each.
#[derive(Clone, Copy)]
struct FlatRecords<'a> {
    words: &'a [u16],
}

impl Records for FlatRecords<'_> {
    ghost listed = { λ records. records_of records.words.now };

    fn count(&self) -> usize {
        self.words.len() / 5
    }

    fn record_at(&self, i: usize) -> Record {
        let words = self.words;
        let from = 5 * i;
        record_of(&words[from..from + 5])
    }
}

// Whether the words are a record of one of the five kinds.
fn is_record(words: &[u16]) -> bool
    ensures { result ≡ is_record words.now }
{
    matches!(words, [0..=4, _, _, _, _])
}

// Whether the words are whole records, each of one of the five kinds.
fn is_flat(words: &[u16]) -> bool
    ensures { result ≡ is_flat words.now }
{
    for five in words.chunks(5) {
        if !is_record(five) {
            return false;
        }
    }
    true
}

// The call: for tables, a report, words, a list and answers of any lengths, with any words in them. Words that are no
// whole records are out of bounds.
pub fn batch_words(
    lent: &mut Lent<'_>,
    words: &[u16],
    list: &[u16],
    answers: &mut [u16],
) -> Result<usize, Refusal>
    ensures same_loan { SameLoan lent.old lent.new }
    ensures called { Batches (flatly small list.now (tables_lent lent.old) words.now (length lent.old.report.now)
        (length answers.old)) lent.old.report.now answers.old result (tables_lent lent.new) lent.new.report.now
        answers.new }
{
    if !is_flat(words) {
        return Err(Refusal::OutOfBounds);
    }
    batch(lent, &FlatRecords { words }, list, answers)
}
