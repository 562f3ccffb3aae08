// The layout of an answer, and an answer as four words: its number, then its values, 0 where it has none.
#![tactic(auto)]

ghost use Rattle.std.specs.Prelude.{◌≡◌};
ghost use Rattle.std.proofs.lemmas.List.Edits.{sets};
ghost use Rattle.rules.specs.Answers.{part, layout as layout_of, with_none, with_one, with_two, laid, number_of};
ghost use Rattle.rules.specs.Answers.{value_of, words_of, word_count};
ghost use Rattle.answer_words.specs.AnswerWords.{answer_words};

use rules::{Answer, Layout, Part};
use table_access::put;

// A value that `words` words of the report follow.
fn part(value: u16, words: u32) -> Option<Part>
    ensures { result ≡ part value words }
{
    Some(Part { value, words })
}

// The layout of an answer with at most two values.
fn with_parts(refuses: bool, number: u16, first: Option<Part>, second: Option<Part>) -> Layout
    ensures { result ≡ layout_of refuses number first second None }
{
    Layout {
        refuses,
        number,
        first,
        second,
        third: None,
    }
}

// With no value.
fn with_none(refuses: bool, number: u16) -> Layout
    ensures { result ≡ with_none refuses number }
{
    with_parts(refuses, number, None, None)
}

// With one value, which `k` words of the report follow.
fn with_one(refuses: bool, number: u16, v: u16, k: u32) -> Layout
    ensures { result ≡ with_one refuses number v k }
{
    with_parts(refuses, number, part(v, k), None)
}

// With two values, which `k` and `l` words follow.
fn with_two(refuses: bool, number: u16, v: u16, k: u32, w: u16, l: u32) -> Layout
    ensures { result ≡ with_two refuses number v k w l }
{
    with_parts(refuses, number, part(v, k), part(w, l))
}

// The layout of an answer.
#[tactic(auto, unfolding(rules::specs::Answers::laid))]
pub fn layout(a: Answer) -> Layout
    ensures { result ≡ laid a }
{
    match a {
        Answer::Opened => with_none(false, 100),
        Answer::Made => with_none(false, 101),
        Answer::Set(n) => with_one(false, 102, n, u32::from(n)),
        Answer::Value => with_none(false, 103),
        Answer::Blamed(b) => with_one(false, 104, b, 0),
        Answer::Waits(k) => with_one(false, 105, k, 0),
        Answer::Cycle(k) => with_one(false, 106, k, 2 * u32::from(k)),
        Answer::Started => with_none(false, 107),
        Answer::Ended { omitted, woken } => {
            with_two(
                false,
                108,
                omitted,
                u32::from(omitted),
                woken,
                u32::from(woken),
            )
        }
        Answer::Refused(r) => with_none(true, r),
        Answer::RefusedAt { number, place } => with_one(true, number, place, 0),
        Answer::RefusedBlamed(b) => with_one(true, 17, b, 0),
        Answer::RefusedBlamedAt { place, blamed } => with_two(true, 17, place, 0, blamed, 0),
    }
}

// A value as one of the four words.
fn value_of(part: Option<Part>) -> u16
    ensures { result ≡ value_of part }
{
    part.map_or(0, |p| p.value)
}

// The number of an answer; its words are written to `answer`.
#[tactic(auto, unfolding(crate::specs::AnswerWords::answer_words))]
pub fn tell(answer: &mut [u16], a: Answer) -> u16
    ensures { (result ≡ number_of a) × (answer.new ≡ sets answer.old 0 (answer_words a)) }
{
    let l = layout(a);
    put(answer, 0, l.number);
    put(answer, 1, value_of(l.first));
    put(answer, 2, value_of(l.second));
    put(answer, 3, value_of(l.third));
    l.number
}

// How many words of the report are a value's own.
pub fn words_of(part: Option<Part>) -> u32
    ensures { result ≡ words_of part }
{
    part.map_or(0, |p| p.words)
}

// How many words of the report are the answer's own.
pub fn word_count(a: Answer) -> usize
    ensures { result ≡ word_count a }
{
    let l = layout(a);
    words_of(l.first) as usize + words_of(l.second) as usize + words_of(l.third) as usize
}
