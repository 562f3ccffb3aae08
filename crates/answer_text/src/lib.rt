// The text of an answer: its line number, its word and its fields, each written into the rest of the lent answer line
// from the line's current end `at` on. Each `add_` writer answers the new end. A text without room is cut at the
// line's end; every answer has room in 2,048 bytes (proofs/Fits.antt).
#![tactic(auto)]

ghost use Rattle.std.specs.Prelude.{◌≡◌, [], ◌∷◌};
ghost use Rattle.text_buffers.specs.Buffers.{Wrote, Added};
ghost use Rattle.text_writers.specs.Texts.{fields_text, stretch_of};
ghost use Rattle.answer_text.specs.AnswerText.{word_table, looked_up, word_for, number_shown, part_shown};
ghost use Rattle.answer_text.specs.AnswerText.{fields_in, answer_text};

use answer_words::{layout, words_of};
use rules::{Answer, Layout, Part};
use text_writers::add_bytes;

// The word of an answer that is no refusal, by its number.
#[tactic(auto, unfolding(crate::specs::AnswerText::looked_up))]
fn told_word(number: u16) -> &'static [u8]
    ensures { result.now ≡ looked_up word_table number }
{
    match number {
        100 => b"opened",
        101 => b"made",
        102 => b"set",
        103 => b"value",
        104 => b"blamed",
        105 => b"waits",
        106 => b"cycle",
        107 => b"started",
        108 => b"ended",
        _ => b"",
    }
}

// The word of an answer.
#[tactic(auto, unfolding(crate::specs::AnswerText::word_for))]
fn word_of(refuses: bool, number: u16) -> &'static [u8]
    ensures { result.now ≡ word_for refuses number }
{
    if refuses {
        b"refused"
    } else {
        told_word(number)
    }
}

// One number.
fn add_field(out: &mut [u8], at: usize, n: u16) -> usize
    ensures { Added (fields_text (n ∷ [])) out.old at out.new result }
{
    text_writers::add_number(out, at, u32::from(n))
}

// A count, then `words` of the report from `from` on.
fn add_list(
    out: &mut [u8],
    at: usize,
    count: u16,
    report: &[u16],
    from: usize,
    words: usize,
) -> usize
    ensures { Added (fields_text (count ∷ stretch_of report.now from words)) out.old at
        out.new result }
{
    let e = add_field(out, at, count);
    text_writers::add_part(out, e, report, from, words)
}

// A value with its words, which stand in the report from `from` on; nothing, where there is no value.
fn add_part(out: &mut [u8], at: usize, part: Option<Part>, report: &[u16], from: usize) -> usize
    ensures { Added (fields_text (part_shown part report.now from)) out.old at
        out.new result }
{
    match part {
        Some(Part { value, words }) => add_list(out, at, value, report, from, words as usize),
        None => at,
    }
}

// The number of a refusal.
fn add_refusal(out: &mut [u8], at: usize, refuses: bool, number: u16) -> usize
    ensures { Added (fields_text (number_shown refuses number)) out.old at out.new result }
{
    if refuses {
        return add_field(out, at, number);
    }
    at
}

// The fields of an answer; the lists among them are in the report.
fn add_fields(out: &mut [u8], at: usize, l: Layout, report: &[u16]) -> usize
    ensures { Added (fields_text (fields_in l report.now)) out.old at out.new result }
{
    let second = words_of(l.first) as usize;
    let third = second + words_of(l.second) as usize;
    let n = add_refusal(out, at, l.refuses, l.number);
    let v = add_part(out, n, l.first, report, 0);
    let w = add_part(out, v, l.second, report, second);
    add_part(out, w, l.third, report, third)
}

// Writes the answer line of the line `number`, with its LF, and answers how many bytes it has.
pub fn put_answer(out: &mut [u8], number: u32, a: Answer, report: &[u16]) -> usize
    ensures { Wrote (answer_text number a report.now) out.old out.new result }
{
    let digits = text_numbers::put_digits(out, number);
    let tab = text_buffers::add_byte(out, digits, b'\t');
    let l = layout(a);
    let word = add_bytes(out, tab, word_of(l.refuses, l.number));
    let fields = add_fields(out, word, l, report);
    text_buffers::add_byte(out, fields, b'\n')
}
