// The fields of an answer. Each `put_` writer is lent the rest of the answer line, writes at its front and answers
// how many bytes it wrote. Each `add_` writer lends such a rest, from the line's current end `at` on, and answers the
// new end. A text without room is cut at the line's end, so no writer asks leave; with room the whole text is there
// (`wrote_room`, `added_room` of `text_buffers`).
#![tactic(auto)]

ghost use Rattle.std.specs.Prelude.{◌≡◌, ◌+◌, ◌-◌, min};
ghost use Rattle.text_buffers.specs.Buffers.{Wrote, Added};
ghost use Rattle.text_numbers.specs.Numbers.{dec};
ghost use Rattle.text_writers.specs.Texts.{field_text, fields_text, stretch_of};

// Writes a byte string, as the word of an answer.
pub fn put_bytes(out: &mut [u8], text: &[u8]) -> usize
    ensures { Wrote text.now out.old out.new result }
{
    let count = text.len().min(out.len());
    out[..count].copy_from_slice(&text[..count]);
    count
}

// Writes a byte string from `at` on.
pub fn add_bytes(out: &mut [u8], at: usize, text: &[u8]) -> usize
    ensures { Added text.now out.old at out.new result }
{
    if out.len() < at {
        return at;
    }
    at + put_bytes(&mut out[at..], text)
}

// Writes the digits of n from `at` on.
pub fn add_digits(out: &mut [u8], at: usize, n: u32) -> usize
    ensures { Added (dec n) out.old at out.new result }
{
    if out.len() < at {
        return at;
    }
    at + text_numbers::put_digits(&mut out[at..], n)
}

// Writes a tab and a number.
pub fn put_number(out: &mut [u8], n: u32) -> usize
    ensures { Wrote (field_text n) out.old out.new result }
{
    let at = text_buffers::add_byte(out, 0, b'\t');
    add_digits(out, at, n)
}

// Writes a tab and a number from `at` on.
pub fn add_number(out: &mut [u8], at: usize, n: u32) -> usize
    ensures { Added (field_text n) out.old at out.new result }
{
    if out.len() < at {
        return at;
    }
    at + put_number(&mut out[at..], n)
}

// Writes each of the words as a number, each after a tab.
pub fn put_numbers(out: &mut [u8], words: &[u16]) -> usize
    ensures { Wrote (fields_text words.now) out.old out.new result }
{
    let mut at = 0;
    for word in words {
        at = add_number(out, at, u32::from(*word));
    }
    at
}

// Where a part of the words ends that has `count` of them from `from` on; the words' end, if there are fewer.
fn part_end(length: usize, from: usize, count: usize) -> usize
    ensures { result ≡ from + min count (length - from) }
{
    from + count.min(length.saturating_sub(from))
}

// Writes `count` of the words from `from` on, or as many as there are, as numbers, each after a tab.
pub fn put_part(out: &mut [u8], words: &[u16], from: usize, count: usize) -> usize
    ensures { Wrote (fields_text (stretch_of words.now from count)) out.old
        out.new result }
{
    if words.len() < from {
        return 0;
    }
    let end = part_end(words.len(), from, count);
    put_numbers(out, &words[from..end])
}

// The same from `at` on.
pub fn add_part(out: &mut [u8], at: usize, words: &[u16], from: usize, count: usize) -> usize
    ensures { Added (fields_text (stretch_of words.now from count)) out.old at
        out.new result }
{
    if out.len() < at {
        return at;
    }
    at + put_part(&mut out[at..], words, from, count)
}
