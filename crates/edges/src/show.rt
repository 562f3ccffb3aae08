// Printing: names, numbers, answers and words, on an output. A write that fails is passed over, and what comes after it
// is written all the same: so each piece is a write of its own, and no value has a Display that would end at the first.
use answer_words::layout;
use rules::Answer;
use std::io::Write;

// The bytes as they are.
pub fn text<W: Write>(output: &mut W, bytes: &[u8]) {
    let _ = output.write_all(bytes);
}

// Says that the line under a name asks for nothing that there is.
pub fn not_understood<W: Write>(output: &mut W, name: &[u8]) {
    text(output, name);
    text(output, b": not understood\n");
}

// A blank and a number.
pub fn number<W: Write>(output: &mut W, value: u16) {
    let _ = write!(output, " {value}");
}

// The answer's number and its values.
pub fn answer<W: Write>(output: &mut W, answer: Answer) {
    let layout = layout(answer);
    number(output, layout.number);
    for part in [layout.first, layout.second, layout.third]
        .into_iter()
        .flatten()
    {
        number(output, part.value);
    }
}

// The end of a step's line, which says whether every word was kept.
pub fn end_line<W: Write>(output: &mut W, kept: bool) {
    if kept {
        text(output, b", kept");
    }
    text(output, b"\n");
}

// Words that are all the same; from six on, the word once with a star and the count.
fn run<W: Write>(output: &mut W, words: &[u16]) {
    match words {
        [word, _, _, _, _, _, ..] => {
            number(output, *word);
            let times = words.len();
            let _ = write!(output, "*{times}");
        }
        _ => {
            for word in words {
                number(output, *word);
            }
        }
    }
}

// A name, then all words.
pub fn words<W: Write>(output: &mut W, name: &[u8], words: &[u16]) {
    text(output, name);
    for same in words.chunk_by(|a, b| a == b) {
        run(output, same);
    }
}
