// Reading a line: its name, its command and the numbers in it, and the step that a case asks for.
ghost use Rattle.std.specs.Prelude.{◌≡◌, ◌<◌, ◌==◌, length, take, drop, position, IfSome, IfOk, OnOk, OnErr};
ghost use Rattle.std.specs.Option.{option_copied, option_map};
ghost use Rattle.std.specs.Result.{result_ok};
ghost use Rattle.steps.specs.Named.{of_rules};
ghost use Rattle.edges.specs.Commands.{number_of, repeat_in, words_in, joined, all_words, IsTooMuch};
ghost use Rattle.edges.specs.Commands.{word_in, fields_in};
ghost use Rattle.edges.specs.Lines.{name_in, command_in, without_blank};
ghost use Rattle.edges.specs.Asking.{takes_numbers, asks_for};

use crate::load::Board;
use crate::row::Row;
use step_kinds::{Shape, shape_of};
use steps::{Step, step_by};
use text_keywords::{Keyword, keyword_of};
use text_numbers::number;

// Says that a line, or a part of it, asks for nothing that there is.
#[derive(Clone, Copy)]
pub struct NotUnderstood;

// A word, and the numbers after it, no more than a report has words.
#[derive(Clone, Copy)]
pub struct Command<'a> {
    pub word: &'a [u8],
    pub values: Row<{ Board::REPORT }>,
}

// Where the byte first stands in the text.
fn place_of(text: &[u8], byte: u8) -> Option<usize>
    ensures place { result ≡ position (λ b. b == byte) text.now }
    ensures within { IfSome result (λ i. i < length text.now) }
{
    text.iter().position(|b| *b == byte)
}

// The text without the blank at its front; empty where it has none there.
fn without_blank(text: &[u8]) -> &[u8]
    ensures { result.now ≡ without_blank text.now }
{
    match text {
        [b' ', rest @ ..] => rest,
        _ => &[],
    }
}

// The name of a line's case, where it has one, and its command: after the colon and a blank, or the whole line.
pub fn parted(line: &[u8]) -> (Option<&[u8]>, &[u8])
    ensures name { option_copied result.0 ≡ name_in line.now }
    ensures command { result.1.now ≡ command_in line.now }
{
    match place_of(line, b':') {
        Some(colon) => (Some(&line[..colon]), without_blank(&line[colon + 1..])),
        None => (None, line),
    }
}

// The number that a field holds, if it holds one.
fn number_of(field: &[u8]) -> Option<u16>
    ensures { result ≡ number_of field.now }
{
    number(field).ok()
}

// A word and how many times it stands there: once, or with a star and a number after it, as often as that says.
fn repeat_of(field: &[u8]) -> Option<(u16, u16)>
    ensures { result ≡ repeat_in field.now }
{
    match place_of(field, b'*') {
        Some(star) => number_of(&field[..star]).zip(number_of(&field[star + 1..])),
        None => number_of(field).map(|n| (n, 1)),
    }
}

// Adds the words that a field stands for.
fn add_field(values: &mut Row<{ Board::REPORT }>, field: &[u8]) -> Result<(), NotUnderstood>
    ensures ok { OnOk result (joined (Some (take values.old.length values.old.words)) (words_in field.now)
        ≡ Some (take values.new.length values.new.words)) }
    ensures err { OnErr result (IsTooMuch Board.REPORT
        (joined (Some (take values.old.length values.old.words)) (words_in field.now))) }
{
    let (word, times) = repeat_of(field).ok_or(NotUnderstood)?;
    values.push_times(word, usize::from(times))
}

// The word and the numbers of a text that has a blank before each of its fields.
pub fn read_command(text: &[u8]) -> Result<Command<'_>, NotUnderstood>
    ensures word { IfOk result (λ c. c.word.now ≡ word_in text.now) }
    ensures values { IfOk result (λ c. all_words (fields_in text.now)
        ≡ Some (take c.values.length c.values.words)) }
    ensures err { OnErr result (IsTooMuch Board.REPORT (all_words (fields_in text.now))) }
{
    let mut fields = text.split(|b| *b == b' ');
    let word = fields.next().unwrap_or(text);
    let mut values = Row::default();
    for field in fields {
        add_field(&mut values, field)?;
    }
    Ok(Command { word, values })
}

// Whether a step of the shape takes `n` numbers.
fn takes_numbers(shape: Shape, n: usize) -> bool
    ensures { result ≡ takes_numbers shape n }
{
    match shape {
        Shape::One => n == 1,
        Shape::Two => n == 2,
        Shape::List => 2 <= n,
    }
}

// The list of a step: the numbers after its first two.
pub fn list_of(values: &[u16]) -> &[u16]
    ensures { result.now ≡ drop 2 values.now }
{
    values.get(2..).unwrap_or(&[])
}

// The step that the word and the numbers ask for.
pub fn step_of<'a>(word: &[u8], values: &'a [u16]) -> Result<Step<'a>, NotUnderstood>
    ensures { option_map of_rules (result_ok result) ≡ asks_for word.now values.now }
{
    match keyword_of(word) {
        Ok(Keyword::Step(kind)) if takes_numbers(shape_of(kind), values.len()) => {
            let task = values.get(0).copied().unwrap_or(0);
            let other = values.get(1).copied().unwrap_or(0);
            Ok(step_by(kind, task, other, list_of(values)))
        }
        _ => Err(NotUnderstood),
    }
}
