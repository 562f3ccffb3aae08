// One record a line: its word, and its numbers, each field handed back by a reader of the line. What is carried from
// field to field is where the next field starts, by the reader; a place past the line says that there is none. A line
// that is no record has a first bad byte.
#![tactic(auto)]

ghost use Rattle.std.specs.Prelude.{◌≡◌, ◌<◌};
ghost use Rattle.text_records.specs.Records.{number_at, pair_at, ended, last_pair, after_kind, record_of};
ghost use Rattle.step_kinds.specs.Kinds.{shape_of};

use step_kinds::{Kind, Shape, shape_of};
use text_fields::BadByte;
use text_keywords::{Keyword, keyword_of};
use text_reader::Reader;

// The records. `Listing` is a step that takes a list, with where the rest of the line after its numbers starts;
// `Plain` one that takes none. A step of one number has 0 for the other.
#[derive(Clone, Copy)]
pub enum LineRecord {
    Open(u16, u16),
    Plain(Kind, u16, u16),
    Listing(Kind, u16, u16, usize),
}

// The number in the field that starts at `at`, and where the next field starts.
pub fn number_at(line: &[u8], at: usize) -> Result<(u16, usize), BadByte>
    ensures { result ≡ number_at line.now at }
{
    if line.len() < at {
        return Err(BadByte { place: line.len() });
    }
    let field = Reader::starting(line, at).field();
    let number = text_numbers::number(field).map_err(|bad| bad.behind(at))?;
    let rest = Reader::starting(line, at + field.len());
    Ok((number, rest.after().at))
}

// The numbers in the field that starts at `at` and in the next one, and where the field after that starts.
pub fn pair_at(line: &[u8], at: usize) -> Result<(u16, u16, usize), BadByte>
    ensures { result ≡ pair_at line.now at }
{
    let (first, next) = number_at(line, at)?;
    let (second, rest) = number_at(line, next)?;
    Ok((first, second, rest))
}

// The line has to end before the field that starts at `next`: else the tab before that field is bad.
#[tactic(auto, unfolding(crate::specs::Records::ended))]
fn ended(line: &[u8], next: usize) -> Result<(), BadByte>
    requires { 0 < next }
    ensures { result ≡ ended line.now next }
{
    if line.len() < next {
        Ok(())
    } else {
        Err(BadByte { place: next - 1 })
    }
}

// The two numbers from `at` on, with which the line has to end.
#[tactic(auto, unfolding(crate::specs::Records::ended, crate::specs::Records::last_pair))]
fn last_pair(line: &[u8], at: usize) -> Result<(u16, u16), BadByte>
    ensures { result ≡ last_pair line.now (pair_at line.now at) }
{
    let (first, second, next) = pair_at(line, at)?;
    ended(line, next)?;
    Ok((first, second))
}

// A step of the kind, by what the kind takes. The rest after its numbers starts with the tab before the next field.
fn step_after(line: &[u8], at: usize, kind: Kind) -> Result<LineRecord, BadByte>
    ensures { result ≡ after_kind line.now at kind (shape_of kind) }
{
    match shape_of(kind) {
        Shape::One => {
            let (number, next) = number_at(line, at)?;
            ended(line, next)?;
            Ok(LineRecord::Plain(kind, number, 0))
        }
        Shape::Two => {
            let (first, second) = last_pair(line, at)?;
            Ok(LineRecord::Plain(kind, first, second))
        }
        Shape::List => {
            let (first, second, next) = pair_at(line, at)?;
            Ok(LineRecord::Listing(kind, first, second, next - 1))
        }
    }
}

// The record of the line.
pub fn record_of(line: &[u8]) -> Result<LineRecord, BadByte>
    ensures { result ≡ record_of line.now }
{
    let word = Reader::starting(line, 0).field();
    let next = Reader::starting(line, word.len()).after().at;
    match keyword_of(word)? {
        Keyword::Open => {
            let (tasks, promises) = last_pair(line, next)?;
            Ok(LineRecord::Open(tasks, promises))
        }
        Keyword::Step(kind) => step_after(line, next, kind),
    }
}
