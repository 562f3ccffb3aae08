// Runs the cases of its input, the steps on either side of each edge of the rules, and prints one line a case: its
// name, the answer's number and values, and the words of each table and of the report that changed. `kept` says that
// none did. A refusal has its own number; 101 made, 102 set, 103 value, 104 blamed, 105 waits, 106 cycle, 107
// started, 108 ended. The file stdin says how a case is written, and a line there that is not understood is said to
// be so.
#![tactic(auto)]

mod load;
mod play;
mod read;
mod row;
mod show;

ghost use Rattle.std.specs.Prelude.{◌≤◌, length, take};
ghost use Rattle.std.specs.Io.KnownBytes.{Consumes};

use load::Board;
use std::io::{Read, Write};

// Does what a line says, unless it is empty or a comment: a case has a name and a colon before its command, a load has
// none.
fn obey<W: Write>(output: &mut W, line: &[u8], board: &mut Board) {
    if let [] | [b'#', ..] = line {
        return;
    }
    let (name, text) = read::parted(line);
    let Ok(command) = read::read_command(text) else {
        show::not_understood(output, name.unwrap_or(line));
        return;
    };
    if let Some(name) = name {
        play::play(output, name, &command, board);
    } else if board.load(command.word, command.values.as_slice()).is_err() {
        show::not_understood(output, command.word);
    }
}

// Every line of the text, on tables that have no words before the first.
fn run<W: Write>(output: &mut W, text: &[u8]) {
    let mut board = Board::default();
    for line in text.split(|b| *b == b'\n') {
        obey(output, line, &mut board);
    }
}

// The most bytes of the input, and one more.
const TEXT: usize = 32768;

// Reads until the array is full, the input ends or a read fails. Returns how many bytes were put at its front. By hand,
// since std's reading to the end of an input takes memory from the heap.
fn read_full<R: Read>(input: &mut R, text: &mut [u8]) -> usize
    ensures within { result ≤ length text.new }
    ensures brought { Consumes (R.remaining input.old) (R.remaining input.new) (take result text.new) }
{
    let mut done = 0;
    while done < text.len() {
        match input.read(&mut text[done..]) {
            Ok(0) | Err(_) => return done,
            Ok(n) => done += n,
        }
    }
    done
}

// Reads the whole input and runs it.
fn main(rt: HostRuntime) {
    let mut text = [0u8; TEXT];
    let n = read_full(&mut rt.stdin(), &mut text);
    let mut output = rt.stdout();
    if n == TEXT {
        show::text(&mut output, b"the input does not fit\n");
    }
    run(&mut output, &text[..n]);
}
