// Playing a case: the steps are taken on a copy of the board, and in a story what they leave goes back to it.
use crate::load::Board;
use crate::read::{Command, NotUnderstood, step_of};
use crate::show;
use rules::{Answer, Refusal};
use std::io::Write;
use steps::{Lent, Step};

// Takes the step on the board. The arrays are copied and put back: the check has no proof of a loan of a part of them
// where they stand.
fn take(board: &mut Board, step: Step<'_>) -> Answer {
    let mut tasks = board.tasks.words;
    let mut promises = board.promises.words;
    let mut report = board.report.words;
    let mut lent = Lent {
        tasks: &mut tasks[..board.tasks.length],
        promises: &mut promises[..board.promises.length],
        report: &mut report[..board.report.length],
    };
    let answer = lent.take(step);
    board.tasks.words = tasks;
    board.promises.words = promises;
    board.report.words = report;
    answer
}

// Prints the words under a name where they are no longer as before. Returns whether they are.
fn show_changed<W: Write>(output: &mut W, name: &[u8], before: &[u16], words: &[u16]) -> bool {
    if words == before {
        return true;
    }
    show::words(output, name, words);
    false
}

// Prints each table and the report that is no longer as before, whole; `kept` where none is.
fn show_changes<W: Write>(output: &mut W, before: &Board, board: &Board) {
    let tasks = show_changed(
        output,
        b", tasks",
        before.tasks.as_slice(),
        board.tasks.as_slice(),
    );
    let promises = show_changed(
        output,
        b", promises",
        before.promises.as_slice(),
        board.promises.as_slice(),
    );
    let report = show_changed(
        output,
        b", report",
        before.report.as_slice(),
        board.report.as_slice(),
    );
    show::end_line(output, tasks && promises && report);
}

// Takes the step on a copy of the board and prints the rest of its line. In a story the copy is the board from then on.
fn step_told<W: Write>(output: &mut W, board: &mut Board, step: Result<Step<'_>, NotUnderstood>) {
    let mut copy = *board;
    match step {
        Ok(step) => show::answer(output, take(&mut copy, step)),
        Err(NotUnderstood) => show::text(output, b" not understood"),
    }
    show_changes(output, board, &copy);
    if board.story {
        *board = copy;
    }
}

// Prints the words of both tables on the board, under a name of the first.
fn show_tables<W: Write>(output: &mut W, name: &[u8], board: &Board) {
    show::words(output, name, board.tasks.as_slice());
    show::words(output, b", promises", board.promises.as_slice());
}

// Prints whether the tables on the board are sound.
fn show_soundness<W: Write>(output: &mut W, board: &Board) {
    if table_sound::is_sound(board.tasks.as_slice(), board.promises.as_slice()) {
        show::text(output, b" sound,");
    } else {
        show::text(output, b" damaged,");
    }
}

// Makes the tables on the board fresh, and prints what became of them and what `new 0 0` did.
fn fresh_told<W: Write>(output: &mut W, board: &mut Board) {
    let refused = board.freshen().err();
    show::text(output, b" fresh");
    show::number(output, refused.map_or(0, Refusal::number));
    show_tables(output, b", tasks", board);
    show::text(output, b", then");
    step_told(output, board, Ok(Step::New(0, 0)));
}

// One line: the name, and what the case did.
pub fn play<W: Write>(output: &mut W, name: &[u8], command: &Command<'_>, board: &mut Board) {
    show::text(output, name);
    show::text(output, b":");
    match (command.word, command.values.as_slice()) {
        (b"tables", []) => {
            show_tables(output, b" tasks", board);
            show::text(output, b"\n");
        }
        (b"fresh", []) => fresh_told(output, board),
        (b"sound", [task]) => {
            show_soundness(output, board);
            step_told(output, board, Ok(Step::New(*task, 1)));
        }
        (word, values) => step_told(output, board, step_of(word, values)),
    }
}
