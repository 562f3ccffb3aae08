// The line entry: one line in, one answer line out.
#![tactic(auto)]

ghost use Rattle.std.specs.Prelude.{◌≡◌, true, ◌≤◌, length};
ghost use Rattle.words.specs.Words.{of_lines};
ghost use Rattle.rules.specs.Tables.{tables as tables_of};
ghost use Rattle.text_forms.specs.Judging.{entries_of, may_list, Judged};
ghost use Rattle.line_session.specs.Sessions.{in_session, Does};
ghost use Rattle.line_entry.specs.Lines.{lent_well, line_deed, held_line, entry_of, reply_of, Enters};

use answer_text::put_answer;
use line_session::{Done, Session, act, in_session};
use rules::Refusal;
use text_forms::{BadLine, LineForm, judge};
use words::Limit;

// What the line entry answers: the session value from then on, and how many bytes the answer line has, its LF included.
#[derive(Clone, Copy)]
pub struct Entered {
    pub session: Session,
    pub bytes: usize,
}

// Whether the line number, the session value and the lengths of what is lent are as they must be.
#[tactic(auto, unfolding(crate::specs::Lines::lent_well))]
fn lent_well(
    number: u32,
    session: Session,
    tasks: &[u16],
    promises: &[u16],
    report: usize,
    answer: usize,
) -> bool
    ensures { result ≡ lent_well number session (tables_of tasks.now promises.now)
        report answer }
{
    let numbered = (1..=Limit::LINES).contains(&number);
    let sized = tasks.len() == Limit::TASKS && promises.len() == Limit::PROMISES;
    let roomy = report == Limit::REPORT && Limit::ANSWER <= answer;
    numbered && in_session(session) && sized && roomy
}

// The form of the line that the buffer gathered, of which `have` bytes were counted.
fn judge_held(line: &[u8], have: usize, list: &mut [u16]) -> Result<LineForm, BadLine>
    ensures { Judged (held_line line.now have) list.old list.new result }
{
    if line.len() < have {
        return Err(BadLine {
            column: Limit::LINE as u16,
        });
    }
    judge(&line[..have], list)
}

// Whether that line starts as one with a list does: with the first byte of the word `async`.
#[tactic(auto, using(crate::proofs::LineLaws::starts))]
fn may_list(line: &[u8], have: usize) -> bool
    ensures { result ≡ may_list (held_line line.now have) }
{
    0 < have && have <= line.len() && line[0] == b'a'
}

// What the line does, where `list` has room for the entries of its list.
fn act_with(
    line: &[u8],
    have: usize,
    session: Session,
    list: &mut [u16],
    tasks: &mut [u16],
    promises: &mut [u16],
    report: &mut [u16],
) -> Done
    requires { (length (entries_of (held_line line.now have)) ≤ length list.old) × (in_session session ≡ true)
        × (length tasks.old ≡ of_lines.most_tasks) × (length promises.old ≡ of_lines.most_promises) }
    ensures { Does (line_deed (held_line line.now have) session
        (tables_of tasks.old promises.old) (length report.old)) report.old
        result (tables_of tasks.new promises.new) report.new }
{
    let form = judge_held(line, have, list);
    act(form, list, session, tasks, promises, report)
}

// What any line does: the words that are cleared for its list are enough for any.
fn act_listing(
    line: &[u8],
    have: usize,
    session: Session,
    tasks: &mut [u16],
    promises: &mut [u16],
    report: &mut [u16],
) -> Done
    requires { (in_session session ≡ true) × (length tasks.old ≡ of_lines.most_tasks)
        × (length promises.old ≡ of_lines.most_promises) }
    ensures { Does (line_deed (held_line line.now have) session
        (tables_of tasks.old promises.old) (length report.old)) report.old
        result (tables_of tasks.new promises.new) report.new }
{
    let mut list = [0; Limit::ENTRIES];
    act_with(line, have, session, &mut list, tasks, promises, report)
}

// The same, but words are cleared only for a line that may have a list.
fn act_held(
    line: &[u8],
    have: usize,
    session: Session,
    tasks: &mut [u16],
    promises: &mut [u16],
    report: &mut [u16],
) -> Done
    requires { (in_session session ≡ true) × (length tasks.old ≡ of_lines.most_tasks)
        × (length promises.old ≡ of_lines.most_promises) }
    ensures { Does (line_deed (held_line line.now have) session
        (tables_of tasks.old promises.old) (length report.old)) report.old
        result (tables_of tasks.new promises.new) report.new }
{
    if may_list(line, have) {
        return act_listing(line, have, session, tasks, promises, report);
    }
    act_with(line, have, session, &mut [], tasks, promises, report)
}

// The answer to a line that the buffer `line` gathered, without its LF. `have` of its bytes were counted: more than the
// buffer holds say that the line is too long. Where what is lent isn't as it must be, nothing is written.
pub fn reply(
    line: &[u8],
    have: usize,
    number: u32,
    session: Session,
    tasks: &mut [u16],
    promises: &mut [u16],
    report: &mut [u16],
    answer: &mut [u8],
) -> Result<Entered, Refusal>
    ensures { Enters (reply_of line.now have number session
        (tables_of tasks.old promises.old) report.old answer.old)
        result (tables_of tasks.new promises.new) report.new answer.new }
{
    if !lent_well(number, session, tasks, promises, report.len(), answer.len()) {
        return Err(Refusal::OutOfBounds);
    }
    let done = act_held(line, have, session, tasks, promises, report);
    let bytes = put_answer(answer, number, done.answer, report);
    Ok(Entered {
        session: done.session,
        bytes,
    })
}

// The line entry: takes a line without its LF, and writes one answer line.
pub fn enter(
    line: &[u8],
    number: u32,
    session: Session,
    tasks: &mut [u16],
    promises: &mut [u16],
    report: &mut [u16],
    answer: &mut [u8],
) -> Result<Entered, Refusal>
    ensures { Enters (entry_of line.now number session
        (tables_of tasks.old promises.old) report.old answer.old)
        result (tables_of tasks.new promises.new) report.new answer.new }
{
    reply(
        line,
        line.len(),
        number,
        session,
        tasks,
        promises,
        report,
        answer,
    )
}
