// What a line does in a session.
#![tactic(auto)]

ghost use Rattle.std.specs.Prelude.{◌≡◌, [], true, ◌≤◌, length, take};
ghost use Rattle.words.specs.Words.{of_lines};
ghost use Rattle.rules.specs.Tables.{tables as tables_of};
ghost use Rattle.rules.specs.StepContracts.{Gives};
ghost use Rattle.text_forms.specs.Judging.{entry_count};
ghost use Rattle.line_session.specs.Sessions.{in_session, refused_at_column, unopened_deed, open_deed, open_outcome};
ghost use Rattle.line_session.specs.Sessions.{part_outcome, deed_of, Does};

use rules::{Answer, Refusal};
use steps::{Lent, step_by};
use table_fresh::{check_sizes, fresh};
use text_forms::{BadLine, LineForm};
use words::sizes_in_bounds;

// The session value: unopened, or the numbers of tasks and promises of the session. No `Option`: `None` would not say
// what it is that is not there.
#[derive(Clone, Copy)]
pub enum Session {
    Unopened,
    Open(u16, u16),
}

// What a line does to the session, with its answer.
#[derive(Clone, Copy)]
pub struct Done {
    pub answer: Answer,
    pub session: Session,
}

// Whether the session value is one that a session may have.
pub fn in_session(session: Session) -> bool
    ensures { result ≡ in_session session }
{
    match session {
        Session::Unopened => true,
        Session::Open(t, p) => sizes_in_bounds(t as usize, p as usize),
    }
}

// The answer to a line that goes bad at the column.
fn refused_at_column(bad: BadLine) -> Answer
    ensures { result ≡ refused_at_column bad.column }
{
    Answer::RefusedAt {
        number: Refusal::BadLine.number(),
        place: bad.column,
    }
}

// A line in an open session, on the tables of the session.
fn in_open(
    form: Result<LineForm, BadLine>,
    list: &[u16],
    tasks: &mut [u16],
    promises: &mut [u16],
    report: &mut [u16],
) -> Answer
    requires { entry_count form ≤ length list.now }
    ensures { Gives (open_outcome form (take (entry_count form) list.now) (length report.old)
        (tables_of tasks.old promises.old)) report.old
        result (tables_of tasks.new promises.new) report.new }
{
    match form {
        Ok(LineForm::Open(_, _)) => Refusal::OutOfTurn.into(),
        Ok(LineForm::Step(kind, t, p, n)) => {
            let mut lent = Lent {
                tasks,
                promises,
                report,
            };
            lent.take(step_by(kind, t, p, &list[..n]))
        }
        Err(bad) => refused_at_column(bad),
    }
}

// Opens a session of `t` tasks and `p` promises: fresh tables go into the first words of the lent ones.
fn open_session(t: u16, p: u16, tasks: &mut [u16], promises: &mut [u16]) -> Done
    requires { (length tasks.old ≡ of_lines.most_tasks) × (length promises.old ≡ of_lines.most_promises) }
    ensures { Does (open_deed (tables_of tasks.old promises.old) t p) []
        result (tables_of tasks.new promises.new) [] }
{
    let i = t as usize;
    let j = p as usize;
    if let Err(refusal) = check_sizes(i, j) {
        return Done {
            answer: refusal.into(),
            session: Session::Unopened,
        };
    }
    let _ = fresh(&mut tasks[0..i], &mut promises[0..j]);
    Done {
        answer: Answer::Opened,
        session: Session::Open(t, p),
    }
}

// A refusal before a session is opened.
fn refused_unopened(answer: Answer) -> Done
    ensures { (result.answer ≡ answer) × (result.session ≡ Session.Unopened) }
{
    Done {
        answer,
        session: Session::Unopened,
    }
}

// A line before a session is opened.
fn unopened(form: Result<LineForm, BadLine>, tasks: &mut [u16], promises: &mut [u16]) -> Done
    requires { (length tasks.old ≡ of_lines.most_tasks) × (length promises.old ≡ of_lines.most_promises) }
    ensures { Does (unopened_deed form (tables_of tasks.old promises.old)) []
        result (tables_of tasks.new promises.new) [] }
{
    match form {
        Ok(LineForm::Open(t, p)) => open_session(t, p, tasks, promises),
        Ok(LineForm::Step(_, _, _, _)) => refused_unopened(Refusal::OutOfTurn.into()),
        Err(bad) => refused_unopened(refused_at_column(bad)),
    }
}

// A line in the session of `t` tasks and `p` promises, which are the first words of the lent tables.
fn in_part(
    form: Result<LineForm, BadLine>,
    list: &[u16],
    t: usize,
    p: usize,
    tasks: &mut [u16],
    promises: &mut [u16],
    report: &mut [u16],
) -> Answer
    requires { (entry_count form ≤ length list.now) × (t ≤ length tasks.old) × (p ≤ length promises.old) }
    ensures { Gives (part_outcome form (take (entry_count form) list.now) (length report.old)
        t p (tables_of tasks.old promises.old)) report.old
        result (tables_of tasks.new promises.new) report.new }
{
    in_open(form, list, &mut tasks[0..t], &mut promises[0..p], report)
}

// What a line does.
pub fn act(
    form: Result<LineForm, BadLine>,
    list: &[u16],
    session: Session,
    tasks: &mut [u16],
    promises: &mut [u16],
    report: &mut [u16],
) -> Done
    requires { (entry_count form ≤ length list.now) × (in_session session ≡ true)
        × (length tasks.old ≡ of_lines.most_tasks) × (length promises.old ≡ of_lines.most_promises) }
    ensures { Does (deed_of form (take (entry_count form) list.now) session
        (tables_of tasks.old promises.old) (length report.old)) report.old
        result (tables_of tasks.new promises.new) report.new }
{
    match session {
        Session::Unopened => unopened(form, tasks, promises),
        Session::Open(t, p) => {
            let answer = in_part(form, list, t as usize, p as usize, tasks, promises, report);
            Done {
                answer,
                session: Session::Open(t, p),
            }
        }
    }
}
