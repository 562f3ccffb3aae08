// Loading. The board holds what is loaded: the task table, the promise table and the report.
ghost use Rattle.std.specs.Prelude.{◌≡◌, replicate, OnOk, OnErr};
ghost use Rattle.rules.specs.Refusals.{refused_by};
ghost use Rattle.edges.specs.Board.{FreshensOn, HasLeastReport};

use crate::read::NotUnderstood;
use crate::row::Row;
use rules::Refusal;
use words::Limit;

// What is loaded, and whether the steps are those of a story: no other field hangs on that, so it is a flag. Each part
// has room for one word more than it ever needs.
#[derive(Clone, Copy, Default)]
pub struct Board {
    pub tasks: Row<{ Board::TASKS }>,
    pub promises: Row<{ Board::PROMISES }>,
    pub report: Row<{ Board::REPORT }>,
    pub story: bool,
}

impl Board {
    pub const TASKS: usize = Limit::TASKS + 1;

    pub const PROMISES: usize = Limit::PROMISES + 1;

    pub const REPORT: usize = Board::PROMISES + 2 * Board::TASKS + 1;

    // The report has the least room for the tables as they are now, and there is no story.
    fn fit_report(&mut self)
        ensures { HasLeastReport self.old self.new }
    {
        self.report.length = self.promises.length + 2 * self.tasks.length;
        self.story = false;
    }

    // Makes the tables fresh. Returns what `fresh` answered.
    pub fn freshen(&mut self) -> Result<(), Refusal>
        ensures { FreshensOn self.old (refused_by result) self.new }
    {
        let mut tasks = self.tasks.words;
        let mut promises = self.promises.words;
        let answer = table_fresh::fresh(
            &mut tasks[..self.tasks.length],
            &mut promises[..self.promises.length],
        );
        self.tasks.words = tasks;
        self.promises.words = promises;
        answer
    }

    // A report of as many words as told.
    fn load_report(&mut self, room: u16) -> Result<(), NotUnderstood>
        ensures words { self.new.report.words ≡ self.old.report.words }
        ensures room { OnOk result (self.new.report.length ≡ room) }
        ensures too_many { OnErr result (self.new ≡ self.old) }
    {
        let room = usize::from(room);
        if Board::REPORT < room {
            return Err(NotUnderstood);
        }
        self.report.length = room;
        self.story = false;
        Ok(())
    }

    // The load that a line without a name asks for. The report is full of 9s after it.
    pub fn load(&mut self, word: &[u8], values: &[u16]) -> Result<(), NotUnderstood>
        ensures { self.new.report.words ≡ replicate Board.REPORT 9 }
    {
        self.report.words.fill(9);
        match (word, values) {
            (b"tasks", tasks) => {
                self.tasks = Row::try_from(tasks)?;
                self.fit_report();
            }
            (b"promises", promises) => {
                self.promises = Row::try_from(promises)?;
                self.fit_report();
            }
            (b"report", [room]) => return self.load_report(*room),
            // Tables that `fresh` refuses stay as they are.
            (b"fresh", []) => {
                let _ = self.freshen();
                self.fit_report();
            }
            (b"story", []) => self.story = true,
            _ => return Err(NotUnderstood),
        }
        Ok(())
    }
}
