// The words of the two tables and the limits of a session, as constants of the kind of word that they belong to, and
// constructors of words.
#![tactic(auto)]

ghost use Rattle.std.specs.Prelude.{true, ◌≡◌, ◌+◌, ◌<◌};
ghost use Rattle.words.specs.Words.{unused_word, ready_word, ended_word, waits_on, unmade_word, set_word, owned_by};
ghost use Rattle.words.specs.Words.{blamed_on, small, form_of, sizes_in_bounds, room_for};
ghost use Rattle.words.specs.States.{ReadsTask, ReadsPromise};

// A word of the task table.
#[derive(Clone, Copy)]
pub struct TaskWord {
    pub word: u16,
}

impl TaskWord {
    pub const UNUSED: u16 = 0;

    pub const READY: u16 = 1;

    pub const ENDED: u16 = 2;

    pub const FIRST_WAIT: u16 = 16;

    pub fn unused() -> u16
        ensures { result ≡ unused_word }
    {
        Self::UNUSED
    }

    pub fn ready() -> u16
        ensures { result ≡ ready_word }
    {
        Self::READY
    }

    pub fn ended() -> u16
        ensures { result ≡ ended_word }
    {
        Self::ENDED
    }

    // Every promise of a session has such a word; the `requires` keeps it within 16 bits.
    pub fn waits_on(p: u16) -> u16
        requires { p < 65520 }
        ensures { result ≡ waits_on p }
    {
        TaskWord::FIRST_WAIT + p
    }
}

// A word of the promise table.
#[derive(Clone, Copy)]
pub struct PromiseWord {
    pub word: u16,
}

impl PromiseWord {
    pub const UNMADE: u16 = 0;

    pub const SET: u16 = 1;

    pub const FIRST_OWNED: u16 = 16;

    pub const FIRST_BLAMED: u16 = 80;

    pub fn unmade() -> u16
        ensures { result ≡ unmade_word }
    {
        Self::UNMADE
    }

    pub fn set() -> u16
        ensures { result ≡ set_word }
    {
        Self::SET
    }

    pub fn owned_by(t: u16) -> u16
        requires { t < 65520 }
        ensures { result ≡ owned_by t }
    {
        PromiseWord::FIRST_OWNED + t
    }

    pub fn blamed_on(t: u16) -> u16
        requires { t < 65456 }
        ensures { result ≡ blamed_on small.base t }
    {
        PromiseWord::FIRST_BLAMED + t
    }
}

// What a word of the task table says. `Damaged` is a word that no task has.
#[derive(Clone, Copy, PartialEq, Eq)]
pub enum TaskState {
    Unused,
    Ready,
    Ended,
    Waits(u16),
    Damaged,
}

impl From<u16> for TaskState {
    ghost from_gives = { ReadsTask };

    fn from(word: u16) -> TaskState {
        match word {
            TaskWord::UNUSED => TaskState::Unused,
            TaskWord::READY => TaskState::Ready,
            TaskWord::ENDED => TaskState::Ended,
            TaskWord::FIRST_WAIT.. => TaskState::Waits(word - TaskWord::FIRST_WAIT),
            _ => TaskState::Damaged,
        }
    }
}

// What a word of the promise table says. `Damaged` is a word that no promise has.
#[derive(Clone, Copy, PartialEq, Eq)]
pub enum PromiseState {
    Unmade,
    Set,
    Owned(u16),
    Blamed(u16),
    Damaged,
}

impl From<u16> for PromiseState {
    ghost from_gives = { ReadsPromise };

    fn from(word: u16) -> PromiseState {
        match word {
            PromiseWord::UNMADE => PromiseState::Unmade,
            PromiseWord::SET => PromiseState::Set,
            PromiseWord::FIRST_BLAMED.. => PromiseState::Blamed(word - PromiseWord::FIRST_BLAMED),
            PromiseWord::FIRST_OWNED.. => PromiseState::Owned(word - PromiseWord::FIRST_OWNED),
            _ => PromiseState::Damaged,
        }
    }
}

// The limits of a session and of its lines.
#[derive(Clone, Copy)]
pub struct Limit {
    pub most: usize,
}

impl Limit {
    pub const TASKS: usize = 64;

    pub const PROMISES: usize = 256;

    // The words that a promise may have are below this one: the last of them blames the last task.
    pub const PROMISE_WORDS: usize = PromiseWord::FIRST_BLAMED as usize + Limit::TASKS;

    // The words of a report that has room for every answer.
    pub const REPORT: usize = Limit::PROMISES + 2 * Limit::TASKS;

    // The records of a batch.
    pub const RECORDS: usize = 256;

    // The bytes of the longest line, without its LF; also the column of a longer one.
    pub const LINE: usize = 2048;

    // The entries of the list of an async line: each has at least two bytes.
    pub const ENTRIES: usize = Limit::LINE / 2;

    // The bytes of an answer line that has room for every answer.
    pub const ANSWER: usize = 2048;

    // The largest line number.
    pub const LINES: u32 = 999999;

    // The large form, which no session has yet: where the blamed words begin, the most tasks and the most promises.
    pub const LARGE_BASE: u16 = 528;

    pub const LARGE_TASKS: usize = 512;

    pub const LARGE_PROMISES: usize = 2048;
}

// The names of the forms that tables can have. What a name stands for is asked of `limits` alone.
#[derive(Clone, Copy, PartialEq, Eq)]
pub enum FormName {
    Small,
    Large,
}

// The limits of a form: where the blamed words begin, the most tasks and the most promises.
#[derive(Clone, Copy)]
pub struct FormLimits {
    pub base: u16,
    pub most_tasks: usize,
    pub most_promises: usize,
}

impl FormName {
    pub fn limits(self) -> FormLimits
        ensures base { result.base ≡ (form_of self).base }
        ensures most_tasks { result.most_tasks ≡ (form_of self).most_tasks }
        ensures most_promises { result.most_promises ≡ (form_of self).most_promises }
    {
        match self {
            FormName::Small => FormLimits {
                base: PromiseWord::FIRST_BLAMED,
                most_tasks: Limit::TASKS,
                most_promises: Limit::PROMISES,
            },
            FormName::Large => FormLimits {
                base: Limit::LARGE_BASE,
                most_tasks: Limit::LARGE_TASKS,
                most_promises: Limit::LARGE_PROMISES,
            },
        }
    }
}

// Whether the number of tasks and the number of promises are within their bounds.
pub fn sizes_in_bounds(tasks: usize, promises: usize) -> bool
    ensures { result ≡ sizes_in_bounds small tasks promises }
{
    1 <= tasks && tasks <= Limit::TASKS && promises <= Limit::PROMISES
}

// The words of a report that has room for every answer.
pub fn room_for(tasks: usize, promises: usize) -> usize
    requires { sizes_in_bounds small tasks promises ≡ true }
    ensures { result ≡ room_for tasks promises }
{
    promises + 2 * tasks
}
