// The answers and the refusals. What each step answers, and when, stands in specs/; what is promised of it, in
// proofs/Promises.antt.
#![tactic(auto)]

ghost use Rattle.std.specs.Prelude.{◌≡◌};
ghost use Rattle.rules.specs.Refusals.{refusal_number};
ghost use Rattle.rules.specs.Answers.{by_number};

// An answer; the counts and numbers that belong to it are in its cases, the lists are in the report. `Opened` is the
// answer to a line that opens a session, all others are given by the steps. The place of a refusal is where it lies: in
// the list of an async, or, with refusal 14, the column in a bad line. The last two cases are refusal 17, which tells
// the blamed task. A refusal has its number here and no name: the theorems of specs/Demands.antt speak of the answer
// that refuses by any number.
#[derive(Clone, Copy)]
pub enum Answer {
    Opened,
    Made,
    Set(u16),
    Value,
    Blamed(u16),
    Waits(u16),
    Cycle(u16),
    Started,
    Ended { omitted: u16, woken: u16 },
    Refused(u16),
    RefusedAt { number: u16, place: u16 },
    RefusedBlamed(u16),
    RefusedBlamedAt { place: u16, blamed: u16 },
}

// The refusals, in the order of their numbers.
#[derive(Clone, Copy, PartialEq, Eq)]
pub enum Refusal {
    // The number of tasks or of promises, or the report's length, is outside its bounds.
    OutOfBounds = 1,
    // The tables are damaged.
    Damaged = 2,
    // The acting task is not below the number of tasks.
    NoTask = 3,
    // The acting task was never used, or ended.
    NotLive = 4,
    // The acting task waits.
    Waits = 5,
    // The promise is not below the number of promises.
    NoPromise = 6,
    // The promise was already made.
    AlreadyMade = 7,
    // The promise was never made.
    NeverMade = 8,
    // The promise is already set.
    AlreadySet = 9,
    // The acting task is not the owner.
    NotOwner = 10,
    // The child is not below the number of tasks.
    NoChild = 11,
    // The child was already started.
    ChildInUse = 12,
    // The list names a promise twice.
    ListedTwice = 13,
    // The line has no such form.
    BadLine = 14,
    // The line does not fit the session: a step before it is opened, or a second open.
    OutOfTurn = 15,
    // The record names a part that passes the end of the list.
    BadPart = 16,
    // The promise is blamed on a task.
    Blamed = 17,
}

impl Refusal {
    pub fn number(self) -> u16
        ensures { result ≡ refusal_number self }
    {
        self as u16
    }
}

// The answer that refuses by the number alone.
impl From<Refusal> for Answer {
    ghost from_gives = { λ refusal answer. answer ≡ by_number (refusal_number refusal) };

    fn from(refusal: Refusal) -> Answer {
        Answer::Refused(refusal.number())
    }
}

// A value of an answer, and how many words of the report follow it.
#[derive(Clone, Copy)]
pub struct Part {
    pub value: u16,
    pub words: u32,
}

// The layout of an answer: whether it refuses, its number, and its values. All forms of an answer are read off it. It
// is the definition `laid`, field by field, so whether it refuses is a field.
#[derive(Clone, Copy)]
pub struct Layout {
    pub refuses: bool,
    pub number: u16,
    pub first: Option<Part>,
    pub second: Option<Part>,
    pub third: Option<Part>,
}
