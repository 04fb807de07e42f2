// The plain types of the rules, and the answer table.

#![tactic(auto)]

ghost use Rattle.std.specs.Prelude.{◌≡◌};
ghost use Rattle.rules.specs.Numbers.{number};

// Why a call is refused: the answer table, by number. 0 is done.
#[derive(Clone, Copy, Debug, PartialEq, Eq)]
pub enum Refusal {
    BadBook = 1,
    BadSetup = 2,
    NoDesk = 3,
    SameDesk = 4,
    NoPlace = 5,
    NotYours = 6,
    // Never given; the number stays its own.
    NoEvent = 7,
    PhaseFull = 8,
    MailFull = 9,
    ShelfFull = 10,
    SeatBehind = 11,
    MailBehind = 12,
    ShelfBehind = 13,
    BadStamp = 14,
    NoRoom = 15,
    OutOfReach = 16,
    BadLine = 17,
    WrongOwner = 18,
    BadSummary = 21,
}

impl Refusal {
    // Its number in the table.
    pub fn number(self) -> u8
        ensures { result ≡ number self }
    {
        self as u8
    }
}

// The setup numbers D, P, M, A, m and n, wide enough for any number that comes in.
#[derive(Clone, Copy)]
pub struct SetupNumbers {
    pub desks: usize,
    pub phases: usize,
    pub seat_lag: usize,
    pub shelf_lag: usize,
    pub back: usize,
    pub ahead: usize,
}

// A setup as a caller gives it: its numbers, and the desks' limits, lent as a list.
#[derive(Clone, Copy)]
pub struct GivenSetup<'a> {
    pub numbers: SetupNumbers,
    pub limits: &'a [usize],
}

// The owner of an event and its row, held together.
#[derive(Clone, Copy)]
pub struct Stamp {
    pub owner: u8,
    pub row: [u8; 16],
}

// What an accepted local or reset answers: the stamp, and its slot where it is kept.
#[derive(Clone, Copy)]
pub struct Stamped {
    pub stamp: Stamp,
    pub slot: Option<u8>,
}

// What an accepted receive answers: the same, and of how many other desks it told something.
#[derive(Clone, Copy)]
pub struct Received {
    pub stamp: Stamp,
    pub learnt: u8,
    pub slot: Option<u8>,
}

// What an accepted send answers: the mail place, and beside it the stamp, and its slot where it is kept.
#[derive(Clone, Copy)]
pub struct Sent {
    pub place: u8,
    pub stamp: Stamp,
    pub slot: Option<u8>,
}

// How the first of two stamps stands to the second.
#[derive(Clone, Copy, Debug, PartialEq, Eq)]
pub enum Relation {
    Before,
    After,
    Same,
    Concurrent,
    Crossed,
}

// Two desks at odds, the lower one first.
#[derive(Clone, Copy)]
pub struct Odds {
    pub lower: u8,
    pub higher: u8,
}
