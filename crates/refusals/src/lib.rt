// Why a call is refused, and the numbers that tell it to callers in other languages, in listings and in lists of answers.
#![tactic(auto)]

ghost use Rattle.std.specs.Prelude.{◌≡◌};
ghost use Rattle.refusals.specs.Numbers.{number, number_of};

// Each cause once, with its number: callers in other languages and listings know it by that.
#[derive(Clone, Copy, Debug, PartialEq, Eq)]
pub enum Refusal {
    BoardSize = 11, // an opening: too many parents, or a number of slots or a delay out of range
    ParentOrder = 12, // an opening: a parent that is not below its unit
    NoSuchUnit = 13, // the unit is not on the board
    NoSuchSlot = 14, // the slot is not on the board
    ShortAnswers = 15, // a run: the buffer for the answers is shorter than the list
    NoSuchKind = 16, // the step's kind is none
    LineTooLong = 21, // the line has over 255 bytes
    UnknownWord = 22, // the line's first word is unknown
    WrongFieldCount = 23, // the line has too few or too many fields
    NoNumber = 24, // a number field is none, or too large
    BoardLine = 25, // the first line is no board line, or a later one is
    ScriptTooLong = 26, // the script has over 65,535 bytes
    NoRoom = 27, // what is to be written does not fit
    PaddedNumber = 28, // a number has leading zeros
    NotSound = 30, // the board is not sound
    NotActive = 31, // the unit is not active
    Suspended = 32, // the unit is suspended
    TooLight = 33, // a send: weight 1 cannot be shared
    SlotFilled = 34, // the slot is filled
    SlotEmpty = 35, // a delivery: the slot is empty
    PastCeiling = 36, // a grant would pass the most that the debt may be
    DebtLeft = 37, // a start: the debt is above 0
    NotWaiting = 38, // the unit is not waiting
    CountdownOver = 39, // a tick: the countdown is 0
    CountdownRuns = 40, // a release: the countdown is above 0
    CanShare = 41, // a request: the unit has weight above 1
    StillActive = 42, // a visit: the unit is active
    NotToVisit = 43, // a visit: no round is running, or the open one has visited the unit
    CountFull = 44, // the unit has created work as often as is counted
    CensusSize = 46, // a census: a size or a length beyond what is counted
    ParentNotLower = 47, // a move: the new parent is not a lower unit
    WorkLeft = 48, // a drain: a unit is active, or work is under way
    NoFreeSlot = 49, // a drain: no slot is free
    ShortList = 50, // a drain: the list has fewer entries than steps
}

impl Refusal {
    pub fn number(self) -> u16
        ensures { result ≡ number self }
    {
        self as u16
    }
}

// 0 for an accepted call, or the number that refuses it.
pub fn number_of<T: Copy>(answer: Result<T, Refusal>) -> u16
    ensures { result ≡ number_of answer }
{
    match answer {
        Ok(_) => 0,
        Err(k) => k.number(),
    }
}
