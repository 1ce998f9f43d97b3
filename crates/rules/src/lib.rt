// The records of the weight board. What they mean is in specs/: each definition there cites its part of the rules.
// "The rules' own term" marks the place of a word that the rules bring in.
#![tactic(auto)]

ghost use Rattle.std.specs.Prelude.{◌≡◌, ◌≤◌};
ghost use Rattle.rules.specs.Actions.{action_of};
ghost use Rattle.rules.specs.Records.{is_idle, is_active, is_waiting, is_empty, is_work};
ghost use Rattle.rules.specs.Effects.{share, shared};

use refusals::Refusal;

// The state of a unit. Waiting, the rules' own term, is the state between resting and giving its weight back.
// A unit's countdown stands beside its state and not in it, and a slot's weight beside its kind: any board may be handed over, also one
// whose idle unit counts down or whose empty slot has weight, and `is_sound` tells it.
#[derive(Clone, Copy, PartialEq, Eq)]
pub enum State {
    Idle,
    Active,
    Waiting,
}

// The kind of a slot: what message, if any, is under way in it.
#[derive(Clone, Copy, PartialEq, Eq)]
pub enum Kind {
    Empty,
    Work,
    Return,
    Request,
    Supply,
}

// A unit: 16 bytes, since the board is copied by value.
#[derive(Clone, Copy, PartialEq, Eq)]
pub struct UnitRecord {
    pub weight: u64, // the rules' own term: its part of the debt, given away in shares and handed back
    pub countdown: u16, // of a waiting unit: the ticks until it may release
    pub state: State, // idle, active or waiting
    pub suspended: bool, // the rules' own term: it has requested weight, and the supply has not arrived
}

// A slot of the cable: 16 bytes.
#[derive(Clone, Copy, PartialEq, Eq)]
pub struct Slot {
    pub weight: u64, // under way with the message: none with a request
    pub from: u16, // the unit that sent it
    pub to: u16, // the unit that it is for
    pub kind: Kind, // empty where no message is under way
}

// The counting round that is open (M-105).
#[derive(Clone, Copy, PartialEq, Eq)]
pub enum Round {
    One,
    Two,
}

// The counting rounds (M-105): a second way to see that all is quiet, beside the weights. No step but a start touches them.
#[derive(Clone, Copy, PartialEq, Eq)]
pub struct Rounds {
    pub round: Option<Round>, // the open one
    pub visited: [bool; 64], // the units that the open round has visited; false from n on
    pub processed: u64, // round one's total, of the visited units' processed counts
    pub created: u64, // round two's total, of the visited units' created counts
}

// The weight board. A caller may hand over any; which are sound is tested.
// Fixed arrays with n and m beside them: a board is of fixed size, and no call allocates. A number stands before the entries that it counts. With the gaps of this order a board has 6,136 bytes; with 6,120, the least, one copy
// in each step was slow for its distance (docs/PERFORMANCE.md, "Copies").
#[derive(Clone, Copy, PartialEq, Eq)]
pub struct Board {
    pub n: u16, // units in use, 1 to 64; unit 0 is the root, and tells the end
    pub parents: [u16; 64], // the parent of each unit, lower than the unit; 0 for unit 0
    pub units: [UnitRecord; 64], // blank from n on
    pub m: u16, // slots in use, 1 to 256
    pub slots: [Slot; 256], // blank from m on
    pub delay: u16, // the countdown that a wait begins with, 0 to 255
    pub debt: u64, // the rules' own term: the weight still out
    pub created: [u32; 64], // how often each unit created work; 0 from n on. Apart from the units, whose records stay at 16 bytes
    pub processed: [u64; 64], // how often each unit processed work; 0 from n on
    pub rounds: Rounds, // blank where no round is open
}

// One step as a caller asks for it: a kind from 1 to 8, and the fields that the kind has a letter for.
// Callers in other languages lend lists of it, so its layout is C's.
#[repr(C)]
#[derive(Clone, Copy, PartialEq, Eq)]
pub struct StepRecord {
    pub kind: u16, // start, send, request, deliver, rest, tick, release, move, from 1 on; a number, since callers may hand over any
    pub unit: u16, // u: the unit that takes the step
    pub other: u16, // v: the unit that a send is for; p: the parent that a move gives (M-108)
    pub slot: u16, // s: the slot to fill, or to deliver
}

// How many kinds of step there are.
pub const KINDS: u16 = 8;

// A record of no kind, which every board refuses.
pub const NO_STEP: StepRecord = StepRecord {
    kind: 0,
    unit: 0,
    other: 0,
    slot: 0,
};

// Blank entries: idle, empty, all zero; and no counting round.
pub const BLANK_UNIT: UnitRecord = UnitRecord {
    weight: 0,
    countdown: 0,
    state: State::Idle,
    suspended: false,
};

pub const BLANK_SLOT: Slot = Slot {
    weight: 0,
    from: 0,
    to: 0,
    kind: Kind::Empty,
};

pub const NO_ROUND: Rounds = Rounds {
    round: None,
    visited: [false; 64],
    processed: 0,
    created: 0,
};

// A step's kind by name; Unknown stands for every number outside 1 to KINDS. It is no Option: each table of the rules has a row for it, and no
// second match around.
#[derive(Clone, Copy, PartialEq, Eq)]
pub enum Action {
    Unknown,
    Start,
    Send,
    Request,
    Deliver,
    Rest,
    Tick,
    Release,
    Move,
}

// What an accepted step does to a sound board: it leaves one unit, one slot or both as given, and the debt; or it gives its unit another
// parent (M-108).
#[derive(Clone, Copy)]
pub enum Effect {
    OnUnit(UnitRecord, u64),
    OnSlot(Slot, u64),
    OnBoth(UnitRecord, Slot, u64),
    OnParent(u16),
}

// The counts of a unit.
#[derive(Clone, Copy)]
pub struct Counts {
    pub created: u32, // accepted sends and starts
    pub processed: u64, // accepted deliveries of work, and starts
}

// What a step leaves: the answer, and the unit's parent, the debt, the unit, the slot and the unit's counts after the step; as they were
// where it is refused.
#[derive(Clone, Copy)]
pub struct Change {
    pub answer: Result<(), Refusal>,
    pub parent: u16,
    pub debt: u64,
    pub unit: UnitRecord,
    pub slot: Slot,
    pub counts: Counts,
}

// What an opening or a step gives: the board after it, also where it is refused, and the answer.
// The board comes first: behind a gap the compiler copies it once more.
#[derive(Clone, Copy)]
pub struct Outcome {
    pub board: Board,
    pub answer: Result<(), Refusal>,
}

// The answer to the question whether the sheet is complete.
#[derive(Clone, Copy, PartialEq, Eq)]
pub enum Verdict {
    Working,
    Finished,
}

// What a visit of a counting round finds (M-105). AllQuiet is the verdict "quiet".
#[derive(Clone, Copy, PartialEq, Eq)]
pub enum Finding {
    NoVerdict,
    AllQuiet,
    Unsettled,
}

// What a visit gives: the board after it, and what it found.
#[derive(Clone, Copy)]
pub struct Visited {
    pub board: Board,
    pub finding: Result<Finding, Refusal>,
}

// The weight that a start or a granted request brings in: 2^24.
pub const GRANT: u64 = 16777216;

// The most that the debt may be: 2^40.
pub const CEILING: u64 = 1099511627776;

// The most that a created count may be: 2^32 - 1.
pub const FULL: u32 = 4294967295;

// The most steps of a batch: the test of soundness and the copies of the board, once for each batch, are then a small part of its cost.
pub const BATCH: usize = 512;

// What a batch gives: as a run how many zeros there are among the answers, and the number of the answer to each step and the debt after
// it. Entries behind those are 0 and mean nothing, and so are all entries where the batch is refused. Answers are numbers, as in the buffer that
// a run is lent; answers and debts stand apart, as their definitions do.
#[derive(Clone, Copy)]
pub struct Batch {
    pub ran: Result<usize, Refusal>,
    pub board: Board,
    pub answers: [u16; BATCH],
    pub debts: [u64; BATCH],
}

// A unit that gave a share.
#[derive(Clone, Copy)]
pub struct Shared {
    pub unit: UnitRecord, // with the weight that it keeps
    pub given: u64, // the rules' own term: the share, the weight that it gives away
}

// Tests by name, since contracts of other crates cite their definitions; each body is the derived equality.
impl State {
    // Is the unit idle, without work and without weight?
    pub fn is_idle(self) -> bool
        ensures { result ≡ is_idle self }
    {
        self == State::Idle
    }

    // Is the unit at work? A suspended one is active too.
    pub fn is_active(self) -> bool
        ensures { result ≡ is_active self }
    {
        self == State::Active
    }

    // Is the unit waiting: its work is done, and its weight not yet given back?
    pub fn is_waiting(self) -> bool
        ensures { result ≡ is_waiting self }
    {
        self == State::Waiting
    }
}

impl Kind {
    // Is the slot empty, so that a message can be put in it?
    pub fn is_empty(self) -> bool
        ensures { result ≡ is_empty self }
    {
        self == Kind::Empty
    }

    // Is the message work, which one unit creates and another processes?
    pub fn is_work(self) -> bool
        ensures { result ≡ is_work self }
    {
        self == Kind::Work
    }
}

// The step's kind of a step record; every number outside 1 to KINDS is unknown.
impl From<u16> for Action {
    ghost from_gives = { λ kind action. action ≡ action_of kind };

    fn from(kind: u16) -> Action {
        match kind {
            1 => Action::Start,
            2 => Action::Send,
            3 => Action::Request,
            4 => Action::Deliver,
            5 => Action::Rest,
            6 => Action::Tick,
            7 => Action::Release,
            8 => Action::Move,
            _ => Action::Unknown,
        }
    }
}

// 2^14 from 2^20 on (M-100), 2^10 from 2^11 on, else half. Total: of weight 0 and 1 the share is 0 by the same halving.
fn share_of(weight: u64) -> u64
    ensures value { result ≡ share weight }
    ensures within { result ≤ weight }
{
    if 1048576 <= weight {
        return 16384;
    }
    if 2048 <= weight {
        return 1024;
    }
    weight / 2
}

impl UnitRecord {
    // Gives a share and hands back itself with what it keeps.
    pub fn share(self) -> Shared
        ensures { result ≡ shared self }
    {
        let given = share_of(self.weight);
        Shared {
            unit: UnitRecord {
                weight: self.weight - given,
                ..self
            },
            given,
        }
    }
}
