// Boards of three units and three slots about the limits of weights, debt and suspension.
use crate::rows::limit;
use crate::{GRANT, MOST};
use rules::{BLANK_SLOT, Board, Kind, Slot, State, UnitRecord};
use std::io;

// 2^63: twice that wraps to 0.
const HALF: u64 = 9223372036854775808;

const SUPPLY: Slot = Slot {
    weight: GRANT,
    from: 0,
    to: 2,
    kind: Kind::Supply,
};

fn work(weight: u64) -> Slot {
    Slot {
        weight,
        from: 1,
        to: 2,
        kind: Kind::Work,
    }
}

fn request(unit: u16) -> Slot {
    Slot {
        weight: 0,
        from: unit,
        to: 0,
        kind: Kind::Request,
    }
}

fn active(weight: u64, suspended: bool) -> UnitRecord {
    UnitRecord {
        weight,
        countdown: 0,
        state: State::Active,
        suspended,
    }
}

// Unit 1 has the weight.
fn opened(weight: u64, debt: u64) -> Board {
    let mut b = board::open(3, 0, &[0, 0]).board;
    b.units[1] = active(weight, false);
    b.debt = debt;
    b
}

// Unit 1 has the weight, and unit 2 a request under way.
fn asking(weight: u64, debt: u64) -> Board {
    let mut b = opened(weight, debt);
    b.units[2] = active(1, true);
    b.slots[0] = request(2);
    b
}

// Unit 1 has the weight, and work that it created is under way.
fn sending(weight: u64, under_way: u64, debt: u64) -> Board {
    let mut b = opened(weight, debt);
    b.slots[0] = work(under_way);
    b.created[1] = 1;
    b
}

// Two small units, and what is under way in slots 0 and 1.
fn pending(first: Slot, second: Slot, debt: u64) -> Board {
    let mut b = asking(1, debt);
    b.slots[0] = first;
    b.slots[1] = second;
    b
}

fn both_asking() -> Board {
    let mut b = pending(request(2), request(1), 2);
    b.units[1] = active(1, true);
    b
}

fn heavy(to: &impl Print) -> io::Result<()> {
    limit(to, 0, asking(MOST - GRANT - 1, MOST - GRANT))?;
    limit(to, 1, asking(MOST - GRANT, MOST - GRANT + 1))?;
    limit(to, 2, asking(MOST - 1, MOST))?;
    limit(to, 3, asking(MOST, MOST + 1))?;
    limit(to, 4, asking(u64::MAX, 0))?;
    limit(to, 5, asking(u64::MAX, u64::MAX))?;
    limit(to, 6, sending(HALF, HALF, 0))?;
    limit(to, 7, sending(HALF, HALF + GRANT, GRANT))?;
    limit(to, 8, sending(MOST - 1, 1, MOST))?;
    limit(to, 9, sending(MOST, 1, MOST + 1))?;
    limit(to, 10, sending(1, 1, 2))
}

fn light(to: &impl Print) -> io::Result<()> {
    limit(to, 11, pending(request(2), request(2), 2))?;
    limit(to, 12, pending(request(2), SUPPLY, 2 + GRANT))?;
    limit(to, 13, pending(SUPPLY, BLANK_SLOT, 2 + GRANT))?;
    limit(to, 14, pending(SUPPLY, SUPPLY, 2 + 2 * GRANT))?;
    limit(to, 15, both_asking())?;
    limit(to, 16, pending(request(1), BLANK_SLOT, 2))?;
    limit(to, 17, pending(BLANK_SLOT, BLANK_SLOT, 2))
}

pub(crate) fn all(to: &impl Print) -> io::Result<()> {
    heavy(to)?;
    light(to)
}
