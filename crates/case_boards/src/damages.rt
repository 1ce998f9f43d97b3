// The damages of a board: each field is set to a few values, and the board that comes of it told under its number.
use crate::rows::damaged;
use crate::weights::settled;
use crate::{GRANT, MOST};
use rules::{Board, Kind, Slot, State, UnitRecord};
use std::io;

// The board that is damaged, and the number of the next row. A balanced table settles the sums of each board before it is told.
#[derive(Drop)]
pub(crate) struct Damages<'a, P> {
    to: &'a P,
    base: Board,
    is_balanced: bool,
    next: usize,
}

fn near(x: u16) -> [u16; 5] {
    [0, 1, x.wrapping_sub(1), x.wrapping_add(1), 65535]
}

// A number among the units, or far above them; own is one that the field knows.
fn unit_numbers(own: u16) -> [u16; 4] {
    [0, 1, own, 65535]
}

fn damaged_units(x: UnitRecord) -> [UnitRecord; 8] {
    [
        UnitRecord {
            weight: x.weight.wrapping_add(1),
            ..x
        },
        UnitRecord { weight: 0, ..x },
        UnitRecord { countdown: 1, ..x },
        UnitRecord { countdown: 3, ..x },
        UnitRecord {
            state: State::Idle,
            ..x
        },
        UnitRecord {
            state: State::Active,
            ..x
        },
        UnitRecord {
            state: State::Waiting,
            ..x
        },
        UnitRecord {
            suspended: !x.suspended,
            ..x
        },
    ]
}

const KINDS: [Kind; 5] = [
    Kind::Empty,
    Kind::Work,
    Kind::Return,
    Kind::Request,
    Kind::Supply,
];

// A list with one entry set.
fn with<T: Copy, const N: usize>(mut list: [T; N], i: usize, x: T) -> [T; N] {
    if let Some(entry) = list.get_mut(i) {
        *entry = x;
    }
    list
}

impl<'a, P: Print> Damages<'a, P> {
    pub(crate) fn of(to: &'a P, base: Board) -> Self {
        Damages {
            to,
            base,
            is_balanced: false,
            next: 0,
        }
    }

    pub(crate) fn balanced(to: &'a P, base: Board) -> Self {
        Damages {
            is_balanced: true,
            ..Damages::of(to, base)
        }
    }

    fn row(&mut self, b: Board) -> io::Result<()> {
        let told = if self.is_balanced { settled(b) } else { b };
        damaged(self.to, self.next, told)?;
        self.next = self.next.wrapping_add(1);
        Ok(())
    }

    fn sizes(&mut self) -> io::Result<()> {
        let b = self.base;
        for n in near(b.n) {
            self.row(Board { n, ..b })?;
        }
        for m in near(b.m) {
            self.row(Board { m, ..b })?;
        }
        for delay in near(b.delay) {
            self.row(Board { delay, ..b })?;
        }
        Ok(())
    }

    fn parents(&mut self) -> io::Result<()> {
        let b = self.base;
        // The unit's number decides what is tried, and nothing else of it is read.
        for i in 0..64u16 {
            for parent in unit_numbers(i) {
                let parents = with(b.parents, usize::from(i), parent);
                self.row(Board { parents, ..b })?;
            }
        }
        Ok(())
    }

    // Units 0 to 6 and the last.
    fn units(&mut self) -> io::Result<()> {
        let b = self.base;
        for i in [0, 1, 2, 3, 4, 5, 6, 63] {
            for x in damaged_units(b.units[i]) {
                let units = with(b.units, i, x);
                self.row(Board { units, ..b })?;
            }
        }
        Ok(())
    }

    fn slot(&mut self, j: usize, y: Slot) -> io::Result<()> {
        let b = self.base;
        let slots = with(b.slots, j, y);
        self.row(Board { slots, ..b })
    }

    // Slots 0 to 5 and the last.
    fn slots(&mut self) -> io::Result<()> {
        for j in [0, 1, 2, 3, 4, 5, 255] {
            let slot = self.base.slots[j];
            for kind in KINDS {
                self.slot(j, Slot { kind, ..slot })?;
            }
            for from in unit_numbers(5) {
                self.slot(j, Slot { from, ..slot })?;
            }
            for to in unit_numbers(5) {
                self.slot(j, Slot { to, ..slot })?;
            }
            for weight in [0, slot.weight.wrapping_add(1), GRANT] {
                self.slot(j, Slot { weight, ..slot })?;
            }
        }
        Ok(())
    }

    // The base board itself, and each field but the debt.
    pub(crate) fn fields(&mut self) -> io::Result<()> {
        self.row(self.base)?;
        self.sizes()?;
        self.parents()?;
        self.units()?;
        self.slots()
    }

    pub(crate) fn debts(&mut self) -> io::Result<()> {
        let b = self.base;
        for debt in [
            b.debt.wrapping_add(1),
            b.debt.wrapping_sub(1),
            0,
            MOST,
            MOST + 1,
            u64::MAX,
        ] {
            self.row(Board { debt, ..b })?;
        }
        Ok(())
    }
}
