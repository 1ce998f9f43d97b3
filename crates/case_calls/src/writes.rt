// The writer of a step: kinds 0 to 8, then the largest number.
use crate::edges;
use crate::rows::Rows;
use rules::{NO_STEP, StepRecord};
use std::io;

const KINDS: [u16; 10] = [0, 1, 2, 3, 4, 5, 6, 7, 8, 65535];

// Each kind with fields of several lengths, then with fields 0.
fn records(kind: u16) -> [StepRecord; 2] {
    let long = StepRecord {
        kind,
        unit: 10,
        other: 200,
        slot: 65535,
    };
    let short = StepRecord { kind, ..NO_STEP };
    [long, short]
}

pub(crate) fn all(to: &impl Print) -> io::Result<()> {
    let mut rows = Rows::under(to, "writes")?;
    for kind in KINDS {
        for record in records(kind) {
            edges::all(
                &mut rows,
                kind,
                |out, at| script::write_step(record, out, at),
            )?;
        }
    }
    Ok(())
}
