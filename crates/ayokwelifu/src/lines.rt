// A step as a line of a script, written and read back: what a unit on board logs.
ghost use Rattle.std.specs.Prelude.{◌≡◌, false};
ghost use Rattle.rules.specs.declared.StepRecord.{StepRecord};
ghost use Rattle.refusals.specs.Numbers.{number_of};
ghost use Rattle.script.specs.Lines.{reading, refusal_by};
ghost use Rattle.script.specs.Writing.{step_wrote, step_written};
ghost use Rattle.ayokwelifu.specs.Answers.{cell_after, step_after};

use crate::cell_after;
use refusals::number_of;
use rules::StepRecord;
use script::{read_step, write_step};

// The line, with its byte 10, goes to the buffer from the place on and its length to the cell, or 16 or 27 and both as they were.
#[unsafe(no_mangle)]
pub extern "C" fn ayokwelifu_write_step(
    kind: u16,
    unit: u16,
    other: u16,
    slot: u16,
    out: &mut [u8],
    at: usize,
    count: &mut u64,
) -> u16
    ensures number { result ≡ number_of (step_wrote (record { kind = kind; unit = unit; other = other; slot = slot }) at out.old) }
    ensures cell { count.new ≡ cell_after count.old (step_wrote (record { kind = kind; unit = unit; other = other; slot = slot }) at out.old) }
    ensures buffer { out.new ≡ step_written (record { kind = kind; unit = unit; other = other; slot = slot }) at out.old }
{
    let r = StepRecord {
        kind,
        unit,
        other,
        slot,
    };
    let w = write_step(r, out, at);
    *count = cell_after(*count, w);
    number_of(w)
}

// The step that a line without its byte 10 says goes to the cells, with 0 in the fields that its kind has no letter for, or the number that refuses the line and the cells as they were.
#[unsafe(no_mangle)]
pub extern "C" fn ayokwelifu_read_step(
    line: &[u8],
    kind: &mut u16,
    unit: &mut u16,
    other: &mut u16,
    slot: &mut u16,
) -> u16
    ensures number { result ≡ refusal_by (reading false line.now) }
    ensures cells { ◌≡◌ {A = StepRecord} (record { kind = kind.new; unit = unit.new; other = other.new; slot = slot.new }) (step_after (record { kind = kind.old; unit = unit.old; other = other.old; slot = slot.old }) (reading false line.now)) }
{
    let read = read_step(line);
    if let Ok(step) = read {
        *kind = step.kind;
        *unit = step.unit;
        *other = step.other;
        *slot = step.slot;
    }
    number_of(read)
}
