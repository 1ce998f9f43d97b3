// Step records out of a list of numbers, four to a record.
ghost use Rattle.std.specs.Prelude.{◌≡◌, length};
ghost use Rattle.bench.specs.Records.{record_of};

use rules::StepRecord;

pub(crate) fn record_of(four: &[u16]) -> StepRecord
    requires { length four.now ≡ 4 }
    ensures { result ≡ record_of four.now }
{
    let &[kind, unit, other, slot] = four else {
        unreachable!()
    };
    StepRecord {
        kind,
        unit,
        other,
        slot,
    }
}
