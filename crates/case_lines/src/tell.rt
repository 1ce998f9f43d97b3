// What the readers of a line give.
use refusals::Refusal;
use rules::StepRecord;
use script::Line;
use std::io;

fn parents(to: &impl Print, list: &[u16]) -> io::Result<()> {
    for parent in list {
        print!(to; "\t{parent}")?;
    }
    println!(to)
}

fn asked(to: &impl Print, r: StepRecord) -> io::Result<()> {
    println!(to; "asks\t{}\t{}\t{}\t{}", r.kind, r.unit, r.other, r.slot)
}

// M, d and how many parents there are, then the parents; or kind, unit, other and slot; or the refusal.
fn told(to: &impl Print, r: Result<Line, Refusal>, list: &[u16]) -> io::Result<()> {
    match r {
        Ok(Line::Opens(m, d, count)) => {
            print!(to; "opens\t{m}\t{d}\t{count}")?;
            parents(to, &list[..usize::from(count).min(list.len())])
        }
        Ok(Line::Asks(step)) => asked(to, step),
        Err(refusal) => println!(to; "refused\t{}", refusal.number()),
    }
}

pub(crate) fn first<P: Print>(to: &P, line: &[u8]) -> io::Result<()> {
    let b = script::read_board(line);
    told(to, b.reading, &b.parents)
}

// The first three entries of a first line's parents, whatever the line says.
pub(crate) fn three_parents(to: &impl Print, line: &[u8]) -> io::Result<()> {
    print!(to; "parents")?;
    parents(to, &script::read_board(line).parents[..3])
}

pub(crate) fn later<P: Print>(to: &P, line: &[u8]) -> io::Result<()> {
    told(to, script::read_line(line, false), &[])
}
