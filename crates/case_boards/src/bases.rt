// The boards that are damaged: what steps lead to from one opening.
use casetext::Step;
use rules::Board;

const WORKING: [Step; 8] = [
    Step::Start(0),
    Step::Send(0, 1, 0),
    Step::Deliver(0),
    Step::Send(0, 2, 1),
    Step::Deliver(1),
    Step::Send(1, 3, 0),
    Step::Rest(2),
    Step::Send(0, 4, 2),
];

const WORK_FOR_2: [Step; 3] = [Step::Start(1), Step::Send(1, 2, 0), Step::Deliver(0)];

const OUT_OF_2: [Step; 2] = [Step::Send(2, 3, 0), Step::Deliver(0)];

const WORK_FOR_4: [Step; 2] = [Step::Send(1, 4, 1), Step::Deliver(1)];

const OUT_OF_4: [Step; 2] = [Step::Send(4, 3, 1), Step::Deliver(1)];

const SUSPENDED: [Step; 10] = [
    Step::Request(2, 0),
    Step::Request(4, 1),
    Step::Deliver(1),
    Step::Rest(3),
    Step::Tick(3),
    Step::Tick(3),
    Step::Release(3, 2),
    Step::Send(1, 3, 3),
    Step::Deliver(3),
    Step::Rest(3),
];

// Sends that leave a unit of weight 16,384 with weight 1: 15 of 1,024, then ten halvings.
const SENDS: usize = 25;

fn opened() -> Board {
    board::open(4, 2, &[0, 0, 1, 2]).board
}

fn after(b: Board, list: &[Step]) -> Board {
    list.iter()
        .fold(b, |b, step| steps::step(b, (*step).into()).board)
}

fn repeated(b: Board, list: &[Step]) -> Board {
    (0..SENDS).fold(b, |b, _| after(b, list))
}

// Units at work and one that waits, with work under way.
pub(crate) fn working() -> Board {
    after(opened(), &WORKING)
}

// A request of unit 2, a supply to unit 4 and a return under way; unit 3 waits.
pub(crate) fn suspended() -> Board {
    let two = repeated(after(opened(), &WORK_FOR_2), &OUT_OF_2);
    let four = repeated(after(two, &WORK_FOR_4), &OUT_OF_4);
    after(four, &SUSPENDED)
}
