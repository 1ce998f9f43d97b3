// A visit of the open round: what refuses it, what it makes of the rounds, and what it finds.
ghost use Rattle.std.specs.Prelude.{◌≡◌, cond, ◌+◌, ◌<◌, ◌^◌};
ghost use Rattle.rules.specs.Facts.{judge};
ghost use Rattle.rules.specs.Rounds.{Seen, tallied, closed, closing};
ghost use Rattle.rules.specs.Visits.{visit_bracket, visit};
ghost use Rattle.rules.specs.declared.Finding.TheVariants.{NoVerdict};
ghost use Rattle.rounds.specs.VisitMeets.{VisitMeets};

use crate::marks::all_marked;
use board::is_sound;
use refusals::Refusal;
use rules::{Board, Finding, NO_ROUND, Round, Rounds, Visited};

// Whether unit u may be visited.
fn may_visit(b: &Board, u: u16) -> Result<(), Refusal>
    ensures { result ≡ judge Err (visit_bracket b.now u) (Ok tt) }
{
    if !is_sound(*b) {
        return Err(Refusal::NotSound);
    }
    if u >= b.n {
        return Err(Refusal::NoSuchUnit);
    }
    let i = usize::from(u);
    if b.rounds.round.is_none() || b.rounds.visited[i] {
        return Err(Refusal::NotToVisit);
    }
    if b.units[i].state.is_active() {
        return Err(Refusal::StillActive);
    }
    Ok(())
}

// Marks unit i and adds its count to the open round's total: what it processed in round one, what it created in round two.
fn tallied(mut k: Rounds, i: usize, made: u32, done: u64) -> Rounds
    requires { (i < 64) × ((k.processed + done < 2 ^ 64) × (k.created + made < 2 ^ 64)) }
    ensures { (v : Seen) → v.created i ≡ made → v.processed i ≡ done → result ≡ tallied v k i k.round }
{
    match k.round {
        None => return k,
        Some(Round::One) => k.processed += done,
        Some(Round::Two) => k.created += u64::from(made),
    }
    k.visited[i] = true;
    k
}

// What the last visit of a round leaves: round two opens behind round one, and none behind round two.
fn closed(k: Rounds) -> Rounds
    ensures { result ≡ closed k k.round }
{
    match k.round {
        None => k,
        Some(Round::One) => Rounds {
            round: Some(Round::Two),
            processed: k.processed,
            ..NO_ROUND
        },
        Some(Round::Two) => NO_ROUND,
    }
}

// What the last visit of a round finds.
fn closing(k: Rounds) -> Finding
    ensures { result ≡ closing k k.round }
{
    match k.round {
        Some(Round::Two) if k.processed == k.created => Finding::AllQuiet,
        Some(Round::Two) => Finding::Unsettled,
        None | Some(Round::One) => Finding::NoVerdict,
    }
}

// What the last visit leaves and what it finds: two results of one test, each with its definition.
fn left_by(k: Rounds, last: bool) -> Rounds
    ensures { result ≡ cond last (closed k k.round) k }
{
    if last { closed(k) } else { k }
}

fn found_by(k: Rounds, last: bool) -> Finding
    ensures { result ≡ cond last (closing k k.round) NoVerdict }
{
    if last { closing(k) } else { Finding::NoVerdict }
}

// The visit on a lent board; a refused one leaves it.
fn visit_lent(b: &mut Board, u: u16) -> Result<Finding, Refusal>
    ensures { visit b.old u ≡ record { finding = result; board = b.new } }
{
    may_visit(b, u)?;
    let i = usize::from(u);
    let k = tallied(b.rounds, i, b.created[i], b.processed[i]);
    let last = all_marked(&k, b.n);
    b.rounds = left_by(k, last);
    Ok(found_by(k, last))
}

// A visit of unit u. A refused one leaves the board.
pub fn visit(mut b: Board, u: u16) -> Visited
    ensures { VisitMeets b u result.finding result.board }
{
    let finding = visit_lent(&mut b, u);
    Visited { board: b, finding }
}
