// One entry of a recording, replayed: the tests in their order, the ticks since the stamp before, the event, and its answer beside the
// recorded one (docs/RECORDING.md). Every function is total.
#![tactic(auto)]

ghost use Rattle.std.specs.Prelude.{◌≡◌};
ghost use Rattle.gate.specs.Lent.{loan};
ghost use Rattle.replay_step.specs.Step as Is;

use dispatch::dispatch;
use entry_ticks::ticks_by;
use event_answer::NoAnswer;
use pieces::front;
use recording::{
    Fault, answer_in, arguments_in, body_long, distance, fault_of, number_in, stamp_in,
};
use state::State;

// Why an entry was not run: the out buffer is shorter than 16,384 bytes; its body is cut off; it is refused.
#[derive(Clone, Copy, Debug, PartialEq, Eq)]
pub enum Unplayed {
    Small,
    Cut,
    Refused(Fault),
}

// Today's answer of an entry that was run, so many bytes at the front of the out buffer: the recorded one or another.
#[derive(Clone, Copy, Debug, PartialEq, Eq)]
pub enum Compared {
    Same(usize),
    Differs(usize),
}

// The state after an entry, and what became of it.
#[derive(Clone, Copy)]
pub struct Step {
    pub state: State,
    pub played: Result<Compared, Unplayed>,
}

pub fn same_bytes(a: &[u8], b: &[u8]) -> bool
    ensures { result ≡ Is.same_bytes a.now b.now }
{
    a == b
}

// Today's answer, n bytes at the front of the out buffer, beside the recorded one.
#[tactic(auto, unfolding(crate::specs::Step::played_by))]
fn beside(n: usize, out: &[u8], answer: &[u8]) -> Compared
    ensures { Ok result ≡ Is.played_by (Ok n) out.now answer.now }
{
    if same_bytes(front(out, n), answer) {
        Compared::Same(n)
    } else {
        Compared::Differs(n)
    }
}

fn unanswered(why: NoAnswer) -> Unplayed
    ensures { result ≡ Is.unanswered why }
{
    match why {
        NoAnswer::Unknown => Unplayed::Refused(Fault::NoEvent),
        NoAnswer::Unfit => Unplayed::Refused(Fault::Misfit),
        NoAnswer::Small => Unplayed::Small,
    }
}

#[tactic(auto, unfolding(crate::specs::Step::played_by))]
fn played_by(
    verdict: Result<usize, NoAnswer>,
    out: &[u8],
    answer: &[u8],
) -> Result<Compared, Unplayed>
    ensures { result ≡ Is.played_by verdict out.now answer.now }
{
    match verdict {
        Ok(n) => Ok(beside(n, out, answer)),
        Err(why) => Err(unanswered(why)),
    }
}

// So many ticks, then the event.
fn happen(
    image: &[u8],
    state: State,
    rx: &mut [u8],
    tx: &mut [u8],
    count: u32,
    number: u16,
    body: &[u8],
    out: &mut [u8],
) -> Step
    ensures value { result ≡ Is.step_given
        (Is.then_happens (loan image.now state rx.old tx.old) out.old count number body.now) }
    ensures rx_after { rx.new
        ≡ (Is.then_happens (loan image.now state rx.old tx.old) out.old count number body.now).rx }
    ensures tx_after { tx.new
        ≡ (Is.then_happens (loan image.now state rx.old tx.old) out.old count number body.now).tx }
    ensures out_after { out.new
        ≡ (Is.then_happens (loan image.now state rx.old tx.old) out.old count number body.now).out }
{
    let later = ticks_by(image, state, rx.len(), tx.len(), count);
    let given = arguments_in(number, body);
    let done = dispatch(image, later.state, rx, tx, number, given, out);
    Step {
        played: played_by(done.verdict, out, answer_in(number, body)),
        state: done.state,
    }
}

#[tactic(auto, unfolding(crate::specs::Step::unless_fault))]
fn unless_fault(
    image: &[u8],
    state: State,
    rx: &mut [u8],
    tx: &mut [u8],
    fault: Result<(), Fault>,
    count: u32,
    number: u16,
    body: &[u8],
    out: &mut [u8],
) -> Step
    ensures value { result ≡ Is.step_given
        (Is.unless_fault (loan image.now state rx.old tx.old) out.old fault count number body.now) }
    ensures rx_after { rx.new
        ≡ (Is.unless_fault (loan image.now state rx.old tx.old) out.old fault count number body.now).rx }
    ensures tx_after { tx.new
        ≡ (Is.unless_fault (loan image.now state rx.old tx.old) out.old fault count number body.now).tx }
    ensures out_after { out.new ≡ (Is.unless_fault (loan image.now state rx.old tx.old)
        out.old fault count number body.now).out }
{
    match fault {
        Ok(()) => happen(image, state, rx, tx, count, number, body, out),
        Err(fault) => not_run(Unplayed::Refused(fault), state),
    }
}

fn not_run(why: Unplayed, state: State) -> Step
    ensures { result ≡ record { played = Err why; state = state } }
{
    Step {
        played: Err(why),
        state,
    }
}

// A step over a contents row and the bytes that are left, with the stamp before it; the first entry's is its own.
pub fn replay_step(
    image: &[u8],
    state: State,
    rx: &mut [u8],
    tx: &mut [u8],
    before: u32,
    row: &[u8],
    rest: &[u8],
    out: &mut [u8],
) -> Step
    ensures value { result ≡ Is.step_given
        (Is.entry_step (loan image.now state rx.old tx.old)
        out.old before row.now rest.now) }
    ensures rx_after { rx.new ≡ (Is.entry_step (loan image.now state rx.old tx.old)
        out.old before row.now rest.now).rx }
    ensures tx_after { tx.new ≡ (Is.entry_step (loan image.now state rx.old tx.old)
        out.old before row.now rest.now).tx }
    ensures out_after { out.new ≡ (Is.entry_step (loan image.now state rx.old tx.old)
        out.old before row.now rest.now).out }
{
    if out.len() < 16384 {
        return not_run(Unplayed::Small, state);
    }
    let long = body_long(row);
    if rest.len() < long {
        return not_run(Unplayed::Cut, state);
    }
    let body = front(rest, long);
    let count = distance(before, stamp_in(row));
    let fault = fault_of(count, row, body);
    unless_fault(
        image,
        state,
        rx,
        tx,
        fault,
        count,
        number_in(row),
        body,
        out,
    )
}
