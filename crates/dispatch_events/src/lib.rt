// The events that write no memory, each with its answer written to an out buffer; one that is too short for an answer is refused.
// Every public function is total.
#![tactic(auto)]

ghost use Rattle.std.specs.Prelude.{◌≡◌, length};
ghost use Rattle.wire.specs.Lay.{lay};
ghost use Rattle.event_answer.specs.Answers.{dispatched};
ghost use Rattle.dispatch_events.specs.Events as Is;
ghost use Rattle.gate.specs.Lent.{loan};

use connection::{Event, Refusal, failed};
use event_answer::{Dispatched, NoAnswer, has_room, put_done, put_done_with, put_refusal};
use gate::ask_at;
use state::{State, config_laid};

fn put_told(out: &mut [u8], answer: Result<(), Refusal>) -> usize
    ensures value { result ≡ length (Is.told_bytes answer) }
    ensures out_after { out.new ≡ lay out.old 0 (Is.told_bytes answer) }
{
    match answer {
        Ok(()) => put_done(out),
        Err(reason) => put_refusal(out, reason),
    }
}

#[tactic(auto, using(event_answer::proofs::Bytes::one_byte))]
fn put_loss(out: &mut [u8], answer: Result<(), Refusal>, failed: bool) -> usize
    ensures value { result ≡ length (Is.loss_bytes answer failed) }
    ensures out_after { out.new ≡ lay out.old 0 (Is.loss_bytes answer failed) }
{
    match answer {
        Ok(()) => put_done_with(out, &[u8::from(failed)]),
        Err(reason) => put_refusal(out, reason),
    }
}

#[tactic(auto, using(event_answer::proofs::Bytes::two_bytes))]
fn put_ticks(out: &mut [u8], answer: Result<(), Refusal>, failed: u16) -> usize
    ensures value { result ≡ length (Is.ticks_bytes answer failed) }
    ensures out_after { out.new ≡ lay out.old 0 (Is.ticks_bytes answer failed) }
{
    match answer {
        Ok(()) => put_done_with(out, &failed.to_be_bytes()),
        Err(reason) => put_refusal(out, reason),
    }
}

#[tactic(auto, using(event_answer::proofs::Bytes::four_bytes))]
fn put_count(out: &mut [u8], answer: Result<u32, Refusal>) -> usize
    ensures value { result ≡ length (Is.count_bytes answer) }
    ensures out_after { out.new ≡ lay out.old 0 (Is.count_bytes answer) }
{
    match answer {
        Ok(value) => put_done_with(out, &value.to_be_bytes()),
        Err(reason) => put_refusal(out, reason),
    }
}

// Open, close, connected, set remote, switch, cancel: as `entry_events::happen`, over one copy of the state, in which the record is put
// back.
pub fn own(
    image: &[u8],
    mut state: State,
    rx: &[u8],
    tx: &[u8],
    connection: u8,
    event: Event,
    out: &mut [u8],
) -> Dispatched
    ensures value { result ≡ dispatched (Is.own_effect (loan image.now state rx.now tx.now) out.old connection event) }
    ensures out_after { out.new
        ≡ (Is.own_effect (loan image.now state rx.now tx.now) out.old connection event).out }
{
    if let Err(why) = has_room(out.len()) {
        return Dispatched {
            verdict: Err(why),
            state,
        };
    }
    let n = connection as usize;
    if let Err(reason) = ask_at(image, &state, rx.len(), tx.len(), n) {
        let length = put_refusal(out, reason);
        return Dispatched {
            verdict: Ok(length),
            state,
        };
    }
    let stepped = state.connections[n].step(config_laid(image, n), event);
    state.connections[n] = stepped.connection;
    let length = put_told(out, stepped.answer);
    Dispatched {
        verdict: Ok(length),
        state,
    }
}

pub fn lost(
    image: &[u8],
    mut state: State,
    rx: &[u8],
    tx: &[u8],
    connection: u8,
    out: &mut [u8],
) -> Dispatched
    ensures value { result ≡ dispatched (Is.lost_effect (loan image.now state rx.now tx.now) out.old connection) }
    ensures out_after { out.new
        ≡ (Is.lost_effect (loan image.now state rx.now tx.now) out.old connection).out }
{
    if let Err(why) = has_room(out.len()) {
        return Dispatched {
            verdict: Err(why),
            state,
        };
    }
    let n = connection as usize;
    if let Err(reason) = ask_at(image, &state, rx.len(), tx.len(), n) {
        let length = put_refusal(out, reason);
        return Dispatched {
            verdict: Ok(length),
            state,
        };
    }
    let before = state.connections[n];
    let stepped = before.step(config_laid(image, n), Event::Lost);
    state.connections[n] = stepped.connection;
    let length = put_loss(out, stepped.answer, failed(before, state.connections[n]));
    Dispatched {
        verdict: Ok(length),
        state,
    }
}

pub fn many_ticks(
    image: &[u8],
    state: State,
    rx: &[u8],
    tx: &[u8],
    count: u32,
    out: &mut [u8],
) -> Dispatched
    ensures value { result ≡ dispatched (Is.ticks_effect (loan image.now state rx.now tx.now) out.old count) }
    ensures out_after { out.new ≡ (Is.ticks_effect (loan image.now state rx.now tx.now) out.old count).out }
{
    if let Err(why) = has_room(out.len()) {
        return Dispatched {
            verdict: Err(why),
            state,
        };
    }
    let entry = entry_ticks::ticks_by(image, state, rx.len(), tx.len(), count);
    let length = put_ticks(out, entry.answer, entry.failed);
    Dispatched {
        verdict: Ok(length),
        state: entry.state,
    }
}

pub fn switch_all(
    image: &[u8],
    state: State,
    rx: &[u8],
    tx: &[u8],
    number: u8,
    on: bool,
    out: &mut [u8],
) -> Dispatched
    ensures value { result ≡ dispatched (Is.switch_all_effect (loan image.now state rx.now tx.now) out.old number on) }
    ensures out_after { out.new
        ≡ (Is.switch_all_effect (loan image.now state rx.now tx.now) out.old number on).out }
{
    if let Err(why) = has_room(out.len()) {
        return Dispatched {
            verdict: Err(why),
            state,
        };
    }
    let entry = entry_events::switch_all(image, state, rx, tx, number, on);
    let length = put_told(out, entry.answer);
    Dispatched {
        verdict: Ok(length),
        state: entry.state,
    }
}

pub fn read_count(
    image: &[u8],
    state: State,
    rx: &[u8],
    tx: &[u8],
    protocol: u8,
    out: &mut [u8],
) -> Dispatched
    ensures value { result ≡ dispatched (Is.read_effect (loan image.now state rx.now tx.now) out.old protocol) }
    ensures out_after { out.new ≡ (Is.read_effect (loan image.now state rx.now tx.now) out.old protocol).out }
{
    if let Err(why) = has_room(out.len()) {
        return Dispatched {
            verdict: Err(why),
            state,
        };
    }
    let entry = entry_events::read_count(image, state, rx, tx, protocol);
    let length = put_count(out, entry.answer);
    Dispatched {
        verdict: Ok(length),
        state: entry.state,
    }
}

pub fn clear_count(
    image: &[u8],
    state: State,
    rx: &[u8],
    tx: &[u8],
    protocol: u8,
    out: &mut [u8],
) -> Dispatched
    ensures value { result ≡ dispatched (Is.clear_effect (loan image.now state rx.now tx.now) out.old protocol) }
    ensures out_after { out.new ≡ (Is.clear_effect (loan image.now state rx.now tx.now) out.old protocol).out }
{
    if let Err(why) = has_room(out.len()) {
        return Dispatched {
            verdict: Err(why),
            state,
        };
    }
    let entry = entry_events::clear_count(image, state, rx, tx, protocol);
    let length = put_count(out, entry.answer);
    Dispatched {
        verdict: Ok(length),
        state: entry.state,
    }
}
