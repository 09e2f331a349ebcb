// A datagram, an accept, a transmit and a take of waiting bytes, each with its answer written to an out buffer; one that is too short for
// an answer is refused. Every function is total.
#![tactic(auto)]

ghost use Rattle.std.specs.Prelude.{◌≡◌, ◌≤◌, length};
ghost use Rattle.wire.specs.Lay.{lay};
ghost use Rattle.event_answer.specs.Answers.{dispatched};
ghost use Rattle.dispatch_send.specs.Send as Is;
ghost use Rattle.gate.specs.Lent.{loan};

use connection::Remote;
use event_answer::{
    Dispatched, NoAnswer, has_room, put_done, put_done_with, put_refusal, put_refused, put_waiting,
};
use pieces::front;
use select::NotMet;
use send::NotSent;
use send_waiting::NotTaken;
use state::State;

#[tactic(auto, using(event_answer::proofs::Bytes::one_byte))]
fn put_arrival(out: &mut [u8], answer: Result<u8, NotMet>) -> usize
    ensures value { result ≡ length (Is.arrival_bytes answer) }
    ensures out_after { out.new ≡ lay out.old 0 (Is.arrival_bytes answer) }
{
    match answer {
        Ok(connection) => put_done_with(out, &[connection]),
        Err(NotMet::Refused(reason)) => put_refusal(out, reason),
        Err(NotMet::Unmatched) => put_refused(out, 10, 0),
    }
}

fn put_transmission(out: &mut [u8], answer: Result<(), NotSent>) -> usize
    ensures value { result ≡ length (Is.transmission_bytes answer) }
    ensures out_after { out.new ≡ lay out.old 0 (Is.transmission_bytes answer) }
{
    match answer {
        Ok(()) => put_done(out),
        Err(NotSent::Refused(reason)) => put_refusal(out, reason),
        Err(NotSent::NoDestination) => put_refused(out, 5, 0),
        Err(NotSent::SwitchedOff) => put_refused(out, 6, 0),
        Err(
            NotSent::RefusedAt {
                number,
                destination,
            },
        ) => put_refused(out, number as u16, destination),
    }
}

fn put_taking(out: &mut [u8], answer: Result<(u16, Remote), NotTaken>, buffer: &[u8]) -> usize
    ensures value { result ≡ length (Is.taking_bytes answer buffer.now) }
    ensures out_after { out.new ≡ lay out.old 0 (Is.taking_bytes answer buffer.now) }
{
    match answer {
        Ok((count, remote)) => put_waiting(out, remote, front(buffer, count as usize)),
        Err(NotTaken::Refused(reason)) => put_refusal(out, reason),
        Err(NotTaken::Short) => put_refused(out, 9, 0),
    }
}

pub fn datagram(
    image: &[u8],
    state: State,
    rx: &[u8],
    tx: &[u8],
    group: u8,
    source: Remote,
    out: &mut [u8],
) -> Dispatched
    ensures value { result ≡ dispatched
        (Is.datagram_effect (loan image.now state rx.now tx.now) out.old group source) }
    ensures out_after { out.new
        ≡ (Is.datagram_effect (loan image.now state rx.now tx.now) out.old group source).out }
{
    if let Err(why) = has_room(out.len()) {
        return Dispatched {
            verdict: Err(why),
            state,
        };
    }
    let entry = entry_arrivals::arrive(image, state, rx.len(), tx.len(), false, group, source);
    let length = put_arrival(out, entry.answer);
    Dispatched {
        verdict: Ok(length),
        state: entry.state,
    }
}

pub fn accept(
    image: &[u8],
    state: State,
    rx: &[u8],
    tx: &[u8],
    group: u8,
    source: Remote,
    out: &mut [u8],
) -> Dispatched
    ensures value { result ≡ dispatched (Is.accept_effect (loan image.now state rx.now tx.now) out.old group source) }
    ensures out_after { out.new
        ≡ (Is.accept_effect (loan image.now state rx.now tx.now) out.old group source).out }
{
    if let Err(why) = has_room(out.len()) {
        return Dispatched {
            verdict: Err(why),
            state,
        };
    }
    let entry = entry_arrivals::arrive(image, state, rx.len(), tx.len(), true, group, source);
    let length = put_arrival(out, entry.answer);
    Dispatched {
        verdict: Ok(length),
        state: entry.state,
    }
}

pub fn transmit(
    image: &[u8],
    state: State,
    rx: &[u8],
    tx: &mut [u8],
    pdu: u16,
    payload: &[u8],
    out: &mut [u8],
) -> Dispatched
    ensures value { result ≡ dispatched
        (Is.transmit_effect (loan image.now state rx.now tx.old) out.old pdu payload.now) }
    ensures tx_after { tx.new
        ≡ (Is.transmit_effect (loan image.now state rx.now tx.old) out.old pdu payload.now).tx }
    ensures out_after { out.new
        ≡ (Is.transmit_effect (loan image.now state rx.now tx.old) out.old pdu payload.now).out }
{
    if let Err(why) = has_room(out.len()) {
        return Dispatched {
            verdict: Err(why),
            state,
        };
    }
    let entry = entry_send::transmit(image, state, rx, tx, pdu, payload);
    let length = put_transmission(out, entry.answer);
    Dispatched {
        verdict: Ok(length),
        state: entry.state,
    }
}

// Into a buffer of the call's own, and from there to the answer.
fn take_into(
    image: &[u8],
    state: State,
    rx: &[u8],
    tx: &[u8],
    connection: u8,
    buffer: &mut [u8],
    out: &mut [u8],
) -> Dispatched
    ensures value { result ≡ dispatched
        (Is.take_into (loan image.now state rx.now tx.now) out.old connection buffer.old) }
    ensures out_after { out.new
        ≡ (Is.take_into (loan image.now state rx.now tx.now) out.old connection buffer.old).out }
{
    let entry = entry_send::take_waiting(image, state, rx, tx, connection, buffer);
    let length = put_taking(out, entry.answer, buffer);
    Dispatched {
        verdict: Ok(length),
        state: entry.state,
    }
}

pub fn take_waiting(
    image: &[u8],
    state: State,
    rx: &[u8],
    tx: &[u8],
    connection: u8,
    room: u32,
    out: &mut [u8],
) -> Dispatched
    ensures value { result ≡ dispatched (Is.take_effect (loan image.now state rx.now tx.now) out.old connection room) }
    ensures out_after { out.new
        ≡ (Is.take_effect (loan image.now state rx.now tx.now) out.old connection room).out }
{
    let short = out.len() < 16384;
    if short {
        // before they are taken: else they wait on
        return Dispatched {
            verdict: Err(NoAnswer::Small),
            state,
        };
    }
    let mut buffer = [0u8; 1472];
    let n = room.min(1472) as usize;
    take_into(image, state, rx, tx, connection, &mut buffer[..n], out)
}
