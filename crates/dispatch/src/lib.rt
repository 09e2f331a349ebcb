// One dispatcher for all events: an event number and a body in, the answer into a lent out buffer. It is total.
#![tactic(auto)]

ghost use Rattle.std.specs.Prelude.{◌≡◌};
ghost use Rattle.event_answer.specs.Answers.{dispatched};
ghost use Rattle.dispatch.specs.Dispatch.{effect_of, dispatch_of};
ghost use Rattle.gate.specs.Lent.{loan};

use event_answer::{Dispatched, NoAnswer};
use event_decode::{Call, bytes_from, call_of};
use state::State;

// The step of a call, whose bytes stand in the body.
fn answer_call(
    image: &[u8],
    state: State,
    rx: &mut [u8],
    tx: &mut [u8],
    body: &[u8],
    call: Call,
    out: &mut [u8],
) -> Dispatched
    ensures value { result ≡ dispatched
        (effect_of (loan image.now state rx.old tx.old) out.old body.now (Ok call)) }
    ensures rx_after { rx.new
        ≡ (effect_of (loan image.now state rx.old tx.old) out.old body.now (Ok call)).rx }
    ensures tx_after { tx.new
        ≡ (effect_of (loan image.now state rx.old tx.old) out.old body.now (Ok call)).tx }
    ensures out_after { out.new
        ≡ (effect_of (loan image.now state rx.old tx.old) out.old body.now (Ok call)).out }
{
    match call {
        Call::Ticks(n) => dispatch_events::many_ticks(image, state, rx, tx, n, out),
        Call::Own { connection, event } => {
            dispatch_events::own(image, state, rx, tx, connection, event, out)
        }
        Call::Lost(c) => dispatch_events::lost(image, state, rx, tx, c, out),
        Call::Segment { connection, at } => dispatch_receive::segment(
            image,
            state,
            rx,
            tx,
            connection,
            bytes_from(body, at),
            out,
        ),
        Call::Walk {
            connection,
            place,
            at,
        } => dispatch_receive::walk(
            image,
            state,
            rx,
            tx,
            connection,
            place as usize,
            bytes_from(body, at),
            out,
        ),
        Call::TakeWaiting { connection, room } => {
            dispatch_send::take_waiting(image, state, rx, tx, connection, room, out)
        }
        Call::Datagram { group, source } => {
            dispatch_send::datagram(image, state, rx, tx, group, source, out)
        }
        Call::Accept { group, source } => {
            dispatch_send::accept(image, state, rx, tx, group, source, out)
        }
        Call::Transmit { pdu, at } => {
            dispatch_send::transmit(image, state, rx, tx, pdu, bytes_from(body, at), out)
        }
        Call::SwitchAll { number, on } => {
            dispatch_events::switch_all(image, state, rx, tx, number, on, out)
        }
        Call::ReadCount(protocol) => {
            dispatch_events::read_count(image, state, rx, tx, protocol, out)
        }
        Call::ClearCount(protocol) => {
            dispatch_events::clear_count(image, state, rx, tx, protocol, out)
        }
    }
}

pub fn dispatch(
    image: &[u8],
    state: State,
    rx: &mut [u8],
    tx: &mut [u8],
    number: u16,
    body: &[u8],
    out: &mut [u8],
) -> Dispatched
    ensures value { result ≡ dispatched
        (dispatch_of (loan image.now state rx.old tx.old) out.old number body.now) }
    ensures rx_after { rx.new
        ≡ (dispatch_of (loan image.now state rx.old tx.old) out.old number body.now).rx }
    ensures tx_after { tx.new
        ≡ (dispatch_of (loan image.now state rx.old tx.old) out.old number body.now).tx }
    ensures out_after { out.new
        ≡ (dispatch_of (loan image.now state rx.old tx.old) out.old number body.now).out }
{
    if out.len() < 16384 {
        return Dispatched {
            verdict: Err(NoAnswer::Small),
            state,
        };
    }
    match call_of(number, body) {
        Ok(call) => answer_call(image, state, rx, tx, body, call, out),
        Err(bad) => Dispatched {
            verdict: Err(NoAnswer::from(bad)),
            state,
        },
    }
}
