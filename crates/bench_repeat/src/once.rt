// One call of an entry point, by what it is (main.rt lists them), with the state as the next call is to find it.
use crate::own;
use bench_start::{Turn, wound};
use entry_receive::{segment_take, walk_datagram};
use event_decode::bytes_from;
use pieces::front;
use receive_part::Part;
use receive_stream::Outcome;
use send_waiting::waiting_of;
use state::State;
use wire::{be16, u16_at, u32_at};

fn gate_alone(image: &[u8], state: State, rx: &[u8], tx: &[u8]) -> Turn {
    let counted = entry_events::read_count(image, state, rx, tx, 1);
    Turn {
        done: counted.answer.is_ok(),
        state: counted.state,
    }
}

// What a take met: 0 more wanted, 1 a PDU, 2 a drop, 3 a start, 4 a piece. No arm branches, so that no copy of the state is asked for.
fn kind_of(outcome: Outcome) -> u8 {
    match outcome {
        Outcome::More => 0,
        Outcome::Pdu { .. } => 1,
        Outcome::Drop { .. } => 2,
        Outcome::Start { .. } => 3,
        Outcome::Piece { .. } => 4,
    }
}

// A take that is to meet something of this kind.
fn take(
    image: &[u8],
    state: State,
    rx: &mut [u8],
    tx: &[u8],
    connection: u8,
    segment: &[u8],
    kind: u8,
) -> Turn {
    let taken = segment_take(image, state, rx, tx, connection, segment);
    Turn {
        done: taken.answer.is_ok() & (kind_of(taken.outcome) == kind),
        state: taken.state,
    }
}

fn take_cut(
    image: &[u8],
    state: State,
    rx: &mut [u8],
    tx: &[u8],
    connection: u8,
    bytes: &[u8],
) -> Turn {
    let middle = bytes.len() / 2;
    let first = take(image, state, rx, tx, connection, front(bytes, middle), 0);
    let second = take(
        image,
        first.state,
        rx,
        tx,
        connection,
        bytes_from(bytes, middle),
        1,
    );
    Turn {
        done: first.done & second.done,
        state: second.state,
    }
}

fn walk(image: &[u8], state: State, rx: &[u8], tx: &[u8], connection: u8, datagram: &[u8]) -> Turn {
    let walked = walk_datagram(image, state, rx, tx, connection, datagram, 0);
    Turn {
        done: matches!(walked.outcome, receive_datagram::Outcome::Pdu { .. }),
        state: walked.state,
    }
}

// A state in which connection n holds so many bytes to send, and no timer runs.
fn holding(state: State, n: usize, used: u16) -> State {
    let mut next = state;
    if let Some(c) = next.connections.get_mut(n) {
        *c = c.with_send(used, 0, false);
    }
    next
}

// A state in which a transfer runs on connection n, with all its bytes still to come, as many as there can be.
fn transferring(state: State, n: usize, route: u16) -> State {
    let mut next = state;
    if let Some(c) = next.connections.get_mut(n) {
        *c = c.with_part(Part::Transfer {
            route: (route % 256) as u8,
            left: u32::MAX,
        });
    }
    next
}

// A take that is to meet a piece of a transfer.
fn take_piece(
    image: &[u8],
    state: State,
    rx: &mut [u8],
    tx: &[u8],
    connection: u8,
    route: u16,
    bytes: &[u8],
) -> Turn {
    let before = transferring(state, connection as usize, route);
    take(image, before, rx, tx, connection, bytes, 4)
}

// A state in which connection n and the next one hold nothing to send.
fn emptied(state: State, n: usize) -> State {
    if n < 15 {
        let first = state.connections[n];
        let second = state.connections[n + 1];
        let mut next = state;
        next.connections[n] = first.with_send(0, 0, false);
        next.connections[n + 1] = second.with_send(0, 0, false);
        return next;
    }
    state
}

fn transmit(
    image: &[u8],
    state: State,
    rx: &[u8],
    tx: &mut [u8],
    connection: u8,
    pdu: u16,
    payload: &[u8],
) -> Turn {
    let sent = entry_send::transmit(image, state, rx, tx, pdu, payload);
    Turn {
        done: sent.answer.is_ok(),
        state: emptied(sent.state, connection as usize),
    }
}

fn take_waiting(
    image: &[u8],
    state: State,
    rx: &[u8],
    tx: &[u8],
    out: &mut [u8],
    connection: u8,
    used: u16,
) -> Turn {
    let before = holding(state, connection as usize, used);
    let taken = entry_send::take_waiting(image, before, rx, tx, connection, out);
    let done = matches!(taken.answer, Ok((count, _)) if count == used);
    let last = last_of(waiting_of(tx, connection, used));
    Turn {
        done: done & (last == last_of(front(out, used as usize))),
        state: taken.state,
    }
}

// The last of some bytes: it tells whether they were copied.
fn last_of(bytes: &[u8]) -> usize {
    bytes.last().map_or(0, |byte| *byte as usize)
}

fn tick(image: &[u8], state: State, rx: &[u8], tx: &[u8]) -> Turn {
    let ticked = entry_ticks::tick(image, state, rx, tx);
    Turn {
        done: ticked.answer.is_ok(),
        state: ticked.state,
    }
}

// An event through the dispatcher, which writes its answer to the out buffer.
fn dispatched(
    image: &[u8],
    state: State,
    rx: &mut [u8],
    tx: &mut [u8],
    out: &mut [u8],
    number: u16,
    body: &[u8],
) -> Turn {
    let got = dispatch::dispatch(image, state, rx, tx, number, body, out);
    Turn {
        done: got.verdict.is_ok() & (be16(out, 0) == 0),
        state: got.state,
    }
}

// Where the slot begins, of 28 bytes, whose turn it is out of four at most.
fn slot_at(turn: u32, count: u16) -> usize {
    match count {
        2 => (turn % 2) as usize * 28,
        3 => (turn % 3) as usize * 28,
        4 => (turn % 4) as usize * 28,
        _ => 0,
    }
}

// The event of a turn: without slots the PDU's number with all bytes for its body, else that of the slot whose turn it is, each a number 2,
// a length 2 and a body.
fn number_in_turn(turn: u32, count: u16, pdu: u16, bytes: &[u8]) -> u16 {
    if count == 0 {
        return pdu;
    }
    u16_at(bytes, slot_at(turn, count))
}

fn body_in_turn(turn: u32, count: u16, bytes: &[u8]) -> &[u8] {
    if count == 0 {
        return bytes;
    }
    let slot = bytes_from(bytes, slot_at(turn, count));
    front(bytes_from(slot, 4), be16(slot, 2))
}

// An event through the dispatcher. The number 65,535 is none: what a turn does besides the call, by a body of two bytes.
fn event_of(
    image: &[u8],
    state: State,
    rx: &mut [u8],
    tx: &mut [u8],
    out: &mut [u8],
    number: u16,
    body: &[u8],
) -> Turn {
    if number == 65535 {
        return Turn {
            done: body.len() == 2,
            state,
        };
    }
    dispatched(image, state, rx, tx, out, number, body)
}

// Which call's turn it is, of a round: lost, connected; lost, accept; lost, set remote, connected; close, tick, open, tick. What is no round is
// itself.
pub fn in_turn(what: u8, turn: u32) -> u8 {
    if what < 32 {
        return what;
    }
    match what {
        32 => if turn % 2 == 0 { 20 } else { 21 },
        33 => if turn % 2 == 0 { 20 } else { 22 },
        34 => match turn % 3 {
            0 => 20,
            1 => 23,
            _ => 21,
        },
        35 => match turn % 4 {
            0 => 25,
            2 => 26,
            _ => 7,
        },
        _ => what,
    }
}

// The call that a number names; an unknown one does nothing, and says so.
pub fn once(
    what: u8,
    turn: u32,
    image: &[u8],
    state: State,
    rx: &mut [u8],
    tx: &mut [u8],
    out: &mut [u8],
    connection: u8,
    pdu: u16,
    used: u16,
    bytes: &[u8],
) -> Turn {
    match what {
        0 => Turn { done: true, state },
        1 => gate_alone(image, state, rx, tx),
        2 => take(image, state, rx, tx, connection, bytes, 1),
        3 => take_cut(image, state, rx, tx, connection, bytes),
        4 => walk(image, state, rx, tx, connection, bytes),
        5 => transmit(image, state, rx, tx, connection, pdu, bytes),
        6 => take_waiting(image, state, rx, tx, out, connection, used),
        7 => tick(image, state, rx, tx),
        8 => own::arrive(image, state, rx, tx, connection),
        10 => take(image, state, rx, tx, connection, bytes, 2),
        11 => take(image, state, rx, tx, connection, front(bytes, 0), 0),
        12 => event_of(
            image,
            state,
            rx,
            tx,
            out,
            number_in_turn(turn, used, pdu, bytes),
            body_in_turn(turn, used, bytes),
        ),
        14 => take_piece(image, state, rx, tx, connection, pdu, bytes),
        15 => own::ticks_wound(image, state, rx, tx, u32_at(bytes, 0)),
        17 => own::switch(image, state, rx, tx, connection),
        18 => own::switch_all(image, state, rx, tx),
        19 => own::clear(image, state, rx, tx),
        20 => own::lost(image, state, rx, tx, connection),
        21 => own::connected(image, state, rx, tx, connection),
        22 => own::accept(image, state, rx, tx, connection),
        23 => own::set_remote(image, state, rx, tx, connection),
        24 => own::ticks(image, state, rx, tx, u32_at(bytes, 0)),
        25 => own::close(image, state, rx, tx, connection),
        26 => own::open(image, state, rx, tx, connection),
        69 => Turn {
            done: true,
            state: emptied(state, connection as usize),
        },
        70 => Turn {
            done: true,
            state: holding(state, connection as usize, used),
        },
        71 => Turn {
            done: true,
            state: transferring(state, connection as usize, pdu),
        },
        72 => Turn {
            done: true,
            state: wound(image, state),
        },
        _ => Turn { done: false, state },
    }
}
