// A walk and a segment event, each with its answer written to an out buffer. A segment event is the takes over one segment until all
// is read, one at least. Every public function is total.
#![tactic(auto)]

ghost use Rattle.std.specs.Prelude.{◌≡◌, ◌+◌, ◌≤◌, length};
ghost use Rattle.wire.specs.Lay.{spell, lay};
ghost use Rattle.pieces.specs.Pieces.{place_after};
ghost use Rattle.entry_receive.specs.Answer.{is_done};
ghost use Rattle.event_answer.specs.Answers.{dispatched, found_bytes};
ghost use Rattle.dispatch_receive.specs.Walk as Wk;
ghost use Rattle.dispatch_receive.specs.Segment as Seg;
ghost use Rattle.dispatch_receive.specs.Turn as Turning;
ghost use Rattle.gate.specs.Lent.{loan};

use entry_receive::{NotReceived, drops_after, may_take, segment_payload, walk_datagram};
use event_answer::{
    Dispatched, NoAnswer, has_room, put_done, put_done_with, put_found, put_number, put_refusal,
    put_refused,
};
use event_decode::bytes_from;
use pieces::after;
use receive_part::Part;
use receive_stream::Outcome;
use state::State;
use table_layout::{Kind, body_laid};
use wire::{copy_in, put8};

// ---- a walk

// What a walk found, after the answer number 0: 16 bytes.
#[tactic(auto, using(event_answer::proofs::Laid::laid), unfolding(pieces::specs::Pieces::after_of))]
fn put_step(out: &mut [u8], next: usize, kind: u8, which: u8, id: u32, n: u32) -> usize
    ensures value { result ≡ length (Wk.step_bytes next kind which id n) }
    ensures out_after { out.new ≡ lay out.old 0 (Wk.step_bytes next kind which id n) }
{
    if out.len() < 16 {
        return 16;
    }
    put_done(out);
    put_found(out, 2, next, kind, which, id, n);
    16
}

// A PDU: with the payload's place, 20 bytes.
#[tactic(auto, using(event_answer::proofs::Laid::laid), unfolding(pieces::specs::Pieces::after_of))]
fn put_walk_pdu(out: &mut [u8], next: usize, route: u8, id: u32, n: u32, at: usize) -> usize
    ensures value { result ≡ length (Wk.pdu_bytes next route id n at) }
    ensures out_after { out.new ≡ lay out.old 0 (Wk.pdu_bytes next route id n at) }
{
    if out.len() < 20 {
        return 20;
    }
    put_step(out, next, 1, route, id, n);
    put_number(out, 16, at);
    20
}

fn put_walk(out: &mut [u8], next: usize, outcome: receive_datagram::Outcome) -> usize
    ensures value { result ≡ length (Wk.walk_bytes next outcome) }
    ensures out_after { out.new ≡ lay out.old 0 (Wk.walk_bytes next outcome) }
{
    match outcome {
        receive_datagram::Outcome::End => put_step(out, next, 0, 0, 0, 0),
        receive_datagram::Outcome::Pdu {
            route,
            id,
            at,
            length,
        } => put_walk_pdu(out, next, route, id, length, at),
        receive_datagram::Outcome::Drop { reason, id, length } => put_step(
            out,
            next,
            2,
            u8::from(reason),
            id,
            length,
        ),
    }
}

fn put_walked(
    out: &mut [u8],
    answer: Result<(), NotReceived>,
    next: usize,
    outcome: receive_datagram::Outcome,
) -> usize
    ensures value { result ≡ length (Wk.or_refused answer (Wk.walk_bytes next outcome)) }
    ensures out_after { out.new ≡ lay out.old 0 (Wk.or_refused answer (Wk.walk_bytes next outcome)) }
{
    match answer {
        Ok(()) => put_walk(out, next, outcome),
        Err(NotReceived::Refused(reason)) => put_refusal(out, reason),
        Err(NotReceived::NotReceiving) => put_refused(out, 4, 0),
    }
}

// A walk; an out buffer that is too short for an answer is refused, and then a datagram that is too long for an event.
pub fn walk(
    image: &[u8],
    state: State,
    rx: &[u8],
    tx: &[u8],
    connection: u8,
    place: usize,
    datagram: &[u8],
    out: &mut [u8],
) -> Dispatched
    ensures value { result ≡ dispatched
        (Wk.walk_effect (loan image.now state rx.now tx.now) out.old connection place datagram.now) }
    ensures out_after { out.new ≡ (Wk.walk_effect (loan image.now state rx.now tx.now)
        out.old connection place datagram.now).out }
{
    if let Err(why) = has_room(out.len()) {
        return Dispatched {
            verdict: Err(why),
            state,
        };
    }
    if 4096 < datagram.len() {
        return Dispatched {
            verdict: Err(NoAnswer::Unfit),
            state,
        };
    }
    let walked = walk_datagram(image, state, rx, tx, connection, datagram, place);
    let length = put_walked(out, walked.answer, walked.next, walked.outcome);
    Dispatched {
        verdict: Ok(length),
        state: walked.state,
    }
}

// ---- a segment

// A sum in four bytes.
fn put_sum(out: &mut [u8], at: usize, a: usize, b: usize)
    ensures { out.new ≡ lay out.old at (spell 4 (a + b)) }
{
    put_number(out, at, a % 4294967296 + b % 4294967296);
}

// What a take found, and no more: 14 bytes.
#[tactic(auto, using(event_answer::proofs::Laid::laid), unfolding(pieces::specs::Pieces::after_of))]
fn put_row(out: &mut [u8], place: usize, read: usize, kind: u8, which: u8, id: u32, n: u32) -> usize
    ensures value { result ≡ place_after out.old place (found_bytes read kind which id n) }
    ensures out_after { out.new ≡ lay out.old place (found_bytes read kind which id n) }
{
    let next = after(out.len(), place, 14);
    put_found(out, place, read, kind, which, id, n);
    next
}

// A PDU whose payload stands in the segment: 19 bytes.
#[tactic(auto, using(event_answer::proofs::Laid::laid), unfolding(pieces::specs::Pieces::after_of))]
fn put_here(
    out: &mut [u8],
    place: usize,
    read: usize,
    route: u8,
    id: u32,
    n: u32,
    from: usize,
    at: usize,
) -> usize
    ensures value { result ≡ place_after out.old place (Seg.here_bytes read route id n from at) }
    ensures out_after { out.new ≡ lay out.old place (Seg.here_bytes read route id n from at) }
{
    if out.len() < place || out.len() - place < 19 {
        return place;
    }
    put_found(out, place, read, 1, route, id, n);
    put8(out, place + 14, 0);
    put_sum(out, place + 15, from, at);
    place + 19
}

// A PDU whose payload stands in receive memory: 15 bytes and the payload's.
#[tactic(auto, using(event_answer::proofs::Laid::laid), unfolding(pieces::specs::Pieces::after_of))]
fn put_held(
    out: &mut [u8],
    place: usize,
    read: usize,
    route: u8,
    id: u32,
    n: u32,
    payload: &[u8],
) -> usize
    ensures value { result ≡ place_after out.old place (Seg.held_bytes read route id n payload.now) }
    ensures out_after { out.new ≡ lay out.old place (Seg.held_bytes read route id n payload.now) }
{
    let long = payload.len() + 15;
    if out.len() < place || out.len() - place < long {
        return place;
    }
    put_found(out, place, read, 1, route, id, n);
    put8(out, place + 14, 1);
    copy_in(out, place + 15, payload);
    place + long
}

fn piece_kind(last: bool) -> u8
    ensures { result ≡ Seg.piece_kind last }
{
    if last { 5 } else { 4 }
}

// A piece of a transfer: 18 bytes.
#[tactic(auto, using(event_answer::proofs::Laid::laid), unfolding(pieces::specs::Pieces::after_of))]
fn put_piece(
    out: &mut [u8],
    place: usize,
    read: usize,
    route: u8,
    id: u32,
    n: usize,
    last: bool,
    from: usize,
    at: usize,
) -> usize
    ensures value { result ≡ place_after out.old place (Seg.piece_spelt read route id n last from at) }
    ensures out_after { out.new ≡ lay out.old place (Seg.piece_spelt read route id n last from at) }
{
    if out.len() < place || out.len() - place < 18 {
        return place;
    }
    put_found(
        out,
        place,
        read,
        piece_kind(last),
        route,
        id,
        (n % 4294967296) as u32,
    );
    put_sum(out, place + 14, from, at);
    place + 18
}

// The bytes of one take, that began at the place `from` of the segment.
fn put_take(
    out: &mut [u8],
    place: usize,
    from: usize,
    read: usize,
    outcome: Outcome,
    payload: &[u8],
) -> usize
    ensures value { result ≡ place_after out.old place (Seg.take_bytes from read outcome payload.now) }
    ensures out_after { out.new ≡ lay out.old place (Seg.take_bytes from read outcome payload.now) }
{
    match outcome {
        Outcome::More => put_row(out, place, read, 0, 0, 0, 0),
        Outcome::Pdu {
            route,
            id,
            in_segment,
            at,
            length,
        } => {
            if in_segment {
                put_here(out, place, read, route, id, length as u32, from, at)
            } else {
                put_held(out, place, read, route, id, length as u32, payload)
            }
        }
        Outcome::Drop { reason, id, length } => put_row(
            out,
            place,
            read,
            2,
            u8::from(reason),
            id,
            length,
        ),
        Outcome::Start {
            route,
            id,
            length,
            last: _,
        } => put_row(out, place, read, 3, route, id, length),
        Outcome::Piece {
            route,
            id,
            at,
            length,
            last,
        } => put_piece(out, place, read, route, id, length, last, from, at),
    }
}

fn is_done(answer: Result<(), NotReceived>) -> bool
    ensures { result ≡ is_done answer }
{
    answer.is_ok()
}

// How far a segment event is, past the gate: the connection's receive part, the TCP drop count, the bytes read of the segment, the place
// for the next take's bytes in the out buffer, and how many takes there were.
#[derive(Clone, Copy)]
struct Turn {
    part: Part,
    drops: u32,
    at: usize,
    place: usize,
    count: usize,
}

// One take more, and its bytes.
fn take_once(
    routes: &[u8],
    switches: u32,
    turn: Turn,
    rx: &mut [u8],
    connection: u8,
    segment: &[u8],
    out: &mut [u8],
) -> Turn
    requires { Turning.Goes routes.now connection segment.now turn rx.old }
    ensures value { result ≡ Turning.take_turn routes.now switches connection segment.now turn rx.old out.old }
    ensures rx_after { rx.new ≡ Turning.memory_from routes.now switches connection segment.now turn rx.old }
    ensures out_after { out.new
        ≡ lay out.old turn.place (Turning.turn_bytes routes.now switches connection segment.now turn rx.old) }
{
    let rest = bytes_from(segment, turn.at);
    let start = connection as usize * 1464;
    let taken = receive_stream::take(
        routes,
        connection,
        switches,
        turn.part,
        &mut rx[start..start + 1464],
        rest,
    );
    let payload = segment_payload(rest, rx, connection, taken.outcome);
    let place = put_take(out, turn.place, turn.at, taken.read, taken.outcome, payload);
    Turn {
        part: taken.part,
        drops: drops_after(taken.outcome, turn.drops),
        at: turn.at + taken.read,
        place,
        count: turn.count + 1,
    }
}

// Takes until all is read: the answer of the last, how many, the place after their bytes, and the state afterwards. All their bytes fit.
#[derive(Clone, Copy)]
struct Takes {
    state: State,
    answer: Result<(), NotReceived>,
    count: usize,
    place: usize,
}

// One gate for all of them: past it, the takes turn over the connection's part and the drop count alone, and the state is put together at
// the end.
fn take_all(
    image: &[u8],
    state: State,
    rx: &mut [u8],
    tx: &[u8],
    connection: u8,
    segment: &[u8],
    out: &mut [u8],
) -> Takes
    requires { Seg.answer_room segment.now ≤ length out.old }
    ensures value { result ≡ Turning.takes_of
        (Seg.all_takes (loan image.now state rx.old tx.now) connection segment.now) }
    ensures rx_after { rx.new
        ≡ (Seg.all_takes (loan image.now state rx.old tx.now) connection segment.now).rx }
    ensures out_after { out.new ≡ lay out.old 4
        (Turning.taken_bytes (Seg.all_takes (loan image.now state rx.old tx.now) connection segment.now)) }
{
    let answer = may_take(image, state, rx.len(), tx.len(), connection);
    let done = is_done(answer);
    if !done {
        return Takes {
            answer: answer,
            count: 1,
            place: 4,
            state: state,
        };
    }
    let n = connection as usize;
    let c = state.connections[n];
    let routes = body_laid(image, Kind::Route);
    let mut turn = Turn {
        part: c.part,
        drops: state.tcp_drops,
        at: 0,
        place: 4,
        count: 0,
    };
    loop {
        turn = take_once(routes, c.switches, turn, rx, connection, segment, out);
        if segment.len() <= turn.at {
            let mut next = state;
            next.connections[n] = c.with_part(turn.part);
            next.tcp_drops = turn.drops;
            return Takes {
                answer: answer,
                count: turn.count,
                place: turn.place,
                state: next,
            };
        }
    }
}

// The number of takes before their bytes, or the refusal of the first.
fn put_takes(out: &mut [u8], answer: Result<(), NotReceived>, count: usize, place: usize) -> usize
    ensures value { result ≡ Turning.answer_length answer place }
    ensures out_after { out.new ≡ lay out.old 0 (Turning.front_of answer count) }
{
    match answer {
        Ok(()) => {
            put_done_with(out, &((count % 65536) as u16).to_be_bytes());
            place
        }
        Err(NotReceived::Refused(reason)) => put_refusal(out, reason),
        Err(NotReceived::NotReceiving) => put_refused(out, 4, 0),
    }
}

// A segment event; an out buffer that is too short for an answer is refused, and then a segment that is too long for an event.
pub fn segment(
    image: &[u8],
    state: State,
    rx: &mut [u8],
    tx: &[u8],
    connection: u8,
    segment: &[u8],
    out: &mut [u8],
) -> Dispatched
    ensures value { result ≡ dispatched
        (Seg.segment_effect (loan image.now state rx.old tx.now) out.old connection segment.now) }
    ensures rx_after { rx.new
        ≡ (Seg.segment_effect (loan image.now state rx.old tx.now) out.old connection segment.now).rx }
    ensures out_after { out.new
        ≡ (Seg.segment_effect (loan image.now state rx.old tx.now) out.old connection segment.now).out }
{
    if let Err(why) = has_room(out.len()) {
        return Dispatched {
            verdict: Err(why),
            state,
        };
    }
    if 4096 < segment.len() {
        return Dispatched {
            verdict: Err(NoAnswer::Unfit),
            state,
        };
    }
    let taken = take_all(image, state, rx, tx, connection, segment, out);
    let length = put_takes(out, taken.answer, taken.count, taken.place);
    Dispatched {
        verdict: Ok(length),
        state: taken.state,
    }
}
