// The entry points for what is received: a take of a segment on a TCP connection, the payload that it hands out, and a step of a
// walk over a datagram on a UDP connection. Each is lent image, state and both memories, and answers any of them.
// Assumes nothing: no entry relies on its caller.
#![tactic(auto)]

ghost use Rattle.wire.specs.Place.{behind, from_at};
ghost use Rattle.std.specs.Prelude.{◌≡◌, true, ◌*◌, length};
ghost use Rattle.table_layout.specs.Layout.{Laid};
ghost use Rattle.state.specs.Memory.{stretch};
ghost use Rattle.state.specs.Fresh.{config_of};
ghost use Rattle.entry_receive.specs.Answer as Is;
ghost use Rattle.entry_receive.specs.Segment as Seg;
ghost use Rattle.entry_receive.specs.Walk as Wk;
ghost use Rattle.gate.specs.Lent.{lent, loan, lent_by};

use connection::{Connection, Refusal};
use gate::ask_at;
use receive_stream::Outcome;
use state::{State, counted_once};
use table_layout::{Kind, body_laid, part_of};
use table_rows::is_tcp;

// Why nothing is received: 11, 12, 2, 3; 4.
#[derive(Clone, Copy, PartialEq, Eq)]
pub enum NotReceived {
    Refused(Refusal),
    NotReceiving,
}

// The answer of a take, the bytes read of the segment, what was found there, and the state afterwards.
#[derive(Clone, Copy)]
pub struct SegmentTaken {
    pub state: State,
    pub answer: Result<(), NotReceived>,
    pub read: usize,
    pub outcome: Outcome,
}

// The answer of a walk, what stands at the place, the next place, and the state afterwards.
#[derive(Clone, Copy)]
pub struct DatagramWalked {
    pub state: State,
    pub answer: Result<(), NotReceived>,
    pub outcome: receive_datagram::Outcome,
    pub next: usize,
}

// What a take changes, its record and the TCP count, and what it tells.
#[derive(Clone, Copy)]
struct TakeStep {
    connection: Connection,
    drops: u32,
    read: usize,
    outcome: Outcome,
}

// What a walk changes, the UDP count, and what it tells.
#[derive(Clone, Copy)]
struct WalkStep {
    drops: u32,
    outcome: receive_datagram::Outcome,
    next: usize,
}

fn is_done(answer: Result<(), NotReceived>) -> bool
    ensures { result ≡ Is.is_done answer }
{
    answer.is_ok()
}

// Past the gate: 3, then 4.
fn judge(allowed: bool, c: Connection) -> Result<(), NotReceived>
    ensures { result ≡ Is.judged_of allowed c }
{
    let receives = c.mode.is_online() & !c.close_wanted;
    if !allowed {
        return Err(NotReceived::Refused(Refusal::Denied));
    }
    if receives {
        return Ok(());
    }
    Err(NotReceived::NotReceiving)
}

// The gate's refusal; past the gate, of the record: 3, then 4.
fn answer_past(asked: Result<(), Refusal>, allowed: bool, c: Connection) -> Result<(), NotReceived>
    ensures { result ≡ Is.answer_past asked allowed c }
{
    match asked {
        Err(reason) => Err(NotReceived::Refused(reason)),
        Ok(()) => judge(allowed, c),
    }
}

// Past the gate, whether connection n is a TCP connection: its row's group is asked for, and no more.
fn is_stream(asked: Result<(), Refusal>, image: &[u8], n: usize) -> bool
    requires { asked ≡ Ok tt → Laid image.now }
    ensures { result ≡ Is.stream_past asked (config_of image.now n).tcp }
{
    match asked {
        Err(_) => false,
        Ok(()) => {
            let connections = body_laid(image, Kind::Connection);
            let groups = body_laid(image, Kind::Group);
            is_tcp(connections, groups, n)
        }
    }
}

// What a take on a connection is answered. The gate is lent the state.
pub fn may_take(
    image: &[u8],
    state: State,
    rx: usize,
    tx: usize,
    connection: u8,
) -> Result<(), NotReceived>
    ensures { result ≡ Seg.segment_answer (lent image.now state rx tx) connection }
{
    let n = connection as usize;
    let given = state;
    let c = given.connections[n % 16];
    let asked = ask_at(image, &given, rx, tx, n);
    let tcp = is_stream(asked, image, n);
    answer_past(asked, tcp, c)
}

// The TCP count after a take: a drop adds to it.
pub fn drops_after(outcome: Outcome, drops: u32) -> u32
    ensures { result ≡ Seg.drops_after outcome drops }
{
    match outcome {
        Outcome::More => drops,
        Outcome::Pdu {
            route: _,
            id: _,
            in_segment: _,
            at: _,
            length: _,
        } => drops,
        Outcome::Drop {
            reason: _,
            id: _,
            length: _,
        } => counted_once(drops),
        Outcome::Start {
            route: _,
            id: _,
            length: _,
            last: _,
        } => drops,
        Outcome::Piece {
            route: _,
            id: _,
            at: _,
            length: _,
            last: _,
        } => drops,
    }
}

// Where nothing refuses it, the take over the record's part and its stretch of receive memory; else the record and the count as they were.
fn take_step(
    image: &[u8],
    c: Connection,
    drops: u32,
    rx: &mut [u8],
    connection: u8,
    segment: &[u8],
    answer: Result<(), NotReceived>,
) -> TakeStep
    requires { Is.is_done answer ≡ true → Seg.Takes image.now c rx.old connection }
    ensures value { result ≡ Seg.step_taken image.now c drops rx.old connection segment.now answer }
    ensures rx_after { rx.new ≡ Seg.step_memory image.now c rx.old connection segment.now answer }
{
    let done = is_done(answer);
    if !done {
        return TakeStep {
            connection: c,
            drops,
            read: 0,
            outcome: Outcome::More,
        };
    }
    let routes = body_laid(image, Kind::Route);
    let start = connection as usize * 1464;
    let end = start + 1464;
    let taken = receive_stream::take(
        routes,
        connection,
        c.switches,
        c.part,
        &mut rx[start..end],
        segment,
    );
    TakeStep {
        connection: c.with_part(taken.part),
        drops: drops_after(taken.outcome, drops),
        read: taken.read,
        outcome: taken.outcome,
    }
}

// A take of a segment: up to the end of its first complete PDU, dropped header or transfer's start; or a piece of a running transfer. The
// state is copied once, and the record is replaced in the copy; a refusal puts the same record back, so that there is one way out, and one copy.
pub fn segment_take(
    image: &[u8],
    state: State,
    rx: &mut [u8],
    tx: &[u8],
    connection: u8,
    segment: &[u8],
) -> SegmentTaken
    ensures value { result ≡ Seg.segment_of (loan image.now state rx.old tx.now) connection segment.now }
    ensures rx_after { rx.new ≡ Seg.memory_of (loan image.now state rx.old tx.now) connection segment.now }
{
    let n = connection as usize;
    let k = n % 16;
    let mut after = state;
    let c = after.connections[k];
    let asked = ask_at(image, &after, rx.len(), tx.len(), n);
    let tcp = is_stream(asked, image, n);
    let answer = answer_past(asked, tcp, c);
    let step = take_step(image, c, after.tcp_drops, rx, connection, segment, answer);
    after.connections[k] = step.connection;
    after.tcp_drops = step.drops;
    SegmentTaken {
        state: after,
        answer,
        read: step.read,
        outcome: step.outcome,
    }
}

// A connection's stretch of receive memory; what there is of it in memory of another length.
fn stretch_of(rx: &[u8], connection: u8) -> &[u8]
    ensures bytes { result.now ≡ stretch 1464 connection rx.now }
    ensures place { result.ref_ptr ≡ behind rx.entry.ref_ptr (from_at rx.now (connection * 1464)) }
{
    let start = connection as usize * 1464;
    if rx.len() < start {
        return &rx[..0];
    }
    if rx.len() - start < 1464 {
        return &rx[start..];
    }
    &rx[start..start + 1464]
}

// The payload of the PDU that a take has handed out, the part of whichever of the two lent slices holds it; of a transfer's piece, its part
// of the segment.
pub fn segment_payload<'a>(
    segment: &'a [u8],
    rx: &'a [u8],
    connection: u8,
    outcome: Outcome,
) -> &'a [u8]
    ensures bytes { result.now ≡ Seg.payload_of segment.now rx.now connection outcome }
    ensures place { result.ref_ptr ≡ Seg.payload_stands segment.entry.ref_ptr segment.now rx.entry.ref_ptr rx.now connection outcome }
{
    let own = stretch_of(rx, connection);
    match outcome {
        Outcome::More => &segment[..0],
        Outcome::Pdu {
            route: _,
            id: _,
            in_segment,
            at,
            length,
        } => receive_stream::payload_of(segment, own, in_segment, at, length),
        Outcome::Drop {
            reason: _,
            id: _,
            length: _,
        } => &segment[..0],
        Outcome::Start {
            route: _,
            id: _,
            length: _,
            last: _,
        } => &segment[..0],
        Outcome::Piece {
            route: _,
            id: _,
            at,
            length,
            last: _,
        } => part_of(segment, at, length),
    }
}

// The UDP count after a step of a walk: a drop adds to it.
fn walk_drops(outcome: receive_datagram::Outcome, drops: u32) -> u32
    ensures { result ≡ Wk.walk_drops outcome drops }
{
    match outcome {
        receive_datagram::Outcome::End => drops,
        receive_datagram::Outcome::Pdu {
            route: _,
            id: _,
            at: _,
            length: _,
        } => drops,
        receive_datagram::Outcome::Drop {
            reason: _,
            id: _,
            length: _,
        } => counted_once(drops),
    }
}

// Where nothing refuses it, the walk with the record's switches; else the end, the place as it was given and the count as it was.
fn walk_step(
    image: &[u8],
    switches: u32,
    drops: u32,
    connection: u8,
    datagram: &[u8],
    place: usize,
    answer: Result<(), NotReceived>,
) -> WalkStep
    requires { Is.is_done answer ≡ true → Laid image.now }
    ensures { result ≡ Wk.step_walked image.now switches drops connection datagram.now place answer }
{
    let done = is_done(answer);
    if !done {
        return WalkStep {
            drops,
            outcome: receive_datagram::Outcome::End,
            next: place,
        };
    }
    let routes = body_laid(image, Kind::Route);
    let walked = receive_datagram::walk(datagram, place, routes, connection, switches);
    WalkStep {
        drops: walk_drops(walked.outcome, drops),
        outcome: walked.outcome,
        next: walked.next,
    }
}

// A step of a walk at a place of a datagram.
pub fn walk_datagram(
    image: &[u8],
    state: State,
    rx: &[u8],
    tx: &[u8],
    connection: u8,
    datagram: &[u8],
    place: usize,
) -> DatagramWalked
    ensures { result ≡ Wk.walk_of (lent_by image.now state rx.now tx.now) connection datagram.now place }
{
    let n = connection as usize;
    let mut after = state;
    let c = after.connections[n % 16];
    let asked = ask_at(image, &after, rx.len(), tx.len(), n);
    let tcp = is_stream(asked, image, n);
    let allowed = !tcp & (place <= datagram.len());
    let answer = answer_past(asked, allowed, c);
    let step = walk_step(
        image,
        c.switches,
        after.udp_drops,
        connection,
        datagram,
        place,
        answer,
    );
    after.udp_drops = step.drops;
    DatagramWalked {
        state: after,
        answer,
        outcome: step.outcome,
        next: step.next,
    }
}
