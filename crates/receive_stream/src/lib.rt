// A take over one connection's receive part, its receive stretch and a segment; and the payload that it hands out, as a
// part of whichever of the two holds it. Skipping, whole payloads and a transfer's pieces are arithmetic: no loop but the header's and the copy's.
// Assumes what `Fit` says: a part of a shape that R2.4 allows, a stretch of 1,464 bytes, and routes that allow no more.
#![tactic(auto)]

ghost use Rattle.std.specs.Prelude.{◌≡◌, true, false, List, ℕ, ◌+◌, ◌-◌, ◌^◌, ◌≤◌, ◌<◌, length, take};
ghost use Rattle.reading.specs.Feed.{Routes, take_b, cell, transfer, header, payload, skip, spelt, decided, resume};
ghost use Rattle.reading.specs.declared.Decision.TheVariants.{Accept};
ghost use Rattle.receive_route.specs.Route.{lookup_of};
ghost use Rattle.table_rows.specs.Rows.{route_in};
ghost use Rattle.receive_stream.specs.Stream.{Fit, Limits, id_of, cell_of, is_in_segment, Answers, skip_part};
ghost use Rattle.receive_stream.specs.Stream.{move_part, start_taken, piece_taken, taken_of, rx_after, payload_at, payload_place};

use reading::{Decision, DropReason};
use receive_part::Part;
use receive_route::lookup;
use table_layout::part_of;
use table_rows::{RouteRow, row_at};
use wire::{be32, copy_in};

// What a take finds: more is wanted; a PDU, with the place of its payload in the segment or in receive memory; a drop;
// a transfer's start, the last of it when its length is 0; a piece of it, at its place in the segment, the last or not.
#[derive(Clone, Copy)]
pub enum Outcome {
    More,
    Pdu {
        route: u8,
        id: u32,
        in_segment: bool,
        at: usize,
        length: u16,
    },
    Drop {
        reason: DropReason,
        id: u32,
        length: u32,
    },
    Start {
        route: u8,
        id: u32,
        length: u32,
        last: bool,
    },
    Piece {
        route: u8,
        id: u32,
        at: usize,
        length: usize,
        last: bool,
    },
}

// The bytes read of the segment, what was found, and the part afterwards.
#[derive(Clone, Copy)]
pub struct Taken {
    pub read: usize,
    pub outcome: Outcome,
    pub part: Part,
}

// The number that more header bytes stand for, after `held` that stand for `value`.
fn gather(value: u64, held: usize, bytes: &[u8]) -> u64
    requires { (value < 256 ^ held) × (held + length bytes.now ≤ 8) }
    ensures { (result ≡ spelt value bytes.now) × (result < 256 ^ (held + length bytes.now)) }
{
    let mut w = value;
    for byte in bytes {
        w = w * 256 + u64::from(*byte);
    }
    w
}

// The number of the header bytes behind those held; a header that stands whole in one piece is read at once.
fn header_number(value: u64, held: usize, bytes: &[u8]) -> u64
    requires { (value < 256 ^ held) × (held + length bytes.now ≤ 8) }
    ensures { (result ≡ spelt value bytes.now) × (result < 256 ^ (held + length bytes.now)) }
{
    if bytes.len() == 8 {
        let id = be32(bytes, 0) as u64;
        let size = be32(bytes, 4) as u64;
        return id * 4294967296 + size;
    }
    gather(value, held, bytes)
}

// A payload that begins at the front of `rest`, the last bytes of a segment of `total`.
fn take_body(route: u8, id: u32, size: u16, rx: &mut [u8], rest: &[u8], total: usize) -> Taken
    requires { (size ≤ length rx.old) × (length rest.now ≤ total) }
    ensures { (R : Routes) (i : ℕ) (ids : ℕ → ℕ) → ids route ≡ id
        → Answers ids true total (resume R (decided (Accept route) i size) rest.now) rx.old result rx.new }
{
    let here = rest.len();
    let at = total - here;
    let n = size as usize;
    if n <= here {
        return Taken {
            read: at + n,
            outcome: Outcome::Pdu {
                route,
                id,
                in_segment: true,
                at,
                length: size,
            },
            part: Part::Header { held: 0, value: 0 },
        };
    }
    copy_in(rx, 0, rest);
    Taken {
        read: total,
        outcome: Outcome::More,
        part: Part::Payload {
            route,
            length: size,
            held: here as u16,
        },
    }
}

// The rest of a payload of which some bytes stand in receive memory.
fn take_rest(route: u8, id: u32, size: u16, held: u16, rx: &mut [u8], segment: &[u8]) -> Taken
    requires { (held < size) × (size ≤ length rx.old) }
    ensures { (R : Routes) (ids : ℕ → ℕ) → ids route ≡ id → Answers ids false (length segment.now)
        (take_b R (cell (size - held) (payload route (take held rx.old))) segment.now) rx.old result rx.new }
{
    let here = segment.len();
    let at = held as usize;
    let n = (size - held) as usize;
    if n <= here {
        copy_in(rx, at, &segment[..n]);
        return Taken {
            read: n,
            outcome: Outcome::Pdu {
                route,
                id,
                in_segment: false,
                at: 0,
                length: size,
            },
            part: Part::Header { held: 0, value: 0 },
        };
    }
    copy_in(rx, at, segment);
    Taken {
        read: here,
        outcome: Outcome::More,
        part: Part::Payload {
            route,
            length: size,
            held: held + here as u16,
        },
    }
}

// A payload that began in an earlier segment. Where none of its bytes has come yet it is as one that begins here.
fn take_payload(
    routes: &[u8],
    route: u8,
    size: u16,
    held: u16,
    rx: &mut [u8],
    segment: &[u8],
) -> Taken
    requires { (held < size) × (size ≤ length rx.old) }
    ensures { (R : Routes)
        → Answers (id_of routes.now) (is_in_segment (cell (size - held) (payload route (take held rx.old)))) (length segment.now)
        (take_b R (cell (size - held) (payload route (take held rx.old))) segment.now) rx.old result rx.new }
{
    let row = row_at::<RouteRow>(routes, route as usize);
    if held == 0 {
        return take_body(route, row.id, size, rx, segment, segment.len());
    }
    take_rest(route, row.id, size, held, rx, segment)
}

// A dropped payload is to be skipped.
fn skipping(n: u32) -> Part
    ensures { result ≡ skip_part n }
{
    if n == 0 {
        Part::Header { held: 0, value: 0 }
    } else {
        Part::Skip(n)
    }
}

// What a transfer leaves with n bytes still to come.
fn moving(route: u8, n: u32) -> Part
    ensures { result ≡ move_part n route }
{
    if n == 0 {
        Part::Header { held: 0, value: 0 }
    } else {
        Part::Transfer { route, left: n }
    }
}

// A transfer's start, where so many bytes of the segment are read: all of it at length 0.
fn take_start(route: u8, id: u32, size: u32, read: usize) -> Taken
    ensures { result ≡ start_taken read route id size }
{
    Taken {
        read,
        outcome: Outcome::Start {
            route,
            id,
            length: size,
            last: size == 0,
        },
        part: moving(route, size),
    }
}

// A piece of n bytes at the segment's front, with so many still to come: the last one where there are none.
fn piece_before(route: u8, id: u32, n: usize, left: u32) -> Taken
    ensures { result ≡ piece_taken n route id left }
{
    Taken {
        read: n,
        outcome: Outcome::Piece {
            route,
            id,
            at: 0,
            length: n,
            last: left == 0,
        },
        part: moving(route, left),
    }
}

// A running transfer: all of its bytes that stand in the segment, where they stand. An empty segment wants more.
fn take_piece(routes: &[u8], route: u8, left: u32, segment: &[u8]) -> Taken
    requires { 0 < left }
    ensures { (R : Routes) (rx : List ℕ)
        → Answers (id_of routes.now) true (length segment.now) (take_b R (transfer left route) segment.now) rx result rx }
{
    let here = segment.len();
    let n = left as usize;
    if here == 0 {
        return Taken {
            read: 0,
            outcome: Outcome::More,
            part: Part::Transfer { route, left },
        };
    }
    let row = row_at::<RouteRow>(routes, route as usize);
    if here < n {
        return piece_before(route, row.id, here, (n - here) as u32);
    }
    piece_before(route, row.id, n, 0)
}

// A header of which `held` bytes have come, in the last bytes of a segment of `total`; and what follows it.
fn take_header(
    routes: &[u8],
    connection: u8,
    switches: u32,
    held: u8,
    value: u64,
    rx: &mut [u8],
    rest: &[u8],
    total: usize,
) -> Taken
    requires { Limits routes.now × (length rx.old ≡ 1464) × (held < 8) × (value < 256 ^ held) × (length rest.now ≤ total) }
    ensures { Answers (id_of routes.now) true total
        (take_b (lookup_of routes.now connection switches) (cell (8 - held) (header value)) rest.now)
        rx.old result rx.new }
{
    let here = rest.len();
    let had = held as usize;
    let need = 8 - had;
    if here < need {
        return Taken {
            read: total,
            outcome: Outcome::More,
            part: Part::Header {
                held: held + here as u8,
                value: gather(value, had, rest),
            },
        };
    }
    let w = header_number(value, had, &rest[..need]);
    let id = (w / 4294967296) as u32;
    let size = (w % 4294967296) as u32;
    match lookup(routes, connection, switches, id, size) {
        Decision::Accept(route) => take_body(route, id, size as u16, rx, &rest[need..], total),
        Decision::Refuse(reason) => Taken {
            read: total - (here - need),
            outcome: Outcome::Drop {
                reason,
                id,
                length: size,
            },
            part: skipping(size),
        },
        Decision::Transfer(route) => take_start(route, id, size, total - (here - need)),
    }
}

// Bytes to skip, one at least, and a header behind them.
fn take_skip(
    routes: &[u8],
    connection: u8,
    switches: u32,
    n: u32,
    rx: &mut [u8],
    segment: &[u8],
) -> Taken
    requires { Limits routes.now × (length rx.old ≡ 1464) × (0 < n) }
    ensures { Answers (id_of routes.now) true (length segment.now)
        (take_b (lookup_of routes.now connection switches) (cell n skip) segment.now) rx.old result rx.new }
{
    let here = segment.len();
    let left = n as usize;
    if here < left {
        return Taken {
            read: here,
            outcome: Outcome::More,
            part: Part::Skip((left - here) as u32),
        };
    }
    take_header(
        routes,
        connection,
        switches,
        0,
        0,
        rx,
        &segment[left..],
        here,
    )
}

// A take: up to the end of the segment's first complete PDU, dropped header or transfer's start; or a piece of a running transfer.
#[tactic(auto, using(crate::proofs::Takes::header_fit, crate::proofs::Takes::payload_fit, crate::proofs::Takes::skip_fit, crate::proofs::Takes::transfer_fit))]
pub fn take(
    routes: &[u8],
    connection: u8,
    switches: u32,
    part: Part,
    rx: &mut [u8],
    segment: &[u8],
) -> Taken
    requires { Fit routes.now part rx.old }
    ensures answer { result ≡ taken_of routes.now connection switches part rx.old segment.now }
    ensures memory { rx.new ≡ rx_after routes.now connection switches part rx.old segment.now }
{
    match part {
        Part::Header { held, value } => take_header(
            routes,
            connection,
            switches,
            held,
            value,
            rx,
            segment,
            segment.len(),
        ),
        Part::Payload {
            route,
            length,
            held,
        } => take_payload(routes, route, length, held, rx, segment),
        Part::Skip(n) => take_skip(routes, connection, switches, n, rx, segment),
        Part::Transfer { route, left } => take_piece(routes, route, left, segment),
    }
}

// The payload of a PDU: the part of whichever of the two lent slices holds it.
pub fn payload_of<'a>(
    segment: &'a [u8],
    rx: &'a [u8],
    in_segment: bool,
    at: usize,
    size: u16,
) -> &'a [u8]
    ensures bytes { result.now ≡ payload_at segment.now rx.now in_segment at size }
    ensures place { result.ref_ptr ≡ payload_place segment.entry.ref_ptr segment.now rx.entry.ref_ptr rx.now in_segment at size }
{
    let n = size as usize;
    if in_segment {
        part_of(segment, at, n)
    } else {
        part_of(rx, at, n)
    }
}
