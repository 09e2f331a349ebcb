// Streams for a comparison: takes over segments through the entry point `entry_receive::segment_take`, told as text.
//
// Standard input: records until it ends, each a head of 8 bytes and a body. Head: kind 1, connection 1, length of the body 2,
// switches 4; numbers big-endian.
//   kind 1, table: the body (at most 4,096 bytes) is a table image. A fresh state under it, in which the connection is put
//     online with remote 0.0.0.1 port 1 and these switches. Line: `table 0`, or `table 1 PLACE` where it is refused.
//   kind 2, segment: the body is one segment of the connection, whose switches are set to these first. Takes run over it
//     until all is read, one at least. A line for each:
//       READ more
//       READ pdu ROUTE ID LENGTH segment AT xHEX
//       READ pdu ROUTE ID LENGTH memory AT xHEX
//       READ drop REASON ID LENGTH
//       READ start ROUTE ID LENGTH
//       READ piece ROUTE ID LENGTH segment AT xHEX
//       READ last ROUTE ID LENGTH segment AT xHEX
//       refused NUMBER
//     AT counts from the take's first byte; HEX is the payload, or the piece's bytes, in lower case, or `-` where it is empty. `start`, `piece`
//     and `last`, the last piece, are a transfer's; LENGTH of a start is the transfer's.
//   Another kind, too long an image, or a record that is cut off ends the program.
#![tactic(auto)]

use connection::{Connection, Mode, Refusal, Remote};
use entry_receive::{NotReceived, segment_payload, segment_take};
use input::read_part;
use pieces::front;
use receive_stream::Outcome;
use state::{State, empty_state, fresh_state};
use table::{BadTable, check_table};
use table_layout::{Kind, rows_of};
use wire::{be8, be16, put8, put32, u8_at, u32_at};
use words::lay;

// The standard output's number.
const STDOUT_FILENO: i32 = 1;

// What a case stands on between records: so many bytes of image, and the state.
#[derive(Clone, Copy)]
struct Held {
    size: usize,
    state: State,
}

// A line with a number in it.
fn say(pattern: &[u8], number: u64) {
    let mut line = [0u8; 64];
    let n = lay(&mut line, 0, pattern, number, pattern, pattern);
    io::write_all(STDOUT_FILENO, front(&line, n));
}

// The record of a connection that the table has.
fn record_of<'a>(image: &[u8], state: &'a mut State, connection: u8) -> Option<&'a mut Connection> {
    let n = connection as usize;
    if rows_of(image, Kind::Connection) <= n {
        return None;
    }
    state.connections.get_mut(n)
}

// The state with a connection online, with these switches.
fn online(image: &[u8], state: State, connection: u8, switches: u32) -> State {
    let mut next = state;
    if let Some(c) = record_of(image, &mut next, connection) {
        c.mode = Mode::Online;
        c.remote = Remote {
            address: 1,
            port: 1,
        };
        c.switches = switches;
    }
    next
}

// The state with other switches of a connection.
fn switched(image: &[u8], state: State, connection: u8, switches: u32) -> State {
    let mut next = state;
    if let Some(c) = record_of(image, &mut next, connection) {
        c.switches = switches;
    }
    next
}

// A new case.
fn begin(image: &[u8], connection: u8, switches: u32) -> State {
    let answer = check_table(image);
    match answer {
        Ok(()) => {
            say(b"table 0\n", 0);
            online(image, fresh_state(image), connection, switches)
        }
        Err(BadTable::At(place)) => {
            say(b"table 1 @\n", place as u64);
            empty_state()
        }
    }
}

fn refusal_number(refusal: NotReceived) -> u64 {
    match refusal {
        NotReceived::NotReceiving => 4,
        NotReceived::Refused(Refusal::Missing) => 2,
        NotReceived::Refused(Refusal::Denied) => 3,
        NotReceived::Refused(Refusal::Memory) => 11,
        NotReceived::Refused(Refusal::Unsound) => 12,
    }
}

// What the line of a take speaks of: bytes read (4), route or reason (1), id (4), length (4), place (4).
fn found(row: &mut [u8], which: u8, id: u32, length: u32, at: usize) {
    put8(row, 4, which);
    put32(row, 5, id);
    put32(row, 9, length);
    put32(row, 13, (at % 4294967296) as u32);
}

// The line's pattern, and what it speaks of.
fn pattern_of(row: &mut [u8], outcome: Outcome) -> &'static [u8] {
    match outcome {
        Outcome::More => b"%w00 more\n",
        Outcome::Pdu {
            route,
            id,
            in_segment,
            at,
            ..
        } => {
            found(row, route, id, 0, at);
            if in_segment {
                b"%w00 pdu %b04 %w05 # segment %w13 x*\n"
            } else {
                b"%w00 pdu %b04 %w05 # memory %w13 x*\n"
            }
        }
        Outcome::Drop { reason, id, length } => {
            found(row, u8::from(reason), id, length, 0);
            b"%w00 drop %b04 %w05 %w09\n"
        }
        Outcome::Start {
            route,
            id,
            length,
            ..
        } => {
            found(row, route, id, length, 0);
            b"%w00 start %b04 %w05 %w09\n"
        }
        Outcome::Piece {
            route,
            id,
            at,
            last,
            ..
        } => {
            found(row, route, id, 0, at);
            if last {
                b"%w00 last %b04 %w05 # segment %w13 x*\n"
            } else {
                b"%w00 piece %b04 %w05 # segment %w13 x*\n"
            }
        }
    }
}

// One take as a line.
fn tell(read: usize, outcome: Outcome, payload: &[u8]) {
    let mut row = [0u8; 17];
    let mut line = io::buffer();
    put32(&mut row, 0, (read % 4294967296) as u32);
    let pattern = pattern_of(&mut row, outcome);
    let n = lay(&mut line, 0, pattern, 0, &row, payload);
    io::write_all(STDOUT_FILENO, front(&line, n));
}

// The takes over a segment until all is read, one at least.
fn takes_over(
    image: &[u8],
    state: State,
    rx: &mut [u8],
    tx: &[u8],
    connection: u8,
    segment: &[u8],
) -> State {
    let mut next = state;
    let mut rest = segment;
    loop {
        let taken = segment_take(image, next, rx, tx, connection, rest);
        next = taken.state;
        let payload = segment_payload(rest, rx, connection, taken.outcome);
        match taken.answer {
            Ok(()) => tell(taken.read, taken.outcome, payload),
            Err(refusal) => say(b"refused @\n", refusal_number(refusal)),
        }
        if taken.read == 0 || rest.len() <= taken.read {
            return next;
        }
        rest = &rest[taken.read..];
    }
}

// The next n bytes of the input at the front of a buffer; none where they do not fit or the input ends before.
fn read_body(buf: &mut [u8], n: usize) -> Option<&[u8]> {
    if n <= buf.len() && read_part(buf, 0, n) == n {
        return Some(front(buf, n));
    }
    None
}

// A table record: the image is read, and a new case begins.
fn table_record(image: &mut [u8], connection: u8, n: usize, switches: u32) -> Option<Held> {
    let table = read_body(image, n)?;
    Some(Held {
        size: n,
        state: begin(table, connection, switches),
    })
}

// A segment record: the segment is read, and taken.
fn segment_record(
    image: &[u8],
    segment: &mut [u8],
    rx: &mut [u8],
    tx: &[u8],
    held: Held,
    connection: u8,
    n: usize,
    switches: u32,
) -> Option<Held> {
    let bytes = read_body(segment, n)?;
    let table = front(image, held.size);
    let next = switched(table, held.state, connection, switches);
    Some(Held {
        state: takes_over(table, next, rx, tx, connection, bytes),
        ..held
    })
}

// One record of the input; none where it ends the program.
fn one_record(
    image: &mut [u8],
    segment: &mut [u8],
    rx: &mut [u8],
    tx: &[u8],
    held: Held,
) -> Option<Held> {
    let mut room = [0u8; 8];
    let head = read_body(&mut room, 8)?;
    let connection = u8_at(head, 1);
    let n = be16(head, 2);
    let switches = u32_at(head, 4);
    match be8(head, 0) {
        1 => table_record(image, connection, n, switches),
        2 => segment_record(image, segment, rx, tx, held, connection, n, switches),
        _ => None,
    }
}

fn main() {
    let mut image = [0u8; 4096];
    let mut segment = [0u8; 65536];
    let mut rx = [0u8; 23424];
    let tx = [0u8; 23552];
    let mut held = Held {
        size: 0,
        state: empty_state(),
    };
    for _ in 0..u32::MAX {
        let Some(next) = one_record(&mut image, &mut segment, &mut rx, &tx, held) else {
            return;
        };
        held = next;
    }
}
