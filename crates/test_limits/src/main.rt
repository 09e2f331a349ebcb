// test_limits: the edges that are run and not proved one by one (R12.8, R12.9), through the entry points.
//   Length 4,294,967,295 skipped over many segments: the header, 65,536 segments of 65,535 bytes, then a segment that holds the
//   65,535 bytes still to skip and a whole PDU behind them.
//   A count at its top and one more drop: a drop on a TCP and on a UDP connection (its datagram read by a datagram reader), with
//   both counts at 4,294,967,295.
// Standard input: a table image with a TCP connection 0 and a UDP connection 1, both automatic with a whole remote, and a route
// for id 0x101 and 2 bytes on connection 0.
// Last word: OK when every call did what its line says, DIFFERS when one did not, REFUSED for the table.
#![tactic(auto)]

use entry_reader::walk_from;
use entry_receive::{segment_payload, segment_take};
use input::read_image;
use pieces::{front, put_piece};
use receive_stream::Outcome;
use state::{State, fresh_state};
use table::check_table;
use text::{decimal, hex};

// The standard output's number.
const STDOUT_FILENO: i32 = 1;

// The text before a number, the number, and the text after it.
fn tell(before: &[u8], number: u64, after: &[u8]) {
    let mut line = [0u8; 256];
    let a = put_piece(&mut line, 0, before);
    let b = decimal(&mut line, a, number);
    let n = put_piece(&mut line, b, after);
    io::write_all(STDOUT_FILENO, front(&line, n));
}

// The header of the longest skip.
fn begin_skip(image: &[u8], state: State, rx: &mut [u8], tx: &[u8]) -> State {
    let taken = segment_take(image, state, rx, tx, 0, b"\x00\x00\x01\x99\xff\xff\xff\xff");
    if let Outcome::Drop { reason, length, .. } = taken.outcome {
        tell(
            b"header: dropped, reason ",
            u64::from(u8::from(reason)),
            b"\n",
        );
        tell(b"to skip: ", length as u64, b" bytes\n");
    }
    taken.state
}

// Whether all was well so far, and the state.
#[derive(Clone, Copy)]
struct Turn {
    well: bool,
    state: State,
}

// One segment of it: read whole, and more wanted.
fn skip_one(image: &[u8], state: State, rx: &mut [u8], tx: &[u8], segment: &[u8]) -> Turn {
    let taken = segment_take(image, state, rx, tx, 0, segment);
    Turn {
        well: matches!(taken.outcome, Outcome::More) && taken.read == segment.len(),
        state: taken.state,
    }
}

fn skip(image: &[u8], state: State, rx: &mut [u8], tx: &[u8], segment: &[u8]) -> Turn {
    let mut all = Turn { well: true, state };
    for _ in 0..65536 {
        let turn = skip_one(image, all.state, rx, tx, segment);
        all = Turn {
            well: all.well && turn.well,
            ..turn
        };
    }
    all
}

// What is left of it and a PDU behind it, in one segment: one take reads both and hands the PDU out.
fn end_skip(image: &[u8], state: State, rx: &mut [u8], tx: &[u8], segment: &[u8]) -> Turn {
    let mut line = [0u8; 64];
    let taken = segment_take(image, state, rx, tx, 0, segment);
    let payload = segment_payload(segment, rx, 0, taken.outcome);
    tell(b"the last segment: ", taken.read as u64, b" bytes read\n");
    let a = put_piece(&mut line, 0, b"PDU behind the skip: payload ");
    let b = hex(&mut line, a, payload);
    let n = put_piece(&mut line, b, b"\n");
    io::write_all(STDOUT_FILENO, front(&line, n));
    Turn {
        well: taken.read == segment.len() && payload.len() == 2,
        state: taken.state,
    }
}

// A count as it is read.
fn tell_count(image: &[u8], state: State, rx: &[u8], tx: &[u8], protocol: u8) -> u64 {
    let counted = entry_events::read_count(image, state, rx, tx, protocol);
    let value = if let Ok(count) = counted.answer {
        count as u64
    } else {
        0
    };
    tell(b"drops counted, protocol ", protocol as u64, b": ");
    tell(b"", value, b"\n");
    value
}

// The header, and the segments that hold nothing but skipped bytes.
fn skip_most(image: &[u8], state: State, rx: &mut [u8], tx: &[u8]) -> Turn {
    let zeros = [0u8; 65535];
    let begun = begin_skip(image, state, rx, tx);
    skip(image, begun, rx, tx, &zeros)
}

fn tell_skipped(well: bool) {
    tell(b"segments of 65535 bytes: ", 65536, b"");
    if well {
        io::write_all(
            STDOUT_FILENO,
            b", each read whole, more wanted after each\n",
        );
        return;
    }
    io::write_all(STDOUT_FILENO, b", not each read whole\n");
}

// The skip, from its header to the PDU behind it; one drop is counted.
fn longest_skip(image: &[u8], state: State, rx: &mut [u8], tx: &[u8]) -> bool {
    let mut last = [0u8; 65545];
    wire::copy_in(
        &mut last,
        65535,
        b"\x00\x00\x01\x01\x00\x00\x00\x02\x00\xb4",
    );
    let skipped = skip_most(image, state, rx, tx);
    tell_skipped(skipped.well);
    let ended = end_skip(image, skipped.state, rx, tx, &last);
    let count = tell_count(image, ended.state, rx, tx, 2);
    skipped.well && ended.well && count == 1
}

// One drop more on each connection, with both counts at their top: both stay.
fn drop_each(image: &[u8], state: State, rx: &mut [u8], tx: &[u8]) -> Turn {
    let mut full = state;
    full.udp_drops = u32::MAX;
    full.tcp_drops = u32::MAX;
    let taken = segment_take(image, full, rx, tx, 0, b"\x00\x00\x01\x99\x00\x00\x00\x00");
    let datagram = b"\x00\x00\x01\x01\x00\x00\x00";
    let walked = walk_from(datagram, 0, image, taken.state, rx, tx, 1);
    Turn {
        well: taken.read == 8 && walked.next == 7,
        state: walked.state,
    }
}

fn full_counts(image: &[u8], state: State, rx: &mut [u8], tx: &[u8]) -> bool {
    let dropped = drop_each(image, state, rx, tx);
    io::write_all(
        STDOUT_FILENO,
        b"counts at their top; then a segment with an unknown id, and a datagram of 7 bytes\n",
    );
    let udp = tell_count(image, dropped.state, rx, tx, 1);
    let tcp = tell_count(image, dropped.state, rx, tx, 2);
    dropped.well && udp == u32::MAX as u64 && tcp == u32::MAX as u64
}

// A tick, and connection 0 connected: both connections are online.
fn online(image: &[u8], rx: &[u8], tx: &[u8]) -> State {
    let ticked = entry_ticks::tick(image, fresh_state(image), rx, tx);
    entry_events::connected(image, ticked.state, rx, tx, 0).state
}

fn run(image: &[u8]) {
    let mut rx = [0u8; 23424];
    let tx = [0u8; 23552];
    let state = online(image, &rx, &tx);
    let skipped = longest_skip(image, state, &mut rx, &tx);
    let full = full_counts(image, state, &mut rx, &tx);
    if skipped & full {
        io::write_all(STDOUT_FILENO, b"OK\n");
        return;
    }
    io::write_all(STDOUT_FILENO, b"DIFFERS\n");
}

fn main() {
    let mut image = [0u8; 2356];
    let n = read_image(&mut image);
    let table = front(&image, n);
    match check_table(table) {
        Ok(()) => run(table),
        Err(_) => {
            io::write_all(STDOUT_FILENO, b"REFUSED\n");
        }
    }
}
