// bench_repeat: calls one entry point many times, for a counter of instructions (bench/). Every call is lent the state and the memories
// that the last one left.
//
// Standard input: what 1, connection 1, PDU 2, times 4, place 2, used 2, length of the image 2, length of the bytes 2; the image
// (at most 2,356 bytes); the bytes (at most 2,944). Numbers big-endian. Before the first call the connections of the table are
// opened, ticked once and connected: those whose configured remote has no wildcard are online. Before each call the image's byte at
// `place` becomes another (a place that no rule speaks of, such as an upper PDU's), so that no check can be left out.
//   what 0  nothing: what the loop itself costs
//   what 1  a read of the UDP count: the gate, and little more
//   what 2  a take of the bytes as one segment of the connection
//   what 3  two takes, of the bytes cut in two segments in the middle
//   what 4  a step of the walk over the bytes as a datagram of the connection, from its front
//   what 5  a transmit of the bytes on the PDU; then the connection and the next one hold nothing again
//   what 6  a take of what waits on the connection, `used` bytes each time
//   what 7  a tick
//   what 8  a datagram for the group of the connection, from its configured remote
//   what 10 a take of the bytes that is to drop a header; what 11 a take of no bytes
//   what 12 an event through the dispatcher: without `used` the PDU is its number, and the bytes are its body; else a round of `used` events,
//           four at most, one in each turn: the bytes are of each 28, its number 2, the length of its body 2, and the body. The number
//           65,535 is none, with a body of two bytes
//   what 14 a take of the bytes inside a transfer of 4,294,967,295 bytes on the connection, on the route that the PDU's number names
//   what 15 so many ticks as the first four bytes say, and before each call every connection is online with ten bytes to send, its timer at
//           65,535 ticks and its alive timer at its row's limit (the remotes of the table have no wildcard)
//   what 17 a switch of the connection; 18 a switch on all connections; 19 a read of the UDP count that clears it
//   what 20 lost; 21 connected; 22 accept; 23 set remote; 25 close; 26 open: of the connection
//   what 24 so many ticks as the first four bytes say
//   what 32 a round of lost and connected, one in each turn; 33 lost and accept; 34 lost, set remote and connected; 35 close, tick, open and
//           tick
//   what 69, 70, 71, 72  what 5, 6, 14 and 15 do besides the call
// 128 more: under a state in which each connection holds ten bytes to send, half of them due, half with a timer that runs.
// Last word: OK when every call did what it names, REFUSED when one did not, CUT when the input is not what it says.
#![tactic(auto)]

mod once;
mod own;

use bench_start::{read_input, say, say_cut, start};
use once::{in_turn, once};
use pieces::front;
use wire::{be16, put8, u8_at, u16_at, u32_at};

// So many calls; whether each did what it names.
fn repeat(
    times: u32,
    place: usize,
    what: u8,
    image: &mut [u8],
    rx: &mut [u8],
    tx: &mut [u8],
    out: &mut [u8],
    connection: u8,
    pdu: u16,
    used: u16,
    bytes: &[u8],
) -> bool {
    let mut state = start(image, rx, tx, what);
    let mut all = true;
    for i in 0..times {
        put8(image, place, (i % 256) as u8);
        let turn = once(
            in_turn(what % 128, i),
            i,
            image,
            state,
            rx,
            tx,
            out,
            connection,
            pdu,
            used,
            bytes,
        );
        state = turn.state;
        all = all & turn.done;
    }
    all
}

// What the head asks for.
fn run(head: &[u8], image: &mut [u8], bytes: &[u8]) -> bool {
    let mut rx = [0u8; 23424];
    let mut tx = [0u8; 23552];
    let mut out = [0u8; 16384];
    repeat(
        u32_at(head, 4),
        be16(head, 8),
        u8_at(head, 0),
        image,
        &mut rx,
        &mut tx,
        &mut out,
        u8_at(head, 1),
        u16_at(head, 2),
        u16_at(head, 10),
        bytes,
    )
}

// `run` with the image that is the front of a buffer.
fn run_front(head: &[u8], buffer: &mut [u8], long: usize, bytes: &[u8]) -> bool {
    if long <= buffer.len() {
        return run(head, &mut buffer[..long], bytes);
    }
    false
}

fn main() {
    let mut head = [0u8; 16];
    let mut image = [0u8; 2356];
    let mut bytes = [0u8; 2944];
    if !read_input(&mut head, &mut image, &mut bytes) {
        say_cut();
        return;
    }
    let done = run_front(
        &head,
        &mut image,
        be16(&head, 12),
        front(&bytes, be16(&head, 14)),
    );
    say(done);
}
