// An event and its answer as words, from the event's number, the bytes of its body and those of its answer (docs/EVENTS.md; the patterns are
// those of crate words). Proved to be safe and to return; the words are tried by stored output.
#![tactic(auto)]

use event_decode::bytes_from;
use pieces::after;
use table_layout::part_of;
use wire::{be8, be16, be32, u16_at};
use words::{lay, phrase};

// Where the bytes that end a body begin.
fn bytes_at(number: u16) -> usize {
    match number {
        7 => 6,
        8 => 10,
        12 => 7,
        _ => 0,
    }
}

// The event: its name and its arguments.
pub fn event(text: &mut [u8], at: usize, number: u16, body: &[u8]) -> usize {
    let patterns = b"\
        tick %w00 time^/\
        open connection %b01/\
        close connection %b01/\
        connected connection %b01/\
        lost connection %b01/\
        set remote of connection %b01 to %q15 port %r19/\
        switch %b02 of connection %b01 %o03/\
        segment on connection %b01, # byte^/\
        walk on connection %b01 from byte %w02 of # byte^/\
        take waiting of connection %b01 into %w02 byte^/\
        datagram to group %b01 from %q15 port %r19/\
        accept to group %b01 from %q15 port %r19/\
        transmit PDU 0x%p01, # byte^: */\
        switch %b01 of all connections %o02/\
        read count of protocol %b01/\
        read and clear count of protocol %b01/\
        cancel connection %b01/";
    lay(
        text,
        at,
        phrase(patterns, number as usize),
        0,
        body,
        bytes_from(body, bytes_at(number)),
    )
}

// ---- the takes of a segment

// A PDU whose payload stands in the answer, out of receive memory.
fn is_held(row: &[u8]) -> bool {
    be8(row, 4) == 1 && be8(row, 14) != 0
}

// A start of length 0 is the end mark.
fn start_pattern(row: &[u8]) -> &'static [u8] {
    if be32(row, 10) == 0 {
        return b"; take @ read %w00 byte^: start of a transfer on route %b05, id 0x%i06, length %w10 byte^, the end";
    }
    b"; take @ read %w00 byte^: start of a transfer on route %b05, id 0x%i06, length %w10 byte^"
}

// More wanted, a PDU in the segment or in receive memory, a start, a piece, the last piece, or a drop.
fn take_pattern(row: &[u8]) -> &'static [u8] {
    if is_held(row) {
        return b"; take @ read %w00 byte^: PDU of route %b05, id 0x%i06, length %w10 byte^, from receive memory: *";
    }
    match be8(row, 4) {
        0 => b"; take @ read %w00 byte^: more wanted",
        1 => {
            b"; take @ read %w00 byte^: PDU of route %b05, id 0x%i06, length %w10 byte^, from the segment at byte %w15: *"
        }
        3 => start_pattern(row),
        4 =>
            b"; take @ read %w00 byte^: piece of route %b05, id 0x%i06, %w10 byte^, from the segment at byte %w14: *",
        5 =>
            b"; take @ read %w00 byte^: last piece of route %b05, id 0x%i06, %w10 byte^, from the segment at byte %w14: *",
        _ => b"; take @ read %w00 byte^: drop %b05, %d05, id 0x%i06, length %w10 byte^",
    }
}

// Where the place in the segment stands: behind a PDU's mark; a piece has none.
fn place_at(row: &[u8]) -> usize {
    if be8(row, 4) == 1 { 15 } else { 14 }
}

// One take, whose bytes of the answer begin with `row`.
fn take(text: &mut [u8], at: usize, number: u64, row: &[u8], segment: &[u8]) -> usize {
    let pattern = take_pattern(row);
    let long = be32(row, 10);
    if is_held(row) {
        return lay(text, at, pattern, number, row, part_of(row, 15, long));
    }
    let payload = part_of(segment, be32(row, place_at(row)), long);
    lay(text, at, pattern, number, row, payload)
}

// The bytes that a take has in the answer.
fn take_bytes(row: &[u8]) -> usize {
    if is_held(row) {
        return 15 + be32(row, 10);
    }
    match be8(row, 4) {
        1 => 19,
        4 | 5 => 18,
        _ => 14,
    }
}

fn takes(text: &mut [u8], at: usize, answer: &[u8], segment: &[u8]) -> usize {
    let count = be16(answer, 2);
    let mut place: usize = 4;
    let mut next = at;
    for i in 0..count {
        let row = bytes_from(answer, place);
        next = take(text, next, i as u64 + 1, row, segment);
        place = after(answer.len(), place, take_bytes(row));
    }
    next
}

// ---- the other answers

fn walk(text: &mut [u8], at: usize, row: &[u8], datagram: &[u8]) -> usize {
    let pattern: &[u8] = match be8(row, 4) {
        0 => b"; the end, next byte %w00",
        1 => b"; PDU of route %b05, id 0x%i06, length %w10 byte^, at byte %w14: *, next byte %w00",
        2 => b"; drop %b05, %d05, id 0x%i06, length %w10 byte^, next byte %w00",
        _ => b"",
    };
    let payload = part_of(datagram, be32(row, 14), be32(row, 10));
    lay(text, at, pattern, 0, row, payload)
}

// What follows the number and its meaning, where it is no list: waiting bytes, a connection, a count, that a transfer failed, the destination
// of a transmit's 4, 7 and 8, or nothing.
fn value_pattern(event: u16, number: usize, answer: &[u8]) -> &'static [u8] {
    match (event, number) {
        (4, 0) => if be8(answer, 2) == 0 {
            b""
        } else {
            b"; a transfer failed"
        },
        (9, 0) => b"; %w02 byte^ for %q19 port %r23: *",
        (10 | 11, 0) => b"; connection %b02",
        (14 | 15, 0) => b"; %w02 drop^",
        (12, 4 | 7 | 8) => b", destination %w02",
        _ => b"",
    }
}

fn value(text: &mut [u8], at: usize, event: u16, number: usize, answer: &[u8]) -> usize {
    let pattern = value_pattern(event, number, answer);
    lay(text, at, pattern, 0, answer, bytes_from(answer, 25))
}

// One of the connections whose transfer failed, behind those before it.
fn listed(text: &mut [u8], at: usize, k: u64, failed: bool, first: bool) -> usize {
    if !failed {
        return at;
    }
    if first {
        return lay(text, at, b"@", k, b"", b"");
    }
    lay(text, at, b", @", k, b"", b"")
}

// The connections whose bit is set, the lowest first.
fn connections(text: &mut [u8], at: usize, word: u16) -> usize {
    let mut next = at;
    let mut first = true;
    for k in 0u16..16 {
        let failed = word >> k & 1 == 1;
        next = listed(text, next, k as u64, failed, first);
        first = first && !failed;
    }
    next
}

// The transfers that ticks ended: a word with bit k for connection k.
fn failed(text: &mut [u8], at: usize, word: u16) -> usize {
    let pattern: &[u8] = match word.count_ones() {
        0 => b"",
        1 => b"; a transfer failed on connection ",
        _ => b"; transfers failed on connections ",
    };
    let named = lay(text, at, pattern, 0, b"", b"");
    connections(text, named, word)
}

// The answer: its number, the meaning, and what comes with it.
pub fn answer(text: &mut [u8], at: usize, event: u16, answer: &[u8], body: &[u8]) -> usize {
    let number = be16(answer, 0);
    // only a recorded answer may have a number with no meaning
    let pattern: &[u8] = if number <= 12 {
        b"%h00 %n01"
    } else {
        b"%h00 unknown"
    };
    let meant = lay(text, at, pattern, 0, answer, answer);
    match (number, event) {
        (0, 0) => failed(text, meant, u16_at(answer, 2)),
        (0, 7) => takes(text, meant, answer, bytes_from(body, 6)),
        (0, 8) => walk(text, meant, bytes_from(answer, 2), bytes_from(body, 10)),
        _ => value(text, meant, event, number, answer),
    }
}
