// Every record that a table has a row for, and both drop counts, as lines of text: the end of what programs print (docs/EVENTS.md, "What `./soad
// run` prints"; the patterns are those of crate words). A record is spelt first as a start state spells it. Proved to be safe and to return; the
// words are tried by stored output.
#![tactic(auto)]

use connection::{Connection, Mode, Watch};
use event_decode::bytes_from;
use pieces::front;
use receive_part::Part;
use state::State;
use table_layout::{Kind, part_of, rows_of};
use wire::{be8, be16, put8, put16, put32};
use words::{lay, phrase};

// ---- the 46 bytes of a record

fn spell_front(row: &mut [u8], mode: Mode, open: bool, close: bool) {
    put8(row, 0, mode as u8);
    put8(row, 1, u8::from(open));
    put8(row, 2, u8::from(close));
}

fn spell_header(row: &mut [u8], held: u8, value: u64) {
    put16(row, 28, held as u16);
    put32(row, 30, (value / 4294967296) as u32);
    put32(row, 34, (value % 4294967296) as u32);
}

fn spell_payload(row: &mut [u8], route: u8, length: u16, held: u16) {
    put16(row, 26, 256 + route as u16);
    put16(row, 28, held);
    put32(row, 34, length as u32);
}

fn spell_skip(row: &mut [u8], n: u32) {
    put8(row, 26, 2);
    put32(row, 34, n);
}

fn spell_transfer(row: &mut [u8], route: u8, left: u32) {
    put16(row, 26, 768 + route as u16);
    put32(row, 34, left);
}

fn spell_part(row: &mut [u8], part: Part) {
    match part {
        Part::Header { held, value } => spell_header(row, held, value),
        Part::Payload {
            route,
            length,
            held,
        } => spell_payload(row, route, length, held),
        Part::Skip(n) => spell_skip(row, n),
        Part::Transfer { route, left } => spell_transfer(row, route, left),
    }
}

fn spell_send(row: &mut [u8], used: u16, timer: u16, due: bool) {
    put16(row, 38, used);
    put16(row, 40, timer);
    put8(row, 42, u8::from(due));
}

fn spell_watch(row: &mut [u8], watch: Watch) {
    put16(row, 43, watch.alive);
    put8(row, 45, u8::from(watch.remote_set));
}

fn spell(row: &mut [u8], c: &Connection) {
    spell_front(row, c.mode, c.open_wanted, c.close_wanted);
    put32(row, 16, c.remote.address);
    put16(row, 20, c.remote.port);
    put32(row, 22, c.switches);
    spell_part(row, c.part);
    spell_send(row, c.used, c.timer, c.due);
    spell_watch(row, c.watch);
}

// ---- its line

// Ready, header bytes held, a payload, a skip or a transfer.
fn part_pattern(row: &[u8]) -> &'static [u8] {
    match (be8(row, 26), be16(row, 28)) {
        (0, 0) => b"ready",
        (0, _) => b"header %h28 byte^: *",
        (1, _) => b"payload of route %b27, %h28 of %w34 byte^: *",
        (2, _) => b"skip %w34 byte^",
        (3, _) => b"transfer of route %b27, %w34 byte^ to come",
        _ => b"",
    }
}

// The header bytes held: the last of the number's eight.
fn header_held(row: &[u8]) -> &[u8] {
    let n = be16(row, 28);
    if n < 8 {
        return part_of(row, 38 - n, n);
    }
    part_of(row, 30, 8)
}

// The receive part; its stretch of memory holds a payload's bytes.
fn received(text: &mut [u8], at: usize, row: &[u8], stretch: &[u8]) -> usize {
    let pattern = part_pattern(row);
    if be8(row, 26) == 0 {
        return lay(text, at, pattern, 0, row, header_held(row));
    }
    lay(text, at, pattern, 0, row, front(stretch, be16(row, 28)))
}

// The timer, which may have stopped, and the due mark.
fn timed(text: &mut [u8], at: usize, row: &[u8]) -> usize {
    let pattern: &[u8] = match be16(row, 40) {
        0 => b", timer stopped, due %y42",
        _ => b", timer %h40 tick^, due %y42",
    };
    lay(text, at, pattern, 0, row, row)
}

// The alive timer, which may have stopped, and the mark that the upper layer set the remote.
fn watched(text: &mut [u8], at: usize, row: &[u8]) -> usize {
    let pattern: &[u8] = match be16(row, 43) {
        0 => b", alive timer stopped, remote set %y45\n",
        _ => b", alive timer %h43 tick^, remote set %y45\n",
    };
    lay(text, at, pattern, 0, row, row)
}

fn line(text: &mut [u8], at: usize, number: u64, row: &[u8], rx: &[u8], tx: &[u8]) -> usize {
    let pattern =
        b"connection @: %m00, open wanted %y01, close wanted %y02, remote %q16 port %r20, switches 0x%i22, receive part ";
    let named = lay(text, at, pattern, number, row, row);
    let told = received(text, named, row, rx);
    let sent = lay(
        text,
        told,
        b", send %h38 byte^: *",
        0,
        row,
        front(tx, be16(row, 38)),
    );
    let due = timed(text, sent, row);
    watched(text, due, row)
}

// The record number so many, with its stretches of receive and send memory.
fn record(text: &mut [u8], at: usize, number: u64, c: &Connection, rx: &[u8], tx: &[u8]) -> usize {
    let mut row = [0u8; 46];
    spell(&mut row, c);
    line(text, at, number, &row, rx, tx)
}

fn counts(text: &mut [u8], at: usize, udp: u32, tcp: u32) -> usize {
    let mut row = [0u8; 8];
    put32(&mut row, 0, udp);
    put32(&mut row, 4, tcp);
    lay(text, at, b"drops: UDP %w00, TCP %w04\n", 0, &row, &row)
}

// ---- all of them

// Sixteen records have some 99,000 characters at most.
pub fn records(
    text: &mut [u8],
    at: usize,
    table: &[u8],
    state: &State,
    rx: &[u8],
    tx: &[u8],
) -> usize {
    let rows = rows_of(table, Kind::Connection);
    let mut next = at;
    for (k, c) in state.connections.iter().enumerate() {
        if k < rows {
            let (held, waiting) = (bytes_from(rx, k * 1464), bytes_from(tx, k * 1472));
            next = record(text, next, k as u64, c, held, waiting);
        }
    }
    counts(text, next, state.udp_drops, state.tcp_drops)
}
