// Reads a table image from standard input and lists its rows with names and units, or says at which byte it is refused
// and why. The last line is OK or REFUSED. The check, its place and its reason are proved; the wording is tried by
// stored output (the patterns are those of crate words).
#![tactic(auto)]

use pieces::front;
use table::{BadTable, check_table};
use table_layout::{Kind, body_of, row_bytes, row_in, rows_of};
use wire::{be8, be16};
use words::lay;
use words_refusal::refuse;

// A line out of a pattern, a number and a row.
fn say(pattern: &[u8], n: usize, row: &[u8]) {
    let mut text = [0u8; 512];
    let end = lay(&mut text, 0, pattern, n as u64, row, row);
    io::write_all(1, front(&text, end));
}

// ---- the rows

fn heading(k: Kind, n: usize) {
    let pattern: &[u8] = match k {
        Kind::Group => b"groups: @ row^\n",
        Kind::Connection => b"connections: @ row^\n",
        Kind::Route => b"receive routes: @ row^\n",
        Kind::Destination => b"destinations: @ row^\n",
    };
    say(pattern, n, b"");
}

// A connection with an alive limit, and one without.
fn connection_pattern(row: &[u8]) -> &'static [u8] {
    if be16(row, 10) == 0 {
        return b"  connection @: group %b00, %f01, remote %q02 port %r06, send size %h08 byte^, start switches 0x%i12\n";
    }
    b"  connection @: group %b00, %f01, remote %q02 port %r06, send size %h08 byte^, alive limit %h10 tick^, start switches 0x%i12\n"
}

// A route that is marked for transfers, and one that is not.
fn route_pattern(row: &[u8]) -> &'static [u8] {
    if be8(row, 1) == 1 {
        return b"\
            \x20 receive route @: connection %b00, transfer (TP), header id 0x%i04, upper PDU 0x%p08, longest payload %h02 byte^, \
            routing groups 0x%i12\n";
    }
    b"  receive route @: connection %b00, header id 0x%i04, upper PDU 0x%p08, longest payload %h02 byte^, routing groups 0x%i12\n"
}

fn row_pattern(k: Kind, row: &[u8]) -> &'static [u8] {
    match k {
        Kind::Group => b"  group @: %u00\n",
        Kind::Connection => connection_pattern(row),
        Kind::Route => route_pattern(row),
        Kind::Destination => {
            b"\
            \x20 destination @: PDU 0x%p08, connection %b00, header id 0x%i04, longest payload %h02 byte^, trigger %b01, \
            timeout %h10 tick^, routing groups 0x%i12\n"
        }
    }
}

fn row_of_kind(image: &[u8], k: Kind, i: usize) {
    let row = row_in(body_of(image, k), row_bytes(image, k), i);
    say(row_pattern(k, row), i, row);
}

fn rows_of_kind(image: &[u8], k: Kind) {
    let n = rows_of(image, k);
    heading(k, n);
    for i in 0..n {
        row_of_kind(image, k, i);
    }
}

fn list(image: &[u8]) {
    say(b"table image of @ byte^, edition 1\n", image.len(), b"");
    rows_of_kind(image, Kind::Group);
    rows_of_kind(image, Kind::Connection);
    rows_of_kind(image, Kind::Route);
    rows_of_kind(image, Kind::Destination);
    say(b"OK\n", 0, b"");
}

// ---- the whole

fn report(image: &[u8]) {
    let answer = check_table(image);
    match answer {
        Ok(()) => list(image),
        Err(BadTable::At(place)) => refuse(image, place),
    }
}

// The buffer is longer than any whole image (2,356 bytes), so the check of its front is the check of the whole input
// (crate table_fault, proofs/Long).
fn main() {
    let mut buffer = io::buffer();
    let n = io::read_full(0, &mut buffer);
    report(&buffer[..n]);
}
