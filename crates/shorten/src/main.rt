// shorten: a table image and a commissioning sheet on standard input; what the sheet comes to, which of its switches change nothing and why, and a
// shortened sheet, on standard output (docs/EVENTS.md). Words and fates are those of the proved crate sheet; the wording is tried by stored output.
#![tactic(auto)]

use entry_sheet::apply;
use input::read_part;
use pieces::front;
use sheet::{Fate, Pair, Words, fate_of, shorten};
use state::{State, fresh_state};
use table_layout::{Kind, part_of, rows_of};
use wire::{copy_in, put32};
use words::lay;
use words_refusal::under_table;

// A line out of a pattern, a number and a row.
fn say(pattern: &[u8], n: usize, row: &[u8]) {
    let mut text = [0u8; 512];
    let end = lay(&mut text, 0, pattern, n as u64, row, row);
    io::write_all(1, front(&text, end));
}

// ---- the words

fn pair_line(i: usize, pair: Pair, fresh: u32, after: u32) {
    let mut row = [0u8; 16];
    put32(&mut row, 0, pair.on);
    put32(&mut row, 4, pair.off);
    put32(&mut row, 8, fresh);
    put32(&mut row, 12, after);
    say(
        b"connection @: forced on 0x%i00, forced off 0x%i04, fresh switches 0x%i08 become 0x%i12\n",
        i,
        &row,
    );
}

// The state after the words are applied.
fn applied(image: &[u8], state: State, words: Words) -> State {
    let rx = [0u8; 23424];
    let tx = [0u8; 23552];
    apply(image, state, &rx, &tx, words).state
}

fn pairs(rows: usize, words: Words, fresh: State, after: State) {
    for i in 0..rows.min(16) {
        let before = fresh.connections[i].switches;
        pair_line(i, words.pairs[i], before, after.connections[i].switches);
    }
}

// ---- the switches

fn overridden(entry: usize, switch: &[u8], later: usize) {
    let mut row = [0u8; 7];
    copy_in(&mut row, 0, switch);
    put32(&mut row, 3, (later % 65536 + 1) as u32);
    say(
        b"entry @: switch %b01 of connection %b00 %o02: changed nothing: overridden by entry %w03\n",
        entry,
        &row,
    );
}

// The line of a switch that changes nothing.
fn fate_line(entry: usize, switch: &[u8], fate: Fate) {
    match fate {
        Fate::Counts => say(b"", 0, switch),
        Fate::Overridden(later) => overridden(entry, switch, later),
        Fate::Missing => say(
            b"entry @: switch %b01 of connection %b00 %o02: changed nothing: refused 2 not there\n",
            entry,
            switch,
        ),
    }
}

fn fates(rows: usize, sheet: &[u8]) {
    for (k, switch) in sheet.chunks_exact(3).enumerate() {
        fate_line(k + 1, switch, fate_of(rows, sheet, k));
    }
}

fn counts(fate: Fate) -> bool {
    matches!(fate, Fate::Counts)
}

fn how_many(rows: usize, sheet: &[u8]) -> usize {
    (0..sheet.len() / 3)
        .filter(|k| counts(fate_of(rows, sheet, *k)))
        .count()
}

// The lines of the switches that count, as a script's text has them.
fn short(rows: usize, sheet: &[u8]) {
    for (k, switch) in sheet.chunks_exact(3).enumerate() {
        if counts(fate_of(rows, sheet, k)) {
            say(b"  switch %b00 %b01 %o02\n", 0, switch);
        }
    }
}

// ---- the whole

// The first pattern for one, the second for another number.
fn counted(one: &[u8], more: &[u8], n: usize) {
    say(if n == 1 { one } else { more }, n, b"");
}

fn told(image: &[u8], rows: usize, sheet: &[u8], words: Words) {
    let fresh = fresh_state(image);
    counted(
        b"sheet of @ switch\n",
        b"sheet of @ switches\n",
        sheet.len() / 3,
    );
    pairs(rows, words, fresh, applied(image, fresh, words));
    fates(rows, sheet);
    counted(
        b"short sheet of @ switch\n",
        b"short sheet of @ switches\n",
        how_many(rows, sheet),
    );
    short(rows, sheet);
    say(b"OK\n", 0, b"");
}

fn unfit(sheet: &[u8], at: usize) {
    let pattern: &[u8] = if at % 3 == 2 {
        b"sheet refused at byte @: the position is %b00, neither 0 (off) nor 1 (on)\n"
    } else {
        b"sheet refused at byte @: cut off inside a switch of 3 bytes\n"
    };
    say(pattern, at, part_of(sheet, at, 1));
    say(b"REFUSED\n", 0, b"");
}

fn report(image: &[u8], rows: usize, sheet: &[u8]) {
    match shorten(rows, sheet) {
        Ok(words) => told(image, rows, sheet, words),
        Err(unfitting) => unfit(sheet, unfitting.at),
    }
}

// A sheet of at most 4,096 switches.
fn read_sheet(image: &[u8], rows: usize) {
    let mut sheet = [0u8; 12289];
    let n = read_part(&mut sheet, 0, 12289);
    if 12288 < n {
        say(
            b"sheet refused: it is longer than 12288 bytes (4096 switches)\nREFUSED\n",
            0,
            b"",
        );
        return;
    }
    report(image, rows, front(&sheet, n));
}

fn main() {
    under_table(|table| read_sheet(table, rows_of(table, Kind::Connection)));
}
