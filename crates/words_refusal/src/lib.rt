// Why a table image is refused, as a line of text: the byte, the spot, and the first test that fails there with the numbers found and asked (the
// patterns are those of crate words). Spot and test are proved (crate table_fault); the words are tried by stored output.
#![tactic(auto)]

use input::read_image;
use pieces::front;
use table::{BadTable, check_table};
use table_fault::{Fault, Reason, Spot, Told, reason_of};
use table_layout::Kind;
use wire::{put8, put32, u8_at};
use words::lay;

// ---- the patterns, which speak of a row of 16 bytes: the number found in its bytes 0..3, the number asked in 4..7, the spot's kind of rows in
// byte 9 and its row in 10..13, and in 15 the byte at the place, which is a route's connection and a connection's group

fn spot_pattern(spot: Spot) -> &'static [u8] {
    match spot {
        Spot::Head => b"refused 1 at byte @: front: ",
        Spot::Total => b"refused 1 at byte @: total length: ",
        Spot::Entry(_) => b"refused 1 at byte @: contents entry of kind %b09, %k09: ",
        Spot::Row(_, _) => b"refused 1 at byte @: %k09 row %w10: ",
    }
}

// An image may be longer than the buffer it was read into.
fn length_pattern(found: usize) -> &'static [u8] {
    if found < 4096 {
        return b"the image has %w00 byte^, its contents ask %w04 byte^\n";
    }
    b"the image has %w00 bytes or more, its contents ask %w04 byte^\n"
}

// What two rows share has a name for each kind.
fn shared_pattern(spot: Spot) -> &'static [u8] {
    if let Spot::Row(Kind::Destination, _) = spot {
        return b"shares PDU and connection with row %w00\n";
    }
    b"shares connection and header id with row %w00\n"
}

fn fault_pattern(fault: Fault, spot: Spot, found: usize) -> &'static [u8] {
    match fault {
        Fault::Short => b"the image has %w00 byte^, fewer than %w04 byte^\n",
        Fault::Edition => b"edition %w00 is not edition %w04\n",
        Fault::Number => b"the number in bytes 2 and 3 is %w00, not %w04\n",
        Fault::WrongKind => b"kind %w00 stands where kind %w04 belongs\n",
        Fault::TooMany => b"%w00 rows are more than %w04 rows\n",
        Fault::Offset => b"offset %w00 is not where the body starts, byte %w04\n",
        Fault::Length => length_pattern(found),
        Fault::Protocol => b"protocol %w00 is neither 1 (UDP) nor 2 (TCP)\n",
        Fault::Zero => b"the zero field is %w00, at byte %w04 of the row\n",
        Fault::NoGroup => b"group %w00 is not there, the table has %w04 group^\n",
        Fault::Automatic => b"automatic %w00 is neither 0 nor 1\n",
        Fault::SendSize => b"send size %w00 is not within 8..1472 bytes\n",
        Fault::NoConnection => b"connection %w00 is not there, the table has %w04 connection^\n",
        Fault::Longest => b"longest payload %w00 is above %w04 bytes\n",
        Fault::Trigger => b"trigger %w00 is neither 0 nor 1\n",
        Fault::Room => {
            b"longest payload %w00 and 8 header bytes do not fit the send size of %w04 bytes\n"
        }
        Fault::Shared => shared_pattern(spot),
        Fault::Transfer => b"transfer mark %w00 is neither 0 nor 1\n",
        Fault::NotTcp => b"transfer mark %w00 on connection %b15, which is UDP\n",
        Fault::NotUdp => b"alive limit %w00 tick^ in group %b15, which is TCP\n",
    }
}

fn told_pattern(told: Option<Told>, spot: Spot) -> &'static [u8] {
    match told {
        None => b"nothing is wrong\n",
        Some(told) => fault_pattern(told.fault, spot, told.found),
    }
}

// ---- the row

fn low(n: usize) -> u32 {
    (n % 4294967296) as u32
}

fn put_told(row: &mut [u8], told: Option<Told>) {
    if let Some(told) = told {
        put32(row, 0, low(told.found));
        put32(row, 4, low(told.asked));
    }
}

fn put_spot(row: &mut [u8], spot: Spot) {
    match spot {
        Spot::Head | Spot::Total => {}
        Spot::Entry(kind) => put8(row, 9, kind as u8),
        Spot::Row(kind, i) => {
            put8(row, 9, kind as u8);
            put32(row, 10, low(i));
        }
    }
}

// The line of an image that is refused at a place.
pub fn refusal(text: &mut [u8], image: &[u8], place: usize) -> usize {
    let mut row = [0u8; 16];
    let Reason { spot, told } = reason_of(image, place);
    put_told(&mut row, told);
    put_spot(&mut row, spot);
    put8(&mut row, 15, u8_at(image, place));
    let named = lay(text, 0, spot_pattern(spot), place as u64, &row, &row);
    lay(text, named, told_pattern(told, spot), 0, &row, &row)
}

// A refused image ends a program: its line, and the last word.
pub fn refuse(image: &[u8], place: usize) {
    let mut text = [0u8; 512];
    let end = refusal(&mut text, image, place);
    let last = lay(&mut text, end, b"REFUSED\n", 0, b"", b"");
    io::write_all(1, front(&text, last));
}

// A program whose input begins with a table image: what it does under an accepted one. A refused one ends it.
pub fn under_table<F: FnOnce(&[u8]) + Drop>(run: F)
    requires { F.IsAlwaysCallable run }
{
    let mut image = [0u8; 2356];
    let n = read_image(&mut image);
    let table = front(&image, n);
    match check_table(table) {
        Ok(()) => run(table),
        Err(BadTable::At(place)) => refuse(table, place),
    }
}
