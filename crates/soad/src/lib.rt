// What a C program calls, on numbers and byte buffers: `rt lib` writes libsoad.a. A slice is two C arguments,
// pointer and length (size_t). Everything is total.
#![tactic(auto)]

ghost use Rattle.std.specs.Prelude.{◌≡◌, length};
ghost use Rattle.frame.specs.Framing.{framed_number, framing_of, framed_out};
ghost use Rattle.table.specs.Table.{check_table, table_number, answer_place};
ghost use Rattle.soad_walk.specs.declared.Numbers.{Numbers};
ghost use Rattle.soad_walk.specs.TableWalk.{table_walk_of, walk_number, next_after, value_after};

use frame::framing;
use soad_walk::{numbers_of, walk_table};
use table::{BadTable, check_table};

// The table check: 0 accepted, and the place stays as it was; 1 refused, and the place is that of R1.10.
#[unsafe(no_mangle)]
pub extern "C" fn soad_table_check(image: &[u8], place: &mut usize) -> u32
    ensures value { result ≡ table_number (check_table image.now) }
    ensures place_after { place.new ≡ answer_place (check_table image.now) place.old }
{
    match check_table(image) {
        Ok(()) => 0,
        Err(BadTable::At(p)) => {
            *place = p;
            1
        }
    }
}

// Framing: 0 done, 7 a payload longer than 1,464, 9 an out buffer shorter than 8 + length.
#[unsafe(no_mangle)]
pub extern "C" fn soad_frame(id: u32, payload: &[u8], out: &mut [u8]) -> u32
    ensures value { result ≡ framed_number (framing_of (length payload.now) (length out.old)) }
    ensures out_after { out.new ≡ framed_out id payload.now out.old }
{
    match framing(id, payload, out) {
        Ok(()) => 0,
        Err(error) => u32::from(error),
    }
}

// The walk at a place of a datagram, by the image's routes: 1 a bad image, 2 no such connection, 3 a TCP connection or a
// place beyond the end; a refusal leaves every out value as it was. Done, 0: kind 0 the end, 1 a PDU (its route, id,
// length and the place of its payload), 2 a drop (its reason, id and length); and the next place.
#[unsafe(no_mangle)]
pub extern "C" fn soad_walk(
    image: &[u8],
    connection: usize,
    switches: u32,
    datagram: &[u8],
    place: usize,
    next: &mut usize,
    kind: &mut u32,
    number: &mut u32,
    id: &mut u32,
    size: &mut u32,
    at: &mut usize,
) -> u32
    ensures value { result ≡ walk_number (table_walk_of image.now connection switches datagram.now place) }
    ensures next_after { next.new ≡ next_after (table_walk_of image.now connection switches datagram.now place) next.old }
    ensures kind_after { kind.new
        ≡ value_after (λ (n : Numbers). n.kind) (table_walk_of image.now connection switches datagram.now place) kind.old }
    ensures number_after { number.new
        ≡ value_after (λ (n : Numbers). n.number) (table_walk_of image.now connection switches datagram.now place) number.old }
    ensures id_after { id.new
        ≡ value_after (λ (n : Numbers). n.id) (table_walk_of image.now connection switches datagram.now place) id.old }
    ensures size_after { size.new
        ≡ value_after (λ (n : Numbers). n.length) (table_walk_of image.now connection switches datagram.now place) size.old }
    ensures at_after { at.new
        ≡ value_after (λ (n : Numbers). n.at) (table_walk_of image.now connection switches datagram.now place) at.old }
{
    match walk_table(image, connection, switches, datagram, place) {
        Err(refusal) => u32::from(refusal),
        Ok(walked) => {
            let told = numbers_of(walked.outcome);
            *next = walked.next;
            *kind = told.kind;
            *number = told.number;
            *id = told.id;
            *size = told.length;
            *at = told.at;
            0
        }
    }
}
