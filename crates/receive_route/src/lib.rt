// The lookup: what the receive routes of a connection say to a header's id and length.
#![tactic(auto)]

ghost use Rattle.std.specs.Prelude.{◌≡◌, ◌≤◌};
ghost use Rattle.wire.specs.Be.{Little};
ghost use Rattle.table_rows.specs.Rows.{route_row};
ghost use Rattle.switches.specs.Switches.{is_on};
ghost use Rattle.receive_route.specs.Route.{RowsCounted, Key, counts, row_for, reason_in, reason_of, lookup_of};

use reading::{Decision, DropReason};
use table_rows::{RouteRow, row_at};
use wire::{be8, put32};

// A route or a destination of these groups is on at these switches.
#[tactic(auto, unfolding(switches::specs::Switches::is_on))]
pub fn is_on(groups: u32, switches: u32) -> bool
    ensures { result ≡ is_on groups switches }
{
    (groups == 0) | !((groups & switches) == 0)
}

// How many rows there are: 64 at most.
// Kept: tried, misses the speed bar: with `min` the search below counts each row beside its place, an instruction more for each.
#[tactic(auto, unfolding(crate::specs::Route::rows_in))]
fn rows_in(routes: &[u8]) -> usize
    ensures { RowsCounted routes.now result }
{
    let n = routes.len() / 16;
    if n <= 64 { n } else { 64 }
}

// A row's id as one load reads its bytes, the last the highest: whether two ids are the same, their order does not matter.
// Kept: no plainer, because the id is compared as it stands in the row: with be32 each row that is passed would swap its bytes.
#[tactic(auto, using(crate::proofs::Keys::load_is))]
fn loaded(row: &[u8]) -> usize
    ensures { Little row.now 4 result }
{
    be8(row, 4) + be8(row, 5) * 256 + be8(row, 6) * 65536 + be8(row, 7) * 16777216
}

// A header's id, written as a row has it and read so.
#[tactic(auto, using(crate::proofs::Keys::key_is))]
fn key_of(id: u32) -> usize
    ensures { Key id result }
{
    let mut row = [0u8; 8];
    put32(&mut row, 4, id);
    loaded(&row)
}

// A row counts for a header: its id and its connection are the header's. The id is read first: it differs more often.
#[tactic(auto, using(crate::proofs::Laws::read_row))]
fn row_counts(row: &[u8], connection: u8, id: u32) -> bool
    ensures { result ≡ counts (route_row row.now) connection id }
{
    (loaded(row) == key_of(id)) & (be8(row, 0) == connection as usize)
}

// The first row that counts, or the number of rows where there is none: it stops at a hit.
// Kept: tried, misses the speed bar: with `for` or an Option each row is counted beside its place, an instruction more for each.
#[tactic(auto, using(crate::proofs::Laws::find_on, crate::proofs::Laws::find_hit, crate::proofs::Laws::find_end))]
fn find(routes: &[u8], connection: u8, id: u32) -> usize
    ensures is { result ≡ row_for routes.now connection id }
    ensures small { result ≤ 64 }
{
    let n = rows_in(routes);
    let end = n * 16;
    let mut at = 0;
    while at < end {
        if row_counts(&routes[at..at + 16], connection, id) {
            return at / 16;
        }
        at += 16;
    }
    n
}

// What a row says to a payload of a length (R5.5, R19.1), the first that applies: 21 switched off; 1 a transfer, of any length; 22 longer
// than allowed; 0 taken.
#[tactic(auto, unfolding(crate::specs::Route::reason_in))]
fn reason_in(row: RouteRow, switches: u32, length: u32) -> u8
    ensures { result ≡ reason_in row switches length }
{
    if !is_on(row.groups, switches) {
        return 21;
    }
    if row.transfer {
        return 1;
    }
    if u32::from(row.longest) < length {
        return 22;
    }
    0
}

// What row i says, and 20 where there is no such row.
#[tactic(auto, using(crate::proofs::Laws::reason_row, crate::proofs::Laws::reason_none))]
fn reason_of(routes: &[u8], i: usize, switches: u32, length: u32) -> u8
    ensures { result ≡ reason_of routes.now i switches length }
{
    if i < rows_in(routes) {
        reason_in(row_at::<RouteRow>(routes, i), switches, length)
    } else {
        20
    }
}

// What the routes say: the row's number, of a payload or of a transfer, or the drop reason that applies first (R5.5, R14.4).
// Kept: a rule of the project: drop reasons are decided by a match on a number in a local, and what is no known number is refused.
pub fn lookup(routes: &[u8], connection: u8, switches: u32, id: u32, length: u32) -> Decision
    ensures { result ≡ lookup_of routes.now connection switches id length }
{
    let i = find(routes, connection, id);
    let reason = reason_of(routes, i, switches, length);
    match reason {
        0 => Decision::Accept(i as u8),
        1 => Decision::Transfer(i as u8),
        21 => Decision::Refuse(DropReason::SwitchedOff),
        22 => Decision::Refuse(DropReason::TooLong),
        _ => Decision::Refuse(DropReason::NoRoute),
    }
}
