// Why an image is refused: the spot that a place of the check names (bytes 0..3, a contents entry, the total length, a
// row), and the first test that fails there, with the number found and the number asked; None where none fails. The
// place that the spot names is the check's (proofs/Named), and nothing is told exactly where the spot is good
// (proofs/Fails). Everything is total.
#![tactic(auto)]

ghost use Rattle.std.specs.Prelude.{◌≡◌, ◌-◌, ◌/◌};
ghost use Rattle.table_layout.specs.Layout.{start_of, row_bytes, row_of};
ghost use Rattle.table.specs.Table.{tcp_of};
ghost use Rattle.table_fault.specs.Spots.{row_spot, spot_of};
ghost use Rattle.table_fault.specs.Faults.{
  passes_test,
  failed,
  head_fault,
  entry_fault,
  total_fault,
  group_fault,
  connection_fault,
  most_mark,
  route_fault,
  destination_fault,
  shared_fault,
  row_fault,
  fault_at,
  reason_at,
};

use table_layout::{
    Kind, body_of, end_of, entry_at, most_rows, row_bytes, row_in, rows_of, start_of,
};
use table_rows::{GroupRow, is_tcp, size_in};
use table_scan::rows_share;
use wire::{be8, be16, be32};

#[derive(Clone, Copy, Debug, PartialEq, Eq)]
pub enum Spot {
    Head,
    Entry(Kind),
    Total,
    Row(Kind, usize),
}

#[derive(Clone, Copy, Debug, PartialEq, Eq)]
pub enum Fault {
    Short,
    Edition,
    Number,
    WrongKind,
    TooMany,
    Offset,
    Length,
    Protocol,
    Zero,
    NoGroup,
    Automatic,
    SendSize,
    NoConnection,
    Longest,
    Trigger,
    Room,
    Shared,
    Transfer,
    NotTcp,
    NotUdp,
}

// A fault, the number found, and the number asked (a limit, the value wanted, the byte's place in its row, or the
// protocol of its group). Of `Shared` the number found is the earlier row's, and asked is 0.
#[derive(Clone, Copy, Debug, PartialEq, Eq)]
pub struct Told {
    pub fault: Fault,
    pub found: usize,
    pub asked: usize,
}

#[derive(Clone, Copy, Debug, PartialEq, Eq)]
pub struct Reason {
    pub spot: Spot,
    pub told: Option<Told>,
}

// ---- the spot of a place

// The number of the row of a kind that starts at a place.
fn row_number(image: &[u8], k: Kind, place: usize) -> usize
    ensures { result ≡ (place - start_of image.now k) / row_bytes image.now k }
{
    let way = place.saturating_sub(start_of(image, k));
    way.checked_div(row_bytes(image, k)).unwrap_or(0)
}

fn row_spot(image: &[u8], place: usize) -> Spot
    ensures { result ≡ row_spot image.now place }
{
    if place < start_of(image, Kind::Connection) {
        return Spot::Row(Kind::Group, row_number(image, Kind::Group, place));
    }
    if place < start_of(image, Kind::Route) {
        return Spot::Row(Kind::Connection, row_number(image, Kind::Connection, place));
    }
    if place < start_of(image, Kind::Destination) {
        return Spot::Row(Kind::Route, row_number(image, Kind::Route, place));
    }
    Spot::Row(
        Kind::Destination,
        row_number(image, Kind::Destination, place),
    )
}

pub fn spot_of(image: &[u8], place: usize) -> Spot
    ensures { result ≡ spot_of image.now place }
{
    match place {
        0 => Spot::Head,
        2 => Spot::Total,
        4 => Spot::Entry(Kind::Group),
        12 => Spot::Entry(Kind::Connection),
        20 => Spot::Entry(Kind::Route),
        28 => Spot::Entry(Kind::Destination),
        _ => row_spot(image, place),
    }
}

// ---- the first test that fails

// The test that a fault names, of the number found and the number asked.
#[tactic(auto, unfolding(crate::specs::Faults::passes_test))]
fn passes(fault: Fault, found: usize, asked: usize) -> bool
    ensures { result ≡ passes_test fault found asked }
{
    match fault {
        Fault::Short => asked <= found,
        Fault::Edition => found == asked,
        Fault::Number => found == asked,
        Fault::WrongKind => found == asked,
        Fault::TooMany => found <= asked,
        Fault::Offset => found == asked,
        Fault::Length => found == asked,
        Fault::Protocol => (1 <= found) & (found <= asked),
        Fault::Zero => found == 0,
        Fault::NoGroup => found < asked,
        Fault::Automatic => found <= asked,
        Fault::SendSize => (8 <= found) & (found <= asked),
        Fault::NoConnection => found < asked,
        Fault::Longest => found <= asked,
        Fault::Trigger => found <= asked,
        Fault::Room => 8 <= asked && found <= asked - 8,
        Fault::Shared => false,
        Fault::Transfer => found <= asked,
        Fault::NotTcp => found <= asked,
        Fault::NotUdp => (found == 0) | (asked != 2),
    }
}

// A fault with its numbers, where they fail its test.
#[tactic(auto, unfolding(crate::specs::Faults::failed, crate::specs::Faults::fault_told))]
fn ask(fault: Fault, found: usize, asked: usize) -> Option<Told>
    ensures { result ≡ failed fault found asked }
{
    if passes(fault, found, asked) {
        return None;
    }
    Some(Told {
        fault,
        found,
        asked,
    })
}

#[tactic(auto, using(crate::proofs::Asks::asks), unfolding(crate::specs::Faults::head_fault))]
fn head_fault(image: &[u8]) -> Option<Told>
    ensures { result ≡ head_fault image.now }
{
    ask(Fault::Short, image.len(), 36)
        .or(ask(Fault::Edition, be16(image, 0), 1))
        .or(ask(Fault::Number, be16(image, 2), 4))
}

#[tactic(auto, using(crate::proofs::Asks::asks), unfolding(crate::specs::Faults::entry_fault))]
fn entry_fault(image: &[u8], k: Kind) -> Option<Told>
    ensures { result ≡ entry_fault image.now k }
{
    let at = entry_at(k);
    ask(Fault::WrongKind, be16(image, at), usize::from(k))
        .or(ask(Fault::TooMany, rows_of(image, k), most_rows(k)))
        .or(ask(Fault::Offset, be32(image, at + 4), start_of(image, k)))
}

#[tactic(auto, using(crate::proofs::Asks::asks), unfolding(crate::specs::Faults::total_fault))]
fn total_fault(image: &[u8]) -> Option<Told>
    ensures { result ≡ total_fault image.now }
{
    ask(Fault::Length, image.len(), end_of(image))
}

#[tactic(auto, using(crate::proofs::Asks::asks), unfolding(crate::specs::Faults::group_fault, table_rows::specs::Rows::group_row))]
fn group_fault(row: &[u8]) -> Option<Told>
    ensures { result ≡ group_fault row.now }
{
    ask(Fault::Protocol, be8(row, 0), 2).or(ask(Fault::Zero, be8(row, 1), 1))
}

// `protocol` is its group's.
#[tactic(auto, using(crate::proofs::Asks::asks), unfolding(crate::specs::Faults::connection_fault, table_rows::specs::Rows::connection_row))]
fn connection_fault(row: &[u8], groups: usize, protocol: usize) -> Option<Told>
    ensures { result ≡ connection_fault groups protocol row.now }
{
    ask(Fault::NoGroup, be8(row, 0), groups)
        .or(ask(Fault::Automatic, be8(row, 1), 1))
        .or(ask(Fault::SendSize, be16(row, 8), 1472))
        .or(ask(Fault::NotUdp, be16(row, 10), protocol))
}

// The highest transfer mark that a route of connection c may have.
fn most_mark(image: &[u8], c: usize) -> usize
    ensures { result ≡ most_mark (tcp_of image.now c) }
{
    let connections = body_of(image, Kind::Connection);
    let groups = body_of(image, Kind::Group);
    if is_tcp(connections, groups, c) { 1 } else { 0 }
}

// `most` is the highest mark of its connection; `shared` is told of a row whose fields are right.
#[tactic(auto, using(crate::proofs::Asks::asks), unfolding(crate::specs::Faults::route_fault, table_rows::specs::Rows::route_row))]
fn route_fault(row: &[u8], connections: usize, most: usize, shared: Option<Told>) -> Option<Told>
    ensures { result ≡ route_fault connections most shared row.now }
{
    let mark = be8(row, 1);
    ask(Fault::NoConnection, be8(row, 0), connections)
        .or(ask(Fault::Transfer, mark, 1))
        .or(ask(Fault::NotTcp, mark, most))
        .or(ask(Fault::Longest, be16(row, 2), 1464))
        .or(ask(Fault::Zero, be16(row, 10), 10))
        .or(shared)
}

// `size` is the send size of its connection.
#[tactic(auto, using(crate::proofs::Asks::asks), unfolding(crate::specs::Faults::destination_fault, table_rows::specs::Rows::destination_row))]
fn destination_fault(
    row: &[u8],
    connections: usize,
    size: usize,
    shared: Option<Told>,
) -> Option<Told>
    ensures { result ≡ destination_fault connections size shared row.now }
{
    let longest = be16(row, 2);
    ask(Fault::NoConnection, be8(row, 0), connections)
        .or(ask(Fault::Trigger, be8(row, 1), 1))
        .or(ask(Fault::Longest, longest, 1464))
        .or(ask(Fault::Room, longest, size))
        .or(shared)
}

fn row_of(image: &[u8], k: Kind, i: usize) -> &[u8]
    ensures { result.now ≡ row_of image.now k i }
{
    row_in(body_of(image, k), row_bytes(image, k), i)
}

// The first earlier row with which row i shares what it may not.
fn shared_fault(image: &[u8], k: Kind, i: usize) -> Option<Told>
    ensures { result ≡ shared_fault image.now k i }
{
    let row = row_of(image, k, i);
    for j in 0..i {
        if rows_share(k, row_of(image, k, j), row) {
            return Some(Told {
                fault: Fault::Shared,
                found: j,
                asked: 0,
            });
        }
    }
    None
}

fn row_fault(image: &[u8], k: Kind, i: usize) -> Option<Told>
    ensures { result ≡ row_fault image.now k i }
{
    let row = row_of(image, k, i);
    match k {
        Kind::Group => group_fault(row),
        Kind::Connection => {
            let group = table_rows::row_of::<GroupRow>(image, be8(row, 0));
            connection_fault(row, rows_of(image, Kind::Group), group.protocol as usize)
        }
        Kind::Route => {
            let shared = shared_fault(image, Kind::Route, i);
            let most = most_mark(image, be8(row, 0));
            route_fault(row, rows_of(image, Kind::Connection), most, shared)
        }
        Kind::Destination => {
            let shared = shared_fault(image, Kind::Destination, i);
            let size = size_in(body_of(image, Kind::Connection), be8(row, 0));
            destination_fault(row, rows_of(image, Kind::Connection), size, shared)
        }
    }
}

#[tactic(auto, unfolding(crate::specs::Faults::fault_at))]
fn fault_at(image: &[u8], spot: Spot) -> Option<Told>
    ensures { result ≡ fault_at image.now spot }
{
    match spot {
        Spot::Head => head_fault(image),
        Spot::Entry(k) => entry_fault(image, k),
        Spot::Total => total_fault(image),
        Spot::Row(k, i) => row_fault(image, k, i),
    }
}

// The reason of a refusal at a place.
#[tactic(auto, unfolding(crate::specs::Faults::reason_at))]
pub fn reason_of(image: &[u8], place: usize) -> Reason
    ensures { result ≡ reason_at image.now place }
{
    let spot = spot_of(image, place);
    let told = fault_at(image, spot);
    Reason { spot, told }
}
