// The table image: its check, with the place of the first fault, and each body handed back as the part of the image that
// it occupies. Everything public is total.
#![tactic(auto)]

ghost use Rattle.std.specs.Prelude.{◌≡◌, [], ◌/◌, ◌≤◌, leb, length};
ghost use Rattle.wire.specs.Place.{behind};
ghost use Rattle.table_layout.specs.Layout.{row_width, rows_of, row_at, body_of, body_at, Laid};
ghost use Rattle.table_scan.specs.Scan.{bad_connection};
ghost use Rattle.table.specs.Table.{
  head_good,
  entry_good,
  front_good,
  demand,
  then_check,
  rows_place,
  entries_place,
  all_rows_place,
  head_place,
  check_table,
  of_kind,
  body_answer,
  body_answer_at,
};

use table_layout::{
    Kind, body_laid, body_of, entry_at, kind_and_rows, most_rows, named_start, row_bytes, rows_of,
    start_of,
};
use table_scan::{first_bad_connection, first_bad_group, first_bad_rows};
use wire::{be16, be32};

// Why an image is refused: the place of its first fault.
#[derive(Clone, Copy, PartialEq, Eq)]
pub enum BadTable {
    At(usize),
}

fn demand_at(ok: bool, place: usize) -> Result<(), BadTable>
    ensures { result ≡ demand ok place }
{
    if ok { Ok(()) } else { Err(BadTable::At(place)) }
}

// ---- bytes 0..3 and the contents

fn head_good(image: &[u8]) -> bool
    ensures { result ≡ head_good image.now }
{
    (be16(image, 0) == 1) & (be16(image, 2) == 4)
}

fn entry_good(image: &[u8], k: Kind) -> bool
    ensures { result ≡ entry_good image.now k }
{
    let at = entry_at(k);
    (be16(image, at) == usize::from(k))
        & (rows_of(image, k) <= most_rows(k))
        & (be32(image, at + 4) == start_of(image, k))
}

#[tactic(auto, unfolding(crate::specs::Table::entries_place, crate::specs::Table::then_check, crate::specs::Table::demand))]
fn entries_place(image: &[u8]) -> Result<(), BadTable>
    ensures { result ≡ entries_place image.now }
{
    demand_at(entry_good(image, Kind::Group), 4)?;
    demand_at(entry_good(image, Kind::Connection), 12)?;
    demand_at(entry_good(image, Kind::Route), 20)?;
    demand_at(entry_good(image, Kind::Destination), 28)
}

#[tactic(auto, unfolding(crate::specs::Table::head_place, crate::specs::Table::then_check))]
fn head_place(image: &[u8]) -> Result<(), BadTable>
    ensures { result ≡ head_place image.now }
{
    demand_at(head_good(image), 0)?;
    entries_place(image)
}

// ---- rows

// A refusal at the row `bad` if there is such a row among as many as the kind has.
fn place_of(image: &[u8], k: Kind, rows: usize, bad: usize) -> Result<(), BadTable>
    requires { rows ≡ rows_of image.now k }
    ensures { result ≡ demand (leb (rows_of image.now k) bad) (row_at image.now k bad) }
{
    if rows <= bad {
        Ok(())
    } else {
        Err(BadTable::At(start_of(image, k) + bad * row_bytes(image, k)))
    }
}

// Asked only where no connection is bad. Without rows nothing is noted, and no mark is cleared.
fn after_connections(image: &[u8]) -> Result<(), BadTable>
    requires laid { Laid image.now }
    requires passed { bad_connection (body_of image.now Kind.Group) (body_of image.now Kind.Connection)
        ≡ length (body_of image.now Kind.Connection) / row_width Kind.Connection }
    ensures { result ≡ then_check (rows_place image.now Kind.Route) (rows_place image.now Kind.Destination) }
{
    let routes = body_laid(image, Kind::Route);
    let destinations = body_laid(image, Kind::Destination);
    if (routes.len() == 0) & (destinations.len() == 0) {
        return Ok(());
    }
    let connections = body_laid(image, Kind::Connection);
    let groups = body_laid(image, Kind::Group);
    let bad = first_bad_rows(routes, destinations, connections, groups);
    place_of(image, Kind::Route, routes.len() / 16, bad.route)?;
    place_of(
        image,
        Kind::Destination,
        destinations.len() / 16,
        bad.destination,
    )
}

fn after_groups(image: &[u8]) -> Result<(), BadTable>
    requires { Laid image.now }
    ensures { result ≡ then_check (rows_place image.now Kind.Connection)
        (then_check (rows_place image.now Kind.Route) (rows_place image.now Kind.Destination)) }
{
    let connections = body_laid(image, Kind::Connection);
    let groups = body_laid(image, Kind::Group);
    let bad = first_bad_connection(connections, groups);
    place_of(image, Kind::Connection, connections.len() / 16, bad)?;
    after_connections(image)
}

fn all_rows_place(image: &[u8]) -> Result<(), BadTable>
    requires { Laid image.now }
    ensures { result ≡ all_rows_place image.now }
{
    let groups = body_laid(image, Kind::Group);
    let bad = first_bad_group(groups);
    place_of(image, Kind::Group, groups.len() / 2, bad)?;
    after_groups(image)
}

// ---- the check

// Edition 1 and the number 4, as one number.
const EDITION: usize = 65540;

// Of a contents entry its kind, times 65,536, and no rows, as one number: of each kind.
const GROUPS: usize = 65536;

const CONNECTIONS: usize = 131072;

const ROUTES: usize = 196608;

const DESTINATIONS: usize = 262144;

// All that is asked before the rows, at once. Kind and row count of a contents entry are one number: that of kind 3 with 64 rows at most is
// from ROUTES to ROUTES + 64. The rows times their width lie between the start of a body and that of the next one; both sides are raised by
// the kind's share of the number, so that nothing is subtracted.
fn is_laid(image: &[u8]) -> bool
    requires { 36 ≤ length image.now }
    ensures { result ≡ front_good image.now }
{
    let front = &image[..36];
    let groups = kind_and_rows(front, Kind::Group);
    let connections = kind_and_rows(front, Kind::Connection);
    let routes = kind_and_rows(front, Kind::Route);
    let destinations = kind_and_rows(front, Kind::Destination);
    let connections_at = named_start(front, Kind::Connection);
    let routes_at = named_start(front, Kind::Route);
    let destinations_at = named_start(front, Kind::Destination);
    (be32(front, 0) == EDITION)
        & (GROUPS <= groups)
        & (groups <= GROUPS + 8)
        & (named_start(front, Kind::Group) == 36)
        & (CONNECTIONS <= connections)
        & (connections <= CONNECTIONS + 16)
        & (connections_at + 2 * GROUPS == 36 + 2 * groups)
        & (ROUTES <= routes)
        & (routes <= ROUTES + 64)
        & (routes_at + 16 * CONNECTIONS == connections_at + 16 * connections)
        & (DESTINATIONS <= destinations)
        & (destinations <= DESTINATIONS + 64)
        & (destinations_at + 16 * ROUTES == routes_at + 16 * routes)
        & (image.len() + 16 * DESTINATIONS == destinations_at + 16 * destinations)
}

// Accepted, or refusal 1 with its place. Field by field the front is asked only where something in it is wrong.
pub fn check_table(image: &[u8]) -> Result<(), BadTable>
    ensures { result ≡ check_table image.now }
{
    if image.len() < 36 {
        return Err(BadTable::At(0));
    }
    if !is_laid(image) {
        head_place(image)?;
        return Err(BadTable::At(2));
    }
    all_rows_place(image)
}

// ---- what is handed back

// The body of the kind with this number; at a number that is no kind's, an empty part.
fn body_numbered(image: &[u8], number: usize) -> &[u8]
    ensures bytes { result.now ≡ of_kind (body_of image.now) [] number }
    ensures place { result.ref_ptr ≡ behind image.entry.ref_ptr (of_kind (body_at image.now) 0 number) }
{
    match number {
        1 => body_of(image, Kind::Group),
        2 => body_of(image, Kind::Connection),
        3 => body_of(image, Kind::Route),
        4 => body_of(image, Kind::Destination),
        _ => &image[..0],
    }
}

// The body of the kind with a number (R1.13); an empty part at any other number, and of an image that is refused.
pub fn body(image: &[u8], number: usize) -> &[u8]
    ensures bytes { result.now ≡ body_answer image.now number }
    ensures place { result.ref_ptr ≡ behind image.entry.ref_ptr (body_answer_at image.now number) }
{
    match check_table(image) {
        Ok(()) => body_numbered(image, number),
        Err(_) => &image[..0],
    }
}
