// Rows of the table image: each kind's row as a value, read by its number, and each kind's rule as a test on a row's
// bytes. A row that is not there is the zero row. Everything is total but `row_laid` and `destination_good`.
#![tactic(auto)]

ghost use Rattle.std.specs.Prelude.{◌≡◌, ℕ, List};
ghost use Rattle.wire.specs.Be.{Number};
ghost use Rattle.table_layout.specs.Layout.{row_width, row_in, row_of, Laid};
ghost use Rattle.table_layout.specs.declared.Kind.{Kind};
ghost use Rattle.table_layout.specs.declared.Kind.TheVariants.{Group, Connection, Route, Destination};
ghost use Rattle.table_rows.specs.Rows.{
  group_row,
  connection_row,
  route_row,
  destination_row,
  brief_in,
};
ghost use Rattle.table_rows.specs.Rules.{
  size_in,
  group_tcp,
  tcp_in,
  group_good,
  connection_rule,
  route_rule,
  destination_rule,
  Sized,
  routes_share,
  destinations_share,
};

use table_layout::{Kind, body_laid, body_of, row_bytes, row_in};
use wire::{be8, be16, be32, u8_at, u16_at, u32_at};

#[derive(Clone, Copy)]
pub struct GroupRow {
    pub protocol: u8,
}

#[derive(Clone, Copy)]
pub struct ConnectionRow {
    pub group: u8,
    pub automatic: bool,
    pub address: u32,
    pub port: u16,
    pub size: u16,
    pub alive: u16,
    pub switches: u32,
}

// What a loop over all connections asks of each row.
#[derive(Clone, Copy)]
pub struct ConnectionBrief {
    pub group: u8,
    pub automatic: bool,
    pub size: u16,
    pub alive: u16,
}

#[derive(Clone, Copy)]
pub struct RouteRow {
    pub connection: u8,
    pub transfer: bool,
    pub longest: u16,
    pub id: u32,
    pub pdu: u16,
    pub groups: u32,
}

#[derive(Clone, Copy)]
pub struct DestinationRow {
    pub connection: u8,
    pub trigger: bool,
    pub longest: u16,
    pub id: u32,
    pub pdu: u16,
    pub timeout: u16,
    pub groups: u32,
}

// ---- rows as values

// A kind's row as a value: what its bytes stand for.
pub trait Row: Sized {
    ghost KIND: { Kind };

    ghost row_of_bytes: { List ℕ → Self };

    const KIND: Kind;

    fn value(row: &[u8]) -> Self
        ensures { result ≡ row_of_bytes row.now };
}

impl Row for GroupRow {
    ghost KIND = { Group };

    ghost row_of_bytes = { group_row };

    const KIND: Kind = Kind::Group;

    #[tactic(auto, unfolding(crate::specs::Rows::group_row))]
    fn value(row: &[u8]) -> GroupRow {
        GroupRow {
            protocol: u8_at(row, 0),
        }
    }
}

impl Row for ConnectionRow {
    ghost KIND = { Connection };

    ghost row_of_bytes = { connection_row };

    const KIND: Kind = Kind::Connection;

    #[tactic(auto, unfolding(crate::specs::Rows::connection_row))]
    fn value(row: &[u8]) -> ConnectionRow {
        ConnectionRow {
            group: u8_at(row, 0),
            automatic: be8(row, 1) == 1,
            address: u32_at(row, 2),
            port: u16_at(row, 6),
            size: u16_at(row, 8),
            alive: u16_at(row, 10),
            switches: u32_at(row, 12),
        }
    }
}

impl Row for RouteRow {
    ghost KIND = { Route };

    ghost row_of_bytes = { route_row };

    const KIND: Kind = Kind::Route;

    #[tactic(auto, unfolding(crate::specs::Rows::route_row))]
    fn value(row: &[u8]) -> RouteRow {
        RouteRow {
            connection: u8_at(row, 0),
            transfer: be8(row, 1) == 1,
            longest: u16_at(row, 2),
            id: u32_at(row, 4),
            pdu: u16_at(row, 8),
            groups: u32_at(row, 12),
        }
    }
}

impl Row for DestinationRow {
    ghost KIND = { Destination };

    ghost row_of_bytes = { destination_row };

    const KIND: Kind = Kind::Destination;

    #[tactic(auto, unfolding(crate::specs::Rows::destination_row))]
    fn value(row: &[u8]) -> DestinationRow {
        DestinationRow {
            connection: u8_at(row, 0),
            trigger: be8(row, 1) == 1,
            longest: u16_at(row, 2),
            id: u32_at(row, 4),
            pdu: u16_at(row, 8),
            timeout: u16_at(row, 10),
            groups: u32_at(row, 12),
        }
    }
}

// ---- rows by their number

// Row i of a body of such rows.
pub fn row_at<R: Row>(body: &[u8], i: usize) -> R
    ensures { result ≡ R.row_of_bytes (row_in (row_width R.KIND) body.now i) }
{
    R::value(row_in(body, row_bytes(body, R::KIND), i))
}

// The same, and no more than a loop over all connections asks for.
#[tactic(auto, unfolding(crate::specs::Rows::connection_row))]
pub fn brief_in(body: &[u8], i: usize) -> ConnectionBrief
    ensures { result ≡ brief_in body.now i }
{
    let row = row_in(body, 16, i);
    ConnectionBrief {
        group: u8_at(row, 0),
        automatic: be8(row, 1) == 1,
        size: u16_at(row, 8),
        alive: u16_at(row, 10),
    }
}

// Row i of an image.
pub fn row_of<R: Row>(image: &[u8], i: usize) -> R
    ensures { result ≡ R.row_of_bytes (row_of image.now R.KIND i) }
{
    row_at(body_of(image, R::KIND), i)
}

// The same, of an image that is laid out as its contents say.
pub fn row_laid<R: Row>(image: &[u8], i: usize) -> R
    requires { Laid image.now }
    ensures { result ≡ R.row_of_bytes (row_of image.now R.KIND i) }
{
    row_at(body_laid(image, R::KIND), i)
}

// ---- each row by itself

#[tactic(auto, unfolding(crate::specs::Rules::group_good, crate::specs::Rows::group_row))]
pub fn group_good(row: &[u8]) -> bool
    ensures { result ≡ group_good row.now }
{
    let protocol = be8(row, 0);
    (1 <= protocol) & (protocol <= 2) & (be8(row, 1) == 0)
}

// Group g is TCP, out of the body of groups.
#[tactic(auto, unfolding(crate::specs::Rules::group_tcp, crate::specs::Rows::group_row))]
pub fn is_group_tcp(groups: &[u8], g: usize) -> bool
    ensures { result ≡ group_tcp (row_width Kind.Group) groups.now g }
{
    be8(row_in(groups, 2, g), 0) == 2
}

// The protocol is asked for only where there is an alive limit.
pub fn connection_good(row: &[u8], groups: &[u8]) -> bool
    ensures { result ≡ connection_rule groups.now row.now }
{
    let size = be16(row, 8);
    let group = be8(row, 0);
    let good = (group < groups.len() / 2) & (be8(row, 1) <= 1) & (8 <= size) & (size <= 1472);
    if !good {
        return false;
    }
    if be16(row, 10) == 0 {
        return true;
    }
    !is_group_tcp(groups, group)
}

// The connection of a route or a destination: the rules read a row's first four bytes as one number.
pub fn owner_of(row: &[u8]) -> usize
    ensures { Number 1 row.now 0 result }
{
    be32(row, 0) / 16777216
}

// Connection c is TCP, out of the bodies of connections and groups.
#[tactic(auto, unfolding(crate::specs::Rules::tcp_in, crate::specs::Rows::connection_row))]
pub fn is_tcp(connections: &[u8], groups: &[u8], c: usize) -> bool
    ensures { result ≡ tcp_in (row_width Kind.Group) groups.now (row_width Kind.Connection) connections.now c }
{
    is_group_tcp(groups, be8(row_in(connections, 16, c), 0))
}

// Transfer mark (65,536) and longest payload are one number as well. The protocol is asked for only where there is a mark; a row
// without one is tested by itself, so that it costs what it would cost without marks.
pub fn route_good(row: &[u8], connections: &[u8], groups: &[u8]) -> bool
    ensures { result ≡ route_rule connections.now groups.now row.now }
{
    let head = be32(row, 0);
    let low = head % 16777216;
    if low <= 1464 {
        return (head / 16777216 < connections.len() / 16) & (be32(row, 8) % 65536 == 0);
    }
    if low < 65536 {
        return false;
    }
    if 67000 < low {
        return false;
    }
    (head / 16777216 < connections.len() / 16)
        & (be32(row, 8) % 65536 == 0)
        & is_tcp(connections, groups, head / 16777216)
}

// The send size of connection c, out of the body of connections.
#[tactic(auto, unfolding(crate::specs::Rules::size_in, crate::specs::Rows::connection_row))]
pub fn size_in(connections: &[u8], c: usize) -> usize
    ensures { result ≡ size_in (row_width Kind.Connection) connections.now c }
{
    be16(row_in(connections, 16, c), 8)
}

// The same, with the trigger in the place of the transfer mark. A longest payload that fits a send size with 8 more is at most 1,464,
// and is not tested by itself.
pub fn destination_good(row: &[u8], connections: &[u8]) -> bool
    requires { Sized connections.now }
    ensures { result ≡ destination_rule connections.now row.now }
{
    let head = be32(row, 0);
    let connection = head / 16777216;
    if connections.len() / 16 <= connection {
        return false;
    }
    let at = connection * 16;
    let owner = &connections[at..at + 16];
    let low = head % 16777216;
    (low < 131072) & (head % 65536 + 8 <= be16(owner, 8))
}

// ---- rows two by two

#[tactic(auto, unfolding(crate::specs::Rules::routes_share, crate::specs::Rows::route_row))]
pub fn routes_share(a: &[u8], b: &[u8]) -> bool
    ensures { result ≡ routes_share a.now b.now }
{
    (be8(a, 0) == be8(b, 0)) & (be32(a, 4) == be32(b, 4))
}

#[tactic(auto, unfolding(crate::specs::Rules::destinations_share, crate::specs::Rows::destination_row))]
pub fn destinations_share(a: &[u8], b: &[u8]) -> bool
    ensures { result ≡ destinations_share a.now b.now }
{
    (be16(a, 8) == be16(b, 8)) & (be8(a, 0) == be8(b, 0))
}
