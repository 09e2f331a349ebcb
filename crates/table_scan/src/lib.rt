// The first bad row of each kind's body. A row is tested by itself first; then, where its mark was met before, against
// each earlier row, outside of the loop that most rows stay in. The marks make the search quick; no public contract shows them.
#![tactic(auto)]

ghost use Rattle.std.specs.Prelude.{◌≡◌, ℕ, ◌/◌, ◌<◌, ◌≤◌, Bool, List, length};
ghost use Rattle.wire.specs.Be.{turn};
ghost use Rattle.lists.specs.Search.{every};
ghost use Rattle.table_layout.specs.Layout.{row_width};
ghost use Rattle.table_layout.specs.declared.Kind.TheVariants.{Route, Destination};
ghost use Rattle.table_rows.specs.Rows.{route_row, destination_row};
ghost use Rattle.table_rows.specs.Rules.{route_rule, destination_rule, Sized};
ghost use Rattle.table_scan.specs.Scan.{share, clear_in, bad_of, bad_group, bad_connection, bad_rows};
ghost use Rattle.table_scan.specs.Marks.{mark_of, turned_pair, route_mark, destination_mark, Wide, Agree, Come, Struck};

use table_layout::Kind;
use table_rows::{
    connection_good, destination_good, destinations_share, group_good, owner_of, route_good,
    routes_share,
};
use wire::be8;

// The first bad row of two kinds.
#[derive(Clone, Copy)]
pub struct BadRows {
    pub route: usize,
    pub destination: usize,
}

// The first bad group, or the row count where there is none.
pub fn first_bad_group(body: &[u8]) -> usize
    ensures { result ≡ bad_group body.now }
{
    let n = body.len() / 2;
    for i in 0..n {
        if !group_good(&body[i * 2..i * 2 + 2]) {
            return i;
        }
    }
    n
}

// The first bad connection, or the row count where there is none.
pub fn first_bad_connection(body: &[u8], groups: &[u8]) -> usize
    ensures { result ≡ bad_connection groups.now body.now }
{
    let n = body.len() / 16;
    for i in 0..n {
        if !connection_good(&body[i * 16..i * 16 + 16], groups) {
            return i;
        }
    }
    n
}

// Two rows of a kind share what they may not.
#[tactic(auto, unfolding(crate::specs::Scan::share))]
pub fn rows_share(k: Kind, a: &[u8], b: &[u8]) -> bool
    ensures { result ≡ share k a.now b.now }
{
    match k {
        Kind::Group => false,
        Kind::Connection => false,
        Kind::Route => routes_share(a, b),
        Kind::Destination => destinations_share(a, b),
    }
}

// A number of what a row may share with no other: 32 bits without the lowest `shift`.
#[tactic(auto, unfolding(crate::specs::Marks::mark_of))]
fn mark_of(connection: usize, key: usize, shift: usize) -> usize
    requires { (connection < 256) × (key < 4294967296) × (shift < 64) }
    ensures { result ≡ mark_of shift connection key }
{
    (key * 906386977 + connection * 1426063360) % 4294967296 >> shift
}

// The id's four bytes, the last the highest: of this form the compiler makes one load.
fn turned_id(row: &[u8]) -> usize
    ensures { (result ≡ turn (route_row row.now).id) × (result < 4294967296) }
{
    ((be8(row, 7) * 256 + be8(row, 6)) * 256 + be8(row, 5)) * 256 + be8(row, 4)
}

// The PDU's two bytes, the second the higher: of this form the compiler makes one load.
fn turned_pdu(row: &[u8]) -> usize
    ensures { (result ≡ turned_pair (destination_row row.now).pdu) × (result < 65536) }
{
    be8(row, 9) * 256 + be8(row, 8)
}

// Rows of a kind of which no two may share: what each is asked by itself, what two share, and a mark that rows which share have in common.
trait Marked {
    ghost rule: { Self → List ℕ → Bool };

    ghost shares: { List ℕ → List ℕ → Bool };

    ghost mark_by: { ℕ → List ℕ → ℕ };

    fn is_good(&self, row: &[u8]) -> bool
        ensures { result ≡ rule self.now row.now };

    fn share(&self, a: &[u8], b: &[u8]) -> bool
        ensures { result ≡ shares a.now b.now };

    fn mark(&self, row: &[u8], shift: usize) -> usize
        requires { shift < 64 }
        ensures { result ≡ mark_by shift row.now };
}

// Routes, under the bodies of connections and groups.
#[derive(Clone, Copy)]
struct Routes<'a> {
    connections: &'a [u8],
    groups: &'a [u8],
}

impl<'a> Marked for Routes<'a> {
    ghost rule = { λ s. route_rule s.connections.now s.groups.now };

    ghost shares = { share Route };

    ghost mark_by = { route_mark };

    fn is_good(&self, row: &[u8]) -> bool {
        route_good(row, self.connections, self.groups)
    }

    fn share(&self, a: &[u8], b: &[u8]) -> bool {
        rows_share(Kind::Route, a, b)
    }

    fn mark(&self, row: &[u8], shift: usize) -> usize {
        mark_of(owner_of(row), turned_id(row), shift)
    }
}

// Destinations, under a body of connections with send sizes in their range.
#[derive(Clone, Copy)]
struct Destinations<'a> {
    connections: &'a [u8],

    ghost sized: { Sized connections.now },
}

impl<'a> Marked for Destinations<'a> {
    ghost rule = { λ s. destination_rule s.connections.now };

    ghost shares = { share Destination };

    ghost mark_by = { destination_mark };

    fn is_good(&self, row: &[u8]) -> bool {
        destination_good(row, self.connections)
    }

    fn share(&self, a: &[u8], b: &[u8]) -> bool {
        rows_share(Kind::Destination, a, b)
    }

    fn mark(&self, row: &[u8], shift: usize) -> usize {
        mark_of(owner_of(row), turned_pdu(row), shift)
    }
}

// Row i shares with no earlier row what it may not.
fn is_fresh<R: Marked>(rows: &R, body: &[u8], i: usize) -> bool
    requires { i < length body.now / row_width Kind.Route }
    ensures { result ≡ every (clear_in R.shares (row_width Kind.Route) body.now i) i }
{
    let row = &body[i * 16..i * 16 + 16];
    for j in 0..i {
        if rows.share(&body[j * 16..j * 16 + 16], row) {
            return false;
        }
    }
    true
}

// From row `from` on, the first that is bad by itself or whose mark was met; the row count where there is none. `seen` holds MET at each mark met.
fn next_struck<R: Marked, const MET: u8>(
    rows: &R,
    body: &[u8],
    seen: &mut [u8],
    shift: usize,
    from: usize,
) -> usize
    requires shift_bound { shift < 64 }
    requires agree { Agree R.shares (R.mark_by shift) }
    requires come { Come (R.rule rows.now) R.shares (R.mark_by shift) MET body.now seen.old from }
    ensures { (from ≤ result) × Struck (R.rule rows.now) R.shares (R.mark_by shift) MET body.now seen.new result }
{
    // Kept: a `for` over the row numbers misses the speed bar; the loop goes by the place where a row starts, 16 times its number.
    let end = body.len() / 16 * 16;
    let mut at = from * 16;
    while at < end {
        let row = &body[at..at + 16];
        if !rows.is_good(row) {
            return at / 16;
        }
        let mark = rows.mark(row, shift);
        if seen[mark] == MET {
            return at / 16;
        }
        seen[mark] = MET;
        at += 16;
    }
    at / 16
}

// The first bad row, or the row count where there is none.
fn first_bad<R: Marked, const MET: u8>(
    rows: &R,
    body: &[u8],
    seen: &mut [u8],
    shift: usize,
) -> usize
    requires shift_bound { shift < 64 }
    requires room { (row : List ℕ) → R.mark_by shift row < length seen.old }
    requires agree { Agree R.shares (R.mark_by shift) }
    ensures { result ≡ bad_of (R.rule rows.now) R.shares body.now }
{
    // Kept: no plainer: a turn goes from one row that is struck to the next, however many lie between.
    let n = body.len() / 16;
    let mut i = 0;
    loop {
        i = next_struck::<R, MET>(rows, body, seen, shift, i);
        if n <= i {
            return i;
        }
        if !rows.is_good(&body[i * 16..i * 16 + 16]) {
            return i;
        }
        if !is_fresh(rows, body, i) {
            return i;
        }
        i += 1;
    }
}

// The first bad route and the first bad destination, each the row count where there is none; one set of marks serves both.
fn bad_rows(
    routes: &[u8],
    destinations: &[u8],
    connections: &[u8],
    groups: &[u8],
    seen: &mut [u8],
    shift: usize,
) -> BadRows
    requires wide { Wide shift (length seen.old) }
    requires sized { Sized connections.now }
    ensures { result ≡ bad_rows routes.now destinations.now connections.now groups.now }
{
    BadRows {
        route: first_bad::<Routes, 1>(
            &Routes {
                connections,
                groups,
            },
            routes,
            seen,
            shift,
        ),
        destination: first_bad::<Destinations, 2>(
            &Destinations { connections },
            destinations,
            seen,
            shift,
        ),
    }
}

// The same, where no connection is bad, with as many marks as the table wants: for at most 16 rows of each kind 256 will do, and
// they are cleared sooner.
pub fn first_bad_rows(
    routes: &[u8],
    destinations: &[u8],
    connections: &[u8],
    groups: &[u8],
) -> BadRows
    requires { bad_connection groups.now connections.now ≡ length connections.now / row_width Kind.Connection }
    ensures { result ≡ bad_rows routes.now destinations.now connections.now groups.now }
{
    if (routes.len() <= 256) & (destinations.len() <= 256) {
        let mut few = [0u8; 256];
        return bad_rows(routes, destinations, connections, groups, &mut few, 24);
    }
    let mut many = [0u8; 2048];
    bad_rows(routes, destinations, connections, groups, &mut many, 21)
}
