// What is asked before any event: 11 for lent memory of another length, 12 for a table or state that is not sound, and 2 for
// a connection that is not there. Every public function is total.
#![tactic(auto)]

ghost use Rattle.std.specs.Prelude.{◌≡◌, ◌≤◌};
ghost use Rattle.lists.specs.Each.{all_from};
ghost use Rattle.connection.specs.Sound.{online_remote, watched};
ghost use Rattle.state.specs.Fresh.{config_in};
ghost use Rattle.gate.specs.Sound.{routed, records_sound};
ghost use Rattle.gate.specs.Inner.{rules_from, rules_in, row_sound, sound_in, idle, idle_sound, quiet_sound, wished};
ghost use Rattle.gate.specs.Lent.{lent};
ghost use Rattle.table_layout.specs.Layout.{row_width, rows_of, Laid};
ghost use Rattle.table_rows.specs.Rules.{size_in};
ghost use Rattle.gate.specs.Gate.{gate_of, gate_at};

use connection::{Config, Connection, Refusal, Remote};
use receive_part::Part;
use state::State;
use table::check_table;
use table_layout::{Kind, body_laid};
use table_rows::{ConnectionBrief, GroupRow, RouteRow, brief_in, row_at, size_in};

// The route of an unfinished payload belongs to connection n, allows the length and is not marked; that of a transfer belongs to it and is
// marked.
pub fn is_routed(routes: &[u8], n: usize, part: Part) -> bool
    ensures { result ≡ routed routes.now n part }
{
    match part {
        Part::Header { held: _, value: _ } => true,
        Part::Payload {
            route,
            length,
            held: _,
        } => {
            let i = route as usize;
            let row = row_at::<RouteRow>(routes, i);
            let owner = row.connection as usize;
            (i < routes.len() / 16) & (owner == n) & (length <= row.longest) & !row.transfer
        }
        Part::Skip(_) => true,
        Part::Transfer { route, left: _ } => {
            let i = route as usize;
            let row = row_at::<RouteRow>(routes, i);
            let owner = row.connection as usize;
            (i < routes.len() / 16) & (owner == n) & row.transfer
        }
    }
}

// What the rules of a record ask of the table; of remote and start switches they ask nothing.
fn rules_from(row: ConnectionBrief, group: GroupRow) -> Config
    ensures { result ≡ rules_from row group }
{
    let none = Remote {
        address: 0,
        port: 0,
    };
    Config {
        tcp: group.protocol == 2,
        automatic: row.automatic,
        remote: none,
        size: row.size,
        alive: row.alive,
        switches: 0,
    }
}

// What the rules ask of row n, out of the bodies of connections and groups.
fn rules_in(connections: &[u8], groups: &[u8], n: usize) -> Config
    ensures { result ≡ rules_in connections.now groups.now n }
{
    let row = brief_in(connections, n);
    let group = row_at::<GroupRow>(groups, row.group as usize);
    rules_from(row, group)
}

// An online remote has no wildcard.
fn is_reached(c: Connection) -> bool
    ensures { result ≡ online_remote c }
{
    !c.mode.is_online() | !c.remote.has_wildcard()
}

// Whether a record has received nothing and wants nothing: then the rules ask of its row the send size alone, and where it is watched the
// alive limit.
fn is_idle(c: Connection) -> bool
    ensures { result ≡ idle c }
{
    receive_part::is_empty(c.part) & !c.open_wanted & !c.close_wanted
}

// The alive timer runs only on an online UDP connection, and is at most the limit; where it is stopped, no row is asked.
fn is_watched(connections: &[u8], groups: &[u8], n: usize, c: Connection) -> bool
    ensures { result ≡ watched (config_in connections.now groups.now n) c }
{
    if c.watch.alive == 0 {
        return true;
    }
    let rules = rules_in(connections, groups, n);
    c.mode.is_online() & !rules.tcp & (c.watch.alive <= rules.alive)
}

// The rules that are left of such a record: without send bytes no timer and no due mark; with them online, not both, and within the size.
fn is_idle_sound(connections: &[u8], n: usize, c: Connection) -> bool
    ensures { result ≡ idle_sound (size_in (row_width Kind.Connection) connections.now n) c }
{
    if !is_reached(c) {
        return false;
    }
    if c.used == 0 {
        return (c.timer == 0) & !c.due;
    }
    let online = c.mode.is_online();
    let size = size_in(connections, n);
    (c.used as usize <= size) & online & ((c.timer == 0) | !c.due)
}

// All rules that are left of such a record.
fn is_quiet(connections: &[u8], groups: &[u8], n: usize, c: Connection) -> bool
    ensures { result ≡ quiet_sound (config_in connections.now groups.now n) c }
{
    if !is_idle_sound(connections, n, c) {
        return false;
    }
    is_watched(connections, groups, n, c)
}

// What may be wanted: an open on an offline record that is not automatic, and no close with it; a close on any but an automatic UDP record and an
// automatic offline one.
fn is_wished(connections: &[u8], groups: &[u8], n: usize, c: Connection) -> bool
    ensures { result ≡ wished (config_in connections.now groups.now n) c }
{
    if !c.open_wanted & !c.close_wanted {
        return true;
    }
    let offline = c.mode.is_offline();
    let rules = rules_in(connections, groups, n);
    if c.open_wanted {
        return !rules.automatic & offline & !c.close_wanted;
    }
    !rules.automatic | (rules.tcp & !offline)
}

// One record against its row, by the bodies. Of one that has received nothing less is asked.
fn is_sound(
    connections: &[u8],
    groups: &[u8],
    routes: &[u8],
    n: usize,
    connection: Connection,
) -> bool
    ensures { result ≡ row_sound connections.now groups.now routes.now n connection }
{
    if receive_part::is_empty(connection.part) {
        if !is_quiet(connections, groups, n, connection) {
            return false;
        }
        return is_wished(connections, groups, n, connection);
    }
    let rules = rules_in(connections, groups, n);
    let has_route = is_routed(routes, n, connection.part);
    connection.sound(rules) & has_route
}

// Each record of a state, up to the first that is not sound. Most are idle, and the first loop is theirs; from the first that is not, the
// second goes on with the rows, and the third with the records past them.
fn each_sound(
    rows: usize,
    connections: &[u8],
    groups: &[u8],
    routes: &[u8],
    records: &[Connection; 16],
) -> bool
    requires { rows ≤ 16 }
    ensures { result ≡ all_from (sound_in rows connections.now groups.now routes.now) 0 records.now }
{
    // Kept: tried, misses the speed bar: with one `for` over the rows, the long way inside of it makes each turn dearer.
    let mut i: usize = 0;
    while i < rows {
        let connection = records[i];
        if !is_idle(connection) {
            break;
        }
        if !is_quiet(connections, groups, i, connection) {
            return false;
        }
        i += 1;
    }
    while i < rows {
        let connection = records[i];
        if !is_sound(connections, groups, routes, i, connection) {
            return false;
        }
        i += 1;
    }
    while i < 16 {
        let past = records[i];
        if !past.is_zero() {
            return false;
        }
        i += 1;
    }
    true
}

// Whether every record is sound (R3.1); the bodies of the image are asked for once.
fn are_sound(image: &[u8], state: &State) -> bool
    requires { Laid image.now × (rows_of image.now Kind.Connection ≤ 16) }
    ensures { result ≡ records_sound image.now state.now.connections }
{
    let connections = body_laid(image, Kind::Connection);
    let groups = body_laid(image, Kind::Group);
    let routes = body_laid(image, Kind::Route);
    each_sound(
        connections.len() / 16,
        connections,
        groups,
        routes,
        &state.connections,
    )
}

// 11, then 12: before every event.
#[tactic(auto, unfolding(crate::specs::Gate::gate_of, crate::specs::Sound::sound_state))]
pub fn ask(image: &[u8], state: &State, rx: usize, tx: usize) -> Result<(), Refusal>
    ensures { result ≡ gate_of (lent image.now state.now rx tx) }
{
    if (rx != 23424) | (tx != 23552) {
        return Err(Refusal::Memory);
    }
    if check_table(image).is_err() {
        return Err(Refusal::Unsound);
    }
    if !are_sound(image, state) {
        return Err(Refusal::Unsound);
    }
    Ok(())
}

// 11, 12, then 2: before an event of connection n.
#[tactic(auto, unfolding(crate::specs::Gate::gate_at))]
pub fn ask_at(image: &[u8], state: &State, rx: usize, tx: usize, n: usize) -> Result<(), Refusal>
    ensures { result ≡ gate_at (lent image.now state.now rx tx) n }
{
    ask(image, state, rx, tx)?;
    let connections = body_laid(image, Kind::Connection);
    if n < connections.len() / 16 {
        return Ok(());
    }
    Err(Refusal::Missing)
}
