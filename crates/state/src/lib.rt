// Sixteen connection records and two drop counts in one state, by value; what the table says of a connection; the fresh
// state. Every function but `config_laid` is total.
#![tactic(auto)]

ghost use Rattle.std.specs.Prelude.{◌≡◌};
ghost use Rattle.table_layout.specs.Layout.{Laid};
ghost use Rattle.state.specs.State.{count_of, counted, dropped_of, with_count};
ghost use Rattle.state.specs.Fresh.{config_from, config_in, config_of, fresh_state, empty_state};

use connection::{Config, Connection, Remote};
use table_rows::{ConnectionRow, GroupRow, row_at, row_laid, row_of};

#[derive(Clone, Copy)]
pub struct State {
    pub connections: [Connection; 16],
    pub udp_drops: u32,
    pub tcp_drops: u32,
}

// One drop more; the count stops at its top.
pub fn counted_once(count: u32) -> u32
    ensures { result ≡ counted count }
{
    if count < 4294967295 {
        return count + 1;
    }
    count
}

impl State {
    // The drop count of a protocol.
    pub fn count(self, tcp: bool) -> u32
        ensures { result ≡ count_of tcp self }
    {
        if tcp { self.tcp_drops } else { self.udp_drops }
    }

    // The state with another drop count of a protocol.
    pub fn with_count(mut self, tcp: bool, count: u32) -> State
        ensures { result ≡ with_count tcp count self }
    {
        if tcp {
            self.tcp_drops = count;
            return self;
        }
        self.udp_drops = count;
        self
    }

    // One drop more of a protocol.
    pub fn dropped(self, tcp: bool) -> State
        ensures { result ≡ dropped_of tcp self }
    {
        let count = self.count(tcp);
        self.with_count(tcp, counted_once(count))
    }
}

// What a connection row and its group's row say.
pub fn config_from(row: ConnectionRow, group: GroupRow) -> Config
    ensures { result ≡ config_from row group }
{
    let remote = Remote {
        address: row.address,
        port: row.port,
    };
    Config {
        tcp: group.protocol == 2,
        automatic: row.automatic,
        remote,
        size: row.size,
        alive: row.alive,
        switches: row.switches,
    }
}

// What the bodies of connections and groups say of connection i: for loops, which ask for the bodies once.
pub fn config_in(connections: &[u8], groups: &[u8], i: usize) -> Config
    ensures { result ≡ config_in connections.now groups.now i }
{
    let row = row_at::<ConnectionRow>(connections, i);
    let group = row_at::<GroupRow>(groups, row.group as usize);
    config_from(row, group)
}

// What the table says of connection i.
pub fn config_of(image: &[u8], i: usize) -> Config
    ensures { result ≡ config_of image.now i }
{
    let row = row_of::<ConnectionRow>(image, i);
    let group = row_of::<GroupRow>(image, row.group as usize);
    config_from(row, group)
}

// The same, of an image that is laid out as its contents say.
pub fn config_laid(image: &[u8], i: usize) -> Config
    requires { Laid image.now }
    ensures { result ≡ config_of image.now i }
{
    let row = row_laid::<ConnectionRow>(image, i);
    let group = row_laid::<GroupRow>(image, row.group as usize);
    config_from(row, group)
}

// The state of the empty table.
pub fn empty_state() -> State
    ensures { result ≡ empty_state }
{
    let remote = Remote {
        address: 0,
        port: 0,
    };
    let config = Config {
        tcp: false,
        automatic: false,
        remote,
        size: 0,
        alive: 0,
        switches: 0,
    };
    let zero = connection::fresh(config);
    let connections = [zero; 16];
    State {
        connections,
        udp_drops: 0,
        tcp_drops: 0,
    }
}

// The fresh state of a table.
pub fn fresh_state(image: &[u8]) -> State
    ensures { result ≡ fresh_state image.now }
{
    let mut next = empty_state();
    for i in 0..16 {
        let config = config_of(image, i);
        let record = connection::fresh(config);
        next.connections[i] = record;
    }
    next
}
