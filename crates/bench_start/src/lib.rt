// What the programs of the bench share: their standard input, the state before the first call, and what a turn of their loop gives. Each
// connection is opened, ticked once and connected; where it is to be busy, each holds bytes to send.
#![tactic(auto)]

use connection::{Connection, Event, Watch};
use input::read_part;
use state::{State, fresh_state};
use table_layout::{Kind, rows_of};
use table_rows::{ConnectionRow, row_of};
use wire::be16;

// The standard output's number.
const STDOUT_FILENO: i32 = 1;

// Whether the call did what it names, and the state for the next.
#[derive(Clone, Copy)]
pub struct Turn {
    pub state: State,
    pub done: bool,
}

// ---- the input

// Head, image and bytes, as the head says how long they are; whether all are there.
pub fn read_input(head: &mut [u8], image: &mut [u8], bytes: &mut [u8]) -> bool {
    let headed = read_part(head, 0, 16);
    let long = be16(head, 12);
    let n = be16(head, 14);
    let tabled = read_part(image, 0, long);
    let given = read_part(bytes, 0, n);
    headed == 16 && tabled == long && given == n
}

pub fn say_cut() {
    io::write_all(STDOUT_FILENO, b"CUT\n");
}

pub fn say(done: bool) {
    if done {
        io::write_all(STDOUT_FILENO, b"OK\n");
        return;
    }
    io::write_all(STDOUT_FILENO, b"REFUSED\n");
}

// ---- the state

// An event on each connection.
fn each(image: &[u8], state: State, rx: &[u8], tx: &[u8], event: Event) -> State {
    let mut next = state;
    for i in 0..16 {
        next = entry_events::happen(image, next, rx, tx, i, event).state;
    }
    next
}

fn online(image: &[u8], rx: &[u8], tx: &[u8]) -> State {
    let wanted = each(image, fresh_state(image), rx, tx, Event::Open);
    let ticked = entry_ticks::tick(image, wanted, rx, tx);
    each(image, ticked.state, rx, tx, Event::Connected)
}

// Connection i, which holds ten bytes to send: an even one is due, of an odd one a timer runs.
fn busied(c: Connection, i: usize) -> Connection {
    if i % 2 == 0 {
        return c.with_send(10, 0, true);
    }
    c.with_send(10, 65535, false)
}

// Over the rows alone: a loop of sixteen turns would be written out, and the state then copied field by field wherever it goes.
fn busy(rows: usize, state: State) -> State {
    let mut next = state;
    for (i, c) in next.connections.iter_mut().take(rows).enumerate() {
        *c = busied(*c, i);
    }
    next
}

// Connection i, of which every timer runs: it is online and holds ten bytes to send, and its alive timer is at its row's limit.
fn wound_one(image: &[u8], c: Connection, i: usize) -> Connection {
    let watch = Watch {
        alive: row_of::<ConnectionRow>(image, i).alive,
        remote_set: false,
    };
    c.connected().with_send(10, 65535, false).with_watch(watch)
}

// Every timer of every connection that the table has runs.
pub fn wound(image: &[u8], state: State) -> State {
    let rows = rows_of(image, Kind::Connection);
    let mut next = state;
    for (i, c) in next.connections.iter_mut().take(rows).enumerate() {
        *c = wound_one(image, *c, i);
    }
    next
}

// All online, and busy where `what` asks for it.
pub fn start(image: &[u8], rx: &[u8], tx: &[u8], what: u8) -> State {
    let state = online(image, rx, tx);
    if what < 128 {
        return state;
    }
    busy(rows_of(image, Kind::Connection), state)
}
