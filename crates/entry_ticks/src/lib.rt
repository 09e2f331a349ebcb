// A tick of the whole module, and many ticks under one check, at once where a record has settled. Assumes nothing: no entry relies on its caller.
#![tactic(auto)]

ghost use Rattle.std.specs.Prelude.{◌≡◌, leb, ◌-◌, ◌<◌};
ghost use Rattle.table_layout.specs.Layout.{Laid};
ghost use Rattle.gate.specs.Lent.{lent, lent_by};
ghost use Rattle.entry_ticks.specs.Many.{many_of, turns_next, up_of, still_of, ends_in, stays_of, later_by, settled_of};
ghost use Rattle.entry_ticks.specs.Tick.{marked_of, rows_past, ticks_answer, tick_event, ticks_event};

use connection::{Config, Connection, Refusal};
use state::{State, config_laid};
use table_layout::{Kind, rows_laid};

// What a tick answers, the state after it, and whose transfers it ended: bit k, worth 2 to the k, for connection k.
#[derive(Clone, Copy)]
pub struct Ticked {
    pub state: State,
    pub answer: Result<(), Refusal>,
    pub failed: u16,
}

// Whether a connection is online and not to be closed: the next tick does not turn it, whatever its row says.
fn is_up(c: Connection) -> bool
    ensures { result ≡ up_of c }
{
    !c.close_wanted & c.mode.is_online()
}

// Whether no timer runs.
fn is_still(c: Connection) -> bool
    ensures { result ≡ still_of c }
{
    (c.timer == 0) & (c.watch.alive == 0)
}

// Whether a timer that runs ends within n ticks.
fn ends_in(timer: u16, n: u32) -> bool
    ensures { result ≡ ends_in n timer }
{
    (0 < timer) & (timer as u32 <= n)
}

// Whether a timer lasts for n ticks: it does not end before the last of them.
fn lasts(timer: u16, n: u32) -> bool
    ensures { result ≡ leb n timer }
{
    n <= timer as u32
}

// Whether n ticks do not let it go, whatever the row says.
fn stays(c: Connection, n: u32) -> bool
    ensures { result ≡ stays_of n c }
{
    c.watch.remote_set | !ends_in(c.watch.alive, n)
}

// Whether the next tick turns a record: it closes, starts or reaches.
fn turns_next(config: Config, c: Connection) -> bool
    ensures { result ≡ turns_next config c }
{
    if c.close_wanted {
        return true;
    }
    if c.mode.is_offline() {
        return c.open_wanted | config.automatic;
    }
    c.mode.is_reconnect() & !config.tcp & !c.remote.has_wildcard()
}

// A timer that falls by n, and not below 0.
fn fallen(timer: u16, n: u32) -> u16
    ensures { result ≡ timer - n }
{
    if timer as u32 <= n {
        return 0;
    }
    timer - n as u16
}

// n ticks that let the timers run, at once.
fn later(mut c: Connection, n: u32) -> Connection
    ensures { result ≡ later_by n c }
{
    let ends = ends_in(c.timer, n);
    let timer = fallen(c.timer, n);
    let alive = fallen(c.watch.alive, n);
    c.due = ends | c.due;
    c.timer = timer;
    c.watch.alive = alive;
    c
}

// n ticks at once of a record that the next one does not turn: its timers run, or it is let go and, with a tick left, reached.
fn settled(config: Config, c: Connection, n: u32) -> Connection
    ensures { result ≡ settled_of config n c }
{
    if stays(c, n) | config.tcp {
        return later(c, n);
    }
    let gone = c.let_go(config);
    if lasts(c.watch.alive, n) {
        return gone;
    }
    gone.reach(config)
}

// `count` ticks of one record: single ones while they turn it, and then all that are left at once.
fn tick_many(config: Config, c: Connection, count: u32) -> Connection
    ensures { result ≡ many_of config count c }
{
    let mut next = c;
    for done in 0..count {
        if !turns_next(config, next) {
            return settled(config, next, count - done);
        }
        next = next.tick(config);
    }
    next
}

// A word with bit k set as well.
fn marked(word: u16, k: usize, on: bool) -> u16
    requires { k < 16 }
    ensures { result ≡ marked_of k on word }
{
    if on {
        let one: u16 = 1;
        return word | (one << k);
    }
    word
}

// The rows that tick: none where the gate refuses.
fn rows_past(asked: Result<(), Refusal>, image: &[u8]) -> usize
    requires { asked ≡ Ok tt → Laid image.now }
    ensures { result ≡ rows_past asked image.now }
{
    match asked {
        Err(_) => 0,
        Ok(()) => rows_laid(image, Kind::Connection),
    }
}

// What ticks answer.
fn answer_past(asked: Result<(), Refusal>) -> Result<(), Refusal>
    ensures { result ≡ ticks_answer asked }
{
    asked
}

// `count` ticks of each connection of the table, in order, and whose transfers they end, by the lengths of both memories. The state is
// copied once: the gate is lent the copy, and the records are put back in it; in a refusal no row ticks, so that there is one way out, and
// one copy. Of a connection that is up the row is asked for only where they may let it go, and its transfer goes on; only of one that is
// not up the whole record is read.
pub fn ticks_by(image: &[u8], state: State, rx: usize, tx: usize, count: u32) -> Ticked
    ensures { result ≡ ticks_event (lent image.now state rx tx) count }
{
    let mut after = state;
    let asked = gate::ask(image, &after, rx, tx);
    let rows = rows_past(asked, image);
    let mut failed: u16 = 0;
    for i in 0..rows {
        let connection = after.connections[i];
        if !is_up(connection) {
            let whole = after.connections[i];
            let next = tick_many(config_laid(image, i), whole, count);
            after.connections[i] = next;
            failed = marked(failed, i, connection::failed(whole, next));
            continue;
        }
        if is_still(connection) {
            continue;
        }
        if stays(connection, count) {
            let next = later(connection, count);
            after.connections[i] = next;
            continue;
        }
        let next = settled(config_laid(image, i), connection, count);
        after.connections[i] = next;
    }
    let answer = answer_past(asked);
    Ticked {
        answer,
        state: after,
        failed,
    }
}

pub fn tick(image: &[u8], state: State, rx: &[u8], tx: &[u8]) -> Ticked
    ensures { result ≡ tick_event (lent_by image.now state rx.now tx.now) }
{
    ticks_by(image, state, rx.len(), tx.len(), 1)
}

// `count` ticks under one check.
pub fn ticks(image: &[u8], state: State, rx: &[u8], tx: &[u8], count: u32) -> Ticked
    ensures { result ≡ ticks_event (lent_by image.now state rx.now tx.now) count }
{
    ticks_by(image, state, rx.len(), tx.len(), count)
}
