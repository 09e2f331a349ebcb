// The entry points for connection events that concern the record alone, for a switch on all connections, and for the drop
// counts. Each is lent image, state and both memories, and answers any of them. Assumes nothing: no entry relies on its caller.
#![tactic(auto)]

ghost use Rattle.std.specs.Prelude.{◌≡◌, ◌<◌, ◌≤◌};
ghost use Rattle.table_layout.specs.Layout.{rows_of};
ghost use Rattle.entry_events.specs.Change.{change_of, event_of, loss_of};
ghost use Rattle.entry_events.specs.Module.{switched_all, switch_all_of};
ghost use Rattle.entry_events.specs.Count.{read_past, clear_past, read_of, clear_of};
ghost use Rattle.gate.specs.Lent.{lent_by};

use connection::{Connection, Event, Refusal, Remote};
use state::{State, config_laid};
use table_layout::{Kind, rows_of};

// What an event answers, and the state after it.
#[derive(Clone, Copy)]
pub struct Told {
    pub state: State,
    pub answer: Result<(), Refusal>,
}

// What a loss answers, the state after it, and whether it ended a transfer.
#[derive(Clone, Copy)]
pub struct Loss {
    pub state: State,
    pub answer: Result<(), Refusal>,
    pub failed: bool,
}

// The answer, with the state after it.
#[derive(Clone, Copy)]
pub struct Counted {
    pub state: State,
    pub answer: Result<u32, Refusal>,
}

// Any connection event that concerns the record alone: past the gate the event's own 2 and 3, or the record replaced. The state is
// copied once, and the record is put back in the copy; in a refusal it is the one that stood there.
pub fn happen(
    image: &[u8],
    state: State,
    rx: &[u8],
    tx: &[u8],
    connection: u8,
    event: Event,
) -> Told
    ensures { result ≡ event_of (lent_by image.now state rx.now tx.now) connection event }
{
    let n = connection as usize;
    let mut after = state;
    let asked = gate::ask_at(image, &after, rx.len(), tx.len(), n);
    match asked {
        Err(reason) => {
            return Told {
                state: after,
                answer: Err(reason),
            };
        }
        Ok(()) => {
            let before = after.connections[n];
            let stepped = before.step(config_laid(image, n), event);
            after.connections[n] = stepped.connection;
            return Told {
                state: after,
                answer: stepped.answer,
            };
        }
    }
}

pub fn open(image: &[u8], state: State, rx: &[u8], tx: &[u8], connection: u8) -> Told
    ensures { result ≡ event_of (lent_by image.now state rx.now tx.now) connection Event.Open }
{
    happen(image, state, rx, tx, connection, Event::Open)
}

pub fn close(image: &[u8], state: State, rx: &[u8], tx: &[u8], connection: u8) -> Told
    ensures { result ≡ event_of (lent_by image.now state rx.now tx.now) connection Event.Close }
{
    happen(image, state, rx, tx, connection, Event::Close)
}

// A transfer is to end early: wanted like a close, also on an automatic connection; the tick ends it.
pub fn cancel(image: &[u8], state: State, rx: &[u8], tx: &[u8], connection: u8) -> Told
    ensures { result ≡ event_of (lent_by image.now state rx.now tx.now) connection Event.Cancel }
{
    happen(image, state, rx, tx, connection, Event::Cancel)
}

pub fn connected(image: &[u8], state: State, rx: &[u8], tx: &[u8], connection: u8) -> Told
    ensures { result ≡ event_of (lent_by image.now state rx.now tx.now) connection Event.Connected }
{
    happen(image, state, rx, tx, connection, Event::Connected)
}

pub fn lost(image: &[u8], state: State, rx: &[u8], tx: &[u8], connection: u8) -> Loss
    ensures { result ≡ loss_of (lent_by image.now state rx.now tx.now) connection }
{
    let told = happen(image, state, rx, tx, connection, Event::Lost);
    let after = told.state;
    let n = connection as usize;
    if n < 16 {
        let was = state.connections[n];
        let now = after.connections[n];
        return Loss {
            answer: told.answer,
            state: after,
            failed: connection::failed(was, now),
        };
    }
    Loss {
        answer: told.answer,
        state: after,
        failed: false,
    }
}

pub fn set_remote(
    image: &[u8],
    state: State,
    rx: &[u8],
    tx: &[u8],
    connection: u8,
    remote: Remote,
) -> Told
    ensures { result ≡ event_of (lent_by image.now state rx.now tx.now) connection (Event.SetRemote remote) }
{
    happen(image, state, rx, tx, connection, Event::SetRemote(remote))
}

pub fn switch(
    image: &[u8],
    state: State,
    rx: &[u8],
    tx: &[u8],
    connection: u8,
    number: u8,
    on: bool,
) -> Told
    ensures { result ≡ event_of (lent_by image.now state rx.now tx.now) connection (Event.Switch number on) }
{
    happen(
        image,
        state,
        rx,
        tx,
        connection,
        Event::Switch { number, on },
    )
}

// Past the gate: one switch of every connection that the table has.
fn switch_rows(rows: usize, mut state: State, number: u8, on: bool) -> State
    requires { rows ≤ 16 }
    ensures { result ≡ switched_all rows number on state }
{
    for i in 0..rows {
        let connection = state.connections[i];
        let next = connection.switch(number, on);
        state.connections[i] = next;
    }
    state
}

pub fn switch_all(image: &[u8], state: State, rx: &[u8], tx: &[u8], number: u8, on: bool) -> Told
    ensures { result ≡ switch_all_of (lent_by image.now state rx.now tx.now) number on }
{
    let asked = gate::ask(image, &state, rx.len(), tx.len());
    match asked {
        Err(reason) => Told {
            answer: Err(reason),
            state,
        },
        Ok(()) => {
            if number < 32 {
                let after = switch_rows(rows_of(image, Kind::Connection), state, number, on);
                return Told {
                    answer: Ok(()),
                    state: after,
                };
            }
            Told {
                answer: Err(Refusal::Missing),
                state,
            }
        }
    }
}

// Past the gate: the count of protocol 1 (UDP) or 2 (TCP); 3 for another.
fn read_past(state: State, protocol: u8) -> Counted
    ensures { result ≡ read_past state protocol }
{
    match protocol {
        1 => Counted {
            answer: Ok(state.count(false)),
            state,
        },
        2 => Counted {
            answer: Ok(state.count(true)),
            state,
        },
        _ => Counted {
            answer: Err(Refusal::Denied),
            state,
        },
    }
}

// The count of a protocol before the call, and 0 afterwards (R8.10).
fn clear_past(state: State, protocol: u8) -> Counted
    ensures { result ≡ clear_past state protocol }
{
    match protocol {
        1 => {
            let cleared = state.with_count(false, 0);
            Counted {
                answer: Ok(state.count(false)),
                state: cleared,
            }
        }
        2 => {
            let cleared = state.with_count(true, 0);
            Counted {
                answer: Ok(state.count(true)),
                state: cleared,
            }
        }
        _ => Counted {
            answer: Err(Refusal::Denied),
            state,
        },
    }
}

pub fn read_count(image: &[u8], state: State, rx: &[u8], tx: &[u8], protocol: u8) -> Counted
    ensures { result ≡ read_of (lent_by image.now state rx.now tx.now) protocol }
{
    let asked = gate::ask(image, &state, rx.len(), tx.len());
    match asked {
        Err(reason) => Counted {
            answer: Err(reason),
            state,
        },
        Ok(()) => read_past(state, protocol),
    }
}

pub fn clear_count(image: &[u8], state: State, rx: &[u8], tx: &[u8], protocol: u8) -> Counted
    ensures { result ≡ clear_of (lent_by image.now state rx.now tx.now) protocol }
{
    let asked = gate::ask(image, &state, rx.len(), tx.len());
    match asked {
        Err(reason) => Counted {
            answer: Err(reason),
            state,
        },
        Ok(()) => clear_past(state, protocol),
    }
}
