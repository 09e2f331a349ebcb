// Calls of the entry points of arrivals, of record events, of switches, counts and many ticks, by what they are (main.rt lists them). Each
// leaves a state that the next call of it, or of a round, may begin from.
use bench_start::{Turn, wound};
use connection::Remote;
use event_decode::bytes_from;
use select::NotMet;
use state::State;
use wire::{be8, u8_at, u16_at, u32_at};

fn is_met(answer: Result<u8, NotMet>, connection: u8) -> bool {
    matches!(answer, Ok(met) if met == connection)
}

// The image from the row of a connection on.
fn row_of(image: &[u8], connection: u8) -> &[u8] {
    bytes_from(image, 36 + be8(image, 7) * 2 + connection as usize * 16)
}

// The group of a connection, and its configured remote.
fn group_of(image: &[u8], connection: u8) -> u8 {
    u8_at(row_of(image, connection), 0)
}

fn remote_of(image: &[u8], connection: u8) -> Remote {
    let row = row_of(image, connection);
    Remote {
        address: u32_at(row, 2),
        port: u16_at(row, 6),
    }
}

pub fn arrive(image: &[u8], state: State, rx: &[u8], tx: &[u8], connection: u8) -> Turn {
    let source = remote_of(image, connection);
    let group = group_of(image, connection);
    let arrived = entry_arrivals::datagram(image, state, rx, tx, group, source);
    Turn {
        done: is_met(arrived.answer, connection),
        state: arrived.state,
    }
}

pub fn switch(image: &[u8], state: State, rx: &[u8], tx: &[u8], connection: u8) -> Turn {
    let told = entry_events::switch(image, state, rx, tx, connection, 0, true);
    Turn {
        done: told.answer.is_ok(),
        state: told.state,
    }
}

pub fn switch_all(image: &[u8], state: State, rx: &[u8], tx: &[u8]) -> Turn {
    let told = entry_events::switch_all(image, state, rx, tx, 0, true);
    Turn {
        done: told.answer.is_ok(),
        state: told.state,
    }
}

pub fn clear(image: &[u8], state: State, rx: &[u8], tx: &[u8]) -> Turn {
    let counted = entry_events::clear_count(image, state, rx, tx, 1);
    Turn {
        done: counted.answer.is_ok(),
        state: counted.state,
    }
}

pub fn lost(image: &[u8], state: State, rx: &[u8], tx: &[u8], connection: u8) -> Turn {
    let loss = entry_events::lost(image, state, rx, tx, connection);
    Turn {
        done: loss.answer.is_ok(),
        state: loss.state,
    }
}

pub fn connected(image: &[u8], state: State, rx: &[u8], tx: &[u8], connection: u8) -> Turn {
    let told = entry_events::connected(image, state, rx, tx, connection);
    Turn {
        done: told.answer.is_ok(),
        state: told.state,
    }
}

// From the configured remote.
pub fn accept(image: &[u8], state: State, rx: &[u8], tx: &[u8], connection: u8) -> Turn {
    let source = remote_of(image, connection);
    let group = group_of(image, connection);
    let arrived = entry_arrivals::accept(image, state, rx, tx, group, source);
    Turn {
        done: is_met(arrived.answer, connection),
        state: arrived.state,
    }
}

pub fn set_remote(image: &[u8], state: State, rx: &[u8], tx: &[u8], connection: u8) -> Turn {
    let source = Remote {
        address: 167772161,
        port: 30490,
    };
    let told = entry_events::set_remote(image, state, rx, tx, connection, source);
    Turn {
        done: told.answer.is_ok(),
        state: told.state,
    }
}

pub fn close(image: &[u8], state: State, rx: &[u8], tx: &[u8], connection: u8) -> Turn {
    let told = entry_events::close(image, state, rx, tx, connection);
    Turn {
        done: told.answer.is_ok(),
        state: told.state,
    }
}

pub fn open(image: &[u8], state: State, rx: &[u8], tx: &[u8], connection: u8) -> Turn {
    let told = entry_events::open(image, state, rx, tx, connection);
    Turn {
        done: told.answer.is_ok(),
        state: told.state,
    }
}

pub fn ticks(image: &[u8], state: State, rx: &[u8], tx: &[u8], count: u32) -> Turn {
    let ticked = entry_ticks::ticks(image, state, rx, tx, count);
    Turn {
        done: ticked.answer.is_ok(),
        state: ticked.state,
    }
}

// Many ticks, before which every timer is started.
pub fn ticks_wound(image: &[u8], state: State, rx: &[u8], tx: &[u8], count: u32) -> Turn {
    ticks(image, wound(image, state), rx, tx, count)
}
