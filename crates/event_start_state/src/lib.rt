// The state that the bytes of a start state spell, and whether they fit (docs/EVENTS.md). An unsound state fits.
// Every function is total.
#![tactic(auto)]

ghost use Rattle.std.specs.Prelude.{◌≡◌, ◌<◌, ◌^◌};
ghost use Rattle.wire.specs.Be.{be};
ghost use Rattle.lists.specs.Search.{every};
ghost use Rattle.event_start_state.specs.Given as Is;

use connection::{Connection, Mode, Watch};
use event_decode::{bytes_from, is_address, remote_in};
use receive_part::Part;
use state::{State, empty_state};
use wire::{be8, be32, u8_at, u16_at, u32_at};

fn mode_of(n: usize) -> Mode
    ensures { result ≡ Is.mode_of n }
{
    match n {
        0 => Mode::Offline,
        1 => Mode::Reconnect,
        _ => Mode::Online,
    }
}

// Eight bytes.
fn eight_bytes(s: &[u8], at: u8) -> u64
    ensures { result ≡ be 8 s.now at }
{
    let place = at as usize;
    be32(s, place) as u64 * 4294967296 + be32(s, place + 4) as u64
}

fn part_of(s: &[u8]) -> Part
    ensures { result ≡ Is.part_given s.now }
{
    match u8_at(s, 26) {
        0 => Part::Header {
            held: u8_at(s, 29),
            value: eight_bytes(s, 30),
        },
        1 => Part::Payload {
            route: u8_at(s, 27),
            length: u16_at(s, 36),
            held: u16_at(s, 28),
        },
        2 => Part::Skip(u32_at(s, 34)),
        _ => Part::Transfer {
            route: u8_at(s, 27),
            left: u32_at(s, 34),
        },
    }
}

fn part_fits(s: &[u8]) -> bool
    ensures { result ≡ Is.part_fits s.now }
{
    match u8_at(s, 26) {
        0 => u8_at(s, 27) == 0 && u8_at(s, 28) == 0,
        1 => u32_at(s, 30) == 0 && u16_at(s, 34) == 0,
        2 => u8_at(s, 27) == 0 && u16_at(s, 28) == 0 && u32_at(s, 30) == 0,
        3 => u16_at(s, 28) == 0 && u32_at(s, 30) == 0,
        _ => false,
    }
}

#[tactic(auto, unfolding(crate::specs::Given::record_fits))]
fn record_fits(s: &[u8]) -> bool
    ensures { result ≡ Is.record_fits s.now }
{
    let wishes = u8_at(s, 1) <= 1 && u8_at(s, 2) <= 1;
    let marks = u8_at(s, 42) <= 1 && u8_at(s, 45) <= 1;
    u8_at(s, 0) <= 2 && wishes && is_address(bytes_from(s, 3)) && marks && part_fits(s)
}

fn watch_in(s: &[u8]) -> Watch
    ensures { result ≡ Is.watch_in s.now }
{
    Watch {
        alive: u16_at(s, 43),
        remote_set: u8_at(s, 45) == 1,
    }
}

#[tactic(auto, unfolding(crate::specs::Given::record_in))]
fn record_in(s: &[u8]) -> Connection
    ensures { result ≡ Is.record_in s.now }
{
    Connection {
        mode: mode_of(be8(s, 0)),
        open_wanted: u8_at(s, 1) == 1,
        close_wanted: u8_at(s, 2) == 1,
        remote: remote_in(bytes_from(s, 3)),
        switches: u32_at(s, 22),
        part: part_of(s),
        used: u16_at(s, 38),
        timer: u16_at(s, 40),
        due: u8_at(s, 42) == 1,
        watch: watch_in(s),
    }
}

fn all_fit(bytes: &[u8]) -> bool
    ensures { result ≡ every (Is.fits_at bytes.now) 16 }
{
    (0..16).all(|i| record_fits(bytes_from(bytes, i * 46)))
}

fn state_in(bytes: &[u8]) -> State
    ensures { result ≡ Is.state_in bytes.now }
{
    let mut state = empty_state();
    for i in 0..16 {
        state.connections[i] = record_in(bytes_from(bytes, i * 46));
    }
    state.udp_drops = u32_at(bytes, 736);
    state.tcp_drops = u32_at(bytes, 740);
    state
}

// The state that the bytes spell: `Err` has it too, where they do not fit.
#[tactic(auto, unfolding(crate::specs::Given::given_of))]
pub fn given_state(bytes: &[u8]) -> Result<State, State>
    ensures { result ≡ Is.given_of bytes.now }
{
    let state = state_in(bytes);
    if bytes.len() == 47720 && all_fit(bytes) {
        Ok(state)
    } else {
        Err(state)
    }
}
