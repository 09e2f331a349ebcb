// The call that an event number and a body spell (docs/EVENTS.md). Bytes stay in the body: a call names where they begin, and
// they end the body. Every function is total.
#![tactic(auto)]

ghost use Rattle.wire.specs.Place.{behind, from_at};
ghost use Rattle.std.specs.Prelude.{◌≡◌};
ghost use Rattle.wire.specs.Be.{be};
ghost use Rattle.event_decode.specs.Calls as Is;

use connection::{Event, Remote};
use wire::{be32, u8_at, u16_at, u32_at};

// An event with its arguments.
#[derive(Clone, Copy)]
pub enum Call {
    Ticks(u32),
    Own {
        connection: u8,
        event: Event,
    },
    Lost(u8),
    Segment {
        connection: u8,
        at: usize,
    },
    Walk {
        connection: u8,
        place: u32,
        at: usize,
    },
    TakeWaiting {
        connection: u8,
        room: u32,
    },
    Datagram {
        group: u8,
        source: Remote,
    },
    Accept {
        group: u8,
        source: Remote,
    },
    Transmit {
        pdu: u16,
        at: usize,
    },
    SwitchAll {
        number: u8,
        on: bool,
    },
    ReadCount(u8),
    ClearCount(u8),
}

// Why a number and a body spell no call: the number is no event's; the body is not laid out as its event's.
#[derive(Clone, Copy, Debug, PartialEq, Eq)]
pub enum BadCall {
    Unknown,
    Unfit,
}

// The bytes from a place on; none past the end.
pub fn bytes_from(body: &[u8], at: usize) -> &[u8]
    ensures bytes { result.now ≡ Is.bytes_from body.now at }
    ensures place { result.ref_ptr ≡ behind body.entry.ref_ptr (from_at body.now at) }
{
    // Kept: no plainer, because `get(at..)` says nothing of where its part stands, which the clause `place` names
    if body.len() < at {
        &body[..0]
    } else {
        &body[at..]
    }
}

// ---- when a body fits

fn is_plain(body: &[u8], n: usize) -> bool
    ensures { result ≡ Is.plain body.now n }
{
    body.len() == n && u8_at(body, 0) == 0
}

fn is_counted(body: &[u8], at: u8) -> bool
    ensures { result ≡ Is.length_fits body.now at }
{
    let place = at as usize;
    be32(body, place) + (place + 4) == body.len() && u8_at(body, 0) == 0 && body.len() <= 4096
}

pub fn is_address(s: &[u8]) -> bool
    ensures { result ≡ Is.address_fits s.now }
{
    u8_at(s, 0) == 4 && u32_at(s, 1) == 0 && u32_at(s, 5) == 0 && u32_at(s, 9) == 0
}

pub fn remote_in(s: &[u8]) -> Remote
    ensures { result ≡ Is.remote_in s.now }
{
    Remote {
        address: u32_at(s, 13),
        port: u16_at(s, 17),
    }
}

// The address of a body that has one behind its connection or group.
fn remote_of(body: &[u8]) -> Remote
    ensures { result ≡ Is.remote_in (Is.bytes_from body.now 2) }
{
    remote_in(bytes_from(body, 2))
}

fn is_addressed(body: &[u8]) -> bool
    ensures { result ≡ Is.addressed body.now }
{
    is_plain(body, 21) && is_address(bytes_from(body, 2))
}

fn is_positioned(body: &[u8], n: usize, at: usize) -> bool
    ensures { result ≡ Is.positioned body.now n at }
{
    is_plain(body, n) && u8_at(body, at) <= 1
}

// ---- the call

// What a body names behind its party: a connection, a group, a switch or a protocol.
fn named(body: &[u8]) -> u8
    ensures { result ≡ be 1 body.now 1 }
{
    u8_at(body, 1)
}

fn fitted(fits: bool, call: Call) -> Result<Call, BadCall>
    ensures { result ≡ Is.fitted fits call }
{
    if fits { Ok(call) } else { Err(BadCall::Unfit) }
}

// An event of a connection that concerns its record alone.
fn own(connection: u8, event: Event) -> Call
    ensures { result ≡ Call.Own connection event }
{
    Call::Own { connection, event }
}

#[tactic(auto, unfolding(crate::specs::Calls::call_of))]
pub fn call_of(number: u16, body: &[u8]) -> Result<Call, BadCall>
    ensures { result ≡ Is.call_of number body.now }
{
    match number {
        0 => fitted(body.len() == 4, Call::Ticks(u32_at(body, 0))),
        1 => fitted(is_plain(body, 2), own(named(body), Event::Open)),
        2 => fitted(is_plain(body, 2), own(named(body), Event::Close)),
        3 => fitted(is_plain(body, 2), own(named(body), Event::Connected)),
        4 => fitted(is_plain(body, 2), Call::Lost(named(body))),
        5 => fitted(
            is_addressed(body),
            own(named(body), Event::SetRemote(remote_of(body))),
        ),
        6 => fitted(
            is_positioned(body, 4, 3),
            own(
                named(body),
                Event::Switch {
                    number: u8_at(body, 2),
                    on: u8_at(body, 3) == 1,
                },
            ),
        ),
        7 => fitted(
            is_counted(body, 2),
            Call::Segment {
                connection: named(body),
                at: 6,
            },
        ),
        8 => fitted(
            is_counted(body, 6),
            Call::Walk {
                connection: named(body),
                place: u32_at(body, 2),
                at: 10,
            },
        ),
        9 => fitted(
            is_plain(body, 6),
            Call::TakeWaiting {
                connection: named(body),
                room: u32_at(body, 2),
            },
        ),
        10 => fitted(
            is_addressed(body),
            Call::Datagram {
                group: named(body),
                source: remote_of(body),
            },
        ),
        11 => fitted(
            is_addressed(body),
            Call::Accept {
                group: named(body),
                source: remote_of(body),
            },
        ),
        12 => fitted(
            is_counted(body, 3),
            Call::Transmit {
                pdu: u16_at(body, 1),
                at: 7,
            },
        ),
        13 => fitted(
            is_positioned(body, 3, 2),
            Call::SwitchAll {
                number: named(body),
                on: u8_at(body, 2) == 1,
            },
        ),
        14 => fitted(is_plain(body, 2), Call::ReadCount(named(body))),
        15 => fitted(is_plain(body, 2), Call::ClearCount(named(body))),
        16 => fitted(is_plain(body, 2), own(named(body), Event::Cancel)),
        _ => Err(BadCall::Unknown),
    }
}
