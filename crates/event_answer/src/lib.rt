// The answer of an event, written into a lent out buffer (docs/EVENTS.md): all of it, or nothing where it does not fit; and how
// many bytes it is. Every function is total.
#![tactic(auto)]

ghost use Rattle.std.specs.Prelude.{◌≡◌, length};
ghost use Rattle.wire.specs.Lay.{spell, lay};
ghost use Rattle.connection.specs.Event.{refusal_number};
ghost use Rattle.event_answer.specs.Answers as Is;

use connection::{Refusal, Remote};
use event_decode::BadCall;
use state::State;
use wire::{copy_in, put8, put16, put32};

// Why an event number and a body have no answer: a number that is no event's; a body that does not fit; an out buffer that is too
// short. Nothing is changed then.
#[derive(Clone, Copy, Debug, PartialEq, Eq)]
pub enum NoAnswer {
    Unknown,
    Unfit,
    Small,
}

// What spells no call has no answer.
impl From<BadCall> for NoAnswer {
    ghost from_gives = { λ bad why. why ≡ Is.no_answer bad };

    fn from(bad: BadCall) -> NoAnswer {
        match bad {
            BadCall::Unknown => NoAnswer::Unknown,
            BadCall::Unfit => NoAnswer::Unfit,
        }
    }
}

// What became of an event number and a body: an answer of so many bytes at the front of the out buffer, or why there is none; and the
// state after it.
#[derive(Clone, Copy)]
pub struct Dispatched {
    pub state: State,
    pub verdict: Result<usize, NoAnswer>,
}

// What every function with an answer asks of its out buffer's length first.
pub fn has_room(long: usize) -> Result<(), NoAnswer>
    ensures { result ≡ Is.has_room long }
{
    if long < 16384 {
        return Err(NoAnswer::Small);
    }
    Ok(())
}

// A number in four bytes.
pub fn put_number(out: &mut [u8], at: usize, v: usize)
    ensures { out.new ≡ lay out.old at (spell 4 v) }
{
    put32(out, at, (v % 4294967296) as u32);
}

#[tactic(auto, using(crate::proofs::Laid::laid))]
pub fn put_refused(out: &mut [u8], number: u16, place: usize) -> usize
    ensures value { result ≡ length (Is.refused number place) }
    ensures out_after { out.new ≡ lay out.old 0 (Is.refused number place) }
{
    if out.len() < 6 {
        return 6;
    }
    put16(out, 0, number);
    put_number(out, 2, place);
    6
}

// The number of a refusal (R4.1).
fn refusal_number(reason: Refusal) -> u16
    ensures { result ≡ refusal_number reason }
{
    match reason {
        Refusal::Memory => 11,
        Refusal::Unsound => 12,
        Refusal::Missing => 2,
        Refusal::Denied => 3,
    }
}

pub fn put_refusal(out: &mut [u8], reason: Refusal) -> usize
    ensures value { result ≡ length (Is.refusal reason) }
    ensures out_after { out.new ≡ lay out.old 0 (Is.refusal reason) }
{
    put_refused(out, refusal_number(reason), 0)
}

#[tactic(auto, using(crate::proofs::Laid::laid))]
pub fn put_done(out: &mut [u8]) -> usize
    ensures value { result ≡ length Is.done_alone }
    ensures out_after { out.new ≡ lay out.old 0 Is.done_alone }
{
    put16(out, 0, 0);
    2
}

// A value after the answer number 0.
#[tactic(auto, using(crate::proofs::Laid::laid))]
pub fn put_done_with(out: &mut [u8], value: &[u8]) -> usize
    ensures value { result ≡ length (Is.done_bytes value.now) }
    ensures out_after { out.new ≡ lay out.old 0 (Is.done_bytes value.now) }
{
    let n = value.len();
    if out.len() < 2 + n {
        return 2 + n;
    }
    put16(out, 0, 0);
    copy_in(out, 2, value);
    2 + n
}

// Twelve bytes 0.
#[tactic(auto, using(crate::proofs::Laid::laid))]
fn put_zeros(out: &mut [u8], at: usize)
    ensures { out.new ≡ lay out.old at (spell 12 0) }
{
    if out.len() < 12 || out.len() - 12 < at {
        return;
    }
    put32(out, at, 0);
    put32(out, at + 4, 0);
    put32(out, at + 8, 0);
}

#[tactic(auto, using(crate::proofs::Laid::laid))]
pub fn put_address(out: &mut [u8], at: usize, remote: Remote)
    ensures { out.new ≡ lay out.old at (Is.address remote) }
{
    if out.len() < 19 || out.len() - 19 < at {
        return;
    }
    put8(out, at, 4);
    put_zeros(out, at + 1);
    put32(out, at + 13, remote.address);
    put16(out, at + 17, remote.port);
}

#[tactic(auto, using(crate::proofs::Laid::laid))]
pub fn put_waiting(out: &mut [u8], remote: Remote, bytes: &[u8]) -> usize
    ensures value { result ≡ length (Is.waiting remote bytes.now) }
    ensures out_after { out.new ≡ lay out.old 0 (Is.waiting remote bytes.now) }
{
    let n = bytes.len();
    if out.len() < 25 + n {
        return 25 + n;
    }
    put16(out, 0, 0);
    put_number(out, 2, n);
    put_address(out, 6, remote);
    copy_in(out, 25, bytes);
    25 + n
}

// What a take or a walk found.
#[tactic(auto, using(crate::proofs::Laid::laid))]
pub fn put_found(out: &mut [u8], at: usize, first: usize, kind: u8, which: u8, id: u32, n: u32)
    ensures { out.new ≡ lay out.old at (Is.found_bytes first kind which id n) }
{
    if out.len() < 14 || out.len() - 14 < at {
        return;
    }
    put_number(out, at, first);
    put8(out, at + 4, kind);
    put8(out, at + 5, which);
    put32(out, at + 6, id);
    put32(out, at + 10, n);
}
