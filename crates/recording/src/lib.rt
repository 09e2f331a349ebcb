// The recording of a shift (docs/RECORDING.md): what its contents show, the distance between two stamps, and whether an entry's body
// fits its event. Every function is total.
#![tactic(auto)]

ghost use Rattle.std.specs.Prelude.{◌≡◌, ◌<◌, ◌≤◌, take, MatchOption};
ghost use Rattle.wire.specs.Place.{behind};
ghost use Rattle.lists.specs.Search.{first_bad};
ghost use Rattle.recording.specs.Recording as Is;
ghost use Rattle.recording.specs.Entry as Of;

use event_decode::{bytes_from, call_of};
use pieces::front;
use table_layout::part_of;
use wire::{be8, be16, be32};

// Why nothing of a recording is run, by its contents: they are cut off; another edition; more than 4,000 entries; the first entry whose
// body is longer than 4,096 bytes, from 0.
#[derive(Clone, Copy, Debug, PartialEq, Eq)]
pub enum Unreadable {
    Contents,
    Edition,
    Many,
    Long(u16),
}

// Why an entry is refused.
#[derive(Clone, Copy, Debug, PartialEq, Eq)]
pub enum Fault {
    FarStamp,
    NoEvent,
    ZeroField,
    Misfit,
}

// ---- the contents

pub fn entry_row(recording: &[u8], i: u16) -> &[u8]
    ensures bytes { result.now ≡ Is.entry_row recording.now i }
    ensures place { result.ref_ptr ≡ behind recording.entry.ref_ptr (Is.entry_row_at recording.now i) }
{
    part_of(recording, 4 + i as usize * 12, 12)
}

pub fn stamp_in(row: &[u8]) -> u32
    ensures { result ≡ Is.stamp_in row.now }
{
    be32(row, 0) as u32
}

// So many ticks after the stamp before, across the wrap.
#[tactic(auto, unfolding(crate::specs::Recording::distance_in))]
pub fn distance(before: u32, stamp: u32) -> u32
    ensures { result ≡ Is.distance_in Is.stamps before stamp }
{
    std::num::wrapping_sub_u32(stamp, before)
}

fn is_short(recording: &[u8], i: u16) -> bool
    ensures { result ≡ Is.body_short recording.now i }
{
    be32(entry_row(recording, i), 8) <= 4096
}

// The first entry whose body is too long.
fn first_long(recording: &[u8], entries: u16) -> Option<u16>
    ensures { MatchOption result (entries ≤ Is.first_long recording.now entries)
        (λ i. (i < entries) × (i ≡ Is.first_long recording.now entries)) }
{
    for i in 0..entries {
        if !is_short(recording, i) {
            return Some(i);
        }
    }
    None
}

// Whether the recording is longer than the contents of so many entries and no longer than is allowed.
#[tactic(auto, unfolding(crate::specs::Recording::sized_of))]
fn sized(recording: &[u8], entries: u16) -> Result<(), Unreadable>
    ensures { result ≡ Is.sized_of recording.now entries }
{
    if recording.len() < 4 + entries as usize * 12 {
        return Err(Unreadable::Contents);
    }
    if 4000 < entries {
        return Err(Unreadable::Many);
    }
    if let Some(long) = first_long(recording, entries) {
        return Err(Unreadable::Long(long));
    }
    Ok(())
}

#[tactic(auto, unfolding(crate::specs::Recording::shown_by))]
pub fn front_of(recording: &[u8]) -> Result<(), Unreadable>
    ensures { result ≡ Is.shown_by recording.now }
{
    if recording.len() < 2 {
        return Err(Unreadable::Contents);
    }
    if be16(recording, 0) != 1 {
        return Err(Unreadable::Edition);
    }
    sized(recording, entries_in(recording))
}

pub fn entries_in(recording: &[u8]) -> u16
    ensures { result ≡ Is.entries_in recording.now }
{
    be16(recording, 2) as u16
}

// ---- a body

// Where the arguments end.
#[tactic(auto, unfolding(crate::specs::Entry::arguments_long))]
fn arguments_long(number: u16, body: &[u8]) -> usize
    ensures { result ≡ Of.arguments_long number body.now }
{
    match number {
        5 => 21,
        6 => 4,
        7 => be32(body, 2) + 6,
        8 => be32(body, 6) + 10,
        9 => 6,
        10 => 21,
        11 => 21,
        12 => be32(body, 3) + 7,
        13 => 3,
        _ => 2,
    }
}

pub fn arguments_in(number: u16, body: &[u8]) -> &[u8]
    ensures bytes { result.now ≡ Of.arguments_in number body.now }
    ensures place { result.ref_ptr ≡ body.entry.ref_ptr }
{
    front(body, arguments_long(number, body))
}

pub fn answer_in(number: u16, body: &[u8]) -> &[u8]
    ensures bytes { result.now ≡ Of.answer_in number body.now }
    ensures place { result.ref_ptr ≡ behind body.entry.ref_ptr (Of.answer_begins number body.now) }
{
    bytes_from(body, arguments_long(number, body))
}

// ---- a recorded answer

#[tactic(auto, unfolding(crate::specs::Entry::take_fits))]
fn take_fits(s: &[u8]) -> bool
    ensures { result ≡ Of.take_fits s.now }
{
    let kind = be8(s, 4);
    if kind == 1 {
        return be8(s, 14) <= 1;
    }
    kind <= 5
}

// Where the payload of a PDU stood: a place in the segment, or its bytes.
#[tactic(auto, unfolding(crate::specs::Entry::pdu_needs))]
fn pdu_needs(s: &[u8]) -> usize
    ensures { result ≡ Of.pdu_needs s.now }
{
    if be8(s, 14) == 0 {
        19
    } else {
        be32(s, 10) + 15
    }
}

// A piece has its place.
#[tactic(auto, unfolding(crate::specs::Entry::other_needs))]
fn other_needs(kind: usize) -> usize
    ensures { result ≡ Of.other_needs kind }
{
    if matches!(kind, 4 | 5) { 18 } else { 14 }
}

// The bytes that a take has in an answer.
#[tactic(auto, unfolding(crate::specs::Entry::take_needs))]
pub fn take_needs(s: &[u8]) -> usize
    ensures { result ≡ Of.take_needs s.now }
{
    let kind = be8(s, 4);
    if kind == 1 {
        return pdu_needs(s);
    }
    other_needs(kind)
}

fn takes_fit(count: u16, s: &[u8]) -> bool
    ensures { result ≡ Of.takes_fit count s.now }
{
    let mut at: usize = 0;
    for _i in 0..count {
        let rest = bytes_from(s, at);
        let needs = take_needs(rest);
        if !(take_fits(rest) & (needs <= rest.len())) {
            return false;
        }
        at += needs;
    }
    at == s.len()
}

#[tactic(auto, unfolding(crate::specs::Entry::segment_fits))]
fn segment_fits(answer: &[u8]) -> bool
    ensures { result ≡ Of.segment_fits answer.now }
{
    (4 <= answer.len()) & takes_fit(be16(answer, 2) as u16, bytes_from(answer, 4))
}

#[tactic(auto, unfolding(crate::specs::Entry::step_fits))]
fn step_fits(answer: &[u8]) -> bool
    ensures { result ≡ Of.step_fits answer.now }
{
    let kind = be8(answer, 6);
    if kind == 1 {
        return answer.len() == 20;
    }
    (kind <= 2) & (answer.len() == 16)
}

fn waiting_fits(answer: &[u8]) -> bool
    ensures { result ≡ Of.waiting_fits answer.now }
{
    be32(answer, 2) + 25 == answer.len()
}

#[tactic(auto, unfolding(crate::specs::Entry::done_long))]
fn done_long(number: u16) -> usize
    ensures { result ≡ Of.done_long number }
{
    match number {
        4 => 3,
        10 => 3,
        11 => 3,
        14 => 6,
        15 => 6,
        _ => 2,
    }
}

#[tactic(auto, unfolding(crate::specs::Entry::done_fits))]
fn done_fits(number: u16, answer: &[u8]) -> bool
    ensures { result ≡ Of.done_fits number answer.now }
{
    match number {
        7 => segment_fits(answer),
        8 => step_fits(answer),
        9 => waiting_fits(answer),
        _ => done_long(number) == answer.len(),
    }
}

#[tactic(auto, unfolding(crate::specs::Entry::answer_fits))]
fn answer_fits(number: u16, answer: &[u8]) -> bool
    ensures { result ≡ Of.answer_fits number answer.now }
{
    if be16(answer, 0) == 0 {
        return done_fits(number, answer);
    }
    answer.len() == 6
}

#[tactic(auto, unfolding(crate::specs::Entry::body_fits, crate::specs::Entry::is_spelt))]
fn body_fits(number: u16, body: &[u8]) -> bool
    ensures { result ≡ Of.body_fits number body.now }
{
    call_of(number, arguments_in(number, body)).is_ok()
        & answer_fits(number, answer_in(number, body))
}

// ---- an entry

pub fn number_in(row: &[u8]) -> u16
    ensures { result ≡ Is.number_in row.now }
{
    be16(row, 4) as u16
}

pub fn body_long(row: &[u8]) -> usize
    ensures { result ≡ Is.body_long row.now }
{
    be32(row, 8)
}

fn is_recorded(number: u16) -> bool
    ensures { result ≡ Of.is_recorded number }
{
    (0 < number) & (number <= 16)
}

#[tactic(auto, unfolding(crate::specs::Entry::fault_of))]
pub fn fault_of(distance: u32, row: &[u8], body: &[u8]) -> Result<(), Fault>
    ensures { result ≡ Of.fault_of distance row.now body.now }
{
    if 65535 < distance {
        return Err(Fault::FarStamp);
    }
    let number = number_in(row);
    if !is_recorded(number) {
        return Err(Fault::NoEvent);
    }
    if be16(row, 6) != 0 {
        return Err(Fault::ZeroField);
    }
    if !body_fits(number, body) {
        return Err(Fault::Misfit);
    }
    Ok(())
}
