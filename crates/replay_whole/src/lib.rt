// The replay of a whole recording that is lent: a fresh state under the table, then step after step over its entries (docs/RECORDING.md).
// Every function is total.
#![tactic(auto)]

ghost use Rattle.std.specs.Prelude.{◌≡◌};
ghost use Rattle.replay_whole.specs.Replay as Is;

use event_decode::bytes_from;
use recording::{
    Fault, Unreadable, body_long, distance, entries_in, entry_row, front_of, stamp_in,
};
use replay_step::{Compared, Unplayed, replay_step};
use state::{State, empty_state, fresh_state};
use table::{BadTable, check_table};

// Why a replay ended before all entries were run: the table is refused, with its place; nothing is run, by what the contents show; the out
// buffer is shorter than 16,384 bytes; the entry, from 1, is cut off or refused.
#[derive(Clone, Copy, Debug, PartialEq, Eq)]
pub enum End {
    Table(usize),
    Unread(Unreadable),
    Small,
    Cut(usize),
    Refused { entry: usize, fault: Fault },
}

// The end; the entries and ticks that were run; the first entry whose answer differs, from 1, or 0; and the state.
// Kept: what may not change: `first_other`, and `other_in` of theorem_replay, number the first that differs from 1, with 0 for none.
#[derive(Clone, Copy)]
pub struct Replayed {
    pub end: Result<(), End>,
    pub run: usize,
    pub ticks: u64,
    pub differs: usize,
    pub state: State,
}

#[tactic(auto, unfolding(crate::specs::Replay::is_other))]
fn is_other(played: Result<Compared, Unplayed>) -> bool
    ensures { result ≡ Is.is_other played }
{
    matches!(played, Ok(Compared::Differs(_)))
}

#[tactic(auto, unfolding(crate::specs::Replay::first_other))]
fn first_other(differs: usize, i: u16, other: bool) -> usize
    ensures { result ≡ Is.first_other differs i other }
{
    if differs != 0 {
        return differs;
    }
    if other { i as usize + 1 } else { 0 }
}

#[tactic(auto, unfolding(crate::specs::Replay::end_at))]
fn end_at(i: u16, why: Unplayed) -> End
    ensures { Err result ≡ Is.end_at i (Err why) }
{
    let entry = i as usize + 1;
    match why {
        Unplayed::Small => End::Small,
        Unplayed::Cut => End::Cut(entry),
        Unplayed::Refused(fault) => End::Refused { entry, fault },
    }
}

// Entry after entry, from a state on.
fn play(
    image: &[u8],
    recording: &[u8],
    start: State,
    rx: &mut [u8],
    tx: &mut [u8],
    out: &mut [u8],
) -> Replayed
    ensures value { result ≡ (Is.played_all image.now recording.now rx.old tx.old out.old start).replayed }
    ensures rx_after { rx.new
        ≡ (Is.played_all image.now recording.now rx.old tx.old out.old start).rx }
    ensures tx_after { tx.new
        ≡ (Is.played_all image.now recording.now rx.old tx.old out.old start).tx }
    ensures out_after { out.new
        ≡ (Is.played_all image.now recording.now rx.old tx.old out.old start).out }
{
    let entries = entries_in(recording);
    let mut state = start;
    let mut at = 4 + entries as usize * 12;
    let mut before = stamp_in(entry_row(recording, 0));
    let mut ticks: u64 = 0;
    let mut differs: usize = 0;
    for i in 0..entries {
        let row = entry_row(recording, i);
        let step = replay_step(
            image,
            state,
            rx,
            tx,
            before,
            row,
            bytes_from(recording, at),
            out,
        );
        state = step.state;
        if let Err(why) = step.played {
            return Replayed {
                end: Err(end_at(i, why)),
                run: i as usize,
                ticks,
                differs,
                state,
            };
        }
        ticks += distance(before, stamp_in(row)) as u64;
        at += body_long(row);
        before = stamp_in(row);
        differs = first_other(differs, i, is_other(step.played));
    }
    Replayed {
        end: Ok(()),
        run: entries as usize,
        ticks,
        differs,
        state,
    }
}

// Nothing is run.
fn unrun(end: End, state: State) -> Replayed
    ensures { result ≡ record { end = Err end; run = 0; ticks = 0; differs = 0; state = state } }
{
    Replayed {
        end: Err(end),
        run: 0,
        ticks: 0,
        differs: 0,
        state,
    }
}

#[tactic(auto, unfolding(crate::specs::Replay::under_front))]
fn under_front(
    image: &[u8],
    recording: &[u8],
    shown: Result<(), Unreadable>,
    rx: &mut [u8],
    tx: &mut [u8],
    out: &mut [u8],
) -> Replayed
    ensures value { result ≡ (Is.under_front image.now recording.now rx.old tx.old out.old shown).replayed }
    ensures rx_after { rx.new
        ≡ (Is.under_front image.now recording.now rx.old tx.old out.old shown).rx }
    ensures tx_after { tx.new
        ≡ (Is.under_front image.now recording.now rx.old tx.old out.old shown).tx }
    ensures out_after { out.new
        ≡ (Is.under_front image.now recording.now rx.old tx.old out.old shown).out }
{
    let state = fresh_state(image);
    match shown {
        Ok(()) => play(image, recording, state, rx, tx, out),
        Err(why) => unrun(End::Unread(why), state),
    }
}

// A replay: under a table that is refused nothing is run.
#[tactic(auto, unfolding(crate::specs::Replay::replay_of, crate::specs::Replay::under_table))]
pub fn replay(
    image: &[u8],
    recording: &[u8],
    rx: &mut [u8],
    tx: &mut [u8],
    out: &mut [u8],
) -> Replayed
    ensures value { result ≡ (Is.replay_of image.now recording.now rx.old tx.old out.old).replayed }
    ensures rx_after { rx.new ≡ (Is.replay_of image.now recording.now rx.old tx.old out.old).rx }
    ensures tx_after { tx.new ≡ (Is.replay_of image.now recording.now rx.old tx.old out.old).tx }
    ensures out_after { out.new ≡ (Is.replay_of image.now recording.now rx.old tx.old out.old).out }
{
    match check_table(image) {
        Ok(()) => under_front(image, recording, front_of(recording), rx, tx, out),
        Err(BadTable::At(place)) => unrun(End::Table(place), empty_state()),
    }
}
