// bench_replay: replays a recording many times, for a counter of instructions (bench/). Every replay is lent the state and the memories
// that the last one left.
//
// Standard input: that of bench_repeat (bench/input.c); the bytes are the recording.
//   what 0  nothing: what the loop itself costs
//   what 13 a replay of the recording, each entry three ticks after the one before
//   what 16 what 13 does, each entry counted for the foreman's report
// Last word: OK when every answer was the recorded one, REFUSED when one was not, CUT when the input is not what it says.
#![tactic(auto)]

use bench_start::{Turn, read_input, say, say_cut, start};
use event_decode::bytes_from;
use pieces::{after, front};
use recording::{arguments_in, body_long, entries_in, entry_row, front_of, number_in, stamp_in};
use replay_step::{Compared, Step, Unplayed, replay_step};
use report_count::{Run, begin, count, takes_in};
use state::State;
use wire::{be16, put8, u8_at, u32_at};

fn is_same(played: Result<Compared, Unplayed>) -> bool {
    matches!(played, Ok(Compared::Same(_)))
}

// Entry i, from 0, whose body begins at a place, three ticks after the one before.
fn replayed_entry(
    image: &[u8],
    state: State,
    rx: &mut [u8],
    tx: &mut [u8],
    out: &mut [u8],
    recording: &[u8],
    i: u16,
    at: usize,
) -> Step {
    let row = entry_row(recording, i);
    let rest = bytes_from(recording, at);
    let before = stamp_in(row).wrapping_sub(3);
    replay_step(image, state, rx, tx, before, row, rest, out)
}

fn is_sized(recording: &[u8]) -> bool {
    front_of(recording).is_ok()
}

// Where the body behind that of an entry begins.
fn body_after(recording: &[u8], i: u16, at: usize) -> usize {
    after(recording.len(), at, body_long(entry_row(recording, i)))
}

fn written(played: Result<Compared, Unplayed>) -> usize {
    match played {
        Ok(Compared::Same(long) | Compared::Differs(long)) => long,
        Err(_) => 0,
    }
}

// The report after an entry, out of its arguments, which begin a part of the recording, and today's answer.
fn run_after(
    run: Run,
    recording: &[u8],
    i: u16,
    at: usize,
    played: Result<Compared, Unplayed>,
    out: &[u8],
) -> Run {
    let number = number_in(entry_row(recording, i));
    count(
        run,
        number,
        arguments_in(number, bytes_from(recording, at)),
        front(out, written(played)),
    )
}

// The entries of a recording, counted for the report or not; whether each answer is the recorded one.
fn replayed<const COUNTED: bool>(
    image: &[u8],
    state: State,
    rx: &mut [u8],
    tx: &mut [u8],
    out: &mut [u8],
    recording: &[u8],
) -> Turn {
    let count = entries_in(recording);
    let mut now = state;
    let mut run = begin();
    let mut all = is_sized(recording);
    let mut at = 4 + count as usize * 12;
    for i in 0..count {
        let step = replayed_entry(image, now, rx, tx, out, recording, i, at);
        let played = step.played;
        now = step.state;
        let number = number_in(entry_row(recording, i));
        if COUNTED && takes_in(number, front(out, written(played))) != 0 {
            run = run_after(run, recording, i, at, played, out);
        }
        all = all & is_same(played);
        at = body_after(recording, i, at);
    }
    Turn {
        done: all & run.fits,
        state: now,
    }
}

// One turn; a number that is neither does nothing, and says so.
fn once(
    what: u8,
    image: &[u8],
    state: State,
    rx: &mut [u8],
    tx: &mut [u8],
    out: &mut [u8],
    recording: &[u8],
) -> Turn {
    match what {
        0 => Turn { done: true, state },
        13 => replayed::<false>(image, state, rx, tx, out, recording),
        16 => replayed::<true>(image, state, rx, tx, out, recording),
        _ => Turn { done: false, state },
    }
}

// So many turns; whether each did what it names.
fn repeat(
    times: u32,
    place: usize,
    what: u8,
    image: &mut [u8],
    rx: &mut [u8],
    tx: &mut [u8],
    out: &mut [u8],
    recording: &[u8],
) -> bool {
    let mut state = start(image, rx, tx, what);
    let mut all = true;
    for i in 0..times {
        put8(image, place, (i % 256) as u8);
        let turn = once(what % 128, image, state, rx, tx, out, recording);
        state = turn.state;
        all = all & turn.done;
    }
    all
}

// What the head asks for.
fn run(head: &[u8], image: &mut [u8], recording: &[u8]) -> bool {
    let mut rx = [0u8; 23424];
    let mut tx = [0u8; 23552];
    let mut out = [0u8; 16384];
    repeat(
        u32_at(head, 4),
        be16(head, 8),
        u8_at(head, 0),
        image,
        &mut rx,
        &mut tx,
        &mut out,
        recording,
    )
}

// `run` with the image that is the front of a buffer.
fn run_front(head: &[u8], buffer: &mut [u8], long: usize, recording: &[u8]) -> bool {
    if long <= buffer.len() {
        return run(head, &mut buffer[..long], recording);
    }
    false
}

fn main() {
    let mut head = [0u8; 16];
    let mut image = [0u8; 2356];
    let mut bytes = [0u8; 2944];
    if !read_input(&mut head, &mut image, &mut bytes) {
        say_cut();
        return;
    }
    let done = run_front(
        &head,
        &mut image,
        be16(&head, 12),
        front(&bytes, be16(&head, 14)),
    );
    say(done);
}
