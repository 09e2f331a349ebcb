// A script that comes on standard input, run entry by entry and told on standard output: what each entry is and answers, and the records
// at the end (docs/EVENTS.md).
#![tactic(auto)]

use dispatch::dispatch;
use event_start_state::given_state;
use pieces::front;
use state::{State, fresh_state};
use words_record::records;
use words_script::{Last, Stop, answered, read_entry, start_taken, unanswered, word};

// The first entry may give a state to start from.
fn start(
    state: &mut State,
    rx: &mut [u8],
    tx: &mut [u8],
    body: &[u8],
    text: &mut [u8],
    n: u64,
) -> Result<usize, Stop> {
    let given = if n == 1 { given_state(body).ok() } else { None };
    if let Some(other) = given {
        *state = other;
    }
    start_taken(rx, tx, body, given.is_some(), text, n)
}

// One event, through the dispatcher.
fn happen(
    table: &[u8],
    state: &mut State,
    rx: &mut [u8],
    tx: &mut [u8],
    number: u16,
    body: &[u8],
    text: &mut [u8],
    out: &mut [u8],
    n: u64,
) -> Result<usize, Stop> {
    let done = dispatch(table, *state, rx, tx, number, body, out);
    *state = done.state;
    match done.verdict {
        Ok(length) => Ok(answered(text, n, number, body, front(out, length))),
        Err(why) => Err(unanswered(text, n, number, why)),
    }
}

// One entry of the script, and where its line ends: the first may give a state, any other is an event.
fn entry(
    table: &[u8],
    state: &mut State,
    rx: &mut [u8],
    tx: &mut [u8],
    room: &mut [u8],
    text: &mut [u8],
    out: &mut [u8],
    n: u64,
) -> Result<usize, Stop> {
    let read = read_entry(room, text, n)?;
    let body = front(room, read.long);
    if read.number == 65535 {
        return start(state, rx, tx, body, text, n);
    }
    happen(table, state, rx, tx, read.number, body, text, out, n)
}

// Entry after entry, each with its line; how the run ends.
fn entries(
    table: &[u8],
    state: &mut State,
    rx: &mut [u8],
    tx: &mut [u8],
    room: &mut [u8],
    text: &mut [u8],
    out: &mut [u8],
) -> Last {
    for n in 1..u64::MAX {
        match entry(table, state, rx, tx, room, text, out, n) {
            Ok(end) => {
                io::write_all(1, front(text, end));
            }
            Err(stop) => {
                io::write_all(1, front(text, stop.end));
                return stop.last;
            }
        }
    }
    Last::Cut
}

fn run_script(
    table: &[u8],
    rx: &mut [u8],
    tx: &mut [u8],
    room: &mut [u8],
    text: &mut [u8],
    out: &mut [u8],
) {
    let mut state = fresh_state(table);
    let last = entries(table, &mut state, rx, tx, room, text, out);
    let end = records(text, 0, table, &state, rx, tx);
    let all = word(text, end, last);
    io::write_all(1, front(text, all));
}

// Under a table that was accepted, over memory for all connections, an entry, its lines and its answer.
pub fn run_under(table: &[u8]) {
    let mut rx = [0u8; 23424];
    let mut tx = [0u8; 23552];
    let mut room = [0u8; 47720];
    let mut text = [0u8; 131072];
    let mut out = [0u8; 16384];
    run_script(table, &mut rx, &mut tx, &mut room, &mut text, &mut out);
}
