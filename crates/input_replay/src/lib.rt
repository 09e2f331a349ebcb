// The replay of a recording that comes on standard input (docs/RECORDING.md), told on standard output: each entry that is run, with
// today's answer, then the first difference, what was refused or cut, and the records at the end. Each body is read when its turn comes.
#![tactic(auto)]

use input::read_part;
use input_parts::{ALONE, contents_named, contents_within};
use input_recording::{count_of, shown_of};
use pieces::front;
use recording::body_long;
use replay_step::{Compared, Unplayed, replay_step};
use state::{State, fresh_state};
use words_record::records;
use words_replay::{Ending, Tale, differed, next_row, ran, stamp_before, stopped, summary, word};

// How far the replay is: the state, and its tale.
#[derive(Clone, Copy)]
struct Going {
    state: State,
    tale: Tale,
}

// The tale after an entry was played.
fn told(
    text: &mut [u8],
    tale: Tale,
    row: &[u8],
    body: &[u8],
    played: Result<Compared, Unplayed>,
    out: &[u8],
    kept: &mut [u8],
) -> Tale {
    match played {
        Ok(Compared::Same(written)) => ran(text, tale, row, body, front(out, written)),
        Ok(Compared::Differs(written)) => {
            let today = front(out, written);
            ran(text, differed(tale, body, today, kept), row, body, today)
        }
        Err(Unplayed::Cut) => stopped(tale, Ending::Cut(body.len())),
        Err(Unplayed::Refused(fault)) => stopped(tale, Ending::Refused(fault)),
        // cannot come: the out buffer has the room that a step asks for
        Err(Unplayed::Small) => stopped(tale, Ending::Cut(body.len())),
    }
}

// The next entry, whose body is read first.
fn entry(
    table: &[u8],
    going: Going,
    rx: &mut [u8],
    tx: &mut [u8],
    contents: &[u8],
    kept: &mut [u8],
    text: &mut [u8],
) -> Going {
    let mut room = [0u8; 4096];
    let mut out = [0u8; 16384];
    let tale = going.tale;
    let row = next_row(contents, tale.run);
    let got = read_part(&mut room, 0, body_long(row));
    let body = front(&room, got);
    let before = stamp_before(tale.run, tale.before, row);
    let step = replay_step(table, going.state, rx, tx, before, row, body, &mut out);
    let now = told(text, tale, row, body, step.played, &out, kept);
    io::write_all(1, front(text, now.end));
    Going {
        state: step.state,
        tale: now,
    }
}

// So many entries, one after the other.
fn entries(
    table: &[u8],
    contents: &[u8],
    count: u16,
    rx: &mut [u8],
    tx: &mut [u8],
    kept: &mut [u8],
    text: &mut [u8],
) -> Going {
    let mut going = Going {
        state: fresh_state(table),
        tale: Tale::default(),
    };
    for _ in 0..count {
        going = entry(table, going, rx, tx, contents, kept, text);
        if going.tale.ending.is_some() {
            return going;
        }
    }
    going
}

fn replayed(
    table: &[u8],
    contents: &[u8],
    long: usize,
    rx: &mut [u8],
    tx: &mut [u8],
    kept: &mut [u8],
    text: &mut [u8],
) {
    let shown = shown_of(contents, long);
    let count = count_of(shown, contents);
    let going = entries(table, contents, count, rx, tx, kept, text);
    let told = summary(text, contents, long, shown, going.tale, kept);
    let end = records(text, told, table, &going.state, rx, tx);
    let last = word(text, end, shown, going.tale);
    io::write_all(1, front(text, last));
}

// Over memory for all connections, the first entry that differs, and the lines.
fn replay(table: &[u8], contents: &[u8], long: usize) {
    let mut rx = [0u8; 23424];
    let mut tx = [0u8; 23552];
    let mut kept = [0u8; 20480];
    let mut text = [0u8; 589824];
    replayed(
        table, contents, long, &mut rx, &mut tx, &mut kept, &mut text,
    );
}

// Under a table that was accepted; the front and the contents are read first.
pub fn replay_under(table: &[u8]) {
    let mut buffer = [0u8; 48004];
    let got = contents_within(&mut buffer, ALONE);
    let contents = front(&buffer, got);
    replay(table, contents, contents_named(contents, ALONE));
}
