// tally: a table image and recordings on standard input, each with its length before it; how each recording ended, and one report over all of
// them, on standard output (docs/RECORDING.md, "Several recordings"). What counts is crate report_count's, the sums are crate report's.
#![tactic(auto)]

use input::read_part;
use input_parts::{contents_named, contents_within, next_part, pass_over, read_within};
use input_recording::{count_of, shown_of};
use pieces::front;
use recording::{Unreadable, arguments_in, body_long, number_in};
use replay_step::{Compared, Unplayed, replay_step};
use report::{Drops, Report, RouteFigures, empty, join};
use report_count::{Run, begin, count};
use state::{State, fresh_state};
use table_layout::{Kind, part_of, rows_of};
use wire::u32_at;
use words_refusal::under_table;
use words_replay::{
    Ending, Tale, differed, last_word_of, next_row, passed, stamp_before, stopped, summary,
};
use words_report::{
    Ends, LeftOut, closed, drops_line, ends_line, joined, last_line, named, route_line,
};

// ---- one recording

// How far a recording is: the state, its tale, its report, and how many bytes of it are left on the input.
#[derive(Clone, Copy)]
struct Going {
    state: State,
    tale: Tale,
    run: Run,
    left: usize,
}

// The tale after an entry was played.
fn told(
    tale: Tale,
    row: &[u8],
    body: &[u8],
    played: Result<Compared, Unplayed>,
    out: &[u8],
    kept: &mut [u8],
) -> Tale {
    match played {
        Ok(Compared::Same(_)) => passed(tale, row),
        Ok(Compared::Differs(written)) => {
            passed(differed(tale, body, front(out, written), kept), row)
        }
        Err(Unplayed::Cut) => stopped(tale, Ending::Cut(body.len())),
        Err(Unplayed::Refused(fault)) => stopped(tale, Ending::Refused(fault)),
        // cannot come: the out buffer has the room that a step asks for
        Err(Unplayed::Small) => stopped(tale, Ending::Cut(body.len())),
    }
}

// The report after an entry was played: one that was run counts, as the core answers now.
fn counted(
    run: Run,
    row: &[u8],
    body: &[u8],
    played: Result<Compared, Unplayed>,
    out: &[u8],
) -> Run {
    let number = number_in(row);
    let arguments = arguments_in(number, body);
    match played {
        Ok(Compared::Same(written) | Compared::Differs(written)) => {
            count(run, number, arguments, front(out, written))
        }
        Err(_) => run,
    }
}

// The next entry, whose body is read first.
fn entry(
    table: &[u8],
    going: Going,
    rx: &mut [u8],
    tx: &mut [u8],
    contents: &[u8],
    kept: &mut [u8],
) -> Going {
    let mut room = [0u8; 4096];
    let mut out = [0u8; 16384];
    let tale = going.tale;
    let row = next_row(contents, tale.run);
    let got = read_within(&mut room, 0, body_long(row), going.left);
    let body = front(&room, got);
    let before = stamp_before(tale.run, tale.before, row);
    let step = replay_step(table, going.state, rx, tx, before, row, body, &mut out);
    let played = step.played;
    Going {
        state: step.state,
        tale: told(tale, row, body, played, &out, kept),
        run: counted(going.run, row, body, played, &out),
        left: going.left.saturating_sub(got),
    }
}

// So many entries, one after the other.
fn entries(
    table: &[u8],
    contents: &[u8],
    count: u16,
    left: usize,
    rx: &mut [u8],
    tx: &mut [u8],
    kept: &mut [u8],
) -> Going {
    let mut going = Going {
        state: fresh_state(table),
        tale: Tale::default(),
        run: begin(),
        left,
    };
    for _ in 0..count {
        going = entry(table, going, rx, tx, contents, kept);
        if going.tale.ending.is_some() {
            return going;
        }
    }
    going
}

// ---- the report over all

// The report so far, how the recordings ended, and how many parts there were.
#[derive(Clone, Copy)]
struct Total {
    report: Report,
    ends: Ends,
    parts: u64,
}

// The report with one run more; the reason where the run is left out.
fn added(total: Report, readable: bool, fits: bool, report: Report) -> Result<Report, LeftOut> {
    if !readable {
        return Err(LeftOut::Unreadable);
    }
    if !fits {
        return Err(LeftOut::Sum);
    }
    join(total, report).map_err(|_| LeftOut::Sum)
}

fn write(text: &[u8], end: usize) {
    io::write_all(1, front(text, end));
}

// The total with the run of a recording, whose lines are written.
fn closed_with(
    contents: &[u8],
    long: usize,
    reach: usize,
    shown: Result<(), Unreadable>,
    total: Total,
    tale: Tale,
    run: Run,
    kept: &[u8],
    text: &mut [u8],
) -> Total {
    let n = total.parts;
    let next = added(total.report, shown.is_ok(), run.fits, run.report);
    let word = last_word_of(shown, tale);
    let head = named(text, n, long as u64);
    write(text, head);
    let lines = summary(text, contents, reach, shown, tale, kept);
    let last = closed(text, lines, n, word, next.err());
    write(text, last);
    Total {
        report: next.unwrap_or(total.report),
        ends: total.ends.ended(word, next.is_err()),
        parts: n,
    }
}

// One recording more, of which the contents are read.
fn replayed(
    table: &[u8],
    contents: &[u8],
    long: usize,
    total: Total,
    rx: &mut [u8],
    tx: &mut [u8],
    kept: &mut [u8],
    text: &mut [u8],
) -> Total {
    let reach = contents_named(contents, long);
    let shown = shown_of(contents, reach);
    let number = count_of(shown, contents);
    let left = long.saturating_sub(reach);
    let going = entries(table, contents, number, left, rx, tx, kept);
    pass_over(going.left);
    closed_with(
        contents, long, reach, shown, total, going.tale, going.run, kept, text,
    )
}

// Over memory for all connections, the contents, the first entry that differs, and the lines.
fn recording(table: &[u8], long: usize, total: Total) -> Total {
    let mut rx = [0u8; 23424];
    let mut tx = [0u8; 23552];
    let mut kept = [0u8; 20480];
    let mut text = [0u8; 589824];
    let mut buffer = [0u8; 48004];
    let got = contents_within(&mut buffer, long);
    replayed(
        table,
        front(&buffer, got),
        long,
        total,
        &mut rx,
        &mut tx,
        &mut kept,
        &mut text,
    )
}

// ---- a given report

fn be64(s: &[u8], at: usize) -> u64 {
    let eight = part_of(s, at, 8);
    u32_at(eight, 0) as u64 * 4294967296 + u32_at(eight, 4) as u64
}

fn figures_in(s: &[u8]) -> RouteFigures {
    RouteFigures {
        pdus: be64(s, 0),
        bytes: be64(s, 8),
        smallest: u32_at(s, 16),
        largest: u32_at(s, 20),
    }
}

fn drops_in(s: &[u8]) -> Drops {
    Drops {
        unrouted: be64(s, 0),
        off: be64(s, 8),
        long: be64(s, 16),
        cut: be64(s, 24),
        short: be64(s, 32),
    }
}

fn report_in(s: &[u8]) -> Report {
    let mut report = empty();
    for (i, figures) in report.routes.iter_mut().enumerate() {
        *figures = figures_in(part_of(s, i * 24, 24));
    }
    for (i, drops) in report.connections.iter_mut().enumerate() {
        *drops = drops_in(part_of(s, 1536 + i * 40, 40));
    }
    report
}

fn given_report(total: Total) -> Total {
    let mut text = [0u8; 128];
    let mut bytes = [0u8; 2176];
    let got = read_part(&mut bytes, 0, 2176);
    let next = added(total.report, got == 2176, true, report_in(&bytes));
    let end = joined(&mut text, total.parts, next.err());
    write(&text, end);
    Total {
        report: next.unwrap_or(total.report),
        ends: total.ends.given(next.is_err()),
        parts: total.parts,
    }
}

// ---- the figures

fn show_route(i: usize, figures: RouteFigures) {
    let mut text = [0u8; 256];
    let end = route_line(&mut text, i as u64, figures);
    write(&text, end);
}

fn show_connection(i: usize, drops: Drops) {
    let mut text = [0u8; 256];
    let end = drops_line(&mut text, i as u64, drops);
    write(&text, end);
}

fn figures(table: &[u8], total: Total) {
    let mut text = [0u8; 256];
    let end = ends_line(&mut text, total.ends);
    write(&text, end);
    let routes = total.report.routes.iter().enumerate();
    for (i, figures) in routes.take(rows_of(table, Kind::Route)) {
        show_route(i, *figures);
    }
    let connections = total.report.connections.iter().enumerate();
    for (i, drops) in connections.take(rows_of(table, Kind::Connection)) {
        show_connection(i, *drops);
    }
    let last = last_line(&mut text, total.ends);
    write(&text, last);
}

// ---- the whole

// The next part of so many bytes.
fn part(table: &[u8], long: usize, total: Total) -> Total {
    let next = Total {
        parts: total.parts.wrapping_add(1),
        ..total
    };
    if long == 4294967295 {
        return given_report(next);
    }
    recording(table, long, next)
}

// Parts until the input ends: 4,294,967,295 at most.
fn tally(table: &[u8]) {
    let mut total = Total {
        report: empty(),
        ends: Ends::default(),
        parts: 0,
    };
    for _ in 0..u32::MAX {
        let Some(long) = next_part() else {
            break;
        };
        total = part(table, long, total);
    }
    figures(table, total);
}

fn main() {
    under_table(|table| tally(table));
}
