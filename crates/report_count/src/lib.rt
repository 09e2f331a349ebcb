// Counting from answers: what the answer of an event adds to the report of a run (docs/EVENTS.md, "The answer"). A PDU counts when it is handed
// out, a transfer at its end with its whole length, a drop by its reason; events other than segments and walks add nothing, and neither does
// an answer number other than 0. Every function is total.
#![tactic(auto)]

ghost use Rattle.std.specs.Prelude.{◌≡◌, ◌<◌, ◌+◌, min, length};
ghost use Rattle.report_count.specs.Count as Is;

use event_decode::bytes_from;
use recording::take_needs;
use report::{Drops, Figures, Report, RouteFigures, empty, one_drop, one_pdu};
use wire::{be8, be16, u8_at, u16_at, u32_at};

// What one take adds: figures to a route, drops to the event's connection; and the length of the transfer that runs there now.
#[derive(Clone, Copy, Debug, PartialEq, Eq)]
pub struct Adds {
    pub route: u8,
    pub figures: RouteFigures,
    pub drops: Drops,
    pub kept: u32,
}

// The report of the takes so far of one connection, whether no sum passed 64 bits, and the length of the transfer that runs.
#[derive(Clone, Copy, Debug, PartialEq, Eq)]
pub struct Counting {
    // Kept: what may not change: `one_counted` counts on past a sum that does not fit, so no Result takes the flag's place.
    pub fits: bool,
    pub report: Report,
    pub kept: u32,
}

// The report of a run so far, whether no sum passed 64 bits, and of each connection the length of the transfer that started last.
#[derive(Clone, Copy, Debug, PartialEq, Eq)]
pub struct Run {
    pub fits: bool,
    pub report: Report,
    pub lengths: [u32; 16],
}

// Before the first entry.
pub fn begin() -> Run
    ensures { result ≡ Is.run_begun }
{
    Run {
        fits: true,
        report: empty(),
        lengths: [0; 16],
    }
}

fn adds_nothing(kept: u32) -> Adds
    ensures { result ≡ Is.adds_nothing kept }
{
    Adds {
        route: 0,
        figures: RouteFigures::none(),
        drops: Drops::none(),
        kept,
    }
}

fn adds_drop(reason: u8, kept: u32) -> Adds
    ensures { result ≡ Is.adds_drop reason kept }
{
    Adds {
        drops: one_drop(reason),
        ..adds_nothing(kept)
    }
}

// A PDU of so many bytes; on a route that there is not, nothing.
#[tactic(auto, unfolding(crate::specs::Count::adds_pdu))]
fn adds_pdu(route: u8, length: u32, kept: u32) -> Adds
    ensures { result ≡ Is.adds_pdu route length kept }
{
    if 64 <= route {
        return adds_nothing(kept);
    }
    Adds {
        route,
        figures: one_pdu(length),
        ..adds_nothing(kept)
    }
}

// The start of a transfer: of length 0 it is the end, too.
#[tactic(auto, unfolding(crate::specs::Count::adds_start))]
fn adds_start(route: u8, length: u32) -> Adds
    ensures { result ≡ Is.adds_start route length }
{
    if length == 0 {
        return adds_pdu(route, length, length);
    }
    adds_nothing(length)
}

// What a take adds, by its kind.
#[tactic(auto, unfolding(crate::specs::Count::adds_of_kind))]
fn adds_by(kind: u8, which: u8, length: u32, kept: u32) -> Adds
    ensures { result ≡ Is.adds_of_kind kind which length kept }
{
    match kind {
        1 => adds_pdu(which, length, kept),
        2 => adds_drop(which, kept),
        3 => adds_start(which, length),
        5 => adds_pdu(which, kept, kept),
        _ => adds_nothing(kept),
    }
}

// What the take at the front of these bytes adds.
fn adds_of(s: &[u8], kept: u32) -> Adds
    ensures { result ≡ Is.adds_of s.now kept }
{
    adds_by(u8_at(s, 4), u8_at(s, 5), u32_at(s, 10), kept)
}

// So many bytes on, no further than the end.
fn passed(long: usize, at: usize, n: usize) -> usize
    ensures { result ≡ min (at + n) long }
{
    at.saturating_add(n).min(long)
}

// So many takes, one after the other, on a connection.
fn takes_counted(before: Counting, connection: usize, count: u16, s: &[u8]) -> Counting
    requires { connection < 16 }
    ensures { result ≡ Is.takes_counted connection count s.now before }
{
    let mut after = before;
    let mut at: usize = 0;
    for _i in 0..count {
        let rest = bytes_from(s, at);
        let adds = adds_of(rest, after.kept);
        let figures = after.report.routes[adds.route as usize];
        let dropped = after.report.connections[connection];
        after.fits = after.fits & figures.fits(adds.figures) & dropped.fits(adds.drops);
        after.report.routes[adds.route as usize] = figures.plus(adds.figures);
        after.report.connections[connection] = dropped.plus(adds.drops);
        after.kept = adds.kept;
        at = passed(s.len(), at, take_needs(rest));
    }
    after
}

// How many takes the answer of an event has: of a walk one, of any other event none. Where there are none `count` leaves the report, and a
// caller need not hand it over.
#[tactic(auto, unfolding(crate::specs::Count::takes_in))]
pub fn takes_in(number: u16, answer: &[u8]) -> u16
    ensures { result ≡ Is.takes_in number answer.now }
{
    if be16(answer, 0) != 0 {
        return 0;
    }
    match number {
        7 => u16_at(answer, 2),
        8 => 1,
        _ => 0,
    }
}

// Where they begin.
#[tactic(auto, unfolding(crate::specs::Count::takes_at))]
fn takes_at(number: u16) -> usize
    ensures { result ≡ Is.takes_at number }
{
    if number == 7 {
        return 4;
    }
    2
}

// An event of a run more: its number, its arguments and its answer. One without takes adds nothing, and its report is handed back as it is.
pub fn count(run: Run, number: u16, arguments: &[u8], answer: &[u8]) -> Run
    ensures { result ≡ Is.event_counted number arguments.now answer.now run }
{
    let n = takes_in(number, answer);
    if n == 0 {
        return run;
    }
    let connection = be8(arguments, 1);
    if 16 <= connection {
        return run;
    }
    let before = Counting {
        fits: run.fits,
        report: run.report,
        kept: run.lengths[connection],
    };
    let takes = bytes_from(answer, takes_at(number));
    let counted = takes_counted(before, connection, n, takes);
    let mut lengths = run.lengths;
    lengths[connection] = counted.kept;
    Run {
        fits: counted.fits,
        report: counted.report,
        lengths,
    }
}
