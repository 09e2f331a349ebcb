// The tale of a replay, entry by entry, and its lines (docs/RECORDING.md, "What a replay prints"; the patterns are those of crate words, over a
// contents row: stamp 4, event number 2, zero 2, body length 4; or over the whole contents: edition 2, entries 2). Proved to be safe and to return;
// the words are tried by stored output.
#![tactic(auto)]

use recording::{
    Fault, Unreadable, answer_in, arguments_in, body_long, distance, entries_in, entry_row,
    number_in, stamp_in,
};
use table_layout::part_of;
use wire::copy_in;
use words::lay;
use words_event::{answer, event};

// How an entry ends the replay: its body is cut off after so many bytes; it is refused.
#[derive(Clone, Copy)]
pub enum Ending {
    Cut(usize),
    Refused(Fault),
}

// An entry that differs, from 0, and how many bytes today's answer to it has.
#[derive(Clone, Copy)]
pub struct Differing {
    pub entry: u64,
    pub written: usize,
}

// How an entry ended the replay, where one did; the stamp before, the entries and ticks run; the first entry that differs, where one does; and
// where the line of the last entry ends.
#[derive(Clone, Copy, Default)]
pub struct Tale {
    pub ending: Option<Ending>,
    pub before: u32,
    pub run: u64,
    pub ticks: u64,
    pub first: Option<Differing>,
    pub end: usize,
}

// The last word on a recording.
#[derive(Clone, Copy, PartialEq, Eq)]
pub enum LastWord {
    Same,
    Differs,
    Refused,
    Cut,
}

// The room of a body: the most bytes that one has. Of the first entry that differs the body is kept at the front of a buffer, and today's answer
// behind that room.
const BODY: usize = 4096;

// The contents row of the entry after those that were run.
pub fn next_row(contents: &[u8], run: u64) -> &[u8] {
    entry_row(contents, (run % 65536) as u16)
}

// The stamp before an entry, after so many; of the first its own.
pub fn stamp_before(run: u64, before: u32, row: &[u8]) -> u32 {
    if run == 0 {
        return stamp_in(row);
    }
    before
}

// ---- entries that were run

fn answered(text: &mut [u8], at: usize, number: u16, bytes: &[u8], arguments: &[u8]) -> usize {
    let told = answer(text, at, number, bytes, arguments);
    lay(text, told, b"\n", 0, bytes, bytes)
}

// Entry n with today's answer.
fn entry(text: &mut [u8], n: u64, row: &[u8], ticks: u32, body: &[u8], today: &[u8]) -> usize {
    let number = number_in(row);
    let arguments = arguments_in(number, body);
    let at = lay(text, 0, b"entry @, stamp %w00, after ", n, row, row);
    let after = lay(text, at, b"@ tick^: ", ticks as u64, row, row);
    let named = event(text, after, number, arguments);
    let colon = lay(text, named, b": ", n, row, row);
    answered(text, colon, number, today, arguments)
}

// The ticks before the next entry.
fn ticks_to(tale: Tale, row: &[u8]) -> u32 {
    distance(stamp_before(tale.run, tale.before, row), stamp_in(row))
}

// The next entry was run, and its line is not told (4,000 distances do not pass 64 bits).
pub fn passed(tale: Tale, row: &[u8]) -> Tale {
    let ticks = ticks_to(tale, row) as u64;
    Tale {
        before: stamp_in(row),
        run: tale.run.wrapping_add(1),
        ticks: tale.ticks.wrapping_add(ticks),
        end: 0,
        ..tale
    }
}

// The next entry was run.
pub fn ran(text: &mut [u8], tale: Tale, row: &[u8], body: &[u8], today: &[u8]) -> Tale {
    let next = passed(tale, row);
    let end = entry(text, next.run, row, ticks_to(tale, row), body, today);
    Tale { end, ..next }
}

// The next entry differs: where it is the first, it is kept.
pub fn differed(tale: Tale, body: &[u8], today: &[u8], kept: &mut [u8]) -> Tale {
    if tale.first.is_some() {
        return tale;
    }
    copy_in(kept, 0, body);
    copy_in(kept, BODY, today);
    let first = Differing {
        entry: tale.run,
        written: today.len(),
    };
    Tale {
        first: Some(first),
        ..tale
    }
}

// The next entry ends the replay.
pub fn stopped(tale: Tale, ending: Ending) -> Tale {
    Tale {
        ending: Some(ending),
        end: 0,
        ..tale
    }
}

// ---- the first difference

// One of both answers, on a line of its own.
fn beside(
    text: &mut [u8],
    at: usize,
    whose: &[u8],
    number: u16,
    bytes: &[u8],
    arguments: &[u8],
) -> usize {
    let named = lay(text, at, whose, 0, bytes, bytes);
    answered(text, named, number, bytes, arguments)
}

fn differs(text: &mut [u8], n: u64, row: &[u8], body: &[u8], today: &[u8]) -> usize {
    let number = number_in(row);
    let arguments = arguments_in(number, body);
    let pattern = b"first difference: entry @, stamp %w00: ";
    let at = lay(text, 0, pattern, n, row, row);
    let named = event(text, at, number, arguments);
    let recorded = answer_in(number, body);
    let then = beside(text, named, b"\n  recorded: ", number, recorded, arguments);
    beside(text, then, b"  today: ", number, today, arguments)
}

fn difference(text: &mut [u8], contents: &[u8], tale: Tale, kept: &[u8]) -> usize {
    let Some(first) = tale.first else {
        return 0;
    };
    let row = next_row(contents, first.entry);
    let body = part_of(kept, 0, body_long(row));
    let today = part_of(kept, BODY, first.written);
    differs(text, first.entry.wrapping_add(1), row, body, today)
}

// ---- what ended it

// What the contents would need, where a front is there.
fn needs_pattern(contents: &[u8]) -> &'static [u8] {
    if contents.len() < 4 {
        return b"the front needs 4 bytes\n";
    }
    if entries_in(contents) == 1 {
        return b"%h02 entry needs @ bytes\n";
    }
    b"%h02 entries need @ bytes\n"
}

fn contents_cut(text: &mut [u8], at: usize, contents: &[u8], long: usize) -> usize {
    let needs = 4 + entries_in(contents) as u64 * 12;
    let cut = b"cut: the contents end after @ byte^, ";
    let told = lay(text, at, cut, long as u64, contents, contents);
    lay(
        text,
        told,
        needs_pattern(contents),
        needs,
        contents,
        contents,
    )
}

// Why nothing was run.
fn unread(
    text: &mut [u8],
    at: usize,
    contents: &[u8],
    long: usize,
    shown: Result<(), Unreadable>,
) -> usize {
    match shown {
        Ok(()) => at,
        Err(Unreadable::Contents) => contents_cut(text, at, contents, long),
        Err(Unreadable::Edition) => {
            let pattern = b"refused: edition %h00 is not 1\n";
            lay(text, at, pattern, 0, contents, contents)
        },
        Err(Unreadable::Many) => {
            let pattern = b"over the limit: %h02 entries, 4000 entries are the most\n";
            lay(text, at, pattern, 0, contents, contents)
        },
        Err(Unreadable::Long(i)) => {
            let pattern = b"over the limit: entry @: body of %w08 bytes, 4096 bytes are the most\n";
            lay(
                text,
                at,
                pattern,
                i as u64 + 1,
                entry_row(contents, i),
                contents,
            )
        }
    }
}

// The body of entry n is cut off.
fn body_cut(text: &mut [u8], at: usize, n: u64, row: &[u8], there: usize) -> usize {
    let pattern: &[u8] = if there == 1 {
        b"@ byte is there\n"
    } else {
        b"@ bytes are there\n"
    };
    let told = lay(text, at, b"cut: entry @: body of %w08 byte^, ", n, row, row);
    lay(text, told, pattern, there as u64, row, row)
}

// Entry n, so many ticks after the one before, is refused.
fn refused(text: &mut [u8], at: usize, n: u64, row: &[u8], ticks: u32, fault: Fault) -> usize {
    let pattern: &[u8] = match fault {
        Fault::FarStamp => b"refused: entry @: stamp %w00 is ",
        Fault::NoEvent => b"refused: entry @: unknown event number %h04\n",
        Fault::ZeroField => b"refused: entry @: zero field is not 0\n",
        Fault::Misfit => b"refused: entry @: body does not fit\n",
    };
    let far: &[u8] = match fault {
        Fault::FarStamp => b"@ ticks after the one before, 65535 ticks are the most\n",
        Fault::NoEvent | Fault::ZeroField | Fault::Misfit => b"",
    };
    let told = lay(text, at, pattern, n, row, row);
    lay(text, told, far, ticks as u64, row, row)
}

// Why it ended, where it did.
fn ended(text: &mut [u8], at: usize, contents: &[u8], tale: Tale) -> usize {
    let row = next_row(contents, tale.run);
    let n = tale.run % 65536 + 1;
    match tale.ending {
        None => at,
        Some(Ending::Cut(there)) => body_cut(text, at, n, row, there),
        Some(Ending::Refused(fault)) => {
            let ticks = distance(tale.before, stamp_in(row));
            refused(text, at, n, row, ticks, fault)
        }
    }
}

// ---- the end

// The entries that the recording names: none where its front is not there or of another edition.
fn named(contents: &[u8], shown: Result<(), Unreadable>) -> u16 {
    if contents.len() < 4 {
        return 0;
    }
    if let Err(Unreadable::Edition) = shown {
        0
    } else {
        entries_in(contents)
    }
}

fn counts(
    text: &mut [u8],
    at: usize,
    contents: &[u8],
    shown: Result<(), Unreadable>,
    tale: Tale,
) -> usize {
    let of = named(contents, shown) as u64;
    let run = lay(
        text,
        at,
        b"entries run: @ of ",
        tale.run,
        contents,
        contents,
    );
    let all = lay(text, run, b"@\nticks run: ", of, contents, contents);
    lay(text, all, b"@ tick^\n", tale.ticks, contents, contents)
}

// The first difference, why nothing was run or why it ended, and the counts. A recorded answer may name one and the same long part of its segment
// again and again: the line of the first difference has some 452,000 characters at most.
pub fn summary(
    text: &mut [u8],
    contents: &[u8],
    long: usize,
    shown: Result<(), Unreadable>,
    tale: Tale,
    kept: &[u8],
) -> usize {
    let first = difference(text, contents, tale, kept);
    let front = unread(text, first, contents, long, shown);
    let last = ended(text, front, contents, tale);
    counts(text, last, contents, shown, tale)
}

fn ending_word(ending: Option<Ending>) -> LastWord {
    match ending {
        None => LastWord::Same,
        Some(Ending::Cut(_)) => LastWord::Cut,
        Some(Ending::Refused(_)) => LastWord::Refused,
    }
}

// The last word: a difference is told before the ending.
pub fn last_word_of(shown: Result<(), Unreadable>, tale: Tale) -> LastWord {
    if tale.first.is_some() {
        return LastWord::Differs;
    }
    match shown {
        Ok(()) => ending_word(tale.ending),
        Err(Unreadable::Contents) => LastWord::Cut,
        Err(_) => LastWord::Refused,
    }
}

pub fn spelt(word: LastWord) -> &'static [u8] {
    match word {
        LastWord::Same => b"SAME",
        LastWord::Differs => b"DIFFERS",
        LastWord::Refused => b"REFUSED",
        LastWord::Cut => b"CUT",
    }
}

// The line of the last word.
pub fn word(text: &mut [u8], at: usize, shown: Result<(), Unreadable>, tale: Tale) -> usize {
    let told = lay(text, at, spelt(last_word_of(shown, tale)), 0, b"", b"");
    lay(text, told, b"\n", 0, b"", b"")
}
