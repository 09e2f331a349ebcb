// The entries of a script: read from standard input, and told as lines (docs/EVENTS.md, "What `./soad run` prints"; the patterns are those of crate
// words). Proved to be safe and to return; the words are tried by stored output.
#![tactic(auto)]

use event_answer::NoAnswer;
use event_decode::{BadCall, call_of};
use input::read_part;
use pieces::front;
use table_layout::part_of;
use wire::{be16, be32, copy_in, put16, u16_at};
use words::lay;
use words_event::{answer, event};

// How a run ends: the input ended; an entry was refused; an entry was cut off.
#[derive(Clone, Copy)]
pub enum Last {
    Ended,
    Refused,
    Cut,
}

// How an entry ended the run, and where the line about it ends.
#[derive(Clone, Copy)]
pub struct Stop {
    pub last: Last,
    pub end: usize,
}

// An entry as it was read: its event number, and the length of its body.
#[derive(Clone, Copy)]
pub struct Entry {
    pub number: u16,
    pub long: usize,
}

// ---- an entry that is refused

// What the first eight bytes of an entry may show: an unknown event number, a zero field that is not 0, or a body that does not fit.
#[derive(Clone, Copy)]
enum HeadFault {
    NoEvent,
    ZeroField,
    Misfit,
}

fn head_fits(number: u16, zero: usize, long: usize, body: &[u8]) -> Result<(), HeadFault> {
    let start = number == 65535;
    let unknown = matches!(call_of(number, front(body, 0)), Err(BadCall::Unknown));
    if unknown && !start {
        return Err(HeadFault::NoEvent);
    }
    if zero != 0 {
        return Err(HeadFault::ZeroField);
    }
    if long > 47720 || (long > 4096 && !start) {
        return Err(HeadFault::Misfit);
    }
    Ok(())
}

// Entry n is refused for such a fault.
fn refused(text: &mut [u8], n: u64, number: u16, fault: HeadFault) -> Stop {
    let pattern: &[u8] = match fault {
        HeadFault::NoEvent => b"entry @: refused: unknown event number %h00\n",
        HeadFault::ZeroField => b"entry @: refused: zero field is not 0\n",
        HeadFault::Misfit => b"entry @: refused: body does not fit\n",
    };
    let mut row = [0u8; 2];
    put16(&mut row, 0, number);
    Stop {
        last: Last::Refused,
        end: lay(text, 0, pattern, n, &row, &row),
    }
}

// ---- an entry that is read

// An input that ends between entries ends well.
fn cut_after(got: usize) -> Stop {
    let last = if got == 0 { Last::Ended } else { Last::Cut };
    Stop { last, end: 0 }
}

// Entry n, whose body has been read.
pub fn read_entry(body: &mut [u8], text: &mut [u8], n: u64) -> Result<Entry, Stop> {
    let mut head = [0u8; 8];
    let got = io::read_full(0, &mut head);
    if got < 8 {
        return Err(cut_after(got));
    }
    let number = u16_at(&head, 0);
    let long = be32(&head, 4);
    if let Err(fault) = head_fits(number, be16(&head, 2), long, body) {
        return Err(refused(text, n, number, fault));
    }
    if read_part(body, 0, long) < long {
        return Err(cut_after(8));
    }
    Ok(Entry { number, long })
}

// ---- an entry that was run

// The first entry may give a state to start from, which is taken where it fits, and the bytes of both memories; where its line ends.
pub fn start_taken(
    rx: &mut [u8],
    tx: &mut [u8],
    body: &[u8],
    fits: bool,
    text: &mut [u8],
    n: u64,
) -> Result<usize, Stop> {
    if !fits {
        return Err(refused(text, n, 65535, HeadFault::Misfit));
    }
    copy_in(rx, 0, part_of(body, 744, 23424));
    copy_in(tx, 0, part_of(body, 24168, 23552));
    let pattern = b"entry @: start state: taken\n";
    Ok(lay(text, 0, pattern, n, body, body))
}

// Where the line of an event ends, from the bytes of its answer.
pub fn answered(text: &mut [u8], n: u64, number: u16, body: &[u8], bytes: &[u8]) -> usize {
    let at = lay(text, 0, b"entry @: ", n, body, body);
    let named = event(text, at, number, body);
    let colon = lay(text, named, b": ", n, body, body);
    let told = answer(text, colon, number, bytes, body);
    lay(text, told, b"\n", n, body, body)
}

// Entry n has no answer, and is refused.
pub fn unanswered(text: &mut [u8], n: u64, number: u16, why: NoAnswer) -> Stop {
    match why {
        NoAnswer::Unknown => refused(text, n, number, HeadFault::NoEvent),
        NoAnswer::Unfit => refused(text, n, number, HeadFault::Misfit),
        // cannot come: the out buffer has the room that the dispatcher asks for
        NoAnswer::Small => Stop {
            last: Last::Refused,
            end: 0,
        },
    }
}

// ---- the end

// The last word.
pub fn word(text: &mut [u8], at: usize, last: Last) -> usize {
    let word: &[u8] = match last {
        Last::Ended => b"OK\n",
        Last::Refused => b"REFUSED\n",
        Last::Cut => b"CUT\n",
    };
    lay(text, at, word, 0, b"", b"")
}
