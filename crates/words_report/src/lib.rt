// The lines of the foreman's report (docs/RECORDING.md, "What a report prints"; the patterns are those of crate words). Proved to be safe and to
// return; the words are tried by stored output.
#![tactic(auto)]

use report::{Drops, RouteFigures};
use words::lay;
use words_replay::{LastWord, spelt};

// How many recordings there were, how they ended, and how many parts were left out.
#[derive(Clone, Copy, Default)]
pub struct Ends {
    pub given: u64,
    pub same: u64,
    pub different: u64,
    pub refused: u64,
    pub cut: u64,
    pub out: u64,
}

// Why a part was left out: nothing of it can be read, or a sum would pass 64 bits.
#[derive(Clone, Copy)]
pub enum LeftOut {
    Unreadable,
    Sum,
}

// One more where it is so.
fn more(n: u64, is: bool) -> u64 {
    n.wrapping_add(u64::from(is))
}

impl Ends {
    // One recording more: its last word, and whether it was left out.
    pub fn ended(self, word: LastWord, out: bool) -> Ends {
        Ends {
            given: more(self.given, true),
            same: more(self.same, word == LastWord::Same),
            different: more(self.different, word == LastWord::Differs),
            refused: more(self.refused, word == LastWord::Refused),
            cut: more(self.cut, word == LastWord::Cut),
            out: more(self.out, out),
        }
    }

    // One given report more.
    pub fn given(self, out: bool) -> Ends {
        Ends {
            out: more(self.out, out),
            ..self
        }
    }
}

fn number(text: &mut [u8], at: usize, pattern: &[u8], n: u64) -> usize {
    lay(text, at, pattern, n, b"", b"")
}

// The first line of recording n.
pub fn named(text: &mut [u8], n: u64, long: u64) -> usize {
    let at = number(text, 0, b"recording @: ", n);
    number(text, at, b"@ byte^\n", long)
}

// Why a part was left out, where it was.
fn why(out: Option<LeftOut>) -> &'static [u8] {
    match out {
        None => b"\n",
        Some(LeftOut::Unreadable) => b", left out: nothing of it can be read\n",
        Some(LeftOut::Sum) => b", left out: a sum would pass 18446744073709551615\n",
    }
}

// The last line of recording n: its word, and why it was left out, where it was.
pub fn closed(text: &mut [u8], at: usize, n: u64, word: LastWord, out: Option<LeftOut>) -> usize {
    let head = number(text, at, b"recording @: ", n);
    let told = number(text, head, spelt(word), n);
    number(text, told, why(out), 0)
}

// The line of given report n.
pub fn joined(text: &mut [u8], n: u64, out: Option<LeftOut>) -> usize {
    let pattern: &[u8] = match out {
        None => b"given report @: joined\n",
        Some(LeftOut::Unreadable) => b"given report @: left out: nothing of it can be read\n",
        Some(LeftOut::Sum) => {
            b"given report @: left out: a sum would pass 18446744073709551615\n"
        }
    };
    number(text, 0, pattern, n)
}

// How the recordings ended.
pub fn ends_line(text: &mut [u8], ends: Ends) -> usize {
    let given = number(text, 0, b"recordings: @ given, ", ends.given);
    let same = number(text, given, b"@ same, ", ends.same);
    let different = number(text, same, b"@ different, ", ends.different);
    let refused = number(text, different, b"@ refused, ", ends.refused);
    let cut = number(text, refused, b"@ cut, ", ends.cut);
    number(text, cut, b"@ left out\n", ends.out)
}

// The figures of route i.
pub fn route_line(text: &mut [u8], i: u64, figures: RouteFigures) -> usize {
    let route = number(text, 0, b"route @: ", i);
    let pdus = number(text, route, b"@ PDU^, ", figures.pdus);
    let bytes = number(text, pdus, b"@ byte^, smallest ", figures.bytes);
    let smallest = figures.smallest as u64;
    let small = number(text, bytes, b"@ byte^, largest ", smallest);
    number(text, small, b"@ byte^\n", figures.largest as u64)
}

// The drops of connection i.
pub fn drops_line(text: &mut [u8], i: u64, drops: Drops) -> usize {
    let connection = number(text, 0, b"connection @: ", i);
    let unrouted = number(text, connection, b"@ drop^ 20 no route, ", drops.unrouted);
    let off = number(text, unrouted, b"@ drop^ 21 switched off, ", drops.off);
    let long = number(text, off, b"@ drop^ 22 too long, ", drops.long);
    number(text, long, b"@ drop^ 23 cut off\n", drops.cut)
}

// The last word: whether nothing was left out.
pub fn last_line(text: &mut [u8], ends: Ends) -> usize {
    let word: &[u8] = if ends.out == 0 { b"OK\n" } else { b"REFUSED\n" };
    number(text, 0, word, 0)
}
