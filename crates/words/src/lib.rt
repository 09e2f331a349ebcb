// A line of text out of a pattern and the bytes that it is about, laid into a lent buffer: what programs print. In a pattern every byte
// stands for itself, but for these:
//   %b12 %h12 %w12  the number of one, two or four bytes at place 12 of the row, in decimal
//   %p12 %i12       the two (a PDU) or four (an id, switches) bytes there, in hex
//   %q12 %r12       the IPv4 address and the port there, or `any` for 0
//   %o12 %y12 ..    the word that the byte there picks of the list in `word`; first_word has the letters
//   @ # *           the number given, how many bytes are shown, and those bytes in hex (`-` where there are none)
//   ^               an `s`, unless the last number was 1
// Proved to be safe and to return; the words are tried by stored output.
#![tactic(auto)]

ghost use Rattle.std.specs.Prelude.{◌<◌, ◌≤◌};

use pieces::{front, put_piece};
use table_layout::part_of;
use text::{decimal, hex};
use wire::{be8, be16, be32, u8_at};

// The phrase number n of a list, counted from 0. Each phrase of a list ends with `/`.
pub fn phrase(list: &[u8], n: usize) -> &[u8] {
    list.split(|byte| *byte == b'/').nth(n).unwrap_or(b"")
}

// Where the words of a letter begin in the list of `word`: a byte v picks the one so many behind.
fn first_word(letter: u8) -> usize
    ensures { result ≤ 30 }
{
    match letter {
        b'y' => 2,
        b'm' => 4,
        b'n' => 7,
        b'k' => 23,
        b'u' => 27,
        b'f' => 30,
        _ => 0,
    }
}

// Which word of the list a byte picks; a drop reason that there is not picks the last.
fn word_number(letter: u8, v: u8) -> usize {
    if letter == b'd' && !matches!(v, 20..=23) {
        return 32;
    }
    first_word(letter) + v as usize
}

// off and on (o); no and yes (y); the modes (m); the meanings of the answers 0 to 12 (n); the drop reasons 20 to 23 (d); the kinds of rows 1 to 4 (k);
// the protocols 1 and 2 (u); how a connection is opened (f); what a recording may name and there is not.
fn word(letter: u8, v: u8, text: &mut [u8], at: usize) -> usize {
    let list = b"\
        off/\
        on/\
        no/\
        yes/\
        offline/\
        reconnect/\
        online/\
        done/\
        table refused/\
        not there/\
        not allowed/\
        not online/\
        no destination/\
        switched off/\
        too long/\
        flush first/\
        out buffer too short/\
        no connection matches/\
        lent memory has another length/\
        state or table not sound/\
        no route for this id/\
        switched off/\
        longer than its route allows/\
        cut off: no whole header, or a length beyond the end/\
        group/\
        connection/\
        receive route/\
        destination/\
        UDP/\
        TCP/\
        opened on request/\
        automatic/\
        unknown/";
    put_piece(text, at, phrase(list, word_number(letter, v)))
}

fn part(text: &mut [u8], at: usize, v: usize, after: &[u8]) -> usize {
    let number = decimal(text, at, v as u64);
    put_piece(text, number, after)
}

// Four numbers with points between them.
fn dotted(text: &mut [u8], at: usize, four: &[u8]) -> usize {
    let first = part(text, at, be8(four, 0), b".");
    let second = part(text, first, be8(four, 1), b".");
    let third = part(text, second, be8(four, 2), b".");
    part(text, third, be8(four, 3), b"")
}

fn address(text: &mut [u8], at: usize, four: &[u8]) -> usize {
    if be32(four, 0) == 0 {
        return put_piece(text, at, b"any");
    }
    dotted(text, at, four)
}

fn port(text: &mut [u8], at: usize, v: usize) -> usize {
    if v == 0 {
        return put_piece(text, at, b"any");
    }
    decimal(text, at, v as u64)
}

// Bytes in hex, and `-` where there are none.
fn bytes(text: &mut [u8], at: usize, s: &[u8]) -> usize {
    if s.is_empty() {
        return put_piece(text, at, b"-");
    }
    hex(text, at, s)
}

fn plural(text: &mut [u8], at: usize, last: u64) -> usize {
    if last == 1 {
        return at;
    }
    put_piece(text, at, b"s")
}

// What a pattern has at a place: its letter or sign, the place in the row that it speaks of, and how many bytes of the pattern it is.
#[derive(Clone, Copy)]
struct Sign {
    letter: u8,
    place: usize,
    width: usize,
}

fn sign_of(pattern: &[u8]) -> Sign
    ensures { 0 < result.width }
{
    let first = u8_at(pattern, 0);
    match first {
        b'%' => Sign {
            letter: u8_at(pattern, 1),
            place: be8(pattern, 2) % 16 * 10 + be8(pattern, 3) % 16,
            width: 4,
        },
        b'@' | b'#' | b'*' | b'^' => Sign {
            letter: first,
            place: 0,
            width: 1,
        },
        _ => Sign {
            letter: 0,
            place: 0,
            width: 1,
        },
    }
}

// The last number, after a sign.
fn number(sign: Sign, last: u64, n: u64, row: &[u8], shown: &[u8]) -> u64 {
    match sign.letter {
        b'b' => be8(row, sign.place) as u64,
        b'h' => be16(row, sign.place) as u64,
        b'w' => be32(row, sign.place) as u64,
        b'@' => n,
        b'#' => shown.len() as u64,
        _ => last,
    }
}

fn piece(
    text: &mut [u8],
    at: usize,
    sign: Sign,
    last: u64,
    row: &[u8],
    shown: &[u8],
    plain: &[u8],
) -> usize {
    match sign.letter {
        0 => put_piece(text, at, plain),
        b'b' | b'h' | b'w' | b'@' | b'#' => decimal(text, at, last),
        b'p' => hex(text, at, part_of(row, sign.place, 2)),
        b'i' => hex(text, at, part_of(row, sign.place, 4)),
        b'q' => address(text, at, part_of(row, sign.place, 4)),
        b'r' => port(text, at, be16(row, sign.place)),
        b'*' => bytes(text, at, shown),
        b'^' => plural(text, at, last),
        letter => word(letter, u8_at(row, sign.place), text, at),
    }
}

// A line, and the place after it.
pub fn lay(text: &mut [u8], at: usize, pattern: &[u8], n: u64, row: &[u8], shown: &[u8]) -> usize {
    let mut next = at;
    let mut last: u64 = 0;
    let mut rest = pattern;
    while !rest.is_empty() {
        let sign = sign_of(rest);
        last = number(sign, last, n, row, shown);
        next = piece(text, next, sign, last, row, shown, front(rest, 1));
        rest = rest.get(sign.width..).unwrap_or(b"");
    }
    next
}
