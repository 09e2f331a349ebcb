// Recordings on standard input (docs/RECORDING.md), one alone or several, each with its length before it: the contents and the bodies of one, never
// past its length, and what is left of it passed over.
#![tactic(auto)]

ghost use Rattle.std.specs.Prelude.{◌≤◌};

use input::read_part;
use recording::entries_in;
use wire::be32;

// Up to n bytes of a part of which so many are left; how many there were.
pub fn read_within(buffer: &mut [u8], at: usize, n: usize, left: usize) -> usize
    ensures { (result ≤ left) × (result ≤ n) }
{
    read_part(buffer, at, n.min(left))
}

// The length before a part; none where the input ends.
pub fn next_part() -> Option<usize> {
    let mut four = [0u8; 4];
    let got = read_part(&mut four, 0, 4);
    if got < 4 {
        return None;
    }
    Some(be32(&four, 0))
}

// The length of a recording that stands alone on the input: no bound.
pub const ALONE: usize = usize::MAX;

// The front of a recording of so many bytes and its contents, as far as they are there; of more than 4,000 rows the first 4,000.
pub fn contents_within(contents: &mut [u8], long: usize) -> usize
    ensures { result ≤ long }
{
    let got = read_within(contents, 0, 4, long);
    if got < 4 {
        return got;
    }
    let rows = entries_in(contents).min(4000);
    4 + read_within(contents, 4, rows as usize * 12, long - 4)
}

// Some of so many bytes that are left, passed over; how many.
fn some_passed(left: usize) -> usize
    ensures { result ≤ left }
{
    let mut buffer = [0u8; 4096];
    read_within(&mut buffer, 0, 4096, left)
}

// What is left of a part is passed over; how many of its bytes are not there.
pub fn pass_over(left: usize) -> usize
    ensures { result ≤ left }
{
    let mut rest = left;
    while 0 < rest {
        let got = some_passed(rest);
        if got == 0 {
            return rest;
        }
        rest -= got;
    }
    rest
}

// The bytes that front and contents have, once so many of them are kept: those of more than 4,000 rows are passed over.
pub fn contents_named(contents: &[u8], long: usize) -> usize {
    let entries = entries_in(contents);
    let all = 4 + entries as usize * 12;
    if contents.len() < 48004 || entries <= 4000 {
        return contents.len();
    }
    let end = long.min(all);
    if end < 48004 {
        return contents.len();
    }
    end - pass_over(end - 48004)
}
