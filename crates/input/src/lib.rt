// Bytes of standard input into lent memory, and a table image from there, never more than is asked for.
#![tactic(auto)]

ghost use Rattle.std.specs.Prelude.{◌≤◌};

use table_layout::end_of;

// Up to n bytes of the input into the part of a buffer from a place on; none where that part does not fit.
pub fn read_part(buffer: &mut [u8], at: usize, n: usize) -> usize
    ensures { result ≤ n }
{
    if buffer.len() < at || buffer.len() - at < n {
        return 0;
    }
    let part = &mut buffer[at..at + n];
    io::read_full(0, part)
}

// The most bytes that an accepted image has.
const MOST: usize = 2356;

// An image ends where its own contents say; where they say more than any image has, the contents are bad, and enough is read.
pub fn read_image(image: &mut [u8]) -> usize {
    let head = read_part(image, 0, 36);
    if head < 36 {
        return head;
    }
    let end = end_of(image);
    if end < 36 || MOST < end {
        return 36;
    }
    36 + read_part(image, 36, end - 36)
}
