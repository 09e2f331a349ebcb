// The table image's layout: what the contents say, where each body stands, and rows as parts of a body.
// A number past the end is 0, a part that does not fit is empty. Everything public is total but `rows_laid` and `body_laid`.
#![tactic(auto)]

ghost use Rattle.std.specs.Prelude.{◌≡◌, ◌+◌, ◌*◌, ◌≤◌, ◌<◌};
ghost use Rattle.wire.specs.Be.{Number};
ghost use Rattle.wire.specs.Place.{behind};
ghost use Rattle.table_layout.specs.Layout.{
  number,
  most_rows,
  entry_at,
  rows_of,
  row_bytes,
  body_bytes,
  start_of,
  end_of,
  part_of,
  part_at,
  body_of,
  body_at,
  row_in,
  row_in_at,
  Laid,
};

use wire::{be16, be32};

// A kind of rows, with its number.
#[derive(Clone, Copy, Debug, PartialEq, Eq)]
pub enum Kind {
    Group = 1,
    Connection = 2,
    Route = 3,
    Destination = 4,
}

impl From<Kind> for usize {
    fn from(k: Kind) -> usize
        ensures { result ≡ number k }
    {
        k as usize
    }
}

pub fn most_rows(k: Kind) -> usize
    ensures { result ≡ most_rows k }
{
    match k {
        Kind::Group => 8,
        Kind::Connection => 16,
        Kind::Route => 64,
        Kind::Destination => 64,
    }
}

pub fn entry_at(k: Kind) -> usize
    ensures { (result ≡ entry_at k) × (result ≤ 28) }
{
    match k {
        Kind::Group => 4,
        Kind::Connection => 12,
        Kind::Route => 20,
        Kind::Destination => 28,
    }
}

pub fn row_bytes(image: &[u8], k: Kind) -> usize
    ensures { (result ≡ row_bytes image.now k) × (result ≤ 16) }
{
    match k {
        Kind::Group => 2,
        Kind::Connection => 16,
        Kind::Route => 16,
        Kind::Destination => 16,
    }
}

#[tactic(auto, unfolding(crate::specs::Layout::rows_of))]
pub fn rows_of(image: &[u8], k: Kind) -> usize
    ensures { (result ≡ rows_of image.now k) × (result < 65536) }
{
    be16(image, entry_at(k) + 2)
}

#[tactic(auto, using(crate::proofs::Parts::product_small), unfolding(crate::specs::Layout::body_bytes))]
fn body_bytes(image: &[u8], k: Kind) -> usize
    ensures { (result ≡ body_bytes image.now k) × (result ≤ 1048576) }
{
    rows_of(image, k) * row_bytes(image, k)
}

#[tactic(auto, unfolding(crate::specs::Layout::start_of))]
pub fn start_of(image: &[u8], k: Kind) -> usize
    ensures { (result ≡ start_of image.now k) × (result < 4194304) }
{
    match k {
        Kind::Group => 36,
        Kind::Connection => 36 + body_bytes(image, Kind::Group),
        Kind::Route => 36 + body_bytes(image, Kind::Group) + body_bytes(image, Kind::Connection),
        Kind::Destination => {
            36 + body_bytes(image, Kind::Group)
                + body_bytes(image, Kind::Connection)
                + body_bytes(image, Kind::Route)
        }
    }
}

// Where the last body ends.
#[tactic(auto, unfolding(crate::specs::Layout::end_of))]
pub fn end_of(image: &[u8]) -> usize
    ensures { result ≡ end_of image.now }
{
    start_of(image, Kind::Destination) + body_bytes(image, Kind::Destination)
}

// n bytes of s from `at` on, or an empty part where they do not fit.
pub fn part_of(s: &[u8], at: usize, n: usize) -> &[u8]
    ensures bytes { result.now ≡ part_of s.now at n }
    ensures place { result.ref_ptr ≡ behind s.entry.ref_ptr (part_at s.now at n) }
{
    if at <= s.len() && n <= s.len() - at {
        &s[at..at + n]
    } else {
        &s[..0]
    }
}

// The body of a kind, as the part of the image that it occupies; an empty part where it does not fit.
#[tactic(auto, unfolding(crate::specs::Layout::body_of, crate::specs::Layout::body_at))]
pub fn body_of(image: &[u8], k: Kind) -> &[u8]
    ensures bytes { result.now ≡ body_of image.now k }
    ensures place { result.ref_ptr ≡ behind image.entry.ref_ptr (body_at image.now k) }
{
    part_of(image, start_of(image, k), body_bytes(image, k))
}

// Of a contents entry its kind, times 65,536, and its row count, as one number. This reader and the next are given the front of an image:
// where a part has a constant length, a total reader makes no test.
pub fn kind_and_rows(front: &[u8], k: Kind) -> usize
    ensures { Number 4 front.now (entry_at k) result }
{
    be32(front, entry_at(k))
}

// Where a contents entry says that the body of its kind starts.
pub fn named_start(front: &[u8], k: Kind) -> usize
    ensures { Number 4 front.now (entry_at k + 4) result }
{
    be32(front, entry_at(k) + 4)
}

// As `rows_of`, without its tests: an image that is laid out as its contents say has a front.
pub fn rows_laid(image: &[u8], k: Kind) -> usize
    requires { Laid image.now }
    ensures { (result ≡ rows_of image.now k) × (result < 65536) }
{
    rows_of(&image[..36], k)
}

// Where the body of a kind ends: where the next one starts, by the next contents entry, or the image ends.
fn end_laid(image: &[u8], k: Kind) -> usize
    requires { Laid image.now }
    ensures { result ≡ start_of image.now k + body_bytes image.now k }
{
    let front = &image[..36];
    match k {
        Kind::Group => named_start(front, Kind::Connection),
        Kind::Connection => named_start(front, Kind::Route),
        Kind::Route => named_start(front, Kind::Destination),
        Kind::Destination => image.len(),
    }
}

// As `body_of`, without its tests: in an image that is laid out as its contents say, every body fits, and the contents
// name its bounds.
pub fn body_laid(image: &[u8], k: Kind) -> &[u8]
    requires { Laid image.now }
    ensures bytes { result.now ≡ body_of image.now k }
    ensures place { result.ref_ptr ≡ behind image.entry.ref_ptr (body_at image.now k) }
{
    let front = &image[..36];
    let at = named_start(front, k);
    let end = end_laid(image, k);
    &image[at..end]
}

// Row i of a body whose rows have n bytes; an empty part where there is no such row.
pub fn row_in(body: &[u8], n: usize, i: usize) -> &[u8]
    ensures bytes { result.now ≡ row_in n body.now i }
    ensures place { result.ref_ptr ≡ behind body.entry.ref_ptr (row_in_at n body.now i) }
{
    if n == 0 {
        return &body[..0];
    }
    if i < body.len() / n {
        let at = i * n;
        &body[at..at + n]
    } else {
        &body[..0]
    }
}
