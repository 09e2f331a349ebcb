// Pieces laid one after the other into a lent buffer: each whole, or not at all where it does not fit, and the place after it is
// handed back. Every function is total.
#![tactic(auto)]

ghost use Rattle.std.specs.Prelude.{◌≡◌, take};
ghost use Rattle.wire.specs.Lay.{lay};
ghost use Rattle.pieces.specs.Pieces.{after_of, place_after};

use wire::copy_in;

// The place after n bytes at a place of a buffer of `long` bytes.
#[tactic(auto, unfolding(crate::specs::Pieces::after_of))]
pub fn after(long: usize, at: usize, n: usize) -> usize
    ensures { result ≡ after_of long at n }
{
    if long < at || long - at < n {
        return at;
    }
    at + n
}

pub fn put_piece(out: &mut [u8], at: usize, s: &[u8]) -> usize
    ensures value { result ≡ place_after out.old at s.now }
    ensures out_after { out.new ≡ lay out.old at s.now }
{
    let next = after(out.len(), at, s.len());
    copy_in(out, at, s);
    next
}

// The first n bytes; all of them where there are fewer.
pub fn front(s: &[u8], n: usize) -> &[u8]
    ensures bytes { result.now ≡ take n s.now }
    ensures place { result.ref_ptr ≡ s.entry.ref_ptr }
{
    &s[..n.min(s.len())]
}
