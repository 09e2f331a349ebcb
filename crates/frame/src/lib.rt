// Framing: header and payload to the front of an out buffer, or a refusal; and the number of a refusal.
#![tactic(auto)]

ghost use Rattle.std.specs.Prelude.{◌≡◌, Err, length};
ghost use Rattle.frame.specs.Framing.{framing_of, framed_out, framed_number};

use wire::{copy_in, put32};

#[derive(Clone, Copy, Debug, PartialEq, Eq)]
pub enum FrameError {
    TooLong,
    NoRoom,
}

// The number of a refusal, for C.
impl From<FrameError> for u32 {
    ghost from_gives = { λ error number. number ≡ framed_number (Err error) };

    fn from(error: FrameError) -> u32 {
        match error {
            FrameError::TooLong => 7,
            FrameError::NoRoom => 9,
        }
    }
}

// A payload longer than 1,464 is refused, then a buffer shorter than 8 + length. The bytes after the frame stay, and in
// a refusal all of them.
#[tactic(auto, using(crate::proofs::Laws::frame_is), unfolding(crate::specs::Framing::framing_of, crate::specs::Framing::framed_out))]
pub fn framing(id: u32, payload: &[u8], out: &mut [u8]) -> Result<(), FrameError>
    ensures answer { result ≡ framing_of (length payload.now) (length out.old) }
    ensures memory { out.new ≡ framed_out id payload.now out.old }
{
    let n = payload.len();
    if 1464 < n {
        return Err(FrameError::TooLong);
    }
    if out.len() < 8 + n {
        return Err(FrameError::NoRoom);
    }
    put32(out, 0, id);
    put32(out, 4, n as u32);
    copy_in(out, 8, payload);
    Ok(())
}
