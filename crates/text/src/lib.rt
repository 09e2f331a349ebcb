// Numbers and bytes as text, laid into a lent buffer in pieces: each whole, or not at all where it does not fit, and the place after
// it is handed back. Every function is total.
#![tactic(auto)]

ghost use Rattle.std.specs.Prelude.{◌≡◌, ◌*◌, ◌<◌, length};
ghost use Rattle.io.specs.Digits.{hex_digit_ascii};
ghost use Rattle.wire.specs.Lay.{lay};
ghost use Rattle.pieces.specs.Pieces.{place_after};
ghost use Rattle.text.specs.Text as Is;

use pieces::put_piece;
use wire::put16;

// A number in decimal.
pub fn decimal(out: &mut [u8], at: usize, v: u64) -> usize
    ensures { Is.Decimal v out.old at result out.new }
{
    let mut digits = [0u8; 20];
    let k = io::decimal(v, &mut digits);
    put_piece(out, at, &digits[..k])
}

fn digit(v: u16) -> u16
    ensures { (v < 16 → result ≡ hex_digit_ascii v) × (result < 256) }
{
    match v {
        0..=9 => 48 + v,
        10..=15 => 87 + v,
        _ => 48,
    }
}

// The two digits of a byte, as two bytes.
fn pair(b: u8) -> u16
    ensures { result ≡ Is.pair_of b }
{
    let v = b as u16;
    digit(v / 16) * 256 + digit(v % 16)
}

// Bytes in hex.
pub fn hex(out: &mut [u8], at: usize, bytes: &[u8]) -> usize
    ensures value { result ≡ place_after out.old at (Is.hex_of bytes.now) }
    ensures out_after { out.new ≡ lay out.old at (Is.hex_of bytes.now) }
{
    let long = bytes.len() * 2;
    if out.len() < at || out.len() - at < long {
        return at;
    }
    for (i, byte) in bytes.iter().enumerate() {
        put16(out, at + i * 2, pair(*byte));
    }
    at + long
}
