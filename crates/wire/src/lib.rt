// Big-endian numbers out of lent bytes and into them, and bytes copied into a part: a reader gives 0 past the end, a
// writer writes all or nothing.
#![tactic(auto)]

ghost use Rattle.std.specs.Prelude.{◌≡◌, ◌+◌, ◌≤◌, ◌<◌, leb, length};
ghost use Rattle.wire.specs.Be.{be, Number, Little, turn};
ghost use Rattle.wire.specs.Lay.{spell, lay};

fn wide(x: u8) -> usize
    ensures { (result ≡ x) × (result < 256) }
{
    x as usize
}

pub fn be8(s: &[u8], at: usize) -> usize
    ensures { Number 1 s.now at result }
{
    if at < s.len() { wide(s[at]) } else { 0 }
}

pub fn be16(s: &[u8], at: usize) -> usize
    ensures { Number 2 s.now at result }
{
    if at < s.len() {
        be8(s, at) * 256 + be8(s, at + 1)
    } else {
        0
    }
}

fn wide32(x: u8) -> u32
    ensures { (result ≡ x) × (result < 256) }
{
    x as u32
}

// Four bytes that are there, the last the highest: of this form the compiler makes one load.
fn little(s: &[u8], at: usize) -> u32
    requires { at + 4 ≤ length s.now }
    ensures { Little s.now at result }
{
    wide32(s[at])
        + wide32(s[at + 1]) * 256
        + wide32(s[at + 2]) * 65536
        + wide32(s[at + 3]) * 16777216
}

// The same four bytes, the first the highest.
fn turned(x: u32) -> u32
    ensures { result ≡ turn x }
{
    x % 256 * 16777216 + x / 256 % 256 * 65536 + x / 65536 % 256 * 256 + x / 16777216
}

// Four bytes by one load where all are there, two by two elsewhere.
pub fn be32(s: &[u8], at: usize) -> usize
    ensures { Number 4 s.now at result }
{
    if s.len() <= at {
        return 0;
    }
    if 4 <= s.len() - at {
        return turned(little(s, at)) as usize;
    }
    be16(s, at) * 65536 + be16(s, at + 2)
}

// The same numbers, each at the type of its own width.
pub fn u8_at(s: &[u8], at: usize) -> u8
    ensures { result ≡ be 1 s.now at }
{
    be8(s, at) as u8
}

pub fn u16_at(s: &[u8], at: usize) -> u16
    ensures { result ≡ be 2 s.now at }
{
    be16(s, at) as u16
}

pub fn u32_at(s: &[u8], at: usize) -> u32
    ensures { result ≡ be 4 s.now at }
{
    be32(s, at) as u32
}

// n bytes from `at` on stand within `long`.
fn has_room(at: usize, n: usize, long: usize) -> bool
    ensures { result ≡ leb (at + n) long }
{
    at <= long && n <= long - at
}

pub fn put8(d: &mut [u8], at: usize, v: u8)
    ensures { d.new ≡ lay d.old at (spell 1 v) }
{
    if has_room(at, 1, d.len()) {
        d[at] = v;
    }
}

pub fn put16(d: &mut [u8], at: usize, v: u16)
    ensures { d.new ≡ lay d.old at (spell 2 v) }
{
    if has_room(at, 2, d.len()) {
        put8(d, at, (v / 256) as u8);
        put8(d, at + 1, (v % 256) as u8);
    }
}

pub fn put32(d: &mut [u8], at: usize, v: u32)
    ensures { d.new ≡ lay d.old at (spell 4 v) }
{
    if has_room(at, 4, d.len()) {
        put16(d, at, (v / 65536) as u16);
        put16(d, at + 2, (v % 65536) as u16);
    }
}

// The bytes of s laid into d from `at` on; nothing where they do not fit.
pub fn copy_in(d: &mut [u8], at: usize, s: &[u8])
    ensures { d.new ≡ lay d.old at s.now }
{
    let n = s.len();
    if !has_room(at, n, d.len()) {
        return;
    }
    // Kept: the C interface: the library's block copy would ask whoever links libsoad.a for `memmove`.
    for j in 0..n {
        d[at + j] = s[j];
    }
}
