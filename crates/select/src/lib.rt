// Which member of a group a source belongs to: one pass over the rows of the connections, the best match first (both fields, the address,
// the port, neither), then the lowest number. The caller goes over the rows, with the record of each: here stand one turn of it, and what is
// answered before and after it. Assumes of the table that it is laid out as its contents say: the gate has shown it.
#![tactic(auto)]

ghost use Rattle.std.specs.Prelude.{◌≡◌, true, ◌≤◌, ◌<◌};
ghost use Rattle.wire.specs.Place.{behind};
ghost use Rattle.table_layout.specs.Layout.{Laid};
ghost use Rattle.select.specs.Choose as Is;

use connection::{Connection, Fields, Refusal, Remote};
use state::{State, config_laid};
use table_layout::{Kind, body_laid};
use table_rows::{GroupRow, row_at};
use wire::be8;

// Why a datagram or an accept meets no connection.
#[derive(Clone, Copy, PartialEq, Eq)]
pub enum NotMet {
    Refused(Refusal),
    Unmatched,
}

// The best match among the connections below some number: its score, 0 for nobody, and its number.
#[derive(Clone, Copy)]
pub struct Pick {
    pub score: u8,
    pub at: usize,
}

// The answer, with the state after it.
#[derive(Clone, Copy)]
pub struct Arrived {
    pub state: State,
    pub answer: Result<u8, NotMet>,
}

fn one(b: bool) -> u8
    ensures { (result ≡ Is.one_of b) × (result ≤ 1) }
{
    if b {
        return 1;
    }
    0
}

// How a match ranks: the address above the port.
fn rank(equal: Fields) -> u8
    ensures { (result ≡ Is.rank_of equal) × (result < 255) }
{
    2 * one(equal.address) + one(equal.port)
}

// A member's rank and 1 more; 0 for one that does not count or does not match, and for a connection that is no member.
fn score(accept: bool, source: Remote, member: bool, c: Connection) -> u8
    ensures { result ≡ Is.score_of accept source member c }
{
    let waits = c.mode.is_reconnect();
    let up = c.mode.is_online();
    let equal = c.remote.equal_fields(source);
    let wild = c.remote.wild_fields();
    let counts = (waits | (!accept & up)) & !c.close_wanted;
    let matches = (equal.address | wild.address) & (equal.port | wild.port);
    let scores = member & counts & matches;
    if scores {
        return 1 + rank(equal);
    }
    0
}

// One connection more: its row's first byte names its group.
pub fn better(
    best: Pick,
    row: &[u8],
    i: usize,
    c: Connection,
    accept: bool,
    group: u8,
    source: Remote,
) -> Pick
    ensures { result ≡ Is.better_of accept group source best row.now i c }
{
    let member = be8(row, 0) == group as usize;
    if !member {
        return best;
    }
    let found = score(accept, source, member, c);
    if found <= best.score {
        return best;
    }
    Pick {
        score: found,
        at: i,
    }
}

// A datagram names a UDP group, an accept a TCP group.
fn protocol_of(accept: bool) -> u8
    ensures { result ≡ Is.protocol_of accept }
{
    if accept {
        return 2;
    }
    1
}

// What is answered before any member is looked at: a refusal, or else nobody.
pub fn answer_before(image: &[u8], accept: bool, group: u8, source: Remote) -> Result<u8, NotMet>
    requires { Laid image.now }
    ensures { result ≡ Is.answer_before image.now accept group source }
{
    let groups = body_laid(image, Kind::Group);
    if groups.len() / 2 <= group as usize {
        return Err(NotMet::Refused(Refusal::Missing));
    }
    let row = row_at::<GroupRow>(groups, group as usize);
    let denied = !(row.protocol == protocol_of(accept)) | source.has_wildcard();
    if denied {
        return Err(NotMet::Refused(Refusal::Denied));
    }
    Err(NotMet::Unmatched)
}

// The rows to look through: those of the connections where nobody is answered so far, else none.
pub fn searched(before: Result<u8, NotMet>, image: &[u8]) -> &[u8]
    requires { before ≡ Err NotMet.Unmatched → Laid image.now }
    ensures bytes { result.now ≡ Is.searched_of before image.now }
    ensures place { result.ref_ptr ≡ behind image.entry.ref_ptr (Is.searched_at before image.now) }
{
    match before {
        Ok(_) => &image[..0],
        Err(NotMet::Refused(_)) => &image[..0],
        Err(NotMet::Unmatched) => body_laid(image, Kind::Connection),
    }
}

// What is answered after all: the best match, or as before where there is none.
pub fn answer_after(before: Result<u8, NotMet>, best: Pick) -> Result<u8, NotMet>
    requires { best.at < 16 }
    ensures { result ≡ Is.answer_after before best }
{
    if best.score == 0 {
        return before;
    }
    Ok(best.at as u8)
}

// Which record an answer replaces: that of the connection that it names, or record 0, by itself.
pub fn place_of(answer: Result<u8, NotMet>) -> usize
    ensures { (result ≡ Is.met_place answer) × (result < 16) }
{
    match answer {
        Ok(k) => k as usize % 16,
        Err(NotMet::Refused(_)) => 0,
        Err(NotMet::Unmatched) => 0,
    }
}

// That record afterwards.
pub fn next_of(
    answer: Result<u8, NotMet>,
    image: &[u8],
    c: Connection,
    source: Remote,
) -> Connection
    requires { Is.is_met answer ≡ true → Laid image.now }
    ensures { result ≡ Is.met_next image.now source answer c }
{
    match answer {
        Ok(k) => c.met(config_laid(image, k as usize), source),
        Err(NotMet::Refused(_)) => c,
        Err(NotMet::Unmatched) => c,
    }
}
