// Transmit: the check of all destinations, then the store at all of them.
// Assumes of the table what specs/Send.antt names in `Ready`, and send memory of its length: the gate has shown both.
#![tactic(auto)]

ghost use Rattle.std.specs.Prelude.{◌≡◌, cond, not, ◌+◌, ◌*◌, ◌/◌, ◌<◌, ◌≤◌, eqb, length};
ghost use Rattle.table_layout.specs.Layout.{row_width};
ghost use Rattle.table_rows.specs.Rows.{brief_in, destination_in};
ghost use Rattle.send_destination.specs.Destination.{look_of, sent_of};
ghost use Rattle.send_destination.specs.Reply.{reply_number};
ghost use Rattle.send_outbox.specs.Outbox.{appended_of};
ghost use Rattle.send.specs.Verdict as Is;
ghost use Rattle.send.specs.Inner.{seen_number, refused_number, refused_row};
ghost use Rattle.send.specs.Send.{transmit_of, transmitted_of, Ready};

use connection::{Connection, Refusal};
use send_destination::Reply;
use state::State;
use table_layout::Kind;
use table_rows::{DestinationRow, row_at};
use wire::be8;

// Why header and payload are stored at no destination.
#[derive(Clone, Copy, PartialEq, Eq)]
pub enum NotSent {
    Refused(Refusal),
    NoDestination,
    SwitchedOff,
    // Kept: the number, and no Reply, because `ExactlyWhen` of theorem_transmit speaks of it.
    RefusedAt { number: u8, destination: usize },
}

// The answer, with the state after it.
#[derive(Clone, Copy)]
pub struct Transmitted {
    pub state: State,
    pub answer: Result<(), NotSent>,
}

// One row more that does not refuse: no destination so far, then one that is switched off, then one that fits.
#[tactic(auto, unfolding(crate::specs::Verdict::join_of))]
fn join(seen: Option<Reply>, found: Reply) -> Option<Reply>
    ensures { seen_number result ≡ Is.join_of (seen_number seen) (reply_number found) }
{
    match seen {
        Some(Reply::Fits) => seen,
        _ => Some(found),
    }
}

fn outcome(seen: Option<Reply>) -> Result<(), NotSent>
    ensures { result ≡ Is.transmission_of (seen_number seen) }
{
    match seen {
        None => Err(NotSent::NoDestination),
        Some(Reply::SwitchedOff) => Err(NotSent::SwitchedOff),
        Some(_) => Ok(()),
    }
}

// Whether row i is for a PDU. Of the number's two bytes the last differs more often: it is read first.
fn is_for(body: &[u8], i: usize, pdu: u16) -> bool
    requires { i < length body.now / row_width Kind.Destination }
    ensures { result ≡ eqb (destination_in body.now i).pdu pdu }
{
    let at = i * 16;
    let row = &body[at..at + 16];
    (be8(row, 9) == (pdu % 256) as usize) & (be8(row, 8) == (pdu / 256) as usize)
}

// What the destination of a row says, where its connection's record is c.
fn look_in(connections: &[u8], d: DestinationRow, c: Connection, len: usize) -> Reply
    ensures { reply_number result ≡ look_of len (brief_in connections.now d.connection).size d c }
{
    let row = table_rows::brief_in(connections, d.connection as usize);
    send_destination::look(d, c, row.size, len)
}

fn refuses(found: Reply) -> bool
    ensures { result ≡ not (Is.passes (reply_number found)) }
{
    !matches!(found, Reply::Fits | Reply::SwitchedOff)
}

// Header and payload appended to the stretch of the row's connection, and the record after it.
fn put(tx: &mut [u8], d: DestinationRow, c: Connection, payload: &[u8]) -> Connection
    requires { (d.connection < 16) × (c.used + 8 + length payload.now ≤ 1472) }
    ensures value { result ≡ sent_of d (c.used + 8 + length payload.now) c }
    ensures tx_after { tx.new ≡ appended_of tx.old (d.connection * 1472 + c.used) d.id payload.now }
{
    let k = d.connection as usize;
    let used = c.used as usize;
    send_outbox::append(tx, k * 1472 + used, d.id, payload);
    send_destination::sent(c, d, (used + 8 + payload.len()) as u16)
}

fn is_stored(answer: Result<(), NotSent>) -> bool
    ensures { result ≡ Is.is_stored answer }
{
    answer.is_ok()
}

// The answer of the first pass: with a refusal and its row, or with none.
fn verdict(seen: Option<Reply>, refused: Option<(Reply, usize)>) -> Result<(), NotSent>
    ensures { result ≡ Is.ended_of (seen_number seen) (refused_number refused) (refused_row refused) }
{
    match refused {
        None | Some((Reply::Fits, _)) => outcome(seen),
        Some((found, i)) => Err(NotSent::RefusedAt {
            number: u8::from(found),
            destination: i,
        }),
    }
}

// A payload for all switched-on destinations of a PDU, or for none. The first pass stops at the first refusal; the second stores. Both
// stand here, and not in functions of their own, because a call would copy the state.
pub fn transmit(image: &[u8], s: State, tx: &mut [u8], pdu: u16, payload: &[u8]) -> Transmitted
    requires { Ready image.now × (length tx.old ≡ 23552) }
    ensures value { result ≡ transmitted_of image.now s pdu payload.now tx.old }
    ensures tx_after { tx.new ≡ (transmit_of image.now s pdu payload.now tx.old).memory }
{
    let body = table_layout::body_laid(image, Kind::Destination);
    let connections = table_layout::body_laid(image, Kind::Connection);
    let n = body.len() / 16;
    let mut next = s;
    let mut seen = None;
    let mut refused = None;
    for i in 0..n {
        if !is_for(body, i, pdu) {
            continue;
        }
        let d = row_at::<DestinationRow>(body, i);
        let k = d.connection as usize;
        let c = next.connections[k];
        let found = look_in(connections, d, c, payload.len());
        if refuses(found) {
            refused = Some((found, i));
            break;
        }
        seen = join(seen, found);
    }
    let answer = verdict(seen, refused);
    if !is_stored(answer) {
        return Transmitted {
            answer,
            state: next,
        };
    }
    for j in 0..n {
        if !is_for(body, j, pdu) {
            continue;
        }
        let d = row_at::<DestinationRow>(body, j);
        let k = d.connection as usize;
        let c = next.connections[k];
        if !receive_route::is_on(d.groups, c.switches) {
            continue;
        }
        let after = put(tx, d, c, payload);
        next.connections[k] = after;
    }
    Transmitted {
        answer,
        state: next,
    }
}
