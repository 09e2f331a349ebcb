// The walk over a datagram by a table image's own routes, without a state: a refusal, or a step; and both as
// plain numbers.
#![tactic(auto)]

ghost use Rattle.std.specs.Prelude.{◌≡◌};
ghost use Rattle.table.specs.Accepts.{Accepts};
ghost use Rattle.soad_walk.specs.TableWalk.{accepted_walk, table_walk_of, numbers_of, walk_refusal_number};

use receive_datagram::{Outcome, Walked, walk};
use table::check_table;
use table_layout::{Kind, body_laid, rows_of};
use table_rows::is_tcp;

// Why a walk is refused: a bad image; no such connection; a TCP connection, or a place beyond the end.
#[derive(Clone, Copy, Debug, PartialEq, Eq)]
pub enum WalkRefusal {
    BadImage,
    Missing,
    Denied,
}

impl From<WalkRefusal> for u32 {
    fn from(refusal: WalkRefusal) -> u32
        ensures { result ≡ walk_refusal_number refusal }
    {
        match refusal {
            WalkRefusal::BadImage => 1,
            WalkRefusal::Missing => 2,
            WalkRefusal::Denied => 3,
        }
    }
}

// An outcome as numbers. Kind 0 is the end, 1 a PDU (number: its route), 2 a drop (number: its reason).
#[derive(Clone, Copy)]
pub struct Numbers {
    pub kind: u32,
    pub number: u32,
    pub id: u32,
    pub length: u32,
    pub at: usize,
}

pub fn numbers_of(outcome: Outcome) -> Numbers
    ensures { result ≡ numbers_of outcome }
{
    match outcome {
        Outcome::End => Numbers {
            kind: 0,
            number: 0,
            id: 0,
            length: 0,
            at: 0,
        },
        Outcome::Pdu {
            route,
            id,
            at,
            length,
        } => Numbers {
            kind: 1,
            number: route as u32,
            id,
            length,
            at,
        },
        Outcome::Drop { reason, id, length } => Numbers {
            kind: 2,
            number: u8::from(reason) as u32,
            id,
            length,
            at: 0,
        },
    }
}

// An image that is accepted: 2, then 3, then the step.
fn walk_accepted(
    image: &[u8],
    connection: usize,
    switches: u32,
    datagram: &[u8],
    place: usize,
) -> Result<Walked, WalkRefusal>
    requires { Accepts image.now }
    ensures { result ≡ accepted_walk image.now connection switches datagram.now place }
{
    if rows_of(image, Kind::Connection) <= connection {
        return Err(WalkRefusal::Missing);
    }
    let connections = body_laid(image, Kind::Connection);
    let groups = body_laid(image, Kind::Group);
    if is_tcp(connections, groups, connection) {
        return Err(WalkRefusal::Denied);
    }
    if datagram.len() < place {
        return Err(WalkRefusal::Denied);
    }
    let routes = body_laid(image, Kind::Route);
    Ok(walk(datagram, place, routes, connection as u8, switches))
}

// A bad image is refused first.
pub fn walk_table(
    image: &[u8],
    connection: usize,
    switches: u32,
    datagram: &[u8],
    place: usize,
) -> Result<Walked, WalkRefusal>
    ensures { result ≡ table_walk_of image.now connection switches datagram.now place }
{
    match check_table(image) {
        Err(_) => Err(WalkRefusal::BadImage),
        Ok(()) => walk_accepted(image, connection, switches, datagram, place),
    }
}
