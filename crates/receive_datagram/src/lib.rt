// A step of the walk over a datagram: what stands at a place, and the next place. Total: a place beyond the end is the end.
#![tactic(auto)]

ghost use Rattle.std.specs.Prelude.{◌≡◌, ◌+◌, ◌<◌, ◌^◌, length};
ghost use Rattle.reading_lengths.specs.Head.{head_of};
ghost use Rattle.receive_route.specs.Route.{lookup_of};
ghost use Rattle.reading_walk.specs.Walk.{whole_at, walk_step};
ghost use Rattle.receive_datagram.specs.Datagram.{stepped, walked_of};

use reading::{Decision, DropReason};
use receive_route::lookup;
use wire::be32;

// What a walk finds: the end; a PDU, with the place of its payload in the datagram; a drop.
#[derive(Clone, Copy)]
pub enum Outcome {
    End,
    Pdu {
        route: u8,
        id: u32,
        at: usize,
        length: u32,
    },
    Drop {
        reason: DropReason,
        id: u32,
        length: u32,
    },
}

#[derive(Clone, Copy)]
pub struct Walked {
    pub outcome: Outcome,
    pub next: usize,
}

// A header whose payload stands whole in the datagram: the routes decide. A marked route hands it out whole as well; an accepted table has
// none on a UDP connection.
fn whole_at(decision: Decision, place: usize, id: u32, size: u32) -> Walked
    requires { place + 8 + size < 2 ^ 64 }
    ensures { result ≡ stepped (whole_at decision place id size) }
{
    let at = place + 8;
    let outcome = match decision {
        Decision::Accept(route) | Decision::Transfer(route) => Outcome::Pdu {
            route,
            id,
            at,
            length: size,
        },
        Decision::Refuse(reason) => Outcome::Drop {
            reason,
            id,
            length: size,
        },
    };
    Walked {
        outcome,
        next: at + size as usize,
    }
}

// The bytes from the place on, one at least: 23 is tested before the routes are asked.
#[tactic(auto, using(crate::proofs::Laws::judged))]
fn walk_rest(rest: &[u8], place: usize, routes: &[u8], connection: u8, switches: u32) -> Walked
    requires { (0 < length rest.now) × (place + length rest.now < 2 ^ 64) }
    ensures { result ≡ stepped
        (walk_step (lookup_of routes.now connection switches) (place + length rest.now) place (head_of rest.now)) }
{
    let n = rest.len();
    if n < 8 {
        return Walked {
            outcome: Outcome::Drop {
                reason: DropReason::CutShort,
                id: 0,
                length: 0,
            },
            next: place + n,
        };
    }
    let id = be32(rest, 0);
    let size = be32(rest, 4);
    if n - 8 < size {
        return Walked {
            outcome: Outcome::Drop {
                reason: DropReason::CutShort,
                id: id as u32,
                length: size as u32,
            },
            next: place + n,
        };
    }
    let decision = lookup(routes, connection, switches, id as u32, size as u32);
    whole_at(decision, place, id as u32, size as u32)
}

// A step at a place of a datagram: the bytes from there on are handed on as the part that starts in the middle.
#[tactic(auto, using(crate::proofs::Laws::walk_at_end, crate::proofs::Laws::in_the_middle))]
pub fn walk(datagram: &[u8], place: usize, routes: &[u8], connection: u8, switches: u32) -> Walked
    ensures { result ≡ walked_of datagram.now place routes.now connection switches }
{
    let n = datagram.len();
    if n <= place {
        return Walked {
            outcome: Outcome::End,
            next: n,
        };
    }
    walk_rest(&datagram[place..], place, routes, connection, switches)
}
