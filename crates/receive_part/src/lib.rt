// What a connection has received and not yet handed out: part of a header, part of a payload, bytes still to skip, or a running
// transfer, of which nothing is held. Its shape, whether it is empty, and whether it is a transfer.
#![tactic(auto)]

ghost use Rattle.std.specs.Prelude.{◌≡◌};
ghost use Rattle.receive_part.specs.Part.{shaped, empty_part, transferring, room_for};

// `Header { held: 0, value: 0 }` is a connection that is ready and at a header's first byte.
#[derive(Clone, Copy, Debug, PartialEq, Eq)]
pub enum Part {
    Header { held: u8, value: u64 },
    Payload { route: u8, length: u16, held: u16 },
    Skip(u32),
    Transfer { route: u8, left: u32 },
}

// What `held` header bytes stay below as a number; 0 where so many cannot be held.
#[tactic(auto, unfolding(crate::specs::Part::room_for))]
pub fn room_for(held: u8) -> u64
    ensures { result ≡ room_for held }
{
    match held {
        0 => 1,
        1 => 256,
        2 => 65536,
        3 => 16777216,
        4 => 4294967296,
        5 => 1099511627776,
        6 => 281474976710656,
        7 => 72057594037927936,
        _ => 0,
    }
}

// Whether the receive part has a shape that R2.4 allows.
#[tactic(auto, using(crate::proofs::Powers::below_room))]
pub fn is_shaped(part: Part) -> bool
    ensures { result ≡ shaped part }
{
    match part {
        Part::Header { held, value } => value < room_for(held),
        Part::Payload { length, held, .. } => held < length,
        Part::Skip(bytes) => 0 < bytes,
        Part::Transfer { route: _, left } => 0 < left,
    }
}

// Whether nothing is received: the part of a connection that is ready, with 0 header bytes held that stand for 0.
pub fn is_empty(part: Part) -> bool
    ensures { result ≡ empty_part part }
{
    part == Part::Header { held: 0, value: 0 }
}

// Whether a transfer runs.
pub fn is_transfer(part: Part) -> bool
    ensures { result ≡ transferring part }
{
    matches!(part, Part::Transfer { .. })
}
