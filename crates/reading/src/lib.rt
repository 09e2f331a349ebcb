// What the receive routes say to a header's id and length: the payload is taken on this route (its row number), or it
// is dropped for a reason, or it is a transfer on this route, handed out in pieces; and the reasons of drops, with their numbers.
// The definitions of reading are in specs/, their laws in proofs/.
#![tactic(auto)]

ghost use Rattle.std.specs.Prelude.{◌≡◌};
ghost use Rattle.reading.specs.Reasons.{reason_number};

// No route; switched off; longer than allowed; a datagram that ends within a header or its payload.
#[derive(Clone, Copy, Debug, PartialEq, Eq)]
pub enum DropReason {
    NoRoute,
    SwitchedOff,
    TooLong,
    CutShort,
}

// The number of a reason, in answers and for C.
impl From<DropReason> for u8 {
    ghost from_gives = { λ reason number. number ≡ reason_number reason };

    fn from(reason: DropReason) -> u8 {
        match reason {
            DropReason::NoRoute => 20,
            DropReason::SwitchedOff => 21,
            DropReason::TooLong => 22,
            DropReason::CutShort => 23,
        }
    }
}

#[derive(Clone, Copy, Debug, PartialEq, Eq)]
pub enum Decision {
    Accept(u8),
    Refuse(DropReason),
    Transfer(u8),
}
