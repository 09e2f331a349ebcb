// The datagram reader: a struct that holds a datagram and its place, over the entry point that walks a datagram. Each function
// over it is thin and takes it apart; the last has plain parameters. Assumes nothing: no function relies on its caller.
#![tactic(auto)]

ghost use Rattle.std.specs.Prelude.{◌≡◌};
ghost use Rattle.entry_receive.specs.Walk.{walk_of};
ghost use Rattle.entry_reader.specs.Reader.{opened, moved_to, answer_at, PayloadFound};
ghost use Rattle.gate.specs.Lent.{lent_by};

use entry_receive::DatagramWalked;
use receive_datagram::Outcome;
use state::State;
use table_layout::part_of;

#[derive(Clone, Copy)]
pub struct DatagramReader<'a> {
    pub datagram: &'a [u8],
    pub place: usize,
}

// A reader at the start of a datagram.
pub fn new<'a>(datagram: &'a [u8]) -> DatagramReader<'a>
    ensures { result ≡ opened datagram.entry }
{
    DatagramReader { datagram, place: 0 }
}

// The reader moved to a place.
pub fn moved<'a>(reader: DatagramReader<'a>, place: usize) -> DatagramReader<'a>
    ensures { result ≡ moved_to reader.entry place }
{
    DatagramReader {
        datagram: reader.datagram,
        place,
    }
}

// The next answer, with the next place; a refusal gives the reader's own place.
pub fn next<'a>(
    reader: DatagramReader<'a>,
    image: &[u8],
    state: State,
    rx: &[u8],
    tx: &[u8],
    connection: u8,
) -> DatagramWalked
    ensures { result ≡ answer_at reader.entry (lent_by image.now state rx.now tx.now) connection }
{
    entry_receive::walk_datagram(
        image,
        state,
        rx,
        tx,
        connection,
        reader.datagram,
        reader.place,
    )
}

// The payload of a PDU that a walk found in a datagram, as the part where it stands; where none was found, an empty part.
pub fn payload_in(datagram: &[u8], outcome: Outcome) -> &[u8]
    ensures { PayloadFound datagram.entry outcome result }
{
    match outcome {
        Outcome::End => &datagram[..0],
        Outcome::Pdu {
            route: _,
            id: _,
            at,
            length,
        } => part_of(datagram, at, length as usize),
        Outcome::Drop {
            reason: _,
            id: _,
            length: _,
        } => &datagram[..0],
    }
}

// The payload that an outcome names, as the part of the reader's datagram where it stands.
pub fn payload_of<'a>(reader: DatagramReader<'a>, outcome: Outcome) -> &'a [u8]
    ensures { PayloadFound reader.entry.datagram outcome result }
{
    payload_in(reader.datagram, outcome)
}

// The answer at a place of a datagram, by a reader that is moved there: plain parameters.
pub fn walk_from(
    datagram: &[u8],
    place: usize,
    image: &[u8],
    state: State,
    rx: &[u8],
    tx: &[u8],
    connection: u8,
) -> DatagramWalked
    ensures { result ≡ walk_of (lent_by image.now state rx.now tx.now) connection datagram.now place }
{
    next(
        moved(new(datagram), place),
        image,
        state,
        rx,
        tx,
        connection,
    )
}
