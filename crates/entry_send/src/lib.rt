// The entry points of sending: a transmit, and taking the waiting bytes of a connection. Each is lent image, state and both
// memories, and answers any of them. Assumes nothing: no entry relies on its caller.
#![tactic(auto)]

ghost use Rattle.std.specs.Prelude.{◌≡◌};
ghost use Rattle.entry_send.specs.Sending.{send_of, sent_memory, taken_waiting, taken_out};
ghost use Rattle.gate.specs.Lent.{loan};

use connection::Remote;
use send::{NotSent, Transmitted};
use send_waiting::NotTaken;
use state::State;

// What a take is answered, with the state after it.
#[derive(Clone, Copy)]
pub struct Taken {
    pub state: State,
    pub answer: Result<(u16, Remote), NotTaken>,
}

// A payload for all switched-on destinations of a PDU, or for none. The state is copied once: the gate is lent the copy,
// and the passes go on with it.
pub fn transmit(
    image: &[u8],
    state: State,
    rx: &[u8],
    tx: &mut [u8],
    pdu: u16,
    payload: &[u8],
) -> Transmitted
    ensures value { result ≡ send_of (loan image.now state rx.now tx.old) pdu payload.now }
    ensures tx_after { tx.new ≡ sent_memory (loan image.now state rx.now tx.old) pdu payload.now }
{
    let after = state;
    let asked = gate::ask(image, &after, rx.len(), tx.len());
    match asked {
        Err(reason) => {
            return Transmitted {
                answer: Err(NotSent::Refused(reason)),
                state: after,
            };
        }
        Ok(()) => {
            return send::transmit(image, after, tx, pdu, payload);
        }
    }
}

// The waiting bytes of a connection to the front of an out buffer. The state is copied once, and the record is
// replaced in the copy.
pub fn take_waiting(
    image: &[u8],
    state: State,
    rx: &[u8],
    tx: &[u8],
    connection: u8,
    out: &mut [u8],
) -> Taken
    ensures value { result ≡ taken_waiting (loan image.now state rx.now tx.now) connection out.old }
    ensures out_after { out.new ≡ taken_out (loan image.now state rx.now tx.now) connection out.old }
{
    let n = connection as usize;
    let mut after = state;
    let asked = gate::ask_at(image, &after, rx.len(), tx.len(), n);
    match asked {
        Err(reason) => {
            return Taken {
                state: after,
                answer: Err(NotTaken::Refused(reason)),
            };
        }
        Ok(()) => {
            let c = after.connections[n];
            let config = state::config_laid(image, n);
            let waiting = send_waiting::waiting_of(tx, connection, c.used);
            let drained = send_waiting::take(c, config, waiting, out);
            after.connections[n] = drained.connection;
            return Taken {
                state: after,
                answer: drained.answer,
            };
        }
    }
}
