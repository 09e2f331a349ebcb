// The entry points of selection: a datagram for a UDP group, an accept for a TCP group. Each is lent image, state and both
// memories, and answers any of them. Assumes nothing: no entry relies on its caller.
#![tactic(auto)]

ghost use Rattle.std.specs.Prelude.{◌≡◌};
ghost use Rattle.entry_arrivals.specs.Arrivals.{arrival_of, datagram_of, accept_of};
ghost use Rattle.gate.specs.Lent.{lent, lent_by};
ghost use Rattle.gate.specs.Gate.{through};
ghost use Rattle.select.specs.Choose.{answer_before};
ghost use Rattle.table_layout.specs.Layout.{Laid};

use connection::{Refusal, Remote};
use select::{Arrived, NotMet};
use state::State;

// The gate's refusal, or past the gate what is answered before any member is looked at.
fn past(
    asked: Result<(), Refusal>,
    image: &[u8],
    accept: bool,
    group: u8,
    source: Remote,
) -> Result<u8, NotMet>
    requires { asked ≡ Ok tt → Laid image.now }
    ensures { result ≡ through asked (λ x. Err (NotMet.Refused x)) (answer_before image.now accept group source) }
{
    match asked {
        Err(reason) => Err(NotMet::Refused(reason)),
        Ok(()) => select::answer_before(image, accept, group, source),
    }
}

// Either of them, by the lengths of both memories. The state is copied once: the gate is lent the copy, the search goes over it,
// and the record is replaced in; where nobody is met the same record is put back, so that there is one way out, and one copy.
pub fn arrive(
    image: &[u8],
    state: State,
    rx: usize,
    tx: usize,
    accept: bool,
    group: u8,
    source: Remote,
) -> Arrived
    ensures { result ≡ arrival_of (lent image.now state rx tx) accept group source }
{
    let mut after = state;
    let asked = gate::ask(image, &after, rx, tx);
    let before = past(asked, image, accept, group, source);
    let body = select::searched(before, image);
    let rows = body.len() / 16;
    let mut best = select::Pick { score: 0, at: 0 };
    for i in 0..rows {
        let start = i * 16;
        let row = &body[start..start + 16];
        let c = after.connections[i];
        best = select::better(best, row, i, c, accept, group, source);
    }
    let answer = select::answer_after(before, best);
    let k = select::place_of(answer);
    let c = after.connections[k];
    let next = select::next_of(answer, image, c, source);
    after.connections[k] = next;
    Arrived {
        state: after,
        answer,
    }
}

pub fn datagram(
    image: &[u8],
    state: State,
    rx: &[u8],
    tx: &[u8],
    group: u8,
    source: Remote,
) -> Arrived
    ensures { result ≡ datagram_of (lent_by image.now state rx.now tx.now) group source }
{
    arrive(image, state, rx.len(), tx.len(), false, group, source)
}

pub fn accept(
    image: &[u8],
    state: State,
    rx: &[u8],
    tx: &[u8],
    group: u8,
    source: Remote,
) -> Arrived
    ensures { result ≡ accept_of (lent_by image.now state rx.now tx.now) group source }
{
    arrive(image, state, rx.len(), tx.len(), true, group, source)
}
