// The entry point that applies a sheet's words to a state. It is lent image, state and both memories, and answers any of them. Assumes
// nothing: it does not rely on its caller.
#![tactic(auto)]

ghost use Rattle.std.specs.Prelude.{◌≡◌, ◌≤◌};
ghost use Rattle.entry_sheet.specs.Apply.{forced_of, forced_rows, apply_of};
ghost use Rattle.gate.specs.Lent.{lent_by};

use connection::{Connection, Refusal};
use entry_events::Told;
use sheet::{Pair, Words};
use state::State;
use table_layout::{Kind, rows_of};

// A record with its switches forced.
fn forced(pair: Pair, connection: Connection) -> Connection
    ensures { result ≡ forced_of pair connection }
{
    let mut next = connection;
    next.switches = pair.force(connection.switches);
    next
}

// Past the gate: the switches of every connection that the table has, each forced by its own pair.
fn force_rows(rows: usize, state: State, words: Words) -> State
    requires { rows ≤ 16 }
    ensures { result ≡ forced_rows rows words state }
{
    let mut after = state;
    for i in 0..rows {
        after.connections[i] = forced(words.pairs[i], after.connections[i]);
    }
    after
}

// The words of a sheet applied to every connection at once: what its switches leave, called one by one.
pub fn apply(image: &[u8], state: State, rx: &[u8], tx: &[u8], words: Words) -> Told
    ensures { result ≡ apply_of (lent_by image.now state rx.now tx.now) words }
{
    let asked = gate::ask(image, &state, rx.len(), tx.len());
    match asked {
        Err(reason) => Told {
            answer: Err(reason),
            state,
        },
        Ok(()) => {
            if sheet::agrees(words) {
                let after = force_rows(rows_of(image, Kind::Connection), state, words);
                return Told {
                    answer: Ok(()),
                    state: after,
                };
            }
            Told {
                answer: Err(Refusal::Denied),
                state,
            }
        }
    }
}
