// Making a state: fresh under an accepted table; a refused one gives 1 with its place.
#![tactic(auto)]

ghost use Rattle.std.specs.Prelude.{◌≡◌};
ghost use Rattle.entry_fresh.specs.Make.{make_of};

use state::State;
use table::{BadTable, check_table};

// The table's answer, and the state to begin with.
// Kept: what may not change, make_of (R2.13): a refused table gives a state too, that of the empty table.
#[derive(Clone, Copy)]
pub struct Made {
    pub answer: Result<(), BadTable>,
    pub state: State,
}

#[tactic(auto, unfolding(crate::specs::Make::make_of, crate::specs::Make::made_of))]
pub fn make_state(image: &[u8]) -> Made
    ensures { result ≡ make_of image.now }
{
    match check_table(image) {
        Ok(()) => Made {
            answer: Ok(()),
            state: state::fresh_state(image),
        },
        Err(BadTable::At(place)) => Made {
            answer: Err(BadTable::At(place)),
            state: state::empty_state(),
        },
    }
}
