// What the front of a recording and its contents show (docs/RECORDING.md), of which at most 4,000 rows are kept.
#![tactic(auto)]

use recording::{Unreadable, entries_in, front_of};

// What the contents show. Of more rows than are kept the kept bytes are too few for them; all may be there.
pub fn shown_of(contents: &[u8], long: usize) -> Result<(), Unreadable> {
    let shown = front_of(contents);
    let all = 4 + entries_in(contents) as usize * 12 <= long;
    if all && shown == Err(Unreadable::Contents) {
        return Err(Unreadable::Many);
    }
    shown
}

// How many entries are to be run: none unless the contents are whole and within the limits.
pub fn count_of(shown: Result<(), Unreadable>, contents: &[u8]) -> u16 {
    match shown {
        Ok(()) => entries_in(contents),
        Err(_) => 0,
    }
}
