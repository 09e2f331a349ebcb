// replay: a table image and the recording of a shift on standard input; what the core does with it today, on standard output
// (docs/RECORDING.md).
#![tactic(auto)]

use input_replay::replay_under;
use words_refusal::under_table;

fn main() {
    under_table(|table| replay_under(table));
}
