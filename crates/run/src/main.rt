// run: a table image and a script on standard input; what each entry is and answers, and the records at the end, on standard output
// (docs/EVENTS.md).
#![tactic(auto)]

use input_script::run_under;
use words_refusal::under_table;

fn main() {
    under_table(|table| run_under(table));
}
