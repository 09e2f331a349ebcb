// A commissioning sheet: single switches of three bytes, and what they come to, two words for each connection: the bits forced on and the
// bits forced off. Sheets are shortened to words, words are joined. Every function is total: no caller is relied on.
#![tactic(auto)]

ghost use Rattle.std.specs.Prelude.{◌≡◌, ◌<◌, ◌≤◌, ◌+◌, ◌*◌, ◌==◌, length, bit_and};
ghost use Rattle.std.specs.List.{list_all};
ghost use Rattle.sheet.specs.Force as Fo;
ghost use Rattle.sheet.specs.Sheet as Sh;

// What one connection's switches are forced to: on, off, and every other as it was.
#[derive(Clone, Copy, Debug, PartialEq, Eq)]
pub struct Pair {
    pub on: u32,
    pub off: u32,
}

// A pair for each connection.
#[derive(Clone, Copy, Debug, PartialEq, Eq)]
pub struct Words {
    pub pairs: [Pair; 16],
}

// One switch of a sheet.
#[derive(Clone, Copy, Debug, PartialEq, Eq)]
pub struct Switching {
    pub connection: u8,
    pub number: u8,
    pub on: bool,
}

// The byte at which a sheet is not laid out as one.
#[derive(Clone, Copy, Debug, PartialEq, Eq)]
pub struct Unfit {
    pub at: usize,
}

// What becomes of one switch of a sheet.
#[derive(Clone, Copy, Debug, PartialEq, Eq)]
pub enum Fate {
    Counts,
    Overridden(usize),
    Missing,
}

// A word with some bits off.
fn without(word: u32, off: u32) -> u32
    ensures { result ≡ Fo.without word off }
{
    (word | off) ^ off
}

// The pair of one switch.
#[tactic(auto, unfolding(crate::specs::Force::force_one))]
pub fn one(number: u8, on: bool) -> Pair
    ensures { result ≡ Fo.force_one number on }
{
    let bit = connection::bit_of(number);
    if on {
        return Pair { on: bit, off: 0 };
    }
    Pair { on: 0, off: bit }
}

impl Pair {
    // The switches with this pair's bits forced.
    #[tactic(auto, unfolding(crate::specs::Force::force_of))]
    pub fn force(self, switches: u32) -> u32
        ensures { result ≡ Fo.force_of self switches }
    {
        without(switches | self.on, self.off)
    }

    // This pair, and then another.
    #[tactic(auto, unfolding(crate::specs::Force::force_then))]
    pub fn then(self, later: Pair) -> Pair
        ensures { result ≡ Fo.force_then self later }
    {
        Pair {
            on: later.force(self.on),
            off: without(self.off, later.on) | later.off,
        }
    }
}

// The words that force nothing.
pub fn nothing() -> Words
    ensures { result ≡ Fo.no_words }
{
    Words {
        pairs: [Pair { on: 0, off: 0 }; 16],
    }
}

// Whether a table with so many connections has the switch.
pub fn is_there(rows: usize, switching: Switching) -> bool
    ensures { result ≡ Sh.switch_there rows switching }
{
    ((switching.connection as usize) < rows) & (switching.connection < 16) & (switching.number < 32)
}

// The words with one switch more.
#[tactic(auto, using(crate::proofs::Turns::there_below), unfolding(crate::specs::Sheet::add_switch))]
pub fn add(rows: usize, words: Words, switching: Switching) -> Words
    ensures { result ≡ Sh.add_switch rows words switching }
{
    if !is_there(rows, switching) {
        return words;
    }
    let n = switching.connection as usize;
    let mut after = words;
    after.pairs[n] = words.pairs[n].then(one(switching.number, switching.on));
    after
}

// The switch whose three bytes begin at `at`.
fn switching_at(sheet: &[u8], at: usize) -> Switching
    requires { at + 3 ≤ length sheet.now }
    ensures { result ≡ Sh.switching_at sheet.now at }
{
    Switching {
        connection: sheet[at],
        number: sheet[at + 1],
        on: sheet[at + 2] == 1,
    }
}

// Whether a sheet is whole switches with positions 0 and 1; else the byte where it is not.
pub fn fit_of(sheet: &[u8]) -> Result<(), Unfit>
    ensures { result ≡ Sh.fit_from 0 sheet.now }
{
    for k in 0..sheet.len() / 3 {
        if 1 < sheet[k * 3 + 2] {
            return Err(Unfit { at: k * 3 + 2 });
        }
    }
    if sheet.len() % 3 != 0 {
        return Err(Unfit {
            at: sheet.len() / 3 * 3,
        });
    }
    Ok(())
}

// The words of a whole sheet.
fn words_in(rows: usize, sheet: &[u8]) -> Words
    ensures { result ≡ Sh.sheet_words rows (Sh.sheet_switches sheet.now) }
{
    let mut words = nothing();
    for k in 0..sheet.len() / 3 {
        words = add(rows, words, switching_at(sheet, k * 3));
    }
    words
}

// A sheet shortened to the words of its switches, for a table with so many connections.
#[tactic(auto, unfolding(crate::specs::Sheet::shorten_of))]
pub fn shorten(rows: usize, sheet: &[u8]) -> Result<Words, Unfit>
    ensures { result ≡ Sh.shorten_of rows sheet.now }
{
    fit_of(sheet)?;
    Ok(words_in(rows, sheet))
}

// The words of one sheet and then those of another.
pub fn join(earlier: Words, later: Words) -> Words
    ensures { result ≡ Fo.join_words earlier later }
{
    let mut after = earlier;
    for (i, pair) in after.pairs.iter_mut().enumerate() {
        *pair = pair.then(later.pairs[i]);
    }
    after
}

// No pair forces a bit on and off.
fn all_agree(pairs: &[Pair]) -> bool
    ensures { result ≡ list_all (λ p. bit_and p.on p.off == 0) pairs.now }
{
    pairs.iter().all(|pair| pair.on & pair.off == 0)
}

// No bit is forced on and off.
#[tactic(auto, using(crate::proofs::Turns::agreeing_all))]
pub fn agrees(words: Words) -> bool
    ensures { result ≡ Fo.agreeing words }
{
    all_agree(&words.pairs)
}

// The later of two switches that have connection and number of a third, or the earlier.
fn pick(sheet: &[u8], k: usize, last: usize, i: usize) -> usize
    requires { (k * 3 + 3 ≤ length sheet.now) × (i * 3 + 3 ≤ length sheet.now) }
    ensures { result ≡ Sh.pick_alike sheet.now k last i }
{
    let s = switching_at(sheet, k * 3);
    let t = switching_at(sheet, i * 3);
    if (s.connection == t.connection) & (s.number == t.number) {
        return i;
    }
    last
}

// The last switch of the sheet that has connection and number of switch k.
fn last_alike(sheet: &[u8], k: usize) -> usize
    requires { k * 3 + 3 ≤ length sheet.now }
    ensures { result ≡ Sh.last_alike sheet.now k }
{
    let n = sheet.len() / 3;
    let mut last = k;
    for i in 0..n {
        last = pick(sheet, k, last, i);
    }
    last
}

// What becomes of switch k of a sheet.
pub fn fate_of(rows: usize, sheet: &[u8], k: usize) -> Fate
    ensures { result ≡ Sh.fate_of rows sheet.now k }
{
    if sheet.len() / 3 <= k {
        return Fate::Missing;
    }
    let switching = switching_at(sheet, k * 3);
    if !is_there(rows, switching) {
        return Fate::Missing;
    }
    let last = last_alike(sheet, k);
    if last == k {
        return Fate::Counts;
    }
    Fate::Overridden(last)
}
