// Mending: from power sums to the errors that have them, and the nearest word with given sums.
#![tactic(auto)]

ghost use Rattle.std.specs.Prelude.{◌≡◌, min, ◌/◌, ◌<◌, ◌≤◌, length};
ghost use Rattle.refusal.specs.Promise.{Tells};
ghost use Rattle.code.specs.Word.{added};
ghost use Rattle.sums.specs.Held.{eleven};
ghost use Rattle.mender.specs.Mender.{MendsTo, Mends, NearestWith, NearestClean};
ghost use Rattle.mender.specs.Found.{lone, OneError, ElementsTo, ZeroTo, SumsTo, Clear, Repairs, Without, Corrects, sixth};

use lanes::{FIVE_LANES, NINE_LANES, SIX_LANES, TEN_LANES};
use sums::Sums;

mod rows;
mod values;

// What stands for an address where there is none: the one after the last. No Option, since film.h answers it as FILM_NOWHERE.
pub const NOWHERE: u8 = 63;

// A word that is found. Errors: how many of its characters are not 0, and the first and the last address of these. A word near another: how far it
// lies, and the first and the last address at which it differs.
#[derive(Clone, Copy)]
pub struct Mended {
    pub weight: u8,
    pub first: u8,
    pub last: u8,
    pub word: [u8; 63],
}

// One error: its address, and what is to be added there.
#[derive(Clone, Copy)]
struct Single {
    address: usize,
    value: u8,
}

// The errors whose first c power sums these are, S_-5 first, e of them at most: c counts up to 11, and e up to half of c.
pub fn mend(sums: [u8; 11], c: usize, e: usize) -> Option<Mended>
    ensures { Mends sums c e result }
{
    let most = c.min(11);
    let errors = e.min(most / 2);
    if !elements_to(sums, most) {
        return None;
    }
    find(sums::packed(sums), most, errors)
}

// The same from all eleven sums, packed.
pub fn mend_eleven(sums: Sums, e: usize) -> Option<Mended>
    ensures { Mends (eleven sums) 11 e result }
{
    find(sums, 11, e.min(5))
}

// The same from the first c of these sums, as `mend` counts c and e. No error is told at once.
pub fn mend_first(sums: Sums, c: usize, e: usize) -> Option<Mended>
    ensures { Mends (eleven sums) c e result }
{
    let most = c.min(11);
    if zero_first(sums, most) {
        return Some(Mended {
            weight: 0,
            first: NOWHERE,
            last: NOWHERE,
            word: [0u8; 63],
        });
    }
    find(sums, most, e.min(most / 2))
}

// The word with these power sums within e of a word: e counts up to 5.
pub fn nearest(word: &[u8], sums: [u8; 11], e: usize) -> Option<Mended>
    ensures { NearestWith sums word.now e result }
{
    if word.len() != 63 {
        return None;
    }
    if !eights::all_low(word) {
        return None;
    }
    if !elements_to(sums, 11) {
        return None;
    }
    let differences = sums::eleven_added(sums::eleven_sums(word), sums::packed(sums));
    without_errors(word, differences, e)
}

// A word without the at most e errors that have these sums, where it has 63 characters: e counts up to 5.
pub fn without_errors(word: &[u8], sums: Sums, e: usize) -> Option<Mended>
    ensures { Without (eleven sums) word.now e result }
{
    let Ok(word) = <&[u8; 63]>::try_from(word) else {
        return None;
    };
    repaired(word, sums, e.min(5))
}

// A word without the at most e errors that have these sums. No error and one are told at once, since nearly all words have no more.
fn repaired(word: &[u8; 63], sums: Sums, e: usize) -> Option<Mended>
    requires { e ≤ 5 }
    ensures { Repairs (eleven sums) word.now e result }
{
    if all_zero(sums) {
        let same = word_added(word, [0u8; 63]);
        return Some(Mended {
            weight: 0,
            first: NOWHERE,
            last: NOWHERE,
            word: same,
        });
    }
    if e > 0 {
        if let Some(one) = lone_error(sums) {
            let mended = changed(word, one.address, one.value);
            let address = one.address as u8;
            return Some(Mended {
                weight: 1,
                first: address,
                last: address,
                word: mended,
            });
        }
    }
    let errors = find(sums, 11, e)?;
    let mended = word_added(word, errors.word);
    Some(Mended {
        word: mended,
        ..errors
    })
}

// Whether eleven sums are all 0.
pub fn all_zero(sums: Sums) -> bool
    ensures { Tells (Clear (eleven sums)) result }
{
    sums.first % TEN_LANES == 0 && sums.last % 64 == 0
}

// Whether a word has the first c of these sums.
fn has_sums(word: [u8; 63], sums: Sums, c: usize) -> bool
    requires { c ≤ 11 }
    ensures { Tells (SumsTo (eleven sums) word c) result }
{
    zero_first(sums::eleven_added(sums, sums::eleven_sums(&word)), c)
}

// Whether the first c of eleven sums are all 0.
fn zero_first(sums: Sums, c: usize) -> bool
    requires { c ≤ 11 }
    ensures { Tells (ZeroTo (eleven sums) c) result }
{
    if c > 10 {
        return all_zero(sums);
    }
    sums.first % (1 << (6 * c)) == 0
}

// A word with a value added at one address.
fn changed(word: &[u8; 63], address: usize, value: u8) -> [u8; 63]
    requires { address < 63 }
    ensures { result ≡ added word.now (lone address value) }
{
    let mut r = word_added(word, [0u8; 63]);
    r[address] ^= value;
    r
}

// Whether the first c sums are elements.
fn elements_to(sums: [u8; 11], c: usize) -> bool
    requires { c ≤ 11 }
    ensures { Tells (ElementsTo sums c) result }
{
    sums[..c].iter().all(|sum| *sum <= 63)
}

// The clean word within e of a word: e counts up to 5.
pub fn clean_within(word: &[u8], e: usize) -> Option<Mended>
    ensures { NearestClean word.now e result }
{
    nearest(word, [0u8; 11], e)
}

// The word of at most e errors with these c sums. The locator that five windows leave is held against a sixth where there is one, which nearly
// every locator of too many errors fails; the pattern found is weighed, and its sums are taken again: what passes is the word, and where one
// fails there is none.
fn find(s: Sums, c: usize, e: usize) -> Option<Mended>
    requires { (c ≤ 11) × (e ≤ c / 2) }
    ensures { MendsTo (eleven s) c e result }
{
    let x = rows::spanned_rows(s.first, e, c - c / 2);
    let row = x[rows::first_row(x)?];
    if c == 11 {
        if !sixth_window(row, s) {
            return None;
        }
    }
    let pattern = values::values_at_roots(row, rows::coefficients(row), s, (c - c / 2).min(5));
    if usize::from(pattern.weight) > e {
        return None;
    }
    if !has_sums(pattern.word, s, c) {
        return None;
    }
    Some(pattern)
}

// Whether a row combines the sixth window to 0.
fn sixth_window(x: u64, s: Sums) -> bool
    ensures { Tells (sixth x (eleven s) ≡ 0) result }
{
    let window = s.first / FIVE_LANES % FIVE_LANES + u64::from(s.last % 64) * FIVE_LANES;
    lanes::sum_of(lanes::products(x / FIVE_LANES, window)) == 0
}

// A word and a pattern of errors added.
fn word_added(word: &[u8; 63], pattern: [u8; 63]) -> [u8; 63]
    ensures { result ≡ added word.now pattern }
{
    let mut r = pattern;
    for (a, c) in r.iter_mut().enumerate() {
        *c = word[a] ^ *c;
    }
    r
}

// A word of 63 characters with errors added; to another nothing is added, and the errors stand alone.
pub fn corrected(word: &[u8], errors: [u8; 63]) -> [u8; 63]
    ensures { Corrects word.now errors result }
{
    let Ok(word) = <&[u8; 63]>::try_from(word) else {
        return errors;
    };
    word_added(word, errors)
}

// The one error whose sums these are, if it is one: then each sum is the one before it times the place, and S_0 is the value.
fn lone_error(s: Sums) -> Option<Single>
    ensures { OneError (eleven s) result }
{
    let value = (s.first / FIVE_LANES % 64) as u8;
    if value == 0 {
        return None;
    }
    let place = places::over((s.first / SIX_LANES % 64) as u8, value);
    let after = s.first / 64 % NINE_LANES + u64::from(s.last % 64) * NINE_LANES;
    let turned = lanes::scale(s.first, place);
    if turned != after {
        return None;
    }
    Some(Single {
        address: 62 - usize::from(places::log_of(place)),
        value,
    })
}
