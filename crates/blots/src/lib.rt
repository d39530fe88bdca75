// Reading a line with blots: the line that differs from the word in e characters outside the f blots, 2 e + f at most 11.
#![tactic(auto)]

ghost use Rattle.std.specs.Prelude.{◌≡◌, ◌^◌, ◌<◌, ◌≤◌, length};
ghost use Rattle.refusal.specs.Promise.{Tells};
ghost use Rattle.polynomial.specs.Sums.{weight};
ghost use Rattle.sums.specs.Held.{eleven};
ghost use Rattle.line.specs.Promises.{reading_numbers};
ghost use Rattle.blots.specs.Promises.{Marked, ReadsBlotted};
ghost use Rattle.blots.specs.Inside.{NoneBefore, FirstSet, LastSet, Holds, Finds, FindsWithout, FindsNear};

use line::Reading;
use refusal::Refusal;
use sums::Sums;

mod clearing;

// The characters of a line, and the bytes of a map.
const LINE: usize = 63;

// The power sums. They tell the characters at as many blots, and no more.
const SUMS: usize = 11;

// What is to be added to a word, and a bit for each address at which it may not be 0.
#[derive(Clone, Copy)]
struct Errors {
    word: [u8; 63],
    set: u64,
}

// Reads a line with blots: the map has 1 for a blot and 0 for none. Writes the line that differs from the word so little outside the blots that there
// is no second one.
pub fn read_blotted(word: &[u8], map: &[u8], output: &mut [u8]) -> Result<Reading, Refusal>
    ensures { ReadsBlotted word.now map.now output.old (reading_numbers result) output.new }
{
    if word.len() != LINE {
        return Err(Refusal::InputLength);
    }
    if map.len() != LINE {
        return Err(Refusal::InputLength);
    }
    if output.len() != LINE {
        return Err(Refusal::OutputLength);
    }
    if !eights::all_low(word) {
        return Err(Refusal::ValueOver);
    }
    if !marked(map) {
        return Err(Refusal::ValueOver);
    }
    let Some(errors) = errors_near(word, held(map)) else {
        return Err(Refusal::NoLine);
    };
    let pattern = errors.word;
    let line = mender::corrected(word, pattern);
    let number = line::number_of(&line);
    line::put(line, output);
    Ok(Reading {
        number: number,
        distance: set_in(pattern) as u8,
        first: first_set(pattern, 0).unwrap_or(LINE) as u8,
        last: last_set(pattern).unwrap_or(LINE) as u8,
    })
}

// Whether each byte of a map is 0 or 1.
fn marked(map: &[u8]) -> bool
    ensures { Tells (Marked map.now) result }
{
    map.iter().all(|b| *b <= 1)
}

// A map of 63 bytes, held.
fn held(map: &[u8]) -> [u8; 63]
    requires { length map.now ≡ 63 }
    ensures { result ≡ map.now }
{
    let mut r = [0u8; 63];
    r.copy_from_slice(map);
    r
}

// How many bytes are not 0.
fn set_in(bytes: [u8; 63]) -> usize
    ensures { result ≡ weight bytes }
{
    // counted in a `u8`, sixteen bytes at a time: the chain's `count` is a `usize`, and slower
    let mut n: u8 = 0;
    for b in bytes {
        n += u8::from(b != 0);
    }
    usize::from(n)
}

// The first address from one on whose byte is not 0, if there is one.
fn first_set(bytes: [u8; 63], from: usize) -> Option<usize>
    requires { (from ≤ 63) × NoneBefore bytes from }
    ensures { FirstSet bytes result }
{
    for a in from..LINE {
        if bytes[a] != 0 {
            return Some(a);
        }
    }
    None
}

// The last address whose byte is not 0, if there is one.
fn last_set(bytes: [u8; 63]) -> Option<usize>
    ensures { LastSet bytes result }
{
    for a in (0..LINE).rev() {
        if bytes[a] != 0 {
            return Some(a);
        }
    }
    None
}

// The errors of a word with blots: with them added it is the line. Over eleven blots tell none.
fn errors_near(word: &[u8], map: [u8; 63]) -> Option<Errors>
    ensures { FindsNear word.now map result }
{
    if set_in(map) > SUMS {
        return None;
    }
    errors_of(line::error_sums(word), SUMS, map, 0)
}

// The errors with the first c of these sums, e of them outside the f blots, 2 e + f at most c; no blot stands before an address.
// Cleared of a blot's place, the sums are those of errors that have nothing there: these are found by a call of itself, with a sum and a blot less.
fn errors_of(sums: Sums, c: usize, map: [u8; 63], from: usize) -> Option<Errors>
    requires { (c ≤ 11) × (weight map ≤ c) × (from ≤ 63) × NoneBefore map from }
    ensures { Finds (eleven sums) c map result }
{
    let Some(blot) = first_set(map, from) else {
        return errors_without(sums, c);
    };
    let mut others = map;
    others[blot] = 0;
    let cleared = errors_of(
        clearing::cleared(sums, clearing::place(blot)),
        c - 1,
        others,
        blot + 1,
    )?;
    let pattern = cleared.word;
    if pattern[blot] != 0 {
        return None;
    }
    let first = (sums.first % 64) as u8;
    let word = clearing::restored(pattern, cleared.set, blot, first);
    Some(Errors {
        word: word,
        set: cleared.set | bit(blot),
    })
}

// The errors with the first c of these sums where there is no blot.
fn errors_without(sums: Sums, c: usize) -> Option<Errors>
    requires { c ≤ 11 }
    ensures { FindsWithout (eleven sums) c result }
{
    let mended = mender::mend_first(sums, c, c / 2)?;
    let word = mended.word;
    if mended.weight == 0 {
        return Some(Errors { word: word, set: 0 });
    }
    Some(Errors {
        word: word,
        set: set_of(word),
    })
}

// The bit of an address.
fn bit(address: usize) -> u64
    requires { address < 63 }
    ensures { result ≡ 2 ^ address }
{
    1 << address
}

// A bit for each byte that is not 0.
fn set_of(bytes: [u8; 63]) -> u64
    ensures { Holds result bytes }
{
    let mut set: u64 = 0;
    for (a, b) in bytes.iter().enumerate() {
        if *b != 0 {
            set |= bit(a);
        }
    }
    set
}
