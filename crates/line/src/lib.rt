// Reading a line: the line within the radius, or a refusal exactly when there is none.
#![tactic(auto)]

ghost use Rattle.std.specs.Prelude.{◌≡◌, length};
ghost use Rattle.refusal.specs.Promise.{Tells};
ghost use Rattle.sums.specs.Held.{eleven};
ghost use Rattle.line.specs.Promises.{reading_numbers, plain_numbers, Possible, Reads};
ghost use Rattle.line.specs.Inside.{Fit, RefusedFirst, NearestLine, ErrorSums, low_number, IsWanted, Writes, Answers};

use mender::{Mended, NOWHERE};
use refusal::Refusal;
use sums::Sums;

// What is told of a line that was read: its number, its distance, and the first and the last changed address.
#[derive(Clone, Copy)]
pub struct Reading {
    pub number: u16,
    pub distance: u8,
    pub first: u8,
    pub last: u8,
}

// A reading in plain numbers, as C and the places of a spool hold it. In a refusal all but the answer are 0.
#[repr(C)]
#[derive(Clone, Copy)]
pub struct PlainReading {
    pub answer: u8,
    pub distance: u8,
    pub number: u16,
    pub first: u8,
    pub last: u8,
}

// Reads a line: writes the line within the radius of the word. Nearly all words are lines themselves, and are copied at once.
pub fn read_line(
    word: &[u8],
    radius: u8,
    wanted: Option<u16>,
    output: &mut [u8],
) -> Result<Reading, Refusal>
    ensures { Reads word.now radius wanted output.old (reading_numbers result) output.new }
{
    if !fits(word, output.len(), radius, wanted) {
        return Err(first_refusal(word, output.len(), radius, wanted));
    }
    let errors = error_sums(word);
    if mender::all_zero(errors) {
        let own = number_of(word);
        if !is_wanted(wanted, own) {
            return Err(Refusal::OtherNumber);
        }
        put_word(word, output);
        return Ok(Reading {
            number: own,
            distance: 0,
            first: NOWHERE,
            last: NOWHERE,
        });
    }
    // A part, and so a slice of its own: else the compiler copies the word's pointer and length before all tests, and these wait for it.
    let found = mender::without_errors(&word[..63], errors, usize::from(radius));
    answered(found, wanted, output)
}

// Whether the tests before reading hold.
pub fn fits(word: &[u8], room: usize, radius: u8, wanted: Option<u16>) -> bool
    ensures { Tells (Fit word.now radius wanted room) result }
{
    if word.len() != 63 {
        return false;
    }
    if room != 63 {
        return false;
    }
    if !eights::all_low(word) {
        return false;
    }
    if radius > 5 {
        return false;
    }
    possible(wanted)
}

// The refusal of the first of them that does not hold, where one does not. Told apart from whether they hold, so that a line is read without it.
pub fn first_refusal(word: &[u8], room: usize, radius: u8, wanted: Option<u16>) -> Refusal
    ensures { RefusedFirst word.now radius wanted room result }
{
    if word.len() != 63 {
        return Refusal::InputLength;
    }
    if room != 63 {
        return Refusal::OutputLength;
    }
    if !eights::all_low(word) {
        return Refusal::ValueOver;
    }
    if radius > 5 {
        return Refusal::RadiusOver;
    }
    Refusal::NumberOver
}

// The answer where a line was found or none was: it has to carry the wanted number, and is written.
pub fn answered(
    found: Option<Mended>,
    wanted: Option<u16>,
    output: &mut [u8],
) -> Result<Reading, Refusal>
    ensures { Answers found wanted output.old (reading_numbers result) output.new }
{
    let found = found.ok_or(Refusal::NoLine)?;
    let line = found.word;
    let number = number_of(&line);
    if !is_wanted(wanted, number) {
        return Err(Refusal::OtherNumber);
    }
    put(line, output);
    Ok(Reading {
        number: number,
        distance: found.weight,
        first: found.first,
        last: found.last,
    })
}

// A reading in plain numbers.
pub fn plain(reading: Result<Reading, Refusal>) -> PlainReading
    ensures { plain_numbers result ≡ reading_numbers reading }
{
    match reading {
        Ok(line) => PlainReading {
            answer: 0,
            distance: line.distance,
            number: line.number, // at an even place: no padding stands before it
            first: line.first,
            last: line.last,
        },
        Err(why) => PlainReading {
            answer: refusal::number(why),
            distance: 0,
            number: 0,
            first: 0,
            last: 0,
        },
    }
}

// The sums of what a word and any line differ by, as a line has those of the marks.
pub fn error_sums(word: &[u8]) -> Sums
    ensures { ErrorSums word.now (eleven result) }
{
    sums::eleven_added(sums::eleven_sums(word), sums::packed(code::mark_sums()))
}

// The line within the radius of a word: the radius counts up to 5. A line's power sums are those of the marks.
pub fn nearest_line(word: &[u8], radius: u8) -> Option<Mended>
    ensures { NearestLine word.now radius result }
{
    mender::nearest(word, code::mark_sums(), usize::from(radius))
}

// The number that a line carries: of each of its two characters the low six bits count.
pub fn number_of(line: &[u8]) -> u16
    ensures { result ≡ low_number line.now }
{
    let high = eights::byte_at(line, 50);
    let low = eights::byte_at(line, 51);
    u16::from(high % 64) * 64 + u16::from(low % 64)
}

// Writes a line over an output of its length, and over no other.
pub fn put(line: [u8; 63], output: &mut [u8])
    ensures { Writes line output.old output.new }
{
    if output.len() != 63 {
        return;
    }
    copying::copy(&line, output);
}

// Writes a word of 63 characters over an output of as many. It goes by an array, of which the compiler knows that it is not the output too.
fn put_word(word: &[u8], output: &mut [u8])
    requires { (length word.now ≡ 63) × (length output.old ≡ 63) }
    ensures { output.new ≡ word.now }
{
    let mut itself = [0u8; 63];
    copying::copy(word, &mut itself);
    put(itself, output);
}

// Whether the number wanted can be that of a line.
fn possible(wanted: Option<u16>) -> bool
    ensures { Tells (Possible wanted) result }
{
    wanted.is_none_or(|n| n <= 4095)
}

// Whether a number is the one wanted.
fn is_wanted(wanted: Option<u16>, number: u16) -> bool
    ensures { Tells (IsWanted wanted number) result }
{
    wanted.is_none_or(|n| n == number)
}
