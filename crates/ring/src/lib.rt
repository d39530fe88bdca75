// Rings: the starts at which a line lies within the radius, and reading the line at the one start.
#![tactic(auto)]

ghost use Rattle.std.specs.Prelude.{◌≡◌, ℕ, [], ◌∷◌, ◌+◌, ◌<◌, ◌≤◌, length};
ghost use Rattle.refusal.specs.Promise.{Tells};
ghost use Rattle.sums.specs.Held.{eleven};
ghost use Rattle.ring.specs.Ring.{placed};
ghost use Rattle.ring.specs.Promises.{listing_numbers, reading_numbers, Lists, ListsRing, ReadsRing};
ghost use Rattle.ring.specs.Inside.{Listable, ErrorsFit, ErrorsFitAt, LightBy, ListsThose, ListsWhere, Deciding, place_of};
ghost use Rattle.ring.specs.Marks.{MarksAtAll};
ghost use Rattle.ring.specs.Filter.{MayList, NoErrorsAt, Decides};

use refusal::Refusal;
use sums::Sums;

mod marks;
mod pattern;

// The starts of a ring: 63 forward and 63 backward.
const STARTS: u8 = 126;

// The marks of a line.
const MARKS: u8 = 3;

// Clean words that differ in no more characters are one.
const SAME: u8 = 11;

// Up to this radius one pattern of errors decides every ring.
const DECIDED: u8 = 2;

// The start, the line's number, its distance from the word there, and the first and the last changed address of that word.
#[derive(Clone, Copy)]
pub struct RingReading {
    pub start: u8,
    pub number: u16,
    pub distance: u8,
    pub first: u8,
    pub last: u8,
}

// The starts that may be listed, the forward ones and the backward ones: a bit for each.
#[derive(Clone, Copy)]
struct Undecided {
    forward: u64,
    backward: u64,
}

// Lists a ring: writes the starts at which a line lies within the radius, in rising order, and gives their count.
pub fn list_ring(ring: &[u8], radius: u8, output: &mut [u8]) -> Result<u8, Refusal>
    ensures { ListsRing ring.now radius output.old (listing_numbers result) output.new }
{
    if ring.len() != 63 {
        return Err(Refusal::InputLength);
    }
    let Some(output) = output.as_mut_array::<126>() else {
        return Err(Refusal::OutputLength);
    };
    if !eights::all_low(ring) {
        return Err(Refusal::ValueOver);
    }
    if radius > 5 {
        return Err(Refusal::RadiusOver);
    }
    Ok(list_starts(ring, radius, output))
}

// Reads a ring: writes the line at the one start that is listed.
pub fn read_ring(ring: &[u8], radius: u8, output: &mut [u8]) -> Result<RingReading, Refusal>
    ensures { ReadsRing ring.now radius output.old (reading_numbers result) output.new }
{
    if ring.len() != 63 {
        return Err(Refusal::InputLength);
    }
    if output.len() != 63 {
        return Err(Refusal::OutputLength);
    }
    if !eights::all_low(ring) {
        return Err(Refusal::ValueOver);
    }
    if radius > 5 {
        return Err(Refusal::RadiusOver);
    }
    let mut starts = no_starts();
    let count = list_starts(ring, radius, &mut starts);
    if count == 0 {
        return Err(Refusal::NoLine);
    }
    if count > 1 {
        return Err(Refusal::ManyStarts);
    }
    // The start is listed, so there is a line.
    let start = starts[0];
    let word = word_at(ring, start);
    let found = line::nearest_line(&word, radius).unwrap();
    line::put(found.word, output);
    Ok(RingReading {
        start,
        number: line::number_of(&found.word),
        distance: found.weight,
        first: found.first,
        last: found.last,
    })
}

// Writes the listed starts first, leaves the rest of the output, and gives their count. The marks are turned, and not the ring: a start is
// listed where the ring, with the marks added at that start's places, is within the radius of a clean word. Where the ring lies near a clean word, no
// other counts, and the marks of each start are added to the errors between the two; where it does not, no start is listed up to radius 2.
fn list_starts(ring: &[u8], radius: u8, output: &mut [u8; 126]) -> u8
    requires { Listable ring.now radius }
    ensures { Lists ring.now radius output.old (result ∷ []) output.new }
{
    let sums = sums::eleven_sums(ring);
    if let Some(errors) = mender::mend_eleven(sums, usize::from(deciding_errors(radius))) {
        return list_by_pattern(&errors.word, radius + MARKS - errors.weight, output);
    }
    if radius <= DECIDED {
        return 0;
    }
    list_by_sums(sums, radius, output)
}

// How many errors between a ring and a clean word, at most, decide all starts at a radius: 3, 4, 5, 5, 4 and 3 at radius 0 to 5.
fn deciding_errors(radius: u8) -> u8
    requires { radius ≤ 5 }
    ensures { Deciding radius result }
{
    if radius <= DECIDED {
        return radius + MARKS;
    }
    SAME - MARKS - radius
}

// Lists the starts whose marks, added to the errors, add so many to their count at most, and 3.
fn list_by_pattern(errors: &[u8; 63], most: u8, output: &mut [u8; 126]) -> u8
    ensures { ListsThose (LightBy errors.now most) output.old (result ∷ []) output.new }
{
    let gains = pattern::all_gains(errors);
    list_where(output, |start| gains[usize::from(start)] <= most)
}

// Lists the starts for which as few errors as the radius have the ring's power sums, to which those of the start's marks are added. Nine in ten of the
// starts that are not listed are told at once.
fn list_by_sums(sums: Sums, radius: u8, output: &mut [u8; 126]) -> u8
    ensures { ListsThose (ErrorsFitAt (eleven sums) radius) output.old (result ∷ []) output.new }
{
    let undecided = undecided_starts(sums);
    let marks = marks::all_marks();
    list_where(
        output,
        |start: u8| -> bool
            requires { (start < 126) × Decides (eleven sums) undecided × MarksAtAll marks.now }
            ensures { Tells (ErrorsFitAt (eleven sums) radius start) result }
        {
            let (first, last) = marks[usize::from(start)];
            let here = Sums { first, last };
            listable(undecided, start, sums::eleven_added(sums, here), radius)
        },
    )
}

// Writes the starts that pass a test, in rising order, and gives their count.
fn list_where<F: Fn(u8) -> bool>(output: &mut [u8; 126], passes: F) -> u8
    requires { (k : ℕ) → k < 126 → F.pre passes k }
    ensures { ListsWhere (F.post passes) output.old (result ∷ []) output.new }
{
    let mut count: u8 = 0;
    for start in 0..STARTS {
        if passes(start) {
            output[usize::from(count)] = start;
            count += 1;
        }
    }
    count
}

// Room for the starts of a ring.
fn no_starts() -> [u8; 126]
    ensures { length result ≡ 126 }
{
    [0u8; 126]
}

// The starts that may be listed, from the ring's power sums.
fn undecided_starts(sums: Sums) -> Undecided
    ensures { Decides (eleven sums) result }
{
    let entries = sums::unpacked(sums);
    Undecided {
        forward: regular::undecided(entries, marks::forward_words()),
        backward: regular::undecided(entries, marks::backward_words()),
    }
}

// Whether a start may be listed.
fn is_undecided(undecided: Undecided, start: u8) -> bool
    requires { start < 126 }
    ensures { MayList undecided start result }
{
    if start >= 63 {
        return (undecided.backward >> (start - 63)) % 2 != 0;
    }
    (undecided.forward >> start) % 2 != 0
}

// Whether some errors, as many as the radius at most, have the power sums of a start.
fn listable(undecided: Undecided, start: u8, sums: Sums, radius: u8) -> bool
    requires start_bound { start < 126 }
    requires no_errors_at { NoErrorsAt undecided start (eleven sums) }
    ensures { Tells (ErrorsFit (eleven sums) radius) result }
{
    is_undecided(undecided, start) && mendable(sums, radius)
}

// Whether some errors, as many as the radius at most, have these power sums: the radius counts up to 5.
fn mendable(sums: Sums, radius: u8) -> bool
    ensures { Tells (ErrorsFit (eleven sums) radius) result }
{
    mender::mend_eleven(sums, usize::from(radius)).is_some()
}

// The word at a start.
fn word_at(ring: &[u8], start: u8) -> [u8; 63]
    requires { length ring.now ≡ 63 }
    ensures { result ≡ placed start ring.now }
{
    let mut word = [0u8; 63];
    for (a, c) in word.iter_mut().enumerate() {
        let place = place_of(usize::from(start), a);
        *c = ring[place];
    }
    word
}

// The ring place of an address at a start.
fn place_of(start: usize, a: usize) -> usize
    requires { a < 63 }
    ensures { result ≡ place_of start a }
{
    if start < 63 {
        return (start + a) % 63;
    }
    (start - a) % 63
}
