// Reading a line as the control processor of 1968 did, in the order and the words of 001: a number of errors is assumed, two square systems are solved
// for it, and the line is rechecked.
#![tactic(auto)]

ghost use Rattle.std.specs.Prelude.{◌≡◌, ◌+◌, ◌-◌, ◌<◌, ◌≤◌, length, drop};
ghost use Rattle.refusal.specs.Promise.{Tells};
ghost use Rattle.field.specs.Field.{power};
ghost use Rattle.polynomial.specs.Sums.{Places};
ghost use Rattle.polynomial.specs.Polynomial.{value_at, Elements};
ghost use Rattle.code.specs.Word.{Line, first_changed, last_changed};
ghost use Rattle.mender.specs.Mender.{Word, Nearest};
ghost use Rattle.mender.specs.Found.{Clear};
ghost use Rattle.line.specs.Promises.{reading_numbers, Reads};
ghost use Rattle.paper.specs.Inside.{ErrorsHave, SumRow, SumRows, PowerRow, PowerRows, Corrects, Attempts};

use line::Reading;
use mender::{Mended, NOWHERE};
use refusal::Refusal;

// The most errors that are assumed.
const MOST: usize = 5;

// Where the sum S_0 stands, S_-5 being the first.
const S_0: usize = 5;

// And S_1.
const S_1: usize = 6;

const ALPHA: u8 = 2;

// The power -5 of α.
const FIRST_POINT: u8 = 63;

// Reads a line: every answer and every output is that of `line::read_line`.
pub fn read_line(
    word: &[u8],
    radius: u8,
    wanted: Option<u16>,
    output: &mut [u8],
) -> Result<Reading, Refusal>
    ensures { Reads word.now radius wanted output.old (reading_numbers result) output.new }
{
    if !line::fits(word, output.len(), radius, wanted) {
        return Err(line::first_refusal(word, output.len(), radius, wanted));
    }
    let found = nearest(held(word), radius);
    line::answered(found, wanted, output)
}

// The word, in a buffer that can hold it. 001: "The correction is made to the data stored in the data controller buffer".
fn held(word: &[u8]) -> [u8; 63]
    requires { length word.now ≡ 63 }
    ensures { result ≡ word.now }
{
    let mut buffer = [0u8; 63];
    buffer.copy_from_slice(word);
    buffer
}

// 001: "In the procedure used here, no attempt is made to determine the number of characters in error. Instead, it is assumed that only one character is
// in error and thus single error correction is required. [..] Similarly, if single error correction has failed, the process can then be continued by
// progressively assuming two, three, four, and five errors." The first assumption is none: the line as it was read.
fn nearest(word: [u8; 63], radius: u8) -> Option<Mended>
    requires word { Word word }
    requires radius_bound { radius ≤ 5 }
    ensures { Nearest Line word radius result }
{
    let sums = power_sums(word);
    for n in 0..=radius {
        let assumption = Assumption {
            word,
            sums,
            n: usize::from(n),
        };
        if let Some(line) = assumption.attempt() {
            let first = first_changed(word, line);
            let last = last_changed(word, line);
            return Some(Mended {
                weight: n,
                first,
                last,
                word: line,
            });
        }
    }
    None
}

// A number of errors that is assumed of a word: at most five, and the power sums of what the word and a line differ by.
#[derive(Clone, Copy)]
struct Assumption {
    word: [u8; 63],
    sums: [u8; 11],
    n: usize,
    ghost held: { Word word },
    ghost have: { ErrorsHave word sums },
    ghost few: { n ≤ 5 },
}

impl Assumption {
    // 001: "the process which attempts to find the errors may be terminated due to inability to find a solution for the error locations from the
    // elementary symmetric functions."
    fn attempt(self) -> Option<[u8; 63]>
        ensures { Attempts self.word self.n result }
    {
        // "In multiple-error correction, the elementary symmetric functions are obtained from the power sums using a matrix-solving program."
        let polynomial = matrix::solved(self.sum_rows(), self.n)?;
        // "The error locations are next obtained from the elementary symmetric functions by trial and error using synthetic division and by direct
        // solution of the quadratic."
        let places = locations::roots_of(polynomial, self.n)?;
        // "The error magnitudes are then found from the error locations using the matrix solving program." Locations that differ have one solution.
        let magnitudes = matrix::solved(self.power_rows(places), self.n)?;
        let line = self.corrected(places, magnitudes);
        // "After all of the corrections have been made, the line must be rechecked by recomputing the power sums."
        if !all_zero(power_sums(line)) {
            return None;
        }
        Some(line)
    }

    // The equations that relate the elementary symmetric functions to the power sums S_(1-n) to S_n: "Two power sums are required per error to be
    // corrected." For one error it is S_0 times the location, and S_1, that add up to 0, as in equation (3).
    fn sum_rows(self) -> [[u8; 6]; 5]
        ensures { SumRows self.sums self.n result }
    {
        let mut m = [[0u8; 6]; MOST];
        for i in 0..self.n {
            m[i] = sum_row(self.sums, S_1 - self.n + i, self.n);
        }
        m
    }

    // The equations that relate the magnitudes to the power sums S_0 to S_(n-1): the sum S_i is that of each magnitude times its location's power i.
    fn power_rows(self, places: [u8; 5]) -> [[u8; 6]; 5]
        ensures { PowerRows places self.sums self.n result }
    {
        let mut m = [[0u8; 6]; MOST];
        for i in 0..self.n {
            m[i] = power_row(places, self.sums[S_0 + i], self.n, i);
        }
        m
    }

    // Adds each magnitude at its address, which by equation (3) is 62 less the logarithm of its location. 001: "In the control processor the magnitude
    // of the error is subtracted in Galois field arithmetic, and the corrected character is transmitted back into its place in the buffer".
    fn corrected(self, places: [u8; 5], magnitudes: [u8; 6]) -> [u8; 63]
        requires elements { Elements magnitudes }
        requires places { Places (drop (5 - self.n) places) }
        ensures { Corrects self.word places magnitudes self.n result }
    {
        let mut line = self.word;
        for k in 0..self.n {
            let address = 62 - usize::from(places::log_of(places[MOST - self.n + k]));
            line[address] ^= magnitudes[k];
        }
        line
    }
}

// The power sums of what the word and a line differ by, S_-5 first: a line has those of the marks. 001: "The 11 circuits used to make the tests are like
// the dividing circuit given in Figure 4, where -5 <= i <= 5. [..] Values obtained with these circuits are called the check sums or power sums."
fn power_sums(word: [u8; 63]) -> [u8; 11]
    ensures { ErrorsHave word result }
{
    let marks = code::mark_sums();
    let mut sums = [0u8; 11];
    let mut x = FIRST_POINT;
    for (k, sum) in sums.iter_mut().enumerate() {
        *sum = circuit(word, x) ^ marks[k];
        x = places::times(ALPHA, x);
    }
    sums
}

// The S_i calculating circuit of Figure 4: what it holds is multiplied by α^i, which is x, and each character is added as it comes.
fn circuit(word: [u8; 63], x: u8) -> u8
    ensures { result ≡ value_at x word }
{
    word.iter().fold(0, |v, c| places::times(v, x) ^ *c % 64)
}

// 001: "If they are all zero and the line number is correct, the line is considered to be corrected."
// Beside mender's, which tests sums packed in one number: a circuit has its own.
fn all_zero(sums: [u8; 11]) -> bool
    ensures { Tells (Clear sums) result }
{
    sums.iter().all(|sum| *sum == 0)
}

// n + 1 power sums in a row.
fn sum_row(sums: [u8; 11], first: usize, n: usize) -> [u8; 6]
    requires { (n ≤ 5) × (first + n < 11) }
    ensures { SumRow sums first n result }
{
    let mut row = [0u8; 6];
    row[..n + 1].copy_from_slice(&sums[first..first + n + 1]);
    row
}

// The powers i of the last n places, and a sum after them.
fn power_row(places: [u8; 5], sum: u8, n: usize, i: usize) -> [u8; 6]
    requires { n ≤ 5 }
    ensures { PowerRow places sum n i result }
{
    let mut row = [0u8; 6];
    row[n] = sum;
    for k in 0..n {
        row[k] = raised(places[MOST - n + k], i);
    }
    row
}

// x to the power j.
fn raised(x: u8, j: usize) -> u8
    ensures { result ≡ power x j }
{
    (0..j).fold(1, |v, _| places::times(x, v))
}

// The first address at which the line differs from the word. A usize has no From into a u8, so `as` stays: the address is below 63.
// No Option here and below: where nothing differs it is NOWHERE, as Mended holds it and film.h answers it.
fn first_changed(word: [u8; 63], line: [u8; 63]) -> u8
    ensures { result ≡ first_changed word line }
{
    for a in 0..63 {
        if word[a] != line[a] {
            return a as u8;
        }
    }
    NOWHERE
}

// And the last.
fn last_changed(word: [u8; 63], line: [u8; 63]) -> u8
    ensures { result ≡ last_changed word line }
{
    for a in (0..63).rev() {
        if word[a] != line[a] {
            return a as u8;
        }
    }
    NOWHERE
}
