// Words of 63 characters: the test for a line, by the sums as they are defined and no table of them.
#![tactic(auto)]

ghost use Rattle.std.specs.Prelude.{◌≡◌, length};
ghost use Rattle.refusal.specs.Promise.{Tells};
ghost use Rattle.polynomial.specs.Polynomial.{value_at};
ghost use Rattle.code.specs.Word.{Characters, marks};
ghost use Rattle.code.specs.Promises.{TellsLine};
ghost use Rattle.code.specs.Inside.{PowerSums};

const ALPHA: u8 = 2;

// The power -5 of α: the first of the eleven sums is the value there.
const FIRST_POINT: u8 = 63;

// Whether characters, of any length, are a line.
pub fn is_line(word: &[u8]) -> bool
    ensures { TellsLine word.now result }
{
    if word.len() != 63 {
        return false;
    }
    if !in_range(word) {
        return false;
    }
    has_sums(word, mark_sums())
}

// Whether each character is at most 63.
fn in_range(word: &[u8]) -> bool
    ensures { Tells (Characters word.now) result }
{
    word.iter().all(|c| *c <= 63)
}

// Whether 63 characters have these power sums, S_-5 first.
fn has_sums(word: &[u8], sums: [u8; 11]) -> bool
    requires { length word.now ≡ 63 }
    ensures { Tells (PowerSums word.now sums) result }
{
    let mut x = FIRST_POINT;
    for sum in sums {
        if value_at(word, x) != sum {
            return false;
        }
        x = field::times(ALPHA, x);
    }
    true
}

// The value at x of characters as a polynomial, the first its highest coefficient, by Horner's rule: of each the low six bits count.
fn value_at(word: &[u8], x: u8) -> u8
    ensures { result ≡ value_at x word.now }
{
    word.iter()
        .fold(0, |v, c| field::plus(field::times(v, x), *c % 64))
}

// The eleven power sums of the marks.
pub fn mark_sums() -> [u8; 11]
    ensures { PowerSums marks result }
{
    [43, 6, 3, 25, 3, 41, 25, 5, 27, 61, 52]
}
