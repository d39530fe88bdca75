// Lines of text in a lent buffer: a word, and decimal numbers after single spaces. What does not fit is left out.
// The buffer and the place in it go side by side: docs/PROMISES.md names put_line, put_word and put_byte by Writing.Puts.
#![tactic(auto)]

ghost use Rattle.std.specs.Prelude.{[], ◌∷◌};
ghost use Rattle.text.specs.Text.{decimal, fields, line};
ghost use Rattle.text.specs.Writing.{Puts};

// Writes a line from a place of the buffer on: a word, and numbers. It answers the place after it.
pub fn put_line(out: &mut [u8], at: usize, word: &[u8], numbers: &[u16]) -> usize
    ensures { Puts out.old out.new at result (line word.now numbers.now) }
{
    let a = put_word(out, at, word);
    let b = put_fields(out, a, numbers);
    put_byte(out, b, b'\n')
}

// Writes a word.
pub fn put_word(out: &mut [u8], at: usize, word: &[u8]) -> usize
    ensures { Puts out.old out.new at result word.now }
{
    let mut next = at;
    for x in word {
        next = put_byte(out, next, *x);
    }
    next
}

// Writes numbers, each after a space.
fn put_fields(out: &mut [u8], at: usize, numbers: &[u16]) -> usize
    ensures { Puts out.old out.new at result (fields numbers.now) }
{
    let mut next = at;
    for n in numbers {
        next = put_field(out, next, *n);
    }
    next
}

// Writes a space and a number.
fn put_field(out: &mut [u8], at: usize, n: u16) -> usize
    ensures { Puts out.old out.new at result (32 ∷ decimal n) }
{
    let next = put_byte(out, at, b' ');
    put_number(out, next, n)
}

// Writes a number in decimal: all digits but the last, and the last.
fn put_number(out: &mut [u8], at: usize, n: u16) -> usize
    ensures { Puts out.old out.new at result (decimal n) }
{
    if n < 10 {
        return put_byte(out, at, b'0' + n as u8);
    }
    let next = put_number(out, at, n / 10);
    put_byte(out, next, b'0' + (n % 10) as u8)
}

// Writes a byte, where there is room for one.
pub fn put_byte(out: &mut [u8], at: usize, x: u8) -> usize
    ensures { Puts out.old out.new at result (x ∷ []) }
{
    if at >= out.len() {
        return at;
    }
    out[at] = x;
    at + 1
}
