// The encoder: a line at once, and the recorder's register, which takes one character at a time.
#![tactic(auto)]

ghost use Rattle.std.specs.Prelude.{◌≡◌, get_or};
ghost use Rattle.refusal.specs.Promise.{Tells};
ghost use Rattle.code.specs.Word.{Characters};
ghost use Rattle.encoder.specs.Register.{empty, stepped, checks_of};
ghost use Rattle.encoder.specs.Promises.{encoding_numbers, Encodes, step_numbers, Steps, check_numbers, Checks};
ghost use Rattle.encoder.specs.Interpolation.{ChecksWith, eleven};
ghost use Rattle.encoder.specs.Inside.{InformationOf, Ended, LinePut};

use eights::all_low;
use refusal::Refusal;

// The generator's coefficients but the highest and the lowest, which are 1, in lanes.
const MIDDLE: u64 = 377473087143165780;

// The recorder's encoder: eleven characters, highest degree first, and how many were taken.
#[derive(Clone, Copy)]
pub struct Register {
    pub held: [u8; 11],
    pub count: u8,
}

// The register after a step, and the answer.
#[derive(Clone, Copy)]
pub struct Stepped {
    pub register: Register,
    pub answer: Result<(), Refusal>,
}

// One step of the division.
fn divided(held: [u8; 11], c: u8) -> [u8; 11]
    ensures { result ≡ stepped held c }
{
    let feedback = held[0] ^ c;
    let mut rest = lanes::scale_constant(MIDDLE, feedback);
    let mut left = [0u8; 11];
    for i in 0..10 {
        left[i] = held[i + 1] ^ (rest % 64) as u8;
        rest = rest / 64;
    }
    left[10] = feedback % 64;
    left
}

// Whether each character that is held is at most 63, by one test of them all. `eights::all_low` is slower here by half: it reads eight bytes at once, and
// waits for those that a step or a caller has just written one by one.
fn held_in_range(held: [u8; 11]) -> bool
    ensures { Tells (Characters held) result }
{
    let mut all: u8 = 0;
    for i in 0..11 {
        all |= held[i];
    }
    if all > 63 {
        return false;
    }
    true
}

// The eleven checks with these power sums, S_-5 first.
fn checks_from(sums: [u8; 11]) -> [u8; 11]
    ensures { ChecksWith sums result }
{
    unpacked(ten_checks(sums), sums[5])
}

// The first ten of them, in lanes: each sum times the checks that have the sum 1 there and 0 at the ten others.
fn ten_checks(sums: [u8; 11]) -> u64
    ensures { ChecksWith sums (eleven result (get_or sums 5 0)) }
{
    let mut ten = lanes::scale_constant(847655222541583757, sums[0]);
    ten = ten ^ lanes::scale_constant(808465694602536421, sums[1]);
    ten = ten ^ lanes::scale_constant(315288432424983327, sums[2]);
    ten = ten ^ lanes::scale_constant(230181143295902852, sums[3]);
    ten = ten ^ lanes::scale_constant(209917650917265201, sums[4]);
    ten = ten ^ lanes::scale_constant(716294100043368959, sums[5]);
    ten = ten ^ lanes::scale_constant(882425377852270741, sums[6]);
    ten = ten ^ lanes::scale_constant(197617448352340711, sums[7]);
    ten = ten ^ lanes::scale_constant(118594285310951352, sums[8]);
    ten = ten ^ lanes::scale_constant(361453399640989311, sums[9]);
    ten = ten ^ lanes::scale_constant(473949248277572232, sums[10]);
    ten
}

// The ten, and the eleventh: the sum of all is S_0.
fn unpacked(ten: u64, zeroth: u8) -> [u8; 11]
    ensures { result ≡ eleven ten zeroth }
{
    let mut checks = [0u8; 11];
    checks[10] = lanes::sum_of(ten) ^ (zeroth % 64);
    let mut rest = ten;
    for i in 0..10 {
        checks[i] = (rest % 64) as u8;
        rest = rest / 64;
    }
    checks
}

// What is held, with the marks of addresses 52, 55 and 62.
fn marked(held: [u8; 11]) -> [u8; 11]
    ensures { result ≡ checks_of held }
{
    let mut checks = held;
    checks[0] = checks[0] ^ 32;
    checks[3] = checks[3] ^ 8;
    checks[10] = checks[10] ^ 1;
    checks
}

// The characters of addresses 0 to 51, the text, the high six bits of the number, the low six, and eleven zeros; of a number the low twelve bits count. Of a
// text that is not 50 long zeros.
pub fn information_of(text: &[u8], number: u16) -> [u8; 63]
    ensures { InformationOf text.now number result }
{
    let mut characters = [0u8; 63];
    if text.len() != 50 {
        return characters;
    }
    characters[..50].copy_from_slice(text);
    characters[50] = (number / 64 % 64) as u8;
    characters[51] = (number % 64) as u8;
    characters
}

// The line with the first 52 characters of a word that ends in eleven zeros.
fn line_of(mut word: [u8; 63]) -> [u8; 63]
    ensures { Ended word result }
{
    let checks = marked(checks_from(sums::power_sums(&word)));
    word[52..].copy_from_slice(&checks);
    word
}

// Encodes a line at once: writes the one line with this text and number.
pub fn encode_line(text: &[u8], number: u16, output: &mut [u8]) -> Result<(), Refusal>
    ensures { Encodes text.now number output.old (encoding_numbers result) output.new }
{
    if text.len() != 50 {
        return Err(Refusal::InputLength);
    }
    if output.len() != 63 {
        return Err(Refusal::OutputLength);
    }
    if !all_low(text) {
        return Err(Refusal::ValueOver);
    }
    if number > 4095 {
        return Err(Refusal::NumberOver);
    }
    put_line(information_of(text, number), output);
    Ok(())
}

// Writes the line with the first 52 characters of a word that ends in eleven zeros over an output of 63 bytes, and over no other.
pub fn put_line(word: [u8; 63], output: &mut [u8])
    ensures { LinePut word output.old output.new }
{
    if output.len() != 63 {
        return;
    }
    output.copy_from_slice(&line_of(word));
}

impl Register {
    // The register that has taken no character.
    pub fn new() -> Self
        ensures { result ≡ empty }
    {
        Register {
            held: [0; 11],
            count: 0,
        }
    }

    // Takes one more character. 01's forms: the state goes by value, `mut self`, and comes back with its answer; where that is a refusal it is as it was.
    pub fn step(mut self, c: u8) -> Stepped
        ensures { Steps self c (step_numbers result.answer) result.register }
    {
        let answer = self.take(c);
        Stepped {
            register: self,
            answer,
        }
    }

    // Takes one more character where it lies; one that is refused leaves the register as it was.
    fn take(&mut self, c: u8) -> Result<(), Refusal>
        ensures { Steps self.old c (step_numbers result) self.new }
    {
        if self.count >= 52 {
            return Err(Refusal::RegisterFull);
        }
        if !held_in_range(self.held) {
            return Err(Refusal::ValueOver);
        }
        if c > 63 {
            return Err(Refusal::ValueOver);
        }
        self.held = divided(self.held, c);
        self.count += 1;
        Ok(())
    }

    // The checks of a register that has taken 52 characters; the register stays the caller's.
    pub fn checks(self) -> Result<[u8; 11], Refusal>
        ensures { Checks self (check_numbers result) }
    {
        if self.count > 52 {
            return Err(Refusal::RegisterFull);
        }
        if self.count < 52 {
            return Err(Refusal::RegisterShort);
        }
        if !held_in_range(self.held) {
            return Err(Refusal::ValueOver);
        }
        Ok(marked(self.held))
    }
}
