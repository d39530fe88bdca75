// Two scans of one line: which of them is kept for the file, and that scan's own bytes.
#![tactic(auto)]

ghost use Rattle.std.specs.Prelude.{◌≡◌};
ghost use Rattle.scans.specs.Promises.{choice_numbers, Chooses, Better};
ghost use Rattle.scans.specs.Scans.{Answers, choice_of};

use line::Reading;
use refusal::Refusal;

// Which of two scans is kept.
#[derive(Clone, Copy)]
pub enum Choice {
    First,
    Second,
}

// Chooses the scan whose reading, with no wanted number, succeeds with the smaller distance, the first where they tie; the other where one is refused.
// Where both are refused the refusal is the first's.
pub fn choose_scan(first: &[u8], second: &[u8], radius: u8) -> Result<Choice, Refusal>
    ensures { Chooses first.now second.now radius (choice_numbers result) }
{
    chosen(scanned(first, radius), scanned(second, radius))
}

// Hands back the caller's own bytes of the scan that is chosen, or an empty part of the first. The answer is 0, or the first's refusal where both are
// refused.
// The answer is lent, and no Result: 02 asks for an empty part of the first in a refusal, and an Err would hand none back.
pub fn better_scan<'a>(first: &'a [u8], second: &'a [u8], radius: u8, answer: &mut u8) -> &'a [u8]
    ensures { Better first.entry second.entry radius result answer.new }
{
    match choose_scan(first, second, radius) {
        Ok(Choice::First) => {
            *answer = 0;
            first
        }
        Ok(Choice::Second) => {
            *answer = 0;
            second
        }
        Err(why) => {
            *answer = refusal::number(why);
            &first[0..0]
        }
    }
}

// Reads a scan for its answer alone.
fn scanned(scan: &[u8], radius: u8) -> Result<Reading, Refusal>
    ensures { Answers scan.now radius result }
{
    let mut output = [0u8; 63];
    line::read_line(scan, radius, None, &mut output)
}

// The choice by the two answers.
fn chosen(one: Result<Reading, Refusal>, other: Result<Reading, Refusal>) -> Result<Choice, Refusal>
    ensures { result ≡ choice_of one other }
{
    match (one, other) {
        (Ok(one), Ok(other)) if other.distance < one.distance => Ok(Choice::Second),
        (Ok(_), _) => Ok(Choice::First),
        (Err(_), Ok(_)) => Ok(Choice::Second),
        (Err(why), Err(_)) => Err(why),
    }
}
