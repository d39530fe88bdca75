// The eleven power sums of a word by tables, several to a number, and the form that holds them packed.
#![tactic(auto)]

ghost use Rattle.std.specs.Prelude.{◌≡◌, ◌≤◌, length};
ghost use Rattle.code.specs.Word.{added};
ghost use Rattle.code.specs.Inside.{PowerSums};
ghost use Rattle.sums.specs.Held.{eleven, lowered};
ghost use Rattle.sums.specs.Packed.{Packed, Filled};

use lanes::{FIVE_LANES, FOUR_LANES, NINE_LANES, SIX_LANES};

// The eleven power sums, S_-5 first: ten in the lanes of one number, the last beside it.
#[derive(Clone, Copy)]
pub struct Sums {
    pub first: u64,
    pub last: u8,
}

// The same sums as the tables give them: S_-5 to S_-1 and S_1 to S_5 in the lanes of one number, the first lowest, and S_0 beside it.
#[derive(Clone, Copy)]
struct PackedSums {
    outer: u64,
    middle: u8,
}

// The eleven power sums of the first 63 characters, packed; what the word lacks of them counts as 0, and of each the low six bits count.
pub fn eleven_sums(word: &[u8]) -> Sums
    ensures { PowerSums word.now (eleven result) }
{
    let sums = packed_sums(word);
    let outer = sums.outer;
    Sums {
        first: outer % FIVE_LANES
            + u64::from(sums.middle % 64) * FIVE_LANES
            + outer / FIVE_LANES % FOUR_LANES * SIX_LANES,
        last: (outer / NINE_LANES % 64) as u8,
    }
}

// The eleven power sums, S_-5 first, of the first 63 characters. What the word lacks of them counts as 0, and of each the low six bits count.
pub fn power_sums(word: &[u8]) -> [u8; 11]
    ensures { PowerSums word.now result }
{
    let packed = packed_sums(word);
    let mut p = packed.outer;
    let mut sums = [0u8; 11];
    sums[5] = packed.middle;
    for k in 0..10 {
        sums[k + k / 5] = (p % 64) as u8;
        p /= 64;
    }
    sums
}

// The eleven sums as the tables give them. Characters that are there are read where they lie.
fn packed_sums(word: &[u8]) -> PackedSums
    ensures { Packed word.now result }
{
    if word.len() < 63 {
        return filled_sums(word);
    }
    whole_sums(word)
}

// The part is made for the compiler: it knows its length.
fn whole_sums(word: &[u8]) -> PackedSums
    requires { 63 ≤ length word.now }
    ensures { Packed word.now result }
{
    let outer = points::values(&word[..63]);
    let middle = eights::xor_of(&word[..63]) % 64;
    PackedSums { outer, middle }
}

fn filled_sums(word: &[u8]) -> PackedSums
    ensures { Packed word.now result }
{
    let v = filled(word);
    whole_sums(&v)
}

// The first 63 characters, 0 for each that the word lacks.
fn filled(word: &[u8]) -> [u8; 63]
    ensures { Filled word.now result }
{
    let mut v = [0u8; 63];
    let n = word.len().min(63);
    v[..n].copy_from_slice(&word[..n]);
    v
}

// Eleven sums packed: of each the low six bits count.
pub fn packed(sums: [u8; 11]) -> Sums
    ensures { eleven result ≡ lowered sums }
{
    let mut p: u64 = 0;
    for k in (0..10).rev() {
        p = p * 64 + u64::from(sums[k] % 64);
    }
    Sums {
        first: p,
        last: sums[10] % 64,
    }
}

// Eleven sums unpacked.
pub fn unpacked(sums: Sums) -> [u8; 11]
    ensures { result ≡ eleven sums }
{
    let mut s = [0u8; 11];
    let mut p = sums.first;
    for k in 0..10 {
        s[k] = (p % 64) as u8;
        p /= 64;
    }
    s[10] = sums.last % 64;
    s
}

// Two times eleven sums added.
pub fn eleven_added(u: Sums, v: Sums) -> Sums
    ensures { eleven result ≡ added (eleven u) (eleven v) }
{
    Sums {
        first: u.first ^ v.first,
        last: u.last ^ v.last,
    }
}
