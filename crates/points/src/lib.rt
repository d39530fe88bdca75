// The value of a word at ten points, packed, 21 characters at a time.
#![tactic(auto)]

ghost use Rattle.std.specs.Prelude.{◌≡◌, ◌+◌, ◌≤◌, length};
ghost use Rattle.lanes.specs.Lanes.{pack};
ghost use Rattle.points.specs.Value.{value, run, values_of};

// The powers 21 of the ten points are cube roots of 1: 1, ω, which is 59, or ω², which is ω + 1. Where a point's is p, three parts of 21 characters with the
// values a, b and c have the value p² a + p b + c. Both p² and p are what stands here, ω, or 1 where p is 1, and 1 more in the lanes of a mask.
const SHARED: u64 = 1079465052537102075;

// The lanes in which p² is 1 more, and those in which p is.
const MORE_FIRST: u64 = 17732991195021375;

const MORE_SECOND: u64 = 1134911436481368000;

// The ten values of 63 characters; of another length 0. The values of three parts of 21 are taken by themselves, and one product joins them.
pub fn values(word: &[u8]) -> u64
    ensures { result ≡ values_of word.now }
{
    if word.len() != 63 {
        return 0;
    }
    let mut parts = [0u64; 3];
    for k in 0..3 {
        parts[k] = part_values(word, 21 * k);
    }
    let a = parts[0];
    let b = parts[1];
    let shared = lanes::products(SHARED, a ^ b);
    shared ^ (a & MORE_FIRST) ^ (b & MORE_SECOND) ^ parts[2]
}

// The ten values of the 21 characters from an address on, from the last: each adds its terms, which are those of a character with as many after it.
fn part_values(word: &[u8], i: usize) -> u64
    requires { i + 21 ≤ length word.now }
    ensures { result ≡ pack 10 (value (run word.now i 0 21)) }
{
    let mut p: u64 = 0;
    for n in 0..21 {
        p ^= terms::at(n, word[i + 20 - n]);
    }
    p
}
