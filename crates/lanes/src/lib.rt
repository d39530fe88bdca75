// Ten elements at once, in six-bit lanes of one number: x times each, each times one element, and lane by lane; and one product in the lowest lane.
#![tactic(auto)]

ghost use Rattle.std.specs.Prelude.{◌≡◌, ◌*◌, ◌/◌, ◌%◌};
ghost use Rattle.std.specs.Int.Bits.{bit_xor};
ghost use Rattle.numbers.specs.Total.{total};
ghost use Rattle.field.specs.Field.{times_x, product};
ghost use Rattle.lanes.specs.Lanes.{pack, lane};

// In each of five lanes 1.
pub const FIVE_ONES: u64 = 17043521;

// In each of ten lanes 1, 31, 32 and 62.
const ONES: u64 = 18300341342965825;

const LOW_BITS: u64 = 567310581631940575;

const HIGH_BITS: u64 = 585610922974906400;

const ALL_BUT_LOWEST: u64 = 1134621163263881150;

// The least number that so many lanes do not hold: 64 to that power.
pub const TWO_LANES: u64 = 4096;

pub const THREE_LANES: u64 = 262144;

pub const FOUR_LANES: u64 = 16777216;

pub const FIVE_LANES: u64 = 1073741824;

pub const SIX_LANES: u64 = 68719476736;

pub const NINE_LANES: u64 = 18014398509481984;

pub const TEN_LANES: u64 = 1152921504606846976;

// x times each of ten lanes.
pub fn doubled(p: u64) -> u64
    ensures { result ≡ pack 10 (λ k. times_x (lane p k)) }
{
    ((p & LOW_BITS) * 2) ^ ((p & HIGH_BITS) / 32 * 3)
}

// Each of ten lanes times one element, by shift and add on all of them at once.
pub fn scale(p: u64, f: u8) -> u64
    ensures { result ≡ pack 10 (λ k. product (lane p k) f) }
{
    let mut a = p % TEN_LANES;
    let mut b = f;
    let mut s: u64 = 0;
    for _ in 0..6u8 {
        s ^= u64::from(b % 2) * a;
        a = doubled(a);
        b /= 2;
    }
    s
}

// The product of any two bytes, of which the low six bits count, in the lowest lane. Reading multiplies so: the field's own product lays its table out
// anew at each call. That of places, by logarithms, has branches.
pub fn times(u: u8, v: u8) -> u8
    ensures { result ≡ product u v }
{
    (scale(u64::from(u), v) % 64) as u8
}

// Each of ten lanes times one element, as `scale`: where the lanes are a constant, both choices become tables.
pub fn scale_constant(p: u64, f: u8) -> u64
    ensures { result ≡ pack 10 (λ k. product (lane p k) f) }
{
    let a = p % TEN_LANES;
    let b = doubled(a);
    let c = doubled(b);
    let d = doubled(c);
    let e = doubled(d);
    let g = doubled(e);
    chosen(f, a, b, c) ^ chosen(f / 8, d, e, g)
}

// The exclusive or of those of three numbers that the lowest three bits of k choose.
fn chosen(k: u8, a: u64, b: u64, c: u64) -> u64
    ensures { result ≡ bit_xor (k % 2 * a) (bit_xor (k / 2 % 2 * b) (k / 2 / 2 % 2 * c)) }
{
    match k % 8 {
        0 => 0,
        1 => a,
        2 => b,
        3 => a ^ b,
        4 => c,
        5 => a ^ c,
        6 => b ^ c,
        _ => a ^ (b ^ c),
    }
}

// Ten products, lane by lane: the lowest bit of each lane of b, spread over the lane, chooses that lane of a.
pub fn products(p: u64, q: u64) -> u64
    ensures { result ≡ pack 10 (λ k. product (lane p k) (lane q k)) }
{
    let mut a = p % TEN_LANES;
    let mut b = q % TEN_LANES;
    let mut s: u64 = 0;
    for _ in 0..6u8 {
        s ^= ((b & ONES) * 63) & a;
        a = doubled(a);
        b = (b & ALL_BUT_LOWEST) / 2;
    }
    s
}

// The sum of ten lanes: each of five with the one five after it, and these together.
pub fn sum_of(p: u64) -> u8
    ensures { result ≡ total 10 (lane p) }
{
    let q = p ^ (p / FIVE_LANES);
    ((q ^ (q / 64) ^ (q / TWO_LANES) ^ (q / THREE_LANES) ^ (q / FOUR_LANES)) % 64) as u8
}
