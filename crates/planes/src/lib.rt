// 64 elements at a time, a word of 64 bits for each of their six bits: their sums and products, and the roots of a polynomial among the 63 powers of α, all at once.
#![tactic(auto)]

ghost use Rattle.std.specs.Prelude.{◌%◌};
ghost use Rattle.planes.specs.Roots.{RootsOf, FirstFrom};
ghost use Rattle.planes.specs.Slices.{BitSpread, Everywhere, Doubled, Added, OnlyAt, NextBit, Multiplied, PlaceMultiplied, ZerosOf};
ghost use Rattle.planes.specs.Crossed.{Crossed, Squared};

// A bit for each of the 63 places, and the bit past them.
const ALL_PLACES: u64 = 9223372036854775807;

const PAST_PLACES: u64 = 9223372036854775808;

// Elements at 64 places: bit l of plane t is bit t of the element at l. Fields and no array: `times_x` and `square` have another rule for each plane.
#[derive(Clone, Copy)]
pub struct Planes {
    pub b0: u64,
    pub b1: u64,
    pub b2: u64,
    pub b3: u64,
    pub b4: u64,
    pub b5: u64,
}

// The l-th power of α at each place l below 63.
const POWERS: Planes = Planes {
    b0: 9032456453195372609,
    b1: 570494640314067138,
    b2: 1140989280628134276,
    b3: 2281978561256268552,
    b4: 4563957122512537104,
    b5: 9127914245025074208,
};

// The roots of a polynomial, its lowest coefficient first, among the powers of α: bit l is set where the l-th power is one. Of each coefficient the low six bits count.
pub fn roots(p: [u8; 6]) -> u64
    ensures { RootsOf p result }
{
    let mut v = everywhere(p[5]);
    for k in (0..5).rev() {
        v = plus(times_place(v), everywhere(p[k]));
    }
    zeros(v)
}

// The first of the 63 bits from a place on that is set, or 63: the place counts modulo 64. The bit past them is set to stop at.
pub fn first_from(bits: u64, from: usize) -> usize
    ensures { FirstFrom bits (from % 64) result }
{
    let place = from % 64;
    let rest = (bits % PAST_PLACES + PAST_PLACES) >> place;
    place + u64::trailing_zeros(rest) as usize
}

// The lowest bit of c at each of 63 places.
fn spread(c: u8) -> u64
    ensures { BitSpread c result }
{
    u64::from(c % 2) * ALL_PLACES
}

// The element c at each of 63 places.
pub fn everywhere(c: u8) -> Planes
    ensures { Everywhere c result }
{
    Planes {
        b0: spread(c),
        b1: spread(c / 2),
        b2: spread(c / 4),
        b3: spread(c / 8),
        b4: spread(c / 16),
        b5: spread(c / 32),
    }
}

// x times each element: what would be x^6 becomes x + 1.
fn times_x(v: Planes) -> Planes
    ensures { Doubled v result }
{
    Planes {
        b0: v.b5,
        b1: v.b0 ^ v.b5,
        b2: v.b1,
        b3: v.b2,
        b4: v.b3,
        b5: v.b4,
    }
}

// The sums, place by place.
pub fn plus(s: Planes, v: Planes) -> Planes
    ensures { Added s v result }
{
    Planes {
        b0: s.b0 ^ v.b0,
        b1: s.b1 ^ v.b1,
        b2: s.b2 ^ v.b2,
        b3: s.b3 ^ v.b3,
        b4: s.b4 ^ v.b4,
        b5: s.b5 ^ v.b5,
    }
}

// v at the places that k has, 0 at the others.
fn only_at(v: Planes, k: u64) -> Planes
    ensures { OnlyAt k v result }
{
    Planes {
        b0: k & v.b0,
        b1: k & v.b1,
        b2: k & v.b2,
        b3: k & v.b3,
        b4: k & v.b4,
        b5: k & v.b5,
    }
}

// x times s, and v added at the places that k has.
fn next_bit(s: Planes, v: Planes, k: u64) -> Planes
    ensures { NextBit s v k result }
{
    plus(times_x(s), only_at(v, k))
}

// The products, place by place, by shift and add, from the highest bit down: no branch and no table.
fn times(v: Planes, w: Planes) -> Planes
    ensures { Multiplied v w result }
{
    let s5 = only_at(v, w.b5);
    let s4 = next_bit(s5, v, w.b4);
    let s3 = next_bit(s4, v, w.b3);
    let s2 = next_bit(s3, v, w.b2);
    let s1 = next_bit(s2, v, w.b1);
    next_bit(s1, v, w.b0)
}

// At each place l the product with the l-th power of α.
fn times_place(v: Planes) -> Planes
    ensures { PlaceMultiplied v result }
{
    times(v, POWERS)
}

// The product of a and x and that of b and y added, place by place.
pub fn crossed(a: Planes, x: Planes, b: Planes, y: Planes) -> Planes
    ensures { Crossed a x b y result }
{
    plus(times(a, x), times(b, y))
}

// The same where y is b: a square only moves and adds bits.
pub fn crossed_square(a: Planes, x: Planes, b: Planes) -> Planes
    ensures { Crossed a x b b result }
{
    plus(times(a, x), square(b))
}

// The square of each element: x^6, x^8 and x^10 are x + 1, x^3 + x^2 and x^5 + x^4.
fn square(v: Planes) -> Planes
    ensures { Squared v result }
{
    Planes {
        b0: v.b0 ^ v.b3,
        b1: v.b3,
        b2: v.b1 ^ v.b4,
        b3: v.b4,
        b4: v.b2 ^ v.b5,
        b5: v.b5,
    }
}

// The places below 63 whose element is 0.
pub fn zeros(v: Planes) -> u64
    ensures { ZerosOf v result }
{
    let some = v.b0 | v.b1 | v.b2 | v.b3 | v.b4 | v.b5;
    ALL_PLACES ^ (some % PAST_PLACES)
}
