// Values at the roots of a locator: a fraction of two polynomials, taken at five roots at once, and the pattern of errors that the values make.
ghost use Rattle.std.specs.Prelude.{◌≡◌, ◌^◌, ◌<◌, ◌≤◌};
ghost use Rattle.mender.specs.Rows.{Coefficients};
ghost use Rattle.mender.specs.Values.{Patterned, Placed, PlacesFrom, QuotientsIn, QuotientsAhead, QuotientNext, BothAt, Spread, last_of, inverse_or_none, InversesIn, Raised, NumeratorIn, DenominatorIn, FractionIn, Kills, lanes_of};
ghost use Rattle.sums.specs.Held.{eleven};

use super::rows::lane_of;
use super::{Mended, NOWHERE};
use lanes::{FIVE_LANES, FIVE_ONES, FOUR_LANES, SIX_LANES, THREE_LANES, TWO_LANES};
use sums::Sums;

// Two polynomials whose quotient at a root is the value there, numerator and denominator side by side, and how many windows the locator combines to 0.
#[derive(Clone, Copy)]
struct Ratio {
    sides: u64,
    windows: usize,
    ghost few: { windows ≤ 5 },
}

// Values at the next roots, in lanes, the nearest lowest: so many are left.
#[derive(Clone, Copy)]
struct Ahead {
    values: u64,
    left: usize,
}

// The values at the roots of the locator p, the coefficients of a row that combines the first n windows to 0: the place of address 62 - l is α^l.
// No other place has a value.
pub fn values_at_roots(row: u64, p: [u8; 6], s: Sums, n: usize) -> Mended
    requires coefficients { Coefficients row p }
    requires kills { Kills p (eleven s) n }
    ensures { Patterned p (eleven s) result }
{
    placed(
        planes::roots(p),
        fraction(row / FIVE_LANES % SIX_LANES, s.first, n),
    )
}

// The value of the fraction f at each root, five at a time, and 0 at every other place. The roots come from the last address down, so the first value
// that is not 0 stands last.
fn placed(roots: u64, f: Ratio) -> Mended
    ensures { Placed roots f.sides f.windows result }
{
    let mut w = [0u8; 63];
    let mut count: u8 = 0;
    let mut first: u8 = NOWHERE;
    let mut last: u8 = NOWHERE;
    let mut values: u64 = 0;
    let mut left: usize = 0;
    let mut l = planes::first_from(roots, 0);
    // a while: from root to root
    while l < 63 {
        let ahead = looked_ahead(Ahead { values, left }, f, roots, l);
        let v = (ahead.values % 64) as u8;
        w[62 - l] = v;
        if v != 0 {
            count += 1;
            first = (62 - l) as u8;
            last = last_of(last, first);
        }
        values = ahead.values / 64;
        left = ahead.left - 1;
        l = planes::first_from(roots, l + 1);
    }
    Mended {
        weight: count,
        first,
        last,
        word: w,
    }
}

// The last of some addresses and one before them all: where there are none, that one.
fn last_of(last: u8, address: u8) -> u8
    ensures { result ≡ last_of last address }
{
    if last == NOWHERE {
        return address;
    }
    last
}

// The values at the next roots from l on: those of the next five where none is left. A locator that is not 0 has no more.
fn looked_ahead(ahead: Ahead, f: Ratio, roots: u64, l: usize) -> Ahead
    requires inside { l ≤ 63 }
    requires quotients_ahead { QuotientsAhead f.sides f.windows roots l ahead }
    ensures { QuotientNext f.sides f.windows roots l result }
{
    if ahead.left > 0 {
        return ahead;
    }
    let values = quotients(f, places_from(roots, l));
    Ahead { values, left: 5 }
}

// The place of l and those of the four roots after it, in lanes: where there are fewer, 1 stands for each other.
fn places_from(roots: u64, l: usize) -> u64
    requires { l ≤ 63 }
    ensures { PlacesFrom roots l result }
{
    let mut x: u64 = 0;
    let mut at = l;
    for _i in 0..5usize {
        x = x / 64 + u64::from(places::power_of(at as u8)) * FOUR_LANES;
        at = planes::first_from(roots, (at + 1).min(63));
    }
    x
}

// The values at five places: numerator by denominator, and once more times the place for each window of five that the locator may not combine to 0.
fn quotients(f: Ratio, x: u64) -> u64
    requires { x < 64 ^ 5 }
    ensures { QuotientsIn f.sides f.windows x result }
{
    let both = both_at(f.sides, x);
    raised(
        lanes::products(both, inverses(both / FIVE_LANES)),
        x,
        f.windows,
    )
}

// Numerator and denominator at five places, side by side, from the highest coefficient down.
fn both_at(f: u64, x: u64) -> u64
    requires { x < 64 ^ 5 }
    ensures { BothAt f x result }
{
    let twice = x + x * FIVE_LANES;
    let mut r: u64 = 0;
    for m in (0..5).rev() {
        r = lanes::products(twice, r) ^ spread(f, m);
    }
    r
}

// Coefficient m of the numerator in five lanes, and of the denominator in five.
fn spread(f: u64, m: usize) -> u64
    requires { m < 5 }
    ensures { Spread f m result }
{
    let q = f >> (6 * m);
    (q % 64 + q / FIVE_LANES % 64 * FIVE_LANES) * FIVE_ONES
}

// The inverses of five lanes, and 0 for a lane that is 0.
fn inverses(d: u64) -> u64
    ensures { InversesIn d result }
{
    let mut r: u64 = 0;
    let mut q = d;
    for _i in 0..5usize {
        r = r / 64 + u64::from(inverse_or_none((q % 64) as u8)) * FOUR_LANES;
        q /= 64;
    }
    r
}

// The inverse of an element that is not 0. Where a denominator is 0, at a root that is a root twice or in a lane that stands for no root, nothing is
// divided, and there is no value.
fn inverse_or_none(v: u8) -> u8
    requires { v < 64 }
    ensures { result ≡ inverse_or_none v }
{
    if v == 0 {
        return 0;
    }
    field::inverse(v)
}

// Five lanes, each times its place to the power 5 - n.
fn raised(v: u64, x: u64, n: usize) -> u64
    requires { n ≤ 5 }
    ensures { Raised v x n result }
{
    let mut r = v;
    for _k in n..5 {
        r = lanes::products(x, r);
    }
    r
}

// The fraction whose value at a root of the locator q is the error's: numerator and denominator, side by side.
fn fraction(q: u64, sums: u64, n: usize) -> Ratio
    requires { n ≤ 5 }
    ensures windows { result.windows ≡ n }
    ensures sides { FractionIn q (lanes_of sums) n result.sides }
{
    Ratio {
        sides: numerator(q, sums, n) + denominator(q) * FIVE_LANES,
        windows: n,
    }
}

// The numerator: its coefficient m has the locator's coefficients from m + 1 on, each times its turn's sum, of the sums from n on.
fn numerator(q: u64, sums: u64, n: usize) -> u64
    requires { n ≤ 5 }
    ensures { NumeratorIn q (lanes_of sums) n result }
{
    let from = sums >> (6 * n);
    let mut c: u64 = 0;
    for k in (0..5).rev() {
        c = (c ^ lanes::scale(q, lane_of(from, k))) / 64;
    }
    c % FIVE_LANES
}

// The denominator, the locator's derivative: every second coefficient.
fn denominator(q: u64) -> u64
    ensures { DenominatorIn q result }
{
    q / 64 % 64 + q / THREE_LANES % 64 * TWO_LANES + q / FIVE_LANES % 64 * FOUR_LANES
}
