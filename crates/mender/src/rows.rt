// Rows of the elimination: the polynomials that combine the windows of the sums to 0, each packed in one number, whose lanes 0 to 4 have what the row
// combines windows 0 to 4 to, and lanes 5 to 10 its coefficients.
ghost use Rattle.std.specs.Prelude.{◌≡◌, suc, min, ◌^◌, ◌<◌, ◌≤◌, get_or};
ghost use Rattle.lanes.specs.Lanes.{lane};
ghost use Rattle.mender.specs.Rows.{UnitRows, PivotRow, Multiples, RowsCleared, RowsFrom, FirstRow, Coefficients};

use lanes::{FIVE_LANES, FOUR_LANES, TEN_LANES};

// The polynomials of degree at most e that combine n windows of the sums to 0, five windows at most, packed.
pub fn spanned_rows(sums: u64, e: usize, n: usize) -> [u64; 6]
    requires { e ≤ 5 }
    ensures { RowsFrom sums e (min n 5) result }
{
    let mut x = unit_rows(sums, e);
    for j in 0..n.min(5) {
        if let Some(p) = pivot_row(x, j) {
            let cleared = row_cleared(x, j, p);
            x = cleared;
        }
    }
    x
}

// The rows of degree 0 to e before any window, and rows of 0: the sums from the row's degree on, and 1 at that degree.
fn unit_rows(sums: u64, e: usize) -> [u64; 6]
    requires { e ≤ 5 }
    ensures { UnitRows sums (suc e) result }
{
    let mut x = [0u64; 6];
    let mut q = sums;
    let mut one: u64 = FOUR_LANES;
    for i in 0..e + 1 {
        one *= 64;
        x[i] = q % FIVE_LANES + one;
        q /= 64;
    }
    x
}

// The first row that window j does not combine to 0.
fn pivot_row(x: [u64; 6], j: usize) -> Option<usize>
    requires { j < 10 }
    ensures { PivotRow x j result }
{
    x.iter().position(|row| lane_of(*row, j) != 0)
}

// Each row after row p and the multiple of row p with which it combines window j to 0; row p itself becomes 0.
fn row_cleared(mut x: [u64; 6], j: usize, p: usize) -> [u64; 6]
    requires { (j < 10) × (p < 6) × (0 < lane (get_or x p 0) j) }
    ensures { RowsCleared x j p result }
{
    let y = x[p];
    let inverse = field::inverse(lane_of(y, j));
    let a = y % TEN_LANES;
    let low = multiples(a);
    let high = multiples(lanes::scale(a, 8));
    for i in p + 1..6 {
        let f = lanes::times(inverse, lane_of(x[i], j));
        x[i] = x[i] ^ low[usize::from(f % 8)] ^ high[usize::from(f / 8)];
    }
    x[p] = 0;
    x
}

// The first eight multiples of ten lanes.
fn multiples(a: u64) -> [u64; 8]
    requires { a < 64 ^ 10 }
    ensures { Multiples a result }
{
    let b = lanes::scale(a, 2);
    let c = lanes::scale(a, 4);
    let d = a ^ b;
    [0, a, b, d, c, c ^ a, c ^ b, c ^ d]
}

// Lane j.
pub fn lane_of(x: u64, j: usize) -> u8
    requires { j < 10 }
    ensures { result ≡ lane x j }
{
    ((x >> (6 * j)) % 64) as u8
}

// The first row that is not 0.
pub fn first_row(x: [u64; 6]) -> Option<usize>
    ensures { FirstRow x result }
{
    x.iter().position(|row| *row != 0)
}

// The coefficients of a row.
pub fn coefficients(x: u64) -> [u8; 6]
    ensures { Coefficients x result }
{
    let mut p = [0u8; 6];
    let mut q = x / FIVE_LANES;
    for c in p.iter_mut() {
        *c = (q % 64) as u8;
        q /= 64;
    }
    p
}
