// Which of 63 places have eleven sums that no errors have, told at all places at once: the six windows of such sums are the rows of a regular matrix.
#![tactic(auto)]

ghost use Rattle.std.specs.Prelude.{◌<◌};
ghost use Rattle.regular.specs.Pivots.{SumPlanes, PivotsWhere, PivotsOfSums, ElementsAt, Upper, from_diagonal, Wide, Windows, Reduced, RowReduced};
ghost use Rattle.regular.specs.Promises.{NoErrorsWhere};

use planes::Planes;

// 0 at each place.
const NONE: Planes = Planes {
    b0: 0,
    b1: 0,
    b2: 0,
    b3: 0,
    b4: 0,
    b5: 0,
};

// The sums at a place are those given, and to each is added the element that its six words have there. Where the answer has a 0, no errors
// have them; where it has a 1, nothing is said. Of each sum the low six bits count.
pub fn undecided(sums: [u8; 11], words: [u64; 66]) -> u64
    ensures { NoErrorsWhere sums words result }
{
    let mut s = [NONE; 11];
    for (k, sum) in s.iter_mut().enumerate() {
        *sum = sum_planes(&sums, &words, k);
    }
    singular(&s)
}

// Sum k at all places.
fn sum_planes(sums: &[u8; 11], words: &[u64; 66], k: usize) -> Planes
    requires { k < 11 }
    ensures { SumPlanes sums.now words.now k result }
{
    let added = Planes {
        b0: words[6 * k],
        b1: words[6 * k + 1],
        b2: words[6 * k + 2],
        b3: words[6 * k + 3],
        b4: words[6 * k + 4],
        b5: words[6 * k + 5],
    };
    planes::plus(planes::everywhere(sums[k]), added)
}

// The places where the matrix whose windows are rows of eleven sums has a pivot of 0. One step of the elimination leaves a symmetric matrix of one row
// less, with no division: the pivot times each entry, and the product of the two entries beside the pivot.
fn singular(s: &[Planes; 11]) -> u64
    ensures { PivotsOfSums (ElementsAt s.now) result }
{
    let mut m = [[NONE; 6]; 6];
    put_windows(s, &mut m);
    zero_pivots(&mut m)
}

// The places where a symmetric matrix of six rows has a pivot of 0: of each row what stands from the diagonal on counts.
fn zero_pivots(m: &mut [[Planes; 6]; 6]) -> u64
    requires { Wide m.old }
    ensures { PivotsWhere 6 (Upper (from_diagonal 0 m.old)) result }
{
    let mut open: u64 = 0;
    for n in 0..6 {
        open |= planes::zeros(m[n][n]);
        reduce(m, n);
    }
    open
}

// The windows of eleven sums.
fn put_windows(s: &[Planes; 11], m: &mut [[Planes; 6]; 6])
    ensures { Windows s.now m.new }
{
    for (i, row) in m.iter_mut().enumerate() {
        row.copy_from_slice(&s[i..i + 6]);
    }
}

// The step from row n: each row after it, from the diagonal on.
fn reduce(m: &mut [[Planes; 6]; 6], n: usize)
    requires { n < 6 }
    ensures { Reduced n m.old m.new }
{
    let first = m[n];
    for i in n + 1..6 {
        reduce_row(&first, &mut m[i], n, i);
    }
}

// The same of row i, where row n is the first.
fn reduce_row(first: &[Planes; 6], row: &mut [Planes; 6], n: usize, i: usize)
    requires { (n < i) × (i < 6) }
    ensures { RowReduced first.now n i row.old row.new }
{
    let pivot = first[n];
    let beside = first[i];
    row[i] = planes::crossed_square(pivot, row[i], beside);
    for j in i + 1..6 {
        row[j] = planes::crossed(pivot, row[j], beside, first[j]);
    }
}
