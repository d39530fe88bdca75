// The matrix-solving program: square systems of up to five equations by row reduction, on an array of arrays that is passed by value and handed back.
#![tactic(auto)]

ghost use Rattle.std.specs.Prelude.{◌≡◌, [], min, ◌%◌, ◌<◌, ◌≤◌, get_or, set};
ghost use Rattle.refusal.specs.Promise.{Tells};
ghost use Rattle.matrix.specs.System.{Solves};
ghost use Rattle.matrix.specs.Inside.{Entries, low_row, low_rows, PivotIn, RowOver, RowAdded, Cleared, Reduces, UnitDiagonal, ColumnIs};

// A matrix has at most five rows.
const ROWS: usize = 5;

// A row has at most five coefficients, and one number after them.
const COLUMNS: usize = 6;

// Solves n equations in n unknowns: row i's first n entries times the unknowns, and its next entry, add up to 0. n counts up to 5, and of each entry
// the low six bits. The answer is the unknowns, and 1 after them; a singular system has none.
pub fn solved(m: [[u8; COLUMNS]; ROWS], n: usize) -> Option<[u8; COLUMNS]>
    ensures { Solves (min n 5) m result }
{
    let count = n.min(ROWS);
    let rows = reduced(lowered(m), count);
    if !unit_diagonal(rows, count) {
        return None;
    }
    Some(column(rows, count))
}

// Each entry by its low six bits.
fn lowered(m: [[u8; COLUMNS]; ROWS]) -> [[u8; COLUMNS]; ROWS]
    ensures { result ≡ low_rows m }
{
    m.map(lowered_row)
}

fn lowered_row(row: [u8; COLUMNS]) -> [u8; COLUMNS]
    ensures { result ≡ low_row row }
{
    row.map(|x| x % 64)
}

// The rows and n are passed apart, and n ≤ 5 is required of each: a struct of both, with the bound as a ghost field, was tried. No plainer: the loop below
// writes the rows alone, and each step has to promise n again.

// The matrix row-reduced, column after column, up to the first column that has no pivot.
fn reduced(mut m: [[u8; COLUMNS]; ROWS], n: usize) -> [[u8; COLUMNS]; ROWS]
    requires n_bound { n ≤ 5 }
    requires entries { Entries m }
    ensures { Reduces n m result }
{
    for t in 0..n {
        let Some(p) = pivot(m, t, n) else {
            return m;
        };
        m.swap(t, p);
        m = cleared(m, t, n);
    }
    m
}

// The first row from t on, of n, whose entry in column t is not 0.
fn pivot(m: [[u8; COLUMNS]; ROWS], t: usize, n: usize) -> Option<usize>
    requires { (t < n) × (n ≤ 5) }
    ensures { PivotIn m t n result }
{
    (t..n).find(|i| m[*i][t] != 0)
}

// Row t divided by its entry in column t, which is not 0, and the other rows cleared there.
fn cleared(m: [[u8; COLUMNS]; ROWS], t: usize, n: usize) -> [[u8; COLUMNS]; ROWS]
    requires t_lt_n { (t < n) × (n ≤ 5) }
    requires nonzero { 0 < get_or (get_or m t []) t 0 % 64 }
    ensures { Cleared n t m result }
{
    let pivot = row_over(m[t], m[t][t]);
    let mut r = m;
    r[t] = pivot;
    for i in 0..n {
        if i != t {
            let row = m[i];
            r[i] = row_added(row, row[t], pivot);
        }
    }
    r
}

// A row divided by what is not 0.
fn row_over(mut row: [u8; COLUMNS], divisor: u8) -> [u8; COLUMNS]
    requires { 0 < divisor % 64 }
    ensures { RowOver row divisor result }
{
    for x in row.iter_mut() {
        *x = places::over(*x, divisor);
    }
    row
}

// A row and f times another.
fn row_added(mut row: [u8; COLUMNS], f: u8, other: [u8; COLUMNS]) -> [u8; COLUMNS]
    ensures { RowAdded row f other result }
{
    for (k, x) in row.iter_mut().enumerate() {
        *x ^= places::times(f, other[k]);
    }
    row
}

// Whether each of the first n rows has 1 on the diagonal.
fn unit_diagonal(r: [[u8; COLUMNS]; ROWS], n: usize) -> bool
    requires { n ≤ 5 }
    ensures { Tells (UnitDiagonal n r) result }
{
    (0..n).all(|i| r[i][i] == 1)
}

// Column n of the first n rows, and 1 after it.
fn column(r: [[u8; COLUMNS]; ROWS], n: usize) -> [u8; COLUMNS]
    requires { n ≤ 5 }
    ensures { ColumnIs r n result }
{
    let mut p = [0u8; COLUMNS];
    p[n] = 1;
    for i in 0..n {
        p[i] = r[i][n];
    }
    p
}
