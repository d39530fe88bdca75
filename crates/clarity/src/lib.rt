// How clear a scan is: the signal ratio of 378 cell brightnesses under a threshold, squared, with both means; and the counts of a spool of scans.
#![tactic(auto)]

ghost use Rattle.std.specs.Prelude.{◌≡◌, ◌+◌, ◌-◌, ◌*◌, ◌^◌, ◌<◌, ◌≤◌, length};
ghost use Rattle.clarity.specs.Scan.{dark_side, bright_side, numerator, quotient, clarity_of};
ghost use Rattle.clarity.specs.Promises.{clarity_numbers, given_of, Clarifies, count_numbers, CountsSpool};
ghost use Rattle.clarity.specs.Inside.{Adds, Tallied, Bounded, Ordered, CountedTo, OneMore};

use refusal::Refusal;

// The cells of a line.
const CELLS: usize = 378;

// The same as the sides count them.
const ALL: u32 = 378;

// The cells of the longest spool: 255 scans.
const SPOOL: usize = 96390;

// The scan record: the means of the dark and of the bright cells.
#[derive(Clone, Copy)]
pub struct Means {
    pub dark: f64,
    pub bright: f64,
}

// The ratio; or that there is none, since the cells of each side are all alike. An enum of our own, and no Option: 01's forms name its Ratio case.
#[derive(Clone, Copy)]
pub enum Clarity {
    Ratio(f64),
    NoSpread,
}

// What a scan comes to: its record, and how clear it is.
#[derive(Clone, Copy)]
pub struct Scan {
    pub means: Means,
    pub clarity: Clarity,
}

// How many scans of a spool have a ratio, have no spread and are refused.
#[derive(Clone, Copy)]
pub struct Counts {
    pub ratios: u8,
    pub unspread: u8,
    pub refusals: u8,
}

// One side of a scan: how many cells it has, their sum, and the sum of their squares. It spreads by no less than 0.
#[derive(Clone, Copy)]
struct Side {
    n: u32,
    s: u32,
    q: u32,
    ghost bounded: { Bounded n s q },
}

// Both sides of a scan: the mean of the bright one is not below that of the dark one.
#[derive(Clone, Copy)]
struct Sides {
    dark: Side,
    bright: Side,
    ghost ordered: { Ordered dark.n dark.s bright.n bright.s },
}

// What one cell adds: to the dark side, and to all.
#[derive(Clone, Copy)]
struct Part {
    n: u32,
    s: u32,
    q: u32,
    value: u32,
    square: u32,
}

// How clear a scan is. A cell below the threshold is dark, and any other is bright.
pub fn scan_clarity(cells: &[u8], threshold: u8) -> Result<Scan, Refusal>
    ensures { Clarifies cells.now threshold (clarity_numbers result) (given_of result) }
{
    if cells.len() != CELLS {
        return Err(Refusal::InputLength);
    }
    let sides = sides_of(cells, threshold);
    if sides.dark.n == 0 || sides.bright.n == 0 {
        return Err(Refusal::OneSided);
    }
    let means = Means {
        dark: mean_of(sides.dark),
        bright: mean_of(sides.bright),
    };
    Ok(Scan {
        means,
        clarity: ratio_of(sides),
    })
}

// Counts what up to 255 scans answer, one after the other, under one threshold. A scan that is refused stops no other.
pub fn spool_clarity(cells: &[u8], threshold: u8) -> Result<Counts, Refusal>
    ensures { CountsSpool cells.now threshold (count_numbers result) }
{
    if cells.len() % CELLS != 0 || cells.len() > SPOOL {
        return Err(Refusal::InputLength);
    }
    Ok(count_each(cells, threshold, cells.len() / CELLS))
}

// Both sides of a scan. What is not dark is bright, so the bright side is what is left of all cells.
fn sides_of(cells: &[u8], threshold: u8) -> Sides
    requires { length cells.now ≡ 378 }
    ensures dark { Tallied dark_side threshold cells.now result.dark.n result.dark.s result.dark.q }
    ensures bright { Tallied bright_side threshold cells.now result.bright.n result.bright.s result.bright.q }
{
    let mut n: u32 = 0;
    let mut s: u32 = 0;
    let mut q: u32 = 0;
    let mut sum: u32 = 0;
    let mut squares: u32 = 0;
    for c in cells {
        let part = part_of(*c, threshold);
        n += part.n;
        s += part.s;
        q += part.q;
        sum += part.value;
        squares += part.square;
    }
    Sides {
        dark: Side { n, s, q },
        bright: Side {
            n: ALL - n,
            s: sum - s,
            q: squares - q,
        },
    }
}

// What one cell adds: nothing to the dark side where it is bright.
fn part_of(c: u8, threshold: u8) -> Part
    ensures { Adds threshold c result.n result.s result.q result.value result.square }
{
    let value = u32::from(c);
    let square = square_of(c);
    if c < threshold {
        return Part {
            n: 1,
            s: value,
            q: square,
            value,
            square,
        };
    }
    Part {
        n: 0,
        s: 0,
        q: 0,
        value,
        square,
    }
}

// The square of a brightness.
fn square_of(c: u8) -> u32
    ensures { (result ≡ c * c) × (result ≤ 65025) }
{
    let x = u32::from(c);
    x * x
}

// The mean of the cells of a side.
fn mean_of(side: Side) -> f64
    ensures { result ≡ quotient side.s side.n }
{
    f64::from(side.s) / f64::from(side.n)
}

// The ratio of two sides, or that there is no spread.
fn ratio_of(sides: Sides) -> Clarity
    ensures { result ≡ clarity_of sides.dark.n sides.dark.s sides.dark.q sides.bright.n sides.bright.s sides.bright.q }
{
    let Sides { dark, bright } = sides;
    let d = weighed(bright.n, spread_of(dark)) + weighed(dark.n, spread_of(bright));
    if d == 0 {
        return Clarity::NoSpread;
    }
    Clarity::Ratio(quotient_of(apart(sides), d))
}

// How far the cells of a side spread: the square of their count times their variance.
fn spread_of(side: Side) -> u64
    ensures { (result ≡ side.n * side.q - side.s * side.s) × (result ≤ 9291032100) }
{
    let sum = u64::from(side.s);
    u64::from(side.n) * u64::from(side.q) - sum * sum
}

// The same, weighed by the square of the other side's count.
fn weighed(n: u32, spread: u64) -> u64
    requires { (n ≤ 378) × (spread ≤ 9291032100) }
    ensures { (result ≡ n * n * spread) × (result ≤ 1327539830576400) }
{
    let count = u64::from(n);
    count * count * spread
}

// How far apart the means are: the square of their difference times those of both counts.
fn apart(sides: Sides) -> u64
    ensures { (result ≡ numerator sides.dark.n sides.dark.s sides.bright.n sides.bright.s) × (result ≤ 1327539830576400) }
{
    let Sides { dark, bright } = sides;
    let x = u64::from(bright.s) * u64::from(dark.n) - u64::from(dark.s) * u64::from(bright.n);
    x * x
}

// The quotient of two whole numbers that doubles hold exactly.
fn quotient_of(n: u64, d: u64) -> f64
    requires n_bound { n ≤ 2 ^ 53 }
    requires d_bound { d ≤ 2 ^ 53 }
    ensures { result ≡ quotient n d }
{
    n as f64 / d as f64
}

// Counts what each of n scans answers.
fn count_each(cells: &[u8], threshold: u8, n: usize) -> Counts
    requires n_bound { n ≤ 255 }
    requires cells_len { length cells.now ≡ n * 378 }
    ensures { CountedTo cells.now threshold n result.ratios result.unspread result.refusals }
{
    let mut counts = Counts {
        ratios: 0,
        unspread: 0,
        refusals: 0,
    };
    for i in 0..n {
        let start = i * CELLS;
        let end = start + CELLS;
        let answer = scan_clarity(&cells[start..end], threshold);
        counts = counted(counts, answer);
    }
    counts
}

// One scan more.
fn counted(before: Counts, answer: Result<Scan, Refusal>) -> Counts
    requires { before.ratios + before.unspread + before.refusals < 255 }
    ensures { OneMore answer before.ratios before.unspread before.refusals result.ratios result.unspread result.refusals }
{
    match answer {
        Ok(
            Scan {
                clarity: Clarity::Ratio(_),
                ..
            },
        ) => Counts {
            ratios: before.ratios + 1,
            ..before
        },
        Ok(
            Scan {
                clarity: Clarity::NoSpread,
                ..
            },
        ) => Counts {
            unspread: before.unspread + 1,
            ..before
        },
        Err(_) => Counts {
            refusals: before.refusals + 1,
            ..before
        },
    }
}
