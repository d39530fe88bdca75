// The field of 64 elements: the entry points sum, product and quotient, and the inner operations that the crates above use.
#![tactic(auto)]

ghost use Rattle.std.specs.Prelude.{◌≡◌, ◌%◌, ◌<◌};
ghost use Rattle.refusal.specs.declared.Refusal.TheVariants.{ValueOver};
ghost use Rattle.refusal.specs.Promise.{◌else◌, Checks};
ghost use Rattle.field.specs.Field.{sum, product, Quotient};
ghost use Rattle.field.specs.Promises.{element_numbers, Operands, Sums, Multiplies, Divides};
ghost use Rattle.field.specs.Inside.{Products, inverse};

use refusal::Refusal;

mod table;

// What nothing is divided by.
const NOTHING: u8 = 0;

// The inverse of each element. What stands for 0, which has none, is never read, and is no element.
const INVERSES: [u8; 64] = [
    255, 1, 33, 62, 49, 43, 31, 44, 57, 37, 52, 28, 46, 40, 22, 25, 61, 54, 51, 39, 26, 35, 14, 24,
    23, 15, 20, 34, 11, 53, 45, 6, 63, 2, 27, 21, 56, 9, 50, 19, 13, 47, 48, 5, 7, 30, 12, 41, 42,
    4, 38, 18, 10, 29, 17, 60, 36, 8, 59, 58, 55, 16, 3, 32,
];

// Refuses two operands of which one is no element.
fn elements(u: u8, v: u8) -> Result<(), Refusal>
    ensures { Checks (Operands u v else ValueOver) result }
{
    if u > 63 || v > 63 {
        return Err(Refusal::ValueOver);
    }
    Ok(())
}

// The sum of two operands.
pub fn sum(u: u8, v: u8) -> Result<u8, Refusal>
    ensures { Sums u v (element_numbers result) }
{
    elements(u, v)?;
    Ok(plus(u, v))
}

// The product of two operands.
pub fn product(u: u8, v: u8) -> Result<u8, Refusal>
    ensures { Multiplies u v (element_numbers result) }
{
    elements(u, v)?;
    Ok(times(u, v))
}

// The quotient of two operands, of which the second is not 0.
pub fn quotient(u: u8, v: u8) -> Result<u8, Refusal>
    ensures { Divides u v (element_numbers result) }
{
    elements(u, v)?;
    if v == NOTHING {
        return Err(Refusal::QuotientByZero);
    }
    Ok(over(u, v))
}

// The sum of any two bytes.
pub fn plus(u: u8, v: u8) -> u8
    ensures { result ≡ sum u v }
{
    u ^ v
}

// The written table of products. No other function names it: each that does has its 4,096 numbers in its proof.
fn products() -> [[u8; 64]; 64]
    ensures { Products result }
{
    table::PRODUCTS
}

// The product of any two bytes, looked up: of each the low six bits count.
pub fn times(u: u8, v: u8) -> u8
    ensures { result ≡ product u v }
{
    let written = products();
    let row = usize::from(u % 64);
    let column = usize::from(v % 64);
    written[row][column]
}

// The inverse of what is not 0, looked up: of any byte the low six bits count.
pub fn inverse(u: u8) -> u8
    requires { 0 < u % 64 }
    ensures { result ≡ inverse u }
{
    INVERSES[usize::from(u % 64)]
}

// The quotient of any byte by one that is not 0: of each the low six bits count.
fn over(u: u8, v: u8) -> u8
    requires { 0 < v % 64 }
    ensures { Quotient (u % 64) (v % 64) result }
{
    times(u, inverse(v))
}
