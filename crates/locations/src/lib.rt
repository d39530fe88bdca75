// The error locations: the roots of a polynomial, by trial and error using synthetic division, and directly where it is of order one or two.
#![tactic(auto)]

ghost use Rattle.std.specs.Prelude.{◌≡◌, ◌<◌, get_or};
ghost use Rattle.locations.specs.Roots.{Finds, Divides, Tried, halves};

// A polynomial divided by x + r, with a 0 after it, and the remainder, which is its value at r.
#[derive(Clone, Copy)]
struct Division {
    quotient: [u8; 6],
    remainder: u8,
}

// The roots of a polynomial of this degree whose highest coefficient is 1, where it has as many that are not 0 and differ: the last of five.
//
// 001: "If the polynomial is of order one or two, the solution is obtained directly. If it is of higher order, the roots are sought by trial and error
// using synthetic division. After a root is found, the reduced polynomial, obtained by dividing the polynomial by the linear factor containing the
// root, is used for solving the remaining roots. When the order of the polynomial is reduced to two, the solution is obtained directly."
pub fn roots_of(p: [u8; 6], degree: usize) -> Option<[u8; 5]>
    ensures { Finds p degree result }
{
    match degree {
        0 => Some([0u8; 5]),
        1 => linear(p),
        2 => quadratic(p),
        3..=5 => {
            let x = trial(p)?;
            let once = divided(p, x);
            // A double root would be one location taken twice.
            let twice = divided(once.quotient, x);
            if twice.remainder == 0 {
                return None;
            }
            let mut roots = roots_of(once.quotient, degree - 1)?;
            roots[5 - degree] = x;
            Some(roots)
        }
        _ => None,
    }
}

// The root of x + c.
fn linear(p: [u8; 6]) -> Option<[u8; 5]>
    ensures { Finds p 1 result }
{
    let c = p[0] % 64;
    if c == 0 {
        return None;
    }
    Some([0, 0, 0, 0, c])
}

// The two roots of x·x + b·x + c: x = b·y, where y·y + y = c / (b·b). 001 calls it "a general solution for quadratics in a Galois field of even
// order". Where b is 0 there is one root, twice; where c is 0 one root is 0, which is no location.
fn quadratic(p: [u8; 6]) -> Option<[u8; 5]>
    ensures { Finds p 2 result }
{
    let c = p[0] % 64;
    let b = p[1] % 64;
    if b == 0 {
        return None;
    }
    if c == 0 {
        return None;
    }
    let v = places::over(c, b);
    let u = places::over(v, b);
    if u >= 32 {
        return None;
    }
    let x = places::times(b, half(u));
    Some([0, 0, 0, x, x ^ b])
}

// For each u below 32 an even y with y·y + y = u; for the other u there is none.
const HALVES: [u8; 32] = [
    0, 58, 38, 28, 36, 30, 2, 56, 20, 46, 50, 8, 48, 10, 22, 44, 32, 26, 6, 60, 4, 62, 34, 24, 52,
    14, 18, 40, 16, 42, 54, 12,
];

fn half(u: u8) -> u8
    requires { u < 32 }
    ensures { result ≡ get_or halves u 0 }
{
    HALVES[usize::from(u)]
}

// The first root that is not 0, by trial.
fn trial(p: [u8; 6]) -> Option<u8>
    ensures { Tried p result }
{
    (1..64).find(|x| divided(p, *x).remainder == 0)
}

// Synthetic division by x + r.
fn divided(p: [u8; 6], r: u8) -> Division
    ensures { Divides p r result }
{
    let mut quotient = [0u8; 6];
    let mut v: u8 = 0;
    for k in (0..6).rev() {
        quotient[k] = v;
        v = p[k] ^ places::times(r, v);
    }
    Division {
        quotient,
        remainder: v,
    }
}
