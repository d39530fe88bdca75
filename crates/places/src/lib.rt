// Powers of α and logarithms, each by a table, and products and quotients by them.
#![tactic(auto)]

ghost use Rattle.std.specs.Prelude.{◌≡◌, ◌%◌, ◌<◌};
ghost use Rattle.field.specs.Field.{product, α, power};
ghost use Rattle.field.specs.Inside.{inverse};
ghost use Rattle.places.specs.Logs.{LogOf};

// The powers of α, and the logarithm of each element, 0 for 0.
const POWERS: [u8; 64] = [
    1, 2, 4, 8, 16, 32, 3, 6, 12, 24, 48, 35, 5, 10, 20, 40, 19, 38, 15, 30, 60, 59, 53, 41, 17,
    34, 7, 14, 28, 56, 51, 37, 9, 18, 36, 11, 22, 44, 27, 54, 47, 29, 58, 55, 45, 25, 50, 39, 13,
    26, 52, 43, 21, 42, 23, 46, 31, 62, 63, 61, 57, 49, 33, 1,
];

const LOGS: [u8; 64] = [
    0, 0, 1, 6, 2, 12, 7, 26, 3, 32, 13, 35, 8, 48, 27, 18, 4, 24, 33, 16, 14, 52, 36, 54, 9, 45,
    49, 38, 28, 41, 19, 56, 5, 62, 25, 11, 34, 31, 17, 47, 15, 23, 53, 51, 37, 44, 55, 40, 10, 61,
    46, 30, 50, 22, 39, 43, 29, 60, 42, 21, 20, 59, 57, 58,
];

// α to the power of the low six bits.
pub fn power_of(l: u8) -> u8
    ensures { result ≡ power α (l % 64) }
{
    POWERS[usize::from(l % 64)]
}

// The logarithm of the low six bits, 0 where they are 0.
pub fn log_of(x: u8) -> u8
    ensures { LogOf x result }
{
    LOGS[usize::from(x % 64)]
}

// The product of any two bytes, by adding logarithms modulo 63: of each the low six bits count.
pub fn times(u: u8, v: u8) -> u8
    ensures { result ≡ product u v }
{
    if u % 64 == 0 {
        return 0;
    }
    if v % 64 == 0 {
        return 0;
    }
    power_of((log_of(u) + log_of(v)) % 63)
}

// The quotient of any byte by one that is not 0, by subtracting logarithms modulo 63: of each the low six bits count.
pub fn over(u: u8, v: u8) -> u8
    requires { 0 < v % 64 }
    ensures { result ≡ product u (inverse v) }
{
    if u % 64 == 0 {
        return 0;
    }
    power_of((log_of(u) + 63 - log_of(v)) % 63)
}
