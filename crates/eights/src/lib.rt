// Bytes, eight at once: whether each is below 64, and the exclusive or of all.
#![tactic(auto)]

ghost use Rattle.std.specs.Prelude.{◌≡◌, [], ◌∷◌, ◌+◌, ◌≤◌, length, get_or};
ghost use Rattle.refusal.specs.Promise.{Tells};
ghost use Rattle.numbers.specs.Total.{total};
ghost use Rattle.eights.specs.Low.{Low};
ghost use Rattle.eights.specs.Inside.{byte, HoldsBytes, eight_from, LowEight};

// The two high bits of each of eight bytes.
const HIGH: u64 = 0xc0c0_c0c0_c0c0_c0c0;

// Whether each byte is below 64. Those of the last eight that were looked at before are looked at again.
pub fn all_low(bytes: &[u8]) -> bool
    ensures { Tells (Low bytes.now) result }
{
    let n = bytes.len();
    if n < 8 {
        return eight_low(few(bytes));
    }
    let mut met = eight_at(bytes, n - 8);
    for k in 0..(n - 1) / 8 {
        met |= eight_at(bytes, 8 * k);
    }
    eight_low(met)
}

// The exclusive or of all bytes. Those of the last eight that were added before are shifted out.
pub fn xor_of(bytes: &[u8]) -> u8
    ensures { result ≡ total (length bytes.now) (λ a. get_or bytes.now a 0) }
{
    let n = bytes.len();
    if n < 8 {
        return folded(few(bytes));
    }
    let turns = (n - 1) / 8;
    let mut z: u64 = 0;
    for k in 0..turns {
        z ^= eight_at(bytes, 8 * k);
    }
    let last = eight_at(bytes, n - 8) >> (8 * (8 * turns + 8 - n));
    folded(z ^ last)
}

// Whether each of the eight bytes of a number is below 64.
fn eight_low(met: u64) -> bool
    ensures { Tells (LowEight met) result }
{
    (met & HIGH) == 0
}

// The exclusive or of the eight bytes of a number.
pub fn folded(z: u64) -> u8
    ensures { result ≡ total 8 (byte z) }
{
    let y = z ^ (z >> 32);
    let x = y ^ (y >> 16);
    let w = x ^ (x >> 8);
    (w % 256) as u8
}

// Eight bytes from an address on, as one number.
fn eight_at(bytes: &[u8], i: usize) -> u64
    requires { i + 8 ≤ length bytes.now }
    ensures { HoldsBytes (eight_from bytes.now i) result }
{
    eight(
        bytes[i],
        bytes[i + 1],
        bytes[i + 2],
        bytes[i + 3],
        bytes[i + 4],
        bytes[i + 5],
        bytes[i + 6],
        bytes[i + 7],
    )
}

// The first eight bytes as one number, with 0 for those past the end. Beside `eight_at` for speed: that one has no test for the end.
fn few(bytes: &[u8]) -> u64
    ensures { HoldsBytes (eight_from bytes.now 0) result }
{
    eight(
        byte_at(bytes, 0),
        byte_at(bytes, 1),
        byte_at(bytes, 2),
        byte_at(bytes, 3),
        byte_at(bytes, 4),
        byte_at(bytes, 5),
        byte_at(bytes, 6),
        byte_at(bytes, 7),
    )
}

// The byte at an address, 0 past the end.
pub fn byte_at(bytes: &[u8], a: usize) -> u8
    ensures { result ≡ get_or bytes.now a 0 }
{
    bytes.get(a).copied().unwrap_or(0)
}

// Eight bytes as one number, the first lowest: the compiler makes one load of it. Eight arguments, since callers read them at indexes of their own.
pub fn eight(a: u8, b: u8, c: u8, d: u8, e: u8, f: u8, g: u8, h: u8) -> u64
    ensures { HoldsBytes (a ∷ b ∷ c ∷ d ∷ e ∷ f ∷ g ∷ h ∷ []) result }
{
    u64::from_le_bytes([a, b, c, d, e, f, g, h])
}
