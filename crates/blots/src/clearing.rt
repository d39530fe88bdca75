// Clearing the sums of a blot's place, and the way back: with a place's factor at each of its characters, a pattern of errors has nothing at that place.
ghost use Rattle.std.specs.Prelude.{◌≡◌, ◌<◌, get_or};
ghost use Rattle.field.specs.Field.{sum, product, α, power};
ghost use Rattle.mender.specs.Mender.{Word};
ghost use Rattle.field.specs.Inside.{inverse};
ghost use Rattle.sums.specs.Held.{eleven};
ghost use Rattle.blots.specs.Inside.{Holds, place_of, Cleared, Restored, share_of, value_of};

use super::LINE;
use lanes::NINE_LANES;
use sums::Sums;

// The place of an address.
pub fn place(address: usize) -> u8
    requires { address < 63 }
    ensures { result ≡ place_of address }
{
    places::power_of((62 - address) as u8)
}

// The sums cleared of a place: each is the next one and the place times itself. There is one less, and 0 stands for it.
pub fn cleared(sums: Sums, place: u8) -> Sums
    ensures { Cleared (eleven sums) place (eleven result) }
{
    let next = sums.first / 64 % NINE_LANES + u64::from(sums.last % 64) * NINE_LANES;
    Sums {
        first: next ^ lanes::scale(sums.first, place),
        last: 0,
    }
}

// The errors that are cleared so, S_-5 of which is known: at every address but the blot's the factor is divided out again, and the blot has what is
// left of S_-5. No address has a character that is not 0 but those of the set.
pub fn restored(cleared: [u8; 63], set: u64, blot: usize, first: u8) -> [u8; 63]
    requires blot_bound { (blot < 63) × (get_or cleared blot 0 ≡ 0) × (first < 64) }
    requires word { Word cleared }
    requires holds { Holds set cleared }
    ensures { Restored cleared blot first result }
{
    let mut w = cleared;
    let mut left = first;
    let mut a = planes::first_from(set, 0);
    // A while: it goes from one set bit to the next, and the library has no iterator that gives these.
    while a < LINE {
        if w[a] != 0 {
            let v = divided(w[a], a, blot);
            w[a] = v;
            left = left ^ share(v, a);
        }
        let next = planes::first_from(set, a + 1);
        a = next;
    }
    w[blot] = value(left, blot);
    w
}

// A character without the factor that its place and that of the blot make: they differ, so this is not 0.
fn divided(v: u8, address: usize, blot: usize) -> u8
    requires address_bound { (address < 63) × (blot < 63) × (address ≡ blot → ⊥) }
    requires v_bound { (v < 64) × (v ≡ 0 → ⊥) }
    ensures { result ≡ product v (inverse (sum (place_of address) (place_of blot))) }
{
    let inverse = field::inverse(place(address) ^ place(blot));
    times_power(inverse, places::log_of(v))
}

// What a character has of S_-5.
fn share(v: u8, address: usize) -> u8
    requires { (v < 64) × (address < 63) }
    ensures { result ≡ share_of v address }
{
    times_power(v, (58 * (62 - address) % 63) as u8)
}

// The character that has so much of it.
fn value(share: u8, address: usize) -> u8
    requires { (share < 64) × (address < 63) }
    ensures { result ≡ value_of share address }
{
    times_power(share, (5 * (62 - address) % 63) as u8)
}

// A character times a power of α, by logarithms: 0 has none.
fn times_power(v: u8, l: u8) -> u8
    requires { (v < 64) × (l < 63) }
    ensures { result ≡ product v (power α l) }
{
    if v == 0 {
        return 0;
    }
    places::power_of((places::log_of(v) + l) % 63)
}
