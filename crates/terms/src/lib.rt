// What a character adds to ten power sums, packed: looked up in a written table.
#![tactic(auto)]

ghost use Rattle.std.specs.Prelude.{◌≡◌, ◌<◌, ◌≤◌};
ghost use Rattle.lanes.specs.Lanes.{pack};
ghost use Rattle.terms.specs.Terms.{term};

mod table;

// What a character with n characters after it adds, for n below 21; past that 0. Of the character the low six bits count.
pub fn at(n: usize, c: u8) -> u64
    ensures inside { n < 21 → result ≡ pack 10 (term n c) }
    ensures past { 21 ≤ n → result ≡ 0 }
{
    if n > 20 {
        return 0;
    }
    table::TERMS[n][usize::from(c % 64)]
}
