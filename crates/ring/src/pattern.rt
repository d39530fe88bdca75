// One pattern of errors for all starts: what the marks of each start add to it.
ghost use Rattle.std.specs.Prelude.{◌≡◌, ◌+◌};
ghost use Rattle.ring.specs.Inside.{gain, AllGains, Twice};

// The addresses of the three marks, which are 32, 8 and 1.
const OF_32: usize = 52;

const OF_8: usize = 55;

const OF_1: usize = 62;

// What the marks of each start add to the count of the errors, and 3. The addresses count on from a forward start, and back from a backward one.
pub fn all_gains(errors: &[u8; 63]) -> [u8; 126]
    ensures { AllGains errors.now result }
{
    let round = twice(errors);
    let mut gains = [0u8; 126];
    for turn in 0..63 {
        gains[turn] = three_gains(round[turn + OF_32], round[turn + OF_8], round[turn + OF_1]);
        let back = turn + 63;
        gains[back] = three_gains(round[back - OF_32], round[back - OF_8], round[back - OF_1]);
    }
    gains
}

// Errors twice round the ring.
fn twice(errors: &[u8; 63]) -> [u8; 126]
    ensures { Twice errors.now result }
{
    let mut round = [0u8; 126];
    // no copy_from_slice: it is a call, and slower
    for (place, error) in errors.iter().enumerate() {
        round[place] = *error;
        round[place + 63] = *error;
    }
    round
}

// What the three marks add where these errors are, and 3.
fn three_gains(first: u8, second: u8, third: u8) -> u8
    ensures { result ≡ gain first 32 + gain second 8 + gain third 1 }
{
    one_gain(first, 32) + one_gain(second, 8) + one_gain(third, 1)
}

// What a mark adds to the count where this error is, and 1.
fn one_gain(error: u8, mark: u8) -> u8
    ensures { result ≡ gain error mark }
{
    if error == mark {
        return 0;
    }
    if error == 0 {
        return 2;
    }
    1
}
