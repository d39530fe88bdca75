// A tray kept open: up to 64 lines with their power sums, edited one step at a time, and a count of those whose sums are not all 0.
#![tactic(auto)]

ghost use Rattle.std.specs.Prelude.{◌≡◌, ◌++◌, ◌-◌, ◌≤◌, ◌<◌, length, drop};
ghost use Rattle.refusal.specs.Promise.{Tells};
ghost use Rattle.numbers.specs.Below.{AllBelow};
ghost use Rattle.open_tray.specs.Tray.{held, fresh_sums, wrong, with_shares, Fit, Sound};
ghost use Rattle.open_tray.specs.Promises.{edit_numbers, count_numbers, Added, Adds, Replaced, Replaces, Dropped, Drops, Asks};
ghost use Rattle.open_tray.specs.Inside.{replaced_in, FirstLog};

use refusal::Refusal;

// The characters of a line.
const LINE: usize = 63;

// The last of a line's addresses, and the highest character.
const LAST_ADDRESS: u8 = 62;

const HIGHEST: u8 = 63;

// The power sums of a line.
const SUMS: usize = 11;

// The exponent of the first of them, S_-5: -5 modulo 63. The powers of α return to 1 after 63.
const FIRST_EXPONENT: u16 = 58;

const PERIOD: u8 = 63;

// The room for a line: its characters, and then its sums.
const ROOM: usize = 74;

// The rooms of a tray.
const ROOMS: u8 = 64;

// After the rooms: how many lines are held, and the count.
const HELD: usize = 4736;

const COUNT: usize = 4737;

// The bytes of a tray.
pub const TRAY: usize = 4738;

// Adds a line as the last one, into the first free room.
pub fn add_line(tray: &mut [u8], line: &[u8]) -> Result<(), Refusal>
    ensures { Adds tray.old line.now (edit_numbers result) tray.new }
{
    if !fits(tray) {
        return Err(Refusal::TrayUnfit);
    }
    let Ok(line) = <&[u8; LINE]>::try_from(line) else {
        return Err(Refusal::InputLength);
    };
    if !eights::all_low(line) {
        return Err(Refusal::ValueOver);
    }
    if eights::byte_at(tray, HELD) >= ROOMS {
        return Err(Refusal::TrayUnfit);
    }
    put_line(tray, line);
    Ok(())
}

// Replaces one character of a line, and adds the share of the change to the sums held.
pub fn replace_character(
    tray: &mut [u8],
    line: u8,
    address: u8,
    character: u8,
) -> Result<(), Refusal>
    ensures { Replaces tray.old line address character (edit_numbers result) tray.new }
{
    if !fits(tray) {
        return Err(Refusal::TrayUnfit);
    }
    if line >= eights::byte_at(tray, HELD) {
        return Err(Refusal::LineNotHeld);
    }
    if address > LAST_ADDRESS {
        return Err(Refusal::AddressOver);
    }
    if character > HIGHEST {
        return Err(Refusal::ValueOver);
    }
    let i = usize::from(line);
    if !sound(tray, i) {
        return Err(Refusal::TrayUnfit);
    }
    put_character(tray, i, address, character);
    Ok(())
}

// Drops the last line. Its room keeps what it holds.
pub fn drop_line(tray: &mut [u8]) -> Result<(), Refusal>
    ensures { Drops tray.old (edit_numbers result) tray.new }
{
    if !fits(tray) {
        return Err(Refusal::TrayUnfit);
    }
    let held = eights::byte_at(tray, HELD);
    if held == 0 {
        return Err(Refusal::LineNotHeld);
    }
    let last = usize::from(held) - 1;
    if !sound(tray, last) {
        return Err(Refusal::TrayUnfit);
    }
    lose_line(tray, last);
    Ok(())
}

// The count.
pub fn ask_count(tray: &[u8]) -> Result<u8, Refusal>
    ensures { Asks tray.now (count_numbers result) }
{
    if !fits(tray) {
        return Err(Refusal::TrayUnfit);
    }
    Ok(eights::byte_at(tray, COUNT))
}

// Whether a tray claims no more than 64 lines, and no count above them. No type keeps that: a tray written by hand can lose it by an operation.
fn fits(tray: &[u8]) -> bool
    ensures { Tells (Fit tray.now) result }
{
    tray.len() == TRAY && tray[HELD] <= ROOMS && tray[COUNT] <= tray[HELD]
}

// Whether a line held has no character or sum over 63, and no sum that is not 0 at count 0.
fn sound(tray: &[u8], i: usize) -> bool
    requires fit { Fit tray.now }
    requires i_bound { i < held tray.now }
    ensures { Tells (Sound i tray.now) result }
{
    let start = i * ROOM;
    let room = &tray[start..start + ROOM];
    eights::all_low(room) && wrong_in(room) <= tray[COUNT]
}

// Puts a line and its sums into the first free room.
fn put_line(tray: &mut [u8], line: &[u8; LINE])
    requires fit { Fit tray.old }
    requires free { held tray.old < 64 }
    ensures { Added tray.old line.now tray.new }
{
    let held = tray[HELD];
    let count = tray[COUNT];
    let start = usize::from(held) * ROOM;
    let end = start + ROOM;
    let sums = sums_of(line);
    fill(&mut tray[start..end], line, sums);
    tray[HELD] = held + 1;
    tray[COUNT] = count + wrong_of(&sums);
}

// Puts a character into a line held, and the change into its sums and the count. The bounds are asked here and below, and no type has them: the public
// parameters are bytes, and two tests of `replace_character` give the bounds.
fn put_character(tray: &mut [u8], i: usize, address: u8, character: u8)
    requires fit { Fit tray.old }
    requires i_bound { (i < held tray.old) × Sound i tray.old }
    requires address_bound { (address ≤ 62) × (character ≤ 63) }
    ensures { Replaced tray.old i address character tray.new }
{
    let count = tray[COUNT];
    let start = i * ROOM;
    let end = start + ROOM;
    let before = wrong_in(&tray[start..end]);
    replace(&mut tray[start..end], address, character);
    let after = wrong_in(&tray[start..end]);
    tray[COUNT] = count - before + after;
}

// Loses the last line, i, from the lines held and from the count.
fn lose_line(tray: &mut [u8], i: usize)
    requires fit { Fit tray.old }
    requires tray_nonzero { (0 < held tray.old) × ((i ≡ held tray.old - 1) × Sound i tray.old) }
    ensures { Dropped tray.old tray.new }
{
    let count = tray[COUNT];
    let start = i * ROOM;
    let end = start + ROOM;
    let before = wrong_in(&tray[start..end]);
    tray[HELD] -= 1;
    tray[COUNT] = count - before;
}

// 1 where the line in a room has a sum that is not 0, and else 0. A room is asked to be 74 long: it is a part of the caller's bytes, which film.h lays out.
fn wrong_in(room: &[u8]) -> u8
    requires { length room.now ≡ 74 }
    ensures { result ≡ wrong (drop 63 room.now) }
{
    wrong_of(&room[LINE..])
}

// 1 where one of these sums is not 0, and else 0.
fn wrong_of(sums: &[u8]) -> u8
    ensures { result ≡ wrong sums.now }
{
    u8::from(sums.iter().any(|sum| *sum != 0))
}

// The eleven power sums of a line, marks off.
fn sums_of(line: &[u8; LINE]) -> [u8; SUMS]
    ensures { result ≡ fresh_sums line.now }
{
    sums::unpacked(line::error_sums(line))
}

// Fills a room with a line and its sums.
fn fill(room: &mut [u8], line: &[u8; LINE], sums: [u8; SUMS])
    requires { length room.old ≡ 74 }
    ensures { room.new ≡ line.now ++ sums }
{
    room[..LINE].copy_from_slice(line);
    room[LINE..].copy_from_slice(&sums);
}

// Replaces the character at an address of a room, and adds the share of the change to each of its sums.
fn replace(room: &mut [u8], address: u8, character: u8)
    requires room_len { (length room.old ≡ 74) × AllBelow 64 room.old }
    requires address_bound { (address ≤ 62) × (character ≤ 63) }
    ensures { room.new ≡ replaced_in room.old address character }
{
    let at = usize::from(address);
    let change = room[at] ^ character;
    room[at] = character;
    add_shares(&mut room[LINE..], address, change);
}

// Adds to each of eleven sums the share of a change at an address. Its logarithm goes up by the same from sum to sum.
fn add_shares(sums: &mut [u8], address: u8, change: u8)
    requires sums_len { length sums.old ≡ 11 }
    requires address_bound { (address ≤ 62) × (change < 64) }
    ensures { sums.new ≡ with_shares address change sums.old }
{
    if change == 0 {
        return;
    }
    let after = LAST_ADDRESS - address;
    let mut log = first_log(change, after);
    for sum in sums {
        *sum ^= places::power_of(log);
        log = (log + after) % PERIOD;
    }
}

// The logarithm of the first share of a change with so many characters after it.
fn first_log(change: u8, after: u8) -> u8
    requires change_bound { (change < 64) × (change ≡ 0 → ⊥) }
    requires after_bound { after ≤ 62 }
    ensures { FirstLog change after result }
{
    ((u16::from(places::log_of(change)) + FIRST_EXPONENT * u16::from(after))
        % u16::from(PERIOD)) as u8
}
