// Open trays for C: the four operations on a tray that the caller lends, as its 4,738 bytes.
ghost use Rattle.std.specs.Prelude.{[], ◌∷◌};
ghost use Rattle.open_tray.specs.Promises as OpenTray;
ghost use Rattle.film.specs.Numbers.{count_numbers};

use film::trays::FilmCount;
use open_tray::TRAY;

// Adds a line.
#[unsafe(no_mangle)]
pub extern "C" fn film_tray_add(tray: &mut [u8; TRAY], line: &[u8]) -> u8
    ensures { OpenTray.Adds tray.old line.now (result ∷ []) tray.new }
{
    film::trays::film_tray_add(tray, line)
}

// Replaces a character.
#[unsafe(no_mangle)]
pub extern "C" fn film_tray_replace(
    tray: &mut [u8; TRAY],
    line: u8,
    address: u8,
    character: u8,
) -> u8
    ensures { OpenTray.Replaces tray.old line address character (result ∷ []) tray.new }
{
    film::trays::film_tray_replace(tray, line, address, character)
}

// Drops the last line.
#[unsafe(no_mangle)]
pub extern "C" fn film_tray_drop(tray: &mut [u8; TRAY]) -> u8
    ensures { OpenTray.Drops tray.old (result ∷ []) tray.new }
{
    film::trays::film_tray_drop(tray)
}

// Asks the count.
#[unsafe(no_mangle)]
pub extern "C" fn film_tray_count(tray: &[u8; TRAY]) -> FilmCount
    ensures { OpenTray.Asks tray.now (count_numbers result) }
{
    film::trays::film_tray_count(tray)
}
