// Open trays in the library: the four operations on a tray that the caller lends, as its 4,738 bytes.
ghost use Rattle.std.specs.Prelude.{[], ◌∷◌};
ghost use Rattle.open_tray.specs.Promises as OpenTray;
ghost use Rattle.film.specs.Numbers.{count_numbers};

use super::answer;
use open_tray::TRAY;

// The answer where the count is asked for, and the count.
#[repr(C)]
#[derive(Clone, Copy)]
pub struct FilmCount {
    pub answer: u8,
    pub count: u8,
}

// Adds a line.
pub fn film_tray_add(tray: &mut [u8; TRAY], line: &[u8]) -> u8
    ensures { OpenTray.Adds tray.old line.now (result ∷ []) tray.new }
{
    answer(open_tray::add_line(tray, line))
}

// Replaces a character.
pub fn film_tray_replace(tray: &mut [u8; TRAY], line: u8, address: u8, character: u8) -> u8
    ensures { OpenTray.Replaces tray.old line address character (result ∷ []) tray.new }
{
    answer(open_tray::replace_character(tray, line, address, character))
}

// Drops the last line.
pub fn film_tray_drop(tray: &mut [u8; TRAY]) -> u8
    ensures { OpenTray.Drops tray.old (result ∷ []) tray.new }
{
    answer(open_tray::drop_line(tray))
}

// Asks the count.
pub fn film_tray_count(tray: &[u8; TRAY]) -> FilmCount
    ensures { OpenTray.Asks tray.now (count_numbers result) }
{
    match open_tray::ask_count(tray) {
        Ok(count) => FilmCount { answer: 0, count },
        Err(why) => FilmCount {
            answer: refusal::number(why),
            count: 0,
        },
    }
}
