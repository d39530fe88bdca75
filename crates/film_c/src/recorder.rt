// The recorder's register for C: taking a character, and the checks.
ghost use Rattle.std.specs.Prelude.{[], ◌∷◌};
ghost use Rattle.encoder.specs.Promises as Encoder;
ghost use Rattle.film.specs.Numbers.{register_of, check_numbers};

use film::recorder::{FilmChecked, FilmRegister, FilmStepped};

// The register takes one more character.
#[unsafe(no_mangle)]
pub extern "C" fn film_step(register: FilmRegister, c: u8) -> FilmStepped
    ensures { Encoder.Steps (register_of register) c (result.answer ∷ []) (register_of result.register) }
{
    film::recorder::film_step(register, c)
}

// The checks of a register that has taken 52 characters.
#[unsafe(no_mangle)]
pub extern "C" fn film_checks(register: FilmRegister) -> FilmChecked
    ensures { Encoder.Checks (register_of register) (check_numbers result) }
{
    film::recorder::film_checks(register)
}
