// The recorder's register in the library: taking a character, and the checks.
ghost use Rattle.std.specs.Prelude.{[], ◌∷◌};
ghost use Rattle.encoder.specs.Promises as Encoder;
ghost use Rattle.film.specs.Numbers.{register_of, check_numbers};

use super::answer;
use encoder::Register;

// The recorder's register: eleven characters, highest degree first, and how many were taken.
#[repr(C)]
#[derive(Clone, Copy)]
pub struct FilmRegister {
    pub held: [u8; 11],
    pub count: u8,
}

// The register after a step, and the answer.
#[repr(C)]
#[derive(Clone, Copy)]
pub struct FilmStepped {
    pub register: FilmRegister,
    pub answer: u8,
}

// The eleven checks, zeros in a refusal, and the answer.
#[repr(C)]
#[derive(Clone, Copy)]
pub struct FilmChecked {
    pub checks: [u8; 11],
    pub answer: u8,
}

// The register takes one more character.
pub fn film_step(register: FilmRegister, c: u8) -> FilmStepped
    ensures { Encoder.Steps (register_of register) c (result.answer ∷ []) (register_of result.register) }
{
    let held = register.held;
    let taking = Register {
        held,
        count: register.count,
    };
    let stepped = taking.step(c);
    let after = stepped.register;
    let left = after.held;
    FilmStepped {
        register: FilmRegister {
            held: left,
            count: after.count,
        },
        answer: answer(stepped.answer),
    }
}

// The checks of a register that has taken 52 characters.
pub fn film_checks(register: FilmRegister) -> FilmChecked
    ensures { Encoder.Checks (register_of register) (check_numbers result) }
{
    let held = register.held;
    let asked = Register {
        held,
        count: register.count,
    };
    match asked.checks() {
        Ok(checks) => FilmChecked { checks, answer: 0 },
        Err(why) => FilmChecked {
            checks: [0; 11],
            answer: refusal::number(why),
        },
    }
}
