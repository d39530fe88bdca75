// Sheets in the library: encoding one, and reading one in rounds.
ghost use Rattle.std.specs.Prelude.{[], ◌∷◌};
ghost use Rattle.sheet_encoder.specs.Promises as Encoder;
ghost use Rattle.sheet_reader.specs.Promises as Reader;
ghost use Rattle.film.specs.Numbers.{sheet_numbers};

use super::answer;
use refusal::Refusal;
use sheet_reader::SheetReading;

// The answer of reading a sheet, and how many rounds were run.
#[repr(C)]
#[derive(Clone, Copy)]
pub struct FilmSheet {
    pub answer: u8,
    pub rounds: u8,
}

// Encodes a sheet.
pub fn film_encode_sheet(texts: &[u8], numbers: &[u16], out: &mut [u8]) -> u8
    ensures { Encoder.EncodesSheet texts.now numbers.now out.old (result ∷ []) out.new }
{
    answer(sheet_encoder::encode_sheet(texts, numbers, out))
}

// Reads a sheet in rounds.
pub fn film_read_sheet(sheet: &[u8], out: &mut [u8]) -> FilmSheet
    ensures { Reader.ReadsSheet sheet.now out.old (sheet_numbers result) out.new }
{
    match sheet_reader::read_sheet(sheet, out) {
        Ok(SheetReading::Proper { rounds }) => FilmSheet { answer: 0, rounds },
        Ok(SheetReading::Improper { rounds }) => FilmSheet {
            answer: refusal::number(Refusal::ImproperSheet),
            rounds: rounds, // the one refusal that keeps its other field
        },
        Err(why) => FilmSheet {
            answer: refusal::number(why),
            rounds: 0,
        },
    }
}
