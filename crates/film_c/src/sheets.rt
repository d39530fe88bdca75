// Sheets for C: encoding one, and reading one in rounds.
ghost use Rattle.std.specs.Prelude.{[], ◌∷◌};
ghost use Rattle.sheet_encoder.specs.Promises as Encoder;
ghost use Rattle.sheet_reader.specs.Promises as Reader;
ghost use Rattle.film.specs.Numbers.{sheet_numbers};

use film::sheets::FilmSheet;

// Encodes a sheet.
#[unsafe(no_mangle)]
pub extern "C" fn film_encode_sheet(texts: &[u8], numbers: &[u16], out: &mut [u8]) -> u8
    ensures { Encoder.EncodesSheet texts.now numbers.now out.old (result ∷ []) out.new }
{
    film::sheets::film_encode_sheet(texts, numbers, out)
}

// Reads a sheet in rounds.
#[unsafe(no_mangle)]
pub extern "C" fn film_read_sheet(sheet: &[u8], out: &mut [u8]) -> FilmSheet
    ensures { Reader.ReadsSheet sheet.now out.old (sheet_numbers result) out.new }
{
    film::sheets::film_read_sheet(sheet, out)
}
