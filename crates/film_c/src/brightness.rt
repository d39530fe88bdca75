// How clear scans are, for C: one scan by its brightnesses, and the counts of a spool of them.
ghost use Rattle.clarity.specs.Promises as Clearly;
ghost use Rattle.film.specs.Numbers.{scan_numbers, scan_given, clarities_numbers};

use film::brightness::{FilmClarities, FilmScan};

// How clear a scan is.
#[unsafe(no_mangle)]
pub extern "C" fn film_scan_clarity(cells: &[u8], threshold: u8) -> FilmScan
    ensures { Clearly.Clarifies cells.now threshold (scan_numbers result) (scan_given result) }
{
    film::brightness::film_scan_clarity(cells, threshold)
}

// Counts what the scans of a spool answer.
#[unsafe(no_mangle)]
pub extern "C" fn film_spool_clarity(cells: &[u8], threshold: u8) -> FilmClarities
    ensures { Clearly.CountsSpool cells.now threshold (clarities_numbers result) }
{
    film::brightness::film_spool_clarity(cells, threshold)
}
