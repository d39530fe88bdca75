// How clear scans are, in the library's form: one scan by its brightnesses, and the counts of a spool of them.
ghost use Rattle.std.specs.Prelude.{◌≡◌};
ghost use Rattle.clarity.specs.Promises as Clearly;
ghost use Rattle.film.specs.Numbers.{scan_numbers, scan_given, clarities_numbers};

use clarity::{Clarity, Counts, Scan};
use refusal::Refusal;

// The kinds of an answer that is no refusal. Numbers: film.h has them as FILM_RATIO and FILM_NO_SPREAD.
const RATIO: u8 = 0;

const NO_SPREAD: u8 = 1;

// The answer of a scan, its kind and its ratio, 0.0 where there is none; and the scan record, the means of the dark and of the bright cells.
#[repr(C)]
#[derive(Clone, Copy)]
pub struct FilmScan {
    pub answer: u8,
    pub kind: u8,
    pub ratio: f64,
    pub dark: f64,
    pub bright: f64,
}

// The answer of a spool, and how many of its scans have a ratio, have no spread and are refused.
#[repr(C)]
#[derive(Clone, Copy)]
pub struct FilmClarities {
    pub answer: u8,
    pub ratios: u8,
    pub unspread: u8,
    pub refusals: u8,
}

// The kind of a clarity, and its ratio, 0.0 where it has none.
fn kind_told(given: Clarity) -> (u8, f64)
    ensures { (result.0 ≡ Clearly.kind_of given) × (result.1 ≡ Clearly.ratio_of given) }
{
    match given {
        Clarity::Ratio(ratio) => (RATIO, ratio),
        Clarity::NoSpread => (NO_SPREAD, 0.0),
    }
}

// A scan's record and answer in the library's form.
fn scan_told(given: Result<Scan, Refusal>) -> FilmScan
    ensures numbers { scan_numbers result ≡ Clearly.clarity_numbers given }
    ensures doubles { scan_given result ≡ Clearly.given_of given }
{
    match given {
        Ok(scan) => {
            let (kind, ratio) = kind_told(scan.clarity);
            FilmScan {
                answer: 0,
                kind,
                ratio,
                dark: scan.means.dark,
                bright: scan.means.bright,
            }
        }
        Err(why) => FilmScan {
            answer: refusal::number(why),
            kind: 0,
            ratio: 0.0,
            dark: 0.0,
            bright: 0.0,
        },
    }
}

// How clear a scan is.
pub fn film_scan_clarity(cells: &[u8], threshold: u8) -> FilmScan
    ensures { Clearly.Clarifies cells.now threshold (scan_numbers result) (scan_given result) }
{
    scan_told(clarity::scan_clarity(cells, threshold))
}

// A spool's answer in the library's form.
fn counts_told(given: Result<Counts, Refusal>) -> FilmClarities
    ensures { clarities_numbers result ≡ Clearly.count_numbers given }
{
    match given {
        Ok(counts) => FilmClarities {
            answer: 0,
            ratios: counts.ratios,
            unspread: counts.unspread,
            refusals: counts.refusals,
        },
        Err(why) => FilmClarities {
            answer: refusal::number(why),
            ratios: 0,
            unspread: 0,
            refusals: 0,
        },
    }
}

// Counts what the scans of a spool answer.
pub fn film_spool_clarity(cells: &[u8], threshold: u8) -> FilmClarities
    ensures { Clearly.CountsSpool cells.now threshold (clarities_numbers result) }
{
    counts_told(clarity::spool_clarity(cells, threshold))
}
