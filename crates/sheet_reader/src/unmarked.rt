// A sheet as the rounds hold it: its marks off, and each of its 3,969 cells a character. The type stands apart from the clauses that name it,
// since what its invariant cites may not.
ghost use Rattle.sheet_reader.specs.Unmarked.{Held};

use sheet::SHEET;

#[derive(Clone, Copy, PartialEq, Eq)]
pub struct Unmarked {
    pub cells: [u8; SHEET],
    pub ghost held: { Held cells },
}
