// Sheets, 63 lines of 63 characters: taken and written whole, marks taken off or put on, of a line and of all, a column taken out, and one written.
#![tactic(auto)]

ghost use Rattle.std.specs.Prelude.{◌≡◌};
ghost use Rattle.sheet.specs.Inside.{Taken, Put, MarksAdded, bare, plain_column, ColumnPut};

// The lines of a sheet, and its columns.
pub const SIDE: usize = 63;

// The characters of a sheet.
pub const SHEET: usize = 3969;

// A sheet by value; zeros for anything else.
pub fn taken(given: &[u8]) -> [u8; SHEET]
    ensures { Taken given.now result }
{
    let mut s = [0u8; SHEET];
    if given.len() != SHEET {
        return s;
    }
    s.copy_from_slice(given);
    s
}

// Writes a sheet over an output of its length, and over no other.
pub fn put(s: [u8; SHEET], output: &mut [u8])
    ensures { Put s output.old output.new }
{
    if output.len() != SHEET {
        return;
    }
    output.copy_from_slice(&s);
}

// Adds the marks to a line: off where they were on, and on where they were off. To anything else nothing is added.
pub fn add_marks(line: &mut [u8])
    ensures { MarksAdded line.old line.new }
{
    if line.len() != SIDE {
        return;
    }
    line[52] ^= 32;
    line[55] ^= 8;
    line[62] ^= 1;
}

// A sheet with the marks added to each line.
pub fn marks_added(mut s: [u8; SHEET]) -> [u8; SHEET]
    ensures { result ≡ bare s }
{
    // Not chunks_exact_mut: of a slice that it lent a proof knows the length alone.
    for i in 0..SIDE {
        let start = i * SIDE;
        let end = start + SIDE;
        add_marks(&mut s[start..end]);
    }
    s
}

// Column a as it stands, with 0 for what the sheet lacks of it.
pub fn column_of(s: &[u8], a: u8) -> [u8; SIDE]
    ensures { result ≡ plain_column a s.now }
{
    let mut column = [0u8; SIDE];
    for (i, c) in column.iter_mut().enumerate() {
        *c = eights::byte_at(s, i * SIDE + usize::from(a));
    }
    column
}

// Writes a column over column a of a sheet, and over nothing else.
pub fn put_column(column: [u8; SIDE], a: u8, s: &mut [u8])
    ensures { ColumnPut column a s.old s.new }
{
    if s.len() != SHEET {
        return;
    }
    if usize::from(a) >= SIDE {
        return;
    }
    for (i, c) in column.iter().enumerate() {
        s[i * SIDE + usize::from(a)] = *c;
    }
}
