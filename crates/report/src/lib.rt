// The report of a tray file: a header, one line an item, and a closing line.
#![tactic(auto)]

ghost use Rattle.std.specs.Prelude.{◌≡◌, [], ◌∷◌, ◌≤◌, length, MatchOption, IfOk, IfErr};
ghost use Rattle.refusal.specs.Number.{number_of};
ghost use Rattle.text.specs.Text.{line};
ghost use Rattle.text.specs.Writing.{Puts};
ghost use Rattle.report.specs.Items.{letter, LineFields, RingFields, BlockFields, Fields};
ghost use Rattle.report.specs.Tray.{item, short, first};
ghost use Rattle.report.specs.Promises.{report_numbers, Reports};
ghost use Rattle.report.specs.Inside.{PutItem, PutWhole, PutCut, PutTray};

use refusal::Refusal;

// Room for any report: a header of 21 bytes, three times 255 lines of at most 18, and a closing line of at most 16.
pub const ROOM: usize = 13807;

// The longest file that is all used: the radius, and after their counts 255 lines, 255 rings and 255 blocks, each a count and 255 rows.
pub const LONGEST: usize = 97414;

// The kinds of items. A match where a step hangs on the kind, and no closure: the promises speak of the kind (`Items.Fields`, `Tray.first`).
#[derive(Clone, Copy)]
enum Kind {
    Line,
    Ring,
    Block,
}

// The kinds of the sections, in their order.
const KINDS: [Kind; 3] = [Kind::Line, Kind::Ring, Kind::Block];

// The bytes of an item: 63, or the rows of a block, which its row count counts in one byte.
#[derive(Clone, Copy)]
struct Item<'a> {
    bytes: &'a [u8],
    ghost small: { length bytes.now ≤ 255 },
}

// Where a whole section ends: its count, the place after its lines, and what is left of the file.
#[derive(Clone, Copy)]
struct Ended<'a> {
    count: u16,
    next: usize,
    rest: &'a [u8],
}

// Writes the report of a tray file, and answers its length.
pub fn report(file: &[u8], out: &mut [u8]) -> Result<usize, Refusal>
    ensures { Reports file.now out.old (report_numbers result) out.new }
{
    if out.len() < ROOM {
        return Err(Refusal::OutputLength);
    }
    let head = put_words(out, 0, b"kind item answer a b");
    Ok(put_tray(file, out, head))
}

// Writes the lines of the three sections and the closing line.
fn put_tray(file: &[u8], out: &mut [u8], to: usize) -> usize
    ensures { PutTray file.now out.old out.new to result }
{
    let Some((radius, sections)) = file.split_first() else {
        return put_words(out, to, b"cut");
    };
    let mut counts = [0u16; 3];
    let mut rest = sections;
    let mut next = to;
    for (j, kind) in KINDS.iter().enumerate() {
        let ended = match put_section(*kind, *radius, rest, out, next) {
            Ok(ended) => ended,
            Err(at) => return put_words(out, at, b"cut"),
        };
        counts[j] = ended.count;
        next = ended.next;
        rest = ended.rest;
    }
    if !rest.is_empty() {
        return put_words(out, next, b"more");
    }
    text::put_line(out, next, b"end", &counts)
}

// Writes a line of words alone.
fn put_words(out: &mut [u8], at: usize, words: &[u8]) -> usize
    ensures { Puts out.old out.new at result (line words.now []) }
{
    let none = [0u16; 0];
    text::put_line(out, at, words, &none)
}

// Writes the lines of a section; where the file stops early, it answers the place after those of the whole items.
fn put_section<'a>(
    kind: Kind,
    radius: u8,
    file: &'a [u8],
    out: &mut [u8],
    to: usize,
) -> Result<Ended<'a>, usize>
    ensures whole { IfOk result (λ e. PutWhole kind radius file.now out.old out.new to e.count e.next e.rest.now) }
    ensures cut { IfErr result (λ at. PutCut kind radius file.now out.old out.new to at) }
{
    let Some((count, items)) = file.split_first() else {
        return Err(to);
    };
    let count = u16::from(*count);
    let mut rest = items;
    let mut next = to;
    for i in 0..count {
        let Some((item, after)) = first_item(kind, rest) else {
            return Err(next);
        };
        next = put_item(kind, radius, i, item, out, next);
        rest = after;
    }
    Ok(Ended { count, next, rest })
}

// The first item, if it is whole, and what is left after it: a line or ring is 63 bytes, a block has its row count before it.
fn first_item(kind: Kind, file: &[u8]) -> Option<(Item<'_>, &[u8])>
    ensures { MatchOption result (first kind file.now ≡ short) (λ p. first kind file.now ≡ item p.0.bytes.now p.1.now) }
{
    let (bytes, rest) = match kind {
        Kind::Line | Kind::Ring => file.split_at_checked(63)?,
        Kind::Block => {
            let (rows, after) = file.split_first()?;
            after.split_at_checked(usize::from(*rows))?
        }
    };
    Some((Item { bytes }, rest))
}

// Writes the line of an item.
fn put_item(kind: Kind, radius: u8, i: u16, item: Item, out: &mut [u8], at: usize) -> usize
    ensures { PutItem kind radius i item.entry.bytes.now out.old out.new at result }
{
    let fields = fields_of(kind, radius, item);
    let numbers = [i, fields[0], fields[1], fields[2]];
    text::put_line(out, at, &letter_of(kind), &numbers)
}

// The letter of a kind. A match and no From: this is the one table of letters.
fn letter_of(kind: Kind) -> [u8; 1]
    ensures { result ≡ letter kind ∷ [] }
{
    match kind {
        Kind::Line => [b'L'],
        Kind::Ring => [b'R'],
        Kind::Block => [b'B'],
    }
}

// The fields of an item: the answer, and two numbers.
fn fields_of(kind: Kind, radius: u8, item: Item) -> [u16; 3]
    ensures { Fields kind radius item.entry.bytes.now result }
{
    match kind {
        Kind::Line => line_fields(radius, item.bytes),
        Kind::Ring => ring_fields(radius, item.bytes),
        Kind::Block => block_fields(item),
    }
}

// Of a line the distance and the number.
fn line_fields(radius: u8, word: &[u8]) -> [u16; 3]
    ensures { LineFields radius word.now result }
{
    let mut room = [0u8; 63];
    match line::read_line(word, radius, None, &mut room) {
        Ok(read) => [0, u16::from(read.distance), read.number],
        Err(why) => refused(why),
    }
}

// Of a ring the start and the distance.
fn ring_fields(radius: u8, word: &[u8]) -> [u16; 3]
    ensures { RingFields radius word.now result }
{
    let mut room = [0u8; 63];
    match ring::read_ring(word, radius, &mut room) {
        Ok(read) => [0, u16::from(read.start), u16::from(read.distance)],
        Err(why) => refused(why),
    }
}

// Of a block the distance and the row count.
fn block_fields(rows: Item) -> [u16; 3]
    ensures { BlockFields rows.entry.bytes.now result }
{
    let mut room = most_rows();
    let n = rows.bytes.len();
    match block::read_block(rows.bytes, &mut room[..n]) {
        Ok(distance) => [0, u16::from(distance), n as u16], // a usize has no From into a u16
        Err(why) => refused(why),
    }
}

// Room for the rows of the longest block.
fn most_rows() -> [u8; 255]
    ensures { length result ≡ 255 }
{
    [0u8; 255]
}

// The fields of a refusal.
fn refused(why: Refusal) -> [u16; 3]
    ensures { result ≡ number_of why ∷ 0 ∷ 0 ∷ [] }
{
    [u16::from(refusal::number(why)), 0, 0]
}
