// The reader of the lines: a board and the rows of its table, or the refusal of the first bad line. docs/SPEC.md, "The tick handler", and refusals
// 8, 9 and 10. Hexadecimal is read by crate reader: a line comes from it as numbers, cut where a job's fields begin.
ghost use Rattle.std.specs.Prelude.{◌&&◌, ◌≡◌, ◌/◌, ◌≤◌, eqb, length, drop};
ghost use Rattle.model.specs.Limits.{text_most};
ghost use Rattle.text.specs.Hex.{lines_of};
ghost use Rattle.kernel.specs.Handed.{has_job, in_place, counts_from, handed_of};
ghost use Rattle.kernel.specs.Reading.{says_entry, said_entry, says_row, slice_by, slice_says, counts, SaysCut, SaysRow, table_from, Hands};

use crate::ROWS_MOST;
use model::{Board, Kind, Refusal, Slice, TEXT_MOST};
use reader::Cut;

// The jobs and the slices that the counts' line announces.
#[derive(Clone, Copy)]
struct Announced {
    jobs: u8,
    slices: u8,
}

// What a line says by its form.
#[derive(Clone, Copy)]
enum Said {
    OfBoard(Board),
    OfCounts(Announced),
    OfShare(u8),
    OfSlice(Slice),
}

// A board, and how many rows its table has. It is no `reader::Head`, which counts jobs.
#[derive(Clone, Copy)]
pub(crate) struct Table {
    pub(crate) board: Board,
    pub(crate) rows: usize,
}

// Whether a line is of a record, by its first byte, which is a number of the text's, and how many bytes it has.
fn is_a(cut: Cut, size: usize, tag: u32, of: usize) -> bool
    ensures { result ≡ (eqb (cut.head / 256) tag && eqb size of) }
{
    cut.head / 256 == tag && size == of
}

// The slice of a record, by the numbers of its line. The kind, the core and the start are in `a`, from its high byte down.
// It takes a kind beside the cut, so that it is no `From`. What is cast, here and below, is a remainder that fits.
fn slice_by(kind: Kind, cut: Cut) -> Slice
    ensures { result ≡ slice_by kind cut }
{
    Slice {
        job: (cut.head % 256) as u8,
        kind,
        core: (cut.a / 65536 % 256) as u8,
        start: (cut.a % 65536) as u16,
        length: (cut.b % 65536) as u16,
    }
}

// What the record of a slice says: nothing where its kind is neither 1 nor 2, the numbers of the text.
#[tactic(auto, unfolding(crate::specs::Reading::slice_says))]
fn slice_says(cut: Cut) -> Option<Said>
    ensures { said_entry result ≡ slice_says cut }
{
    match cut.a / 16777216 {
        1 => Some(Said::OfSlice(slice_by(Kind::First, cut))),
        2 => Some(Said::OfSlice(slice_by(Kind::Second, cut))),
        _ => None,
    }
}

// What line i says by its form. A refusal names the line, so that `i` goes beside what the line says, here and below.
fn form_says(cut: Cut, i: u32) -> Result<Said, Refusal>
    ensures { SaysCut cut i result }
{
    let size = cut.size.ok_or(Refusal::NotHex(i))?;
    if is_a(cut, size, text::BOARD, text::BOARD_SIZE) {
        return Ok(Said::OfBoard(cut.board()));
    }
    if is_a(cut, size, u32::from(text::COUNTS), text::COUNTS_SIZE) {
        return Ok(Said::OfCounts(Announced {
            jobs: (cut.head % 256) as u8,
            slices: (cut.a % 256) as u8,
        }));
    }
    if is_a(cut, size, u32::from(text::SHARE), text::SHARE_SIZE) {
        return Ok(Said::OfShare((cut.head % 256) as u8));
    }
    if is_a(cut, size, u32::from(text::SLICE), text::SLICE_SIZE) {
        return slice_says(cut).ok_or(Refusal::Record(i));
    }
    Err(Refusal::Record(i))
}

// Whether the job that a line names, where it names one, is below a number.
fn has_job(jobs: u8, said: Said) -> bool
    ensures { result ≡ has_job jobs (says_entry said) }
{
    match said {
        Said::OfBoard(_) | Said::OfCounts(_) => true,
        Said::OfShare(job) => job < jobs,
        Said::OfSlice(slice) => slice.job < jobs,
    }
}

// What an entry gives the table at line i: the shares stand in order of their jobs, from line 3 on, and the slices behind them.
fn in_place(announced: Announced, said: Said, i: u32) -> Result<Option<Slice>, Refusal>
    ensures { says_row result ≡ in_place (counts announced) i (says_entry said) }
{
    let first_slice = u32::from(announced.jobs) + 3;
    let end = first_slice + u32::from(announced.slices);
    match said {
        Said::OfShare(job) if i == u32::from(job) + 3 => Ok(None),
        Said::OfSlice(slice) if first_slice <= i && i < end => Ok(Some(slice)),
        _ => Err(Refusal::Order(i)),
    }
}

// What line i gives, where the counts were read: its form decides first, then its job, then its place.
fn row_of(announced: Announced, cut: Cut, i: u32) -> Result<Option<Slice>, Refusal>
    ensures { SaysRow (counts announced) cut i result }
{
    let said = form_says(cut, i)?;
    if !has_job(announced.jobs, said) {
        return Err(Refusal::Record(i));
    }
    in_place(announced, said, i)
}

// The lines from `from` on, the third of the text being the first of them. The line after the last is refused where one is missing. A `while`, since a
// line's end, and so the next one's start, is known only once it is cut.
fn read_rows(
    lines: &[u8],
    from: usize,
    board: Board,
    announced: Announced,
    rows: &mut [u64; ROWS_MOST],
) -> Result<Table, Refusal>
    requires { length lines.now ≤ text_most }
    ensures { Hands (table_from board (counts announced) (lines_of (drop from lines.now))) result rows.new }
{
    let mut n: usize = 0;
    let mut i: u32 = 3;
    let mut at = from;
    while at < lines.len() {
        let cut = reader::cut_at(lines, at);
        if let Some(slice) = row_of(announced, cut, i)? {
            rows[n] = u64::from(slice);
            n += 1;
        }
        i += 1;
        at = cut.end + 1;
    }
    if i < u32::from(announced.jobs) + u32::from(announced.slices) + 3 {
        return Err(Refusal::Order(i));
    }
    Ok(Table { board, rows: n })
}

// The lines from `from` on, the second of the text being the first of them: it has to be the counts'.
fn read_counts(
    lines: &[u8],
    from: usize,
    board: Board,
    rows: &mut [u64; ROWS_MOST],
) -> Result<Table, Refusal>
    requires { length lines.now ≤ text_most }
    ensures { Hands (counts_from board (lines_of (drop from lines.now))) result rows.new }
{
    if lines.len() <= from {
        return Err(Refusal::Order(2));
    }
    let cut = reader::cut_at(lines, from);
    match form_says(cut, 2)? {
        Said::OfCounts(announced) => read_rows(lines, cut.end + 1, board, announced, rows),
        _ => Err(Refusal::Order(2)),
    }
}

// A text's board and the rows of its table, a number each at the front of the column. After a refusal the column may hold anything.
// It begins as `reader::read` does, and ends as `read_counts`: what they share is a test of a line each, and the records differ.
pub(crate) fn read_lines(lines: &[u8], rows: &mut [u64; ROWS_MOST]) -> Result<Table, Refusal>
    ensures { Hands (handed_of lines.now) result rows.new }
{
    if TEXT_MOST < lines.len() {
        // No line is to blame: refusal 8 names line 0 here.
        return Err(Refusal::NotHex(0));
    }
    if lines.is_empty() {
        return Err(Refusal::Order(1));
    }
    let cut = reader::cut_at(lines, 0);
    match form_says(cut, 1)? {
        Said::OfBoard(board) => read_counts(lines, cut.end + 1, board, rows),
        _ => Err(Refusal::Order(1)),
    }
}
