// The reader of the text, whose records stand in crate text: bytes to a board and its jobs, or the refusal of the first bad line. docs/SPEC.md, "The
// text", and refusals 8, 9, 10 and 3. The costs go into columns that the caller lends, once the whole text is known to be a set, so that a refusal
// changes none. `cut_at` gives the numbers of any line, for a crate that reads other records: so hexadecimal is read in one place.
#![tactic(auto)]

ghost use Rattle.std.specs.Prelude.{not, ◌&&◌, ◌≡◌, ◌+◌, ◌-◌, ◌%◌, ◌≤◌, eqb, length, take, drop};
ghost use Rattle.model.specs.Limits.{jobs_most};
ghost use Rattle.model.specs.Refusal.{says, and_then};
ghost use Rattle.text.specs.Hex.{lines_of, nibble_of};
ghost use Rattle.reader.specs.Input.{job_in, as_job, short, Reads};
ghost use Rattle.reader.specs.Cut.{digits_in, hex_in, CutAt, board_by};
ghost use Rattle.reader.specs.Reader.{is_end, cut_says, set_from, GivesIn};

use model::{Board, FirstTicks, JOBS_MOST, Job, Kind, Refusal, SecondTicks, TEXT_MOST, cost};
use text::{BOARD, BOARD_SIZE, COST_DIGITS, HEAD_DIGITS, JOB, JOB_SIZE};

// What a line of an input says. It is public since the definitions of crate clampfern cite it; no other code does.
#[derive(Clone, Copy, PartialEq, Eq)]
pub enum Entry {
    OfBoard(Board),
    OfJob(Job),
}

// A board, and how many jobs it has.
#[derive(Clone, Copy, PartialEq, Eq)]
pub struct Head {
    pub board: Board,
    pub jobs: usize,
}

// A line by its numbers: how many bytes it spells, where it spells some; the numbers of its digits, cut as a job's are (2, 4 and 4 bytes); and where
// its digits end. A board, which is shorter, is put together from them again: so each digit is read once, whatever the line turns out to be.
#[derive(Clone, Copy, PartialEq, Eq)]
pub struct Cut {
    pub size: Option<usize>,
    pub head: u32,
    pub a: u32,
    pub b: u32,
    pub end: usize,
}

impl Cut {
    // The board of a board's line: crate kernel reads one too.
    pub fn board(self) -> Board
        ensures { result ≡ board_by self }
    {
        Board {
            window: self.head % 256 * 256 + self.a / 65536 % 256,
            first: self.a / 256 % 256,
            second: self.a % 256,
        }
    }
}

// The value of a hexadecimal digit.
#[tactic(auto, unfolding(text::specs::Hex::nibble_of))]
fn nibble(b: u8) -> Option<u32>
    ensures { result ≡ nibble_of b }
{
    char::from(b).to_digit(16)
}

// The number of the digits that a text begins with, `most` of them at most, and what stands behind them.
fn number(text: &[u8], most: usize) -> (u32, &[u8])
    requires { most ≤ 8 }
    ensures value { result.0 ≡ hex_in (take most (digits_in text.now)) }
    ensures rest { result.1.now ≡ drop (length (take most (digits_in text.now))) text.now }
{
    let mut value = 0;
    let mut digits = 0;
    for digit in text.iter().take(most).map_while(|b| nibble(*b)) {
        value = 16 * value + digit;
        digits += 1;
    }
    (value, &text[digits..])
}

// What stands behind all digits that a text begins with.
fn behind_digits(text: &[u8]) -> &[u8]
    ensures { result.now ≡ drop (length (digits_in text.now)) text.now }
{
    let digits = text.iter().take_while(|b| nibble(**b).is_some()).count();
    &text[digits..]
}

// A text from a place on.
fn behind(text: &[u8], from: usize) -> &[u8]
    ensures { result.now ≡ drop from text.now }
{
    text.get(from..).unwrap_or(&[])
}

// Whether the digits from `from` to `end` are a line, where `rest` is what stands behind them: some, an even number of them, and nothing else.
fn is_line(from: usize, end: usize, rest: &[u8]) -> bool
    requires { from ≤ end }
    ensures { result ≡ (is_end rest.now && (not (eqb end from) && eqb ((end - from) % 2) 0)) }
{
    matches!(rest, [] | [b'\n', ..]) && end != from && (end - from) % 2 == 0
}

// The line that starts at `from`, whatever its record. It is put where it is used and not called, since a call passes the numbers through memory,
// which costs a short text most.
#[inline(always)]
pub fn cut_at(text: &[u8], from: usize) -> Cut
    ensures { CutAt (drop from text.now) from result }
{
    let (head, rest) = number(behind(text, from), HEAD_DIGITS);
    let (a, rest) = number(rest, COST_DIGITS);
    let (b, rest) = number(rest, COST_DIGITS);
    let rest = behind_digits(rest);
    let end = from.max(text.len() - rest.len());
    Cut {
        size: is_line(from, end, rest).then_some((end - from) / 2),
        head,
        a,
        b,
        end,
    }
}

// A job by its allowed byte, whose numbers are the text's. The cost of a kind that is not allowed has to be 0.
// It is no `TryFrom`, since it takes three numbers.
#[tactic(auto, unfolding(crate::specs::Input::job_in))]
fn job_in(allowed: u32, c1: u32, c2: u32) -> Option<Job>
    ensures { result ≡ job_in allowed c1 c2 }
{
    match (allowed, c1, c2) {
        (0, _, _) => Some(Job::Both(FirstTicks(c1), SecondTicks(c2))),
        (1, _, 0) => Some(Job::OnlyFirst(FirstTicks(c1))),
        (2, 0, _) => Some(Job::OnlySecond(SecondTicks(c2))),
        _ => None,
    }
}

// What line i says, of which the cut is: its first byte, a number of the text's, and how many bytes it has tell what record it is.
// A refusal names the line, so that `i` goes beside the cut.
fn line_says(cut: Cut, i: u32) -> Result<Entry, Refusal>
    ensures { says result ≡ cut_says i cut }
{
    let size = cut.size.ok_or(Refusal::NotHex(i))?;
    match (cut.head / 256, size) {
        (JOB, JOB_SIZE) => {
            let job = job_in(cut.head % 256, cut.a, cut.b).ok_or(Refusal::Record(i))?;
            Ok(Entry::OfJob(job))
        }
        (BOARD, BOARD_SIZE) => Ok(Entry::OfBoard(cut.board())),
        _ => Err(Refusal::Record(i)),
    }
}

// The job of the line of job n, which is line n + 2 of the text. The number n is 64 at most: a conversion that may fail would only have a case more.
fn row_of(cut: Cut, n: usize) -> Result<Job, Refusal>
    requires { n ≤ jobs_most }
    ensures { says result ≡ and_then (cut_says (n + 2) cut) (as_job (n + 2) n) }
{
    let i = n as u32 + 2;
    match line_says(cut, i)? {
        Entry::OfBoard(_) => Err(Refusal::Order(i)),
        Entry::OfJob(_) if JOBS_MOST <= n => Err(Refusal::TooManyJobs),
        Entry::OfJob(job) => Ok(job),
    }
}

// Whether columns are too short for some set. Crate columns asks it of its three: one public function for both would stand for a line.
fn is_short(first: usize, second: usize) -> bool
    ensures { result ≡ short first second }
{
    first < JOBS_MOST || second < JOBS_MOST
}

// The lines from `from` on, one job each. The next line's place comes from the cut, so an iterator over the lines would be no plainer than the
// `while`. The costs are two columns of fixed memory, and no slice of pairs, here and in `read`: `Reads` says every row of both.
fn read_jobs(
    text: &[u8],
    from: usize,
    board: Board,
    first: &mut [u32],
    second: &mut [u32],
) -> Result<Head, Refusal>
    ensures { GivesIn (set_from board (lines_of (drop from text.now))) first.old second.old result first.new second.new }
{
    let mut costs1 = [0u32; JOBS_MOST];
    let mut costs2 = [0u32; JOBS_MOST];
    let mut n: usize = 0;
    let mut at = from;
    while at < text.len() {
        let cut = cut_at(text, at);
        let job = row_of(cut, n)?;
        costs1[n] = cost(Kind::First, job);
        costs2[n] = cost(Kind::Second, job);
        n += 1;
        at = cut.end + 1;
    }
    if is_short(first.len(), second.len()) {
        return Err(Refusal::TooShort);
    }
    first[..n].copy_from_slice(&costs1[..n]);
    second[..n].copy_from_slice(&costs2[..n]);
    Ok(Head { board, jobs: n })
}

// What a text says, with what the jobs cost on each kind at the front of two columns. A refusal changes none of them. Columns that are too short for
// some set are refused by 7, last of all.
pub fn read(text: &[u8], first: &mut [u32], second: &mut [u32]) -> Result<Head, Refusal>
    ensures { Reads text.now first.old second.old result first.new second.new }
{
    if TEXT_MOST < text.len() {
        // No line is to blame: refusal 8 names line 0 here.
        return Err(Refusal::NotHex(0));
    }
    if text.is_empty() {
        return Err(Refusal::Order(1));
    }
    let cut = cut_at(text, 0);
    match line_says(cut, 1)? {
        Entry::OfJob(_) => Err(Refusal::Order(1)),
        Entry::OfBoard(board) => read_jobs(text, cut.end + 1, board, first, second),
    }
}
