// The writers: the lines of a plan, or of a refusal, into a text that the caller lends.
// The length of the lines is known before any is written, so a text that is too short stays as it was.
// Counts and jobs are cast to bytes, where the check shows that no bit is lost: `u8::try_from` would answer an error that never comes.
ghost use Rattle.std.specs.Prelude.{◌≡◌, map, ◌+◌, ◌*◌, ◌≤◌, min, length};
ghost use Rattle.model.specs.Columns.{shares_in};
ghost use Rattle.model.specs.Limits.{jobs_most, slices_most};
ghost use Rattle.model.specs.Packed.{slices_in};
ghost use Rattle.model.specs.Split.{share};
ghost use Rattle.model.specs.declared.Refusal.TheVariants.{TooShort};
ghost use Rattle.text.specs.Hex.{line_of, text_of};
ghost use Rattle.text.specs.Records.{share_form, slice_form, line_size};
ghost use Rattle.text.specs.Output.{share_record, share_records, slice_record, plan_text, refused_text, Writes};

use super::records::{
    COUNTS, COUNTS_LINE, REFUSAL, REFUSAL_LINE, SHARE, SHARE_LINE, SLICE, SLICE_LINE, SLICE_SIZE,
};
use model::{JOBS_MOST, Refusal, SLICES_MOST, Slice};

// Writes a plan's lines: 10 with the counts, 11 for each of n jobs by their ticks on each kind, 12 for each of k slices. Above what a column has, n
// and k count as all. Ticks have 16 bits, as a line has for them: what a line cannot hold cannot be passed. Whole columns are passed, with n and k
// beside them, since it promises an answer for every n and k, and no caller has to show that a column is long enough.
#[tactic(auto, using(crate::proofs::PlanText::plan_long, crate::proofs::PlanText::plan_put))]
pub fn write_plan(
    first: &[u16; JOBS_MOST],
    second: &[u16; JOBS_MOST],
    n: usize,
    slices: &[u64; SLICES_MOST],
    k: usize,
    text: &mut [u8],
) -> Result<usize, Refusal>
    ensures { Writes TooShort text.old text.new (plan_text (shares_in (min n jobs_most) first.now second.now) (slices_in (min k slices_most) slices.now)) result }
{
    let shared = rows::at_most(n, JOBS_MOST);
    let sliced = rows::at_most(k, SLICES_MOST);
    let after_shares = COUNTS_LINE + SHARE_LINE * shared;
    let size = after_shares + SLICE_LINE * sliced;
    if text.len() < size {
        return Err(Refusal::TooShort);
    }
    put_line(
        &[COUNTS, shared as u8, sliced as u8],
        &mut text[..COUNTS_LINE],
    );
    put_shares(
        &first[..shared],
        &second[..shared],
        &mut text[COUNTS_LINE..after_shares],
    );
    put_slices(&slices[..sliced], &mut text[after_shares..size]);
    Ok(size)
}

// Writes a refusal's line: 1f with the number and the place, a byte each. A place may be greater elsewhere; who calls shows that it is not. It takes
// numbers and no `Refusal`, since it promises a line for every number and place, also for those that no refusal has.
#[tactic(auto, unfolding(crate::specs::Hex::text_of, crate::specs::Hex::digits_of))]
pub fn write_refusal(number: u8, place: u8, text: &mut [u8]) -> Result<usize, Refusal>
    ensures { Writes TooShort text.old text.new (refused_text number place) result }
{
    if text.len() < REFUSAL_LINE {
        return Err(Refusal::TooShort);
    }
    put_line(&[REFUSAL, number, place], &mut text[..REFUSAL_LINE]);
    Ok(REFUSAL_LINE)
}

// The lines of shares, one for each job. A line's place is counted from its row, since std's `chunks_exact_mut` says nothing of what a text ends as.
// This and the next stay two functions: they share no more than the loop, and one over closures is no plainer.
#[tactic(auto, unfolding(crate::specs::Hex::text_of, crate::specs::Output::share_records), using(crate::proofs::PlanText::shares_more, crate::proofs::PlanText::line_put))]
fn put_shares(first: &[u16], second: &[u16], text: &mut [u8])
    requires jobs { length first.now ≤ jobs_most }
    requires paired { length second.now ≡ length first.now }
    requires fits { length text.old ≡ line_size share_form * length first.now }
    ensures { text.new ≡ text_of (share_records 0 (shares_in (length first.now) first.now second.now)) }
{
    for (job, (first, second)) in first.iter().zip(second).enumerate() {
        let at = SHARE_LINE * job;
        put_share(job as u8, *first, *second, &mut text[at..at + SHARE_LINE]);
    }
}

// The lines of slices that are numbers.
#[tactic(auto, unfolding(crate::specs::Hex::text_of), using(crate::proofs::PlanText::slices_more, crate::proofs::PlanText::line_put))]
fn put_slices(slices: &[u64], text: &mut [u8])
    requires { length text.old ≡ line_size slice_form * length slices.now }
    ensures { text.new ≡ text_of (map slice_record (slices_in (length slices.now) slices.now)) }
{
    for (i, packed) in slices.iter().enumerate() {
        let at = SLICE_LINE * i;
        put_slice(Slice::from(*packed), &mut text[at..at + SLICE_LINE]);
    }
}

// The line of a job's share.
fn put_share(job: u8, first: u16, second: u16, line: &mut [u8])
    requires { length line.old ≡ line_size share_form }
    ensures { line.new ≡ line_of (share_record job (share first second)) }
{
    let [first_high, first_low] = first.to_be_bytes();
    let [second_high, second_low] = second.to_be_bytes();
    put_line(
        &[SHARE, job, first_high, first_low, second_high, second_low],
        line,
    );
}

// The line of a slice.
fn put_slice(slice: Slice, line: &mut [u8])
    requires { length line.old ≡ line_size slice_form }
    ensures { line.new ≡ line_of (slice_record slice) }
{
    put_line(&slice_record(slice), line);
}

// The bytes of a slice's record. They stand in a text as digits, and in a packed table as they are.
pub fn slice_record(slice: Slice) -> [u8; SLICE_SIZE]
    ensures { result ≡ slice_record slice }
{
    let [start_high, start_low] = slice.start.to_be_bytes();
    let [length_high, length_low] = slice.length.to_be_bytes();
    [
        SLICE,
        slice.job,
        u8::from(slice.kind),
        slice.core,
        start_high,
        start_low,
        length_high,
        length_low,
    ]
}

// A record's line: two digits for each byte, and a line feed. The part that is lent for the digits is as long as they are, so that they are written.
#[tactic(auto, using(crate::proofs::Digits::digits_encoded, crate::proofs::Digits::last_set))]
fn put_line(bytes: &[u8], line: &mut [u8])
    requires { length line.old ≡ 2 * length bytes.now + 1 }
    ensures { line.new ≡ line_of bytes.now }
{
    let size = 2 * bytes.len();
    hex::encode_to_slice(bytes, &mut line[..size]).unwrap();
    line[size] = b'\n';
}
