// The standard input and output of our programs, over std's read and write. A read that failed is told from the end of the input, and a write that
// moved a part or failed from one that moved all. No contract can say which bytes were read or written. What is proved: each function is safe and
// ends, a count lies within its buffer, no error says the end (`call_of`), and no piece of an `Output` is an error. What the loops make of that
// tests/plan.sh tries.
#![tactic(auto)]

ghost use Rattle.std.specs.Prelude.{◌≡◌, nat_abs, Some, ◌≤◌, IfSome, IsOk, length};
ghost use Rattle.std.specs.Fmt.{signed_decimal};
ghost use Rattle.std.specs.Io.{ReadsAtMost};
ghost use Rattle.streams.specs.Call.{Said};

use model::TEXT_MOST;
use std::fmt;
use std::io::{ErrorKind, Read, Result, Stderr, Stdin, Stdout, Write};

// One byte more than a text may have, so that a longer one is seen to be longer, whatever follows.
pub const INPUT_MOST: usize = TEXT_MOST + 1;

// How many interrupted calls a stream bears in all. Our programs handle no signal, so hardly one is ever interrupted; a proved loop has to end.
const INTERRUPTIONS_MOST: usize = 1000;

// Reads standard input until it ends or buf is full, and answers with how many bytes came. Where it answers with an error, what came may be a part.
pub fn read_input(mut input: Stdin, buf: &mut [u8]) -> Result<usize>
    ensures { ReadsAtMost result buf.new }
{
    let mut done = 0;
    let mut spare = INTERRUPTIONS_MOST;
    // A `for` is no plainer: no number says before how many calls there are to be.
    while done < buf.len() {
        match call_of(input.read(&mut buf[done..]), spare)? {
            Some(0) => return Ok(done),
            Some(n) => done += n,
            None => spare -= 1,
        }
    }
    Ok(done)
}

// How many bytes of standard input stand in the buffer: all of them, or as many as it holds. Or nothing, and the complaint on standard error, where
// the input cannot be read. A count, as std's `read` gives one, and no slice: so the promise can say that it lies within the buffer.
pub fn whole_input(rt: &HostRuntime, buf: &mut [u8], complaint: &[u8]) -> Option<usize>
    ensures { IfSome result (λ n. n ≤ length buf.new) }
{
    let read = read_input(rt.stdin(), buf);
    if read.is_err() {
        complain(rt.stderr(), complaint);
    }
    read.ok()
}

// Writes all the bytes to standard output. Where it answers with an error, some of them may have been written.
pub fn write_output(mut output: Stdout, bytes: &[u8]) -> Result<()> {
    write_to(&mut output, bytes)
}

// Writes a line, its line feed included, to standard error. Where that fails too, there is nobody to tell.
pub fn complain(mut errors: Stderr, line: &[u8]) {
    let _ = write_to(&mut errors, line);
}

// Writes all the bytes, or stops at the first call that fails or takes nothing.
fn write_to<W: Write>(to: &mut W, bytes: &[u8]) -> Result<()> {
    let mut rest = bytes;
    let mut spare = INTERRUPTIONS_MOST;
    // A `for` is no plainer here either.
    while !rest.is_empty() {
        match call_of(to.write(rest), spare)? {
            Some(0) => return Err(ErrorKind::WriteZero.into()),
            Some(n) => rest = &rest[n..],
            None => spare -= 1,
        }
    }
    Ok(())
}

// What a call of read or write moved, which is nothing at the end; or `None` where it was interrupted and is to be made again. An interruption is one
// only while the stream has spare ones left.
fn call_of(got: Result<usize>, spare: usize) -> Result<Option<usize>>
    ensures { Said got spare result }
{
    match got {
        Ok(n) => Ok(Some(n)),
        Err(e) if spare > 0 && e.kind() == ErrorKind::Interrupted => Ok(None),
        Err(e) => Err(e),
    }
}

// The size of a number, without its sign, for who writes it in digits.
pub fn size_of(n: i64) -> u64
    ensures { result ≡ nat_abs n }
{
    n.unsigned_abs()
}

// A signed number in digits. Its sign is a piece of its own, where std's form of a number is one piece.
#[derive(Clone, Copy)]
pub struct Signed(pub i64);

impl fmt::Display for Signed {
    ghost output = { λ n. Some (signed_decimal n.0) };

    fn fmt<W: fmt::Write>(&self, f: &mut fmt::Formatter<W>) -> fmt::Result {
        if self.0 < 0 {
            f.write_str("-")?;
        }
        write!(f, "{}", size_of(self.0))
    }
}

// Standard output, as what `write!` writes to piece by piece. Where a piece cannot be written, the complaint goes to standard error, once for each
// piece, and the next piece is tried: no write of it is an error. An empty complaint is none.
#[derive(Clone, Copy)]
pub struct Output {
    output: Stdout,
    errors: Stderr,
    pub complaint: &'static [u8],
}

impl Output {
    pub fn new(rt: &HostRuntime, complaint: &'static [u8]) -> Output
        ensures { result.complaint.now ≡ complaint.now }
    {
        Output {
            output: rt.stdout(),
            errors: rt.stderr(),
            complaint,
        }
    }

    // Writes a piece, or complains.
    fn put(&self, piece: &[u8]) {
        if write_output(self.output, piece).is_err() {
            complain(self.errors, self.complaint);
        }
    }
}

impl fmt::Write for Output {
    fn write_str(&mut self, piece: &str) -> fmt::Result
        ensures never_fails { IsOk result }
        ensures same { self.new.complaint.now ≡ self.old.complaint.now }
    {
        self.put(piece.as_bytes());
        Ok(())
    }
}
