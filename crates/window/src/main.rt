// The program `window`: of the lines of a plan on standard input, the board's line first, how often each job is named on each kind in one window, in
// decimal, how often none is, and where the position then is; or the refusal of the lines.
//
// It asks the tick handler by the lines alone, as the board's kernel does, for every core at every position. The position is moved on by the call that
// takes it lent, which has to do what the call by value does; where it does not, a last line says so. The promises of `handler` say that it always
// does; here they are run.
#![tactic(auto)]

use handler::Position;
use model::{CORES_MOST, Kind, Refusal, WINDOW_MOST};
use std::fmt;
use std::fmt::Write;
use streams::{INPUT_MOST, Output};

// The jobs that a byte can name.
const NUMBERS: usize = 256;

// The cores of a kind, and what was counted of them: how often each job was named, and how often none was.
#[derive(Clone, Copy)]
struct Counted {
    kind: Kind,
    cores: u32,
    jobs: [u32; NUMBERS],
    idle: u32,
}

// The job of a core at a tick, where it has one. The kernel takes a kind by its number.
fn named(lines: &[u8], tick: u32, kind: Kind, core: u32) -> Result<Option<u8>, Refusal> {
    kernel::tick(lines, tick, u32::from(u8::from(kind)), core)
}

// The ticks of the window: as many as there are for the first core. It is asked of lines that are not refused themselves, as all below.
fn window_of(lines: &[u8]) -> u32 {
    (0..WINDOW_MOST)
        .find(|tick| named(lines, *tick, Kind::First, 0).is_err())
        .unwrap_or(WINDOW_MOST)
}

impl Counted {
    // Of as many cores as there are at the first tick, nothing is counted yet.
    fn new(lines: &[u8], kind: Kind) -> Counted {
        let cores = (0..CORES_MOST)
            .find(|core| named(lines, 0, kind, *core).is_err())
            .unwrap_or(CORES_MOST);
        Counted {
            kind,
            cores,
            jobs: [0; NUMBERS],
            idle: 0,
        }
    }

    // Counts what the cores do at a tick: a count is at most 65,535 times 8, so it never wraps. A core that is there is not refused; a line would show
    // it.
    fn count(&mut self, out: &mut Output, lines: &[u8], tick: u32) -> fmt::Result {
        for core in 0..self.cores {
            match named(lines, tick, self.kind, core) {
                Ok(Some(job)) => {
                    let at = usize::from(job);
                    self.jobs[at] = self.jobs[at].wrapping_add(1);
                }
                Ok(None) => self.idle = self.idle.wrapping_add(1),
                Err(refusal) => writeln!(out, "refused {refusal}")?,
            }
        }
        Ok(())
    }
}

// A blank and a count of each kind, which end a line.
fn put_counts(out: &mut Output, first: u32, second: u32) -> fmt::Result {
    writeln!(out, " {first} {second}")
}

// The jobs that were named, by number.
fn put_jobs(out: &mut Output, first: &Counted, second: &Counted) -> fmt::Result {
    for (job, (first, second)) in first.jobs.iter().zip(&second.jobs).enumerate() {
        if *first > 0 || *second > 0 {
            write!(out, "job {job}")?;
            put_counts(out, *first, *second)?;
        }
    }
    Ok(())
}

// Whether both calls move a position alike. Where it is refused, it stays.
fn moves_alike(window: u32, tick: u32) -> bool {
    let mut position = Position { tick };
    let moved = handler::move_on(window, &mut position);
    let next = handler::moved_on(window, tick);
    moved == next.map(|_| ()) && position.tick == next.unwrap_or(tick)
}

// Whether they do where they refuse: at a position past the window, and for windows outside their limits.
fn refuse_alike(window: u32) -> bool {
    moves_alike(window, window)
        && moves_alike(window, 4294967295)
        && moves_alike(0, 0)
        && moves_alike(65536, 7)
}

// Goes through one window of lines that are not refused, from position 0.
fn walk(out: &mut Output, lines: &[u8], window: u32) -> fmt::Result {
    let mut first = Counted::new(lines, Kind::First);
    let mut second = Counted::new(lines, Kind::Second);
    let mut position = Position { tick: 0 };
    for _ in 0..window {
        first.count(out, lines, position.tick)?;
        second.count(out, lines, position.tick)?;
        // A refusal would leave the position, which the last lines show.
        let _ = handler::move_on(window, &mut position);
    }
    put_jobs(out, &first, &second)?;
    write!(out, "idle")?;
    put_counts(out, first.idle, second.idle)?;
    writeln!(out, "position {}", position.tick)?;
    if !refuse_alike(window) || !(0..window).all(|tick| moves_alike(window, tick)) {
        writeln!(out, "position wrong")?;
    }
    Ok(())
}

// Every board that is accepted has a first tick and a first core of the first kind, so what is refused there is the lines or their table.
fn show(out: &mut Output, lines: &[u8]) -> fmt::Result {
    match named(lines, 0, Kind::First, 0) {
        Err(refusal) => writeln!(out, "refused {refusal}"),
        Ok(_) => walk(out, lines, window_of(lines)),
    }
}

fn main(rt: HostRuntime) {
    let mut input = [0u8; INPUT_MOST];
    let mut out = Output::new(&rt, b"window: the answer cannot be written\n");
    if let Some(count) = streams::whole_input(
        &rt,
        &mut input,
        b"window: the input cannot be read\n",
    ) {
        // No write of the output is an error.
        let _ = show(&mut out, &input[..count]);
    }
}
