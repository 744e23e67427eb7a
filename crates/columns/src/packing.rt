// The table of slices of shares that fit a board: docs/SPEC.md, "The slices". Its definition is `table_of` of crate slices, specs/Table.antt.
// The code stands here, for it is not free of `requires` yet: `table` asks for shares that fit a board and for a column that holds their slices
// (specs/Packing.antt), which the planning call knows of the split's. With a check of both, and a refusal, it would be a public call of crate slices.
//
// Each kind is packed in three passes over the jobs: the even movers, the mover that is not even, and those that are on this kind only.
// A pass knows a job's ticks on its own kind and on the other: the same code serves both kinds, with the two columns exchanged.
//
// The kind, the window, the spot and the lent column are passed one by one, and each function asks for what it needs of them. A struct that held them
// would be no plainer: each function would have to promise that the column is still the same one. What is cast in `slice_of` fits, as is asked for.
ghost use Rattle.std.specs.Prelude.{◌≡◌, [], ◌∷◌, ◌+◌, ◌-◌, ◌≤◌, ◌<◌, length};
ghost use Rattle.model.specs.Board.{on};
ghost use Rattle.model.specs.Columns.{shares_in};
ghost use Rattle.model.specs.Limits.{jobs_most, slices_most, window_most};
ghost use Rattle.model.specs.Movers.{is_mover};
ghost use Rattle.model.specs.Packed.{pack_of};
ghost use Rattle.model.specs.Split.{share};
ghost use Rattle.model.specs.declared.Kind.TheVariants.{First};
ghost use Rattle.slices.specs.Table.{slice_of, pieces_of};
ghost use Rattle.columns.specs.Packing.{class_of, share_on, shares_on, filling_of, begun, placed, filled, passed, Sized, Asks, Stands, Rowed, TableAsks, Tabled};

use model::{Kind, Slice};

// The jobs that one pass over a kind places. With a closure in its place `pack` and `put_job` would each have a clause more, of which jobs it picks.
#[derive(Clone, Copy)]
enum Class {
    Even,
    Other,
    Alone,
}

// Where the next slice goes: its row, its core, and its place there.
#[derive(Clone, Copy)]
struct Spot {
    count: usize,
    core: u32,
    at: u32,
}

// Whether a job moves between the kinds.
fn is_mover(mine: u32, other: u32) -> bool
    ensures { result ≡ is_mover (share mine other) }
{
    mine > 0 && other > 0
}

// Whether a pass places a job with `mine` ticks on its kind and `other` on the other.
fn is_in(class: Class, w: u32, mine: u32, other: u32) -> bool
    requires { mine + other ≤ w }
    ensures { result ≡ class_of class First w (share mine other) }
{
    match class {
        Class::Even => is_mover(mine, other) && mine + other == w,
        Class::Other => is_mover(mine, other) && mine + other != w,
        Class::Alone => mine > 0 && !is_mover(mine, other),
    }
}

// The first tick of a slice at a place of a core, which is counted from the window's start on the first kind, and from its end on the second.
fn start_of(kind: Kind, w: u32, at: u32, length: u32) -> u32
    requires { at + length ≤ w }
    ensures { (result ≡ on kind at (w - (at + length))) × (result + length ≤ w) }
{
    match kind {
        Kind::First => at,
        Kind::Second => w - (at + length),
    }
}

// A job's slice at a place of a core, as one number: crate model, specs/Packed.antt.
fn slice_of(kind: Kind, w: u32, job: usize, core: u32, at: u32, length: u32) -> u64
    requires { (w ≤ window_most) × (job < jobs_most) × (at + length ≤ w) × (core < 256) }
    ensures { result ≡ pack_of (slice_of kind w job core at length) }
{
    u64::from(Slice {
        job: job as u8,
        kind,
        core: core as u8,
        start: start_of(kind, w, at, length) as u16,
        length: length as u16,
    })
}

// The slices of a job's run of ticks from a place on, and the place behind it. A run that ends exactly on the edge of a core is not cut.
#[tactic(auto, using(crate::proofs::packing::Filling::runs))]
fn put_run(kind: Kind, w: u32, job: usize, ticks: u32, p: Spot, slices: &mut [u64]) -> Spot
    requires { (job < jobs_most) × (ticks ≤ w) × Asks w slices.old p (placed kind w (filling_of w slices.old p) (record { job = job; ticks = ticks })) }
    ensures { Stands w (placed kind w (filling_of w slices.old p) (record { job = job; ticks = ticks })) slices.new result }
{
    let here = w - p.at;
    if ticks > here {
        let rest = ticks - here;
        slices[p.count] = slice_of(kind, w, job, p.core, p.at, here);
        slices[p.count + 1] = slice_of(kind, w, job, p.core + 1, 0, rest);
        return Spot {
            count: p.count + 2,
            core: p.core + 1,
            at: rest,
        };
    }
    slices[p.count] = slice_of(kind, w, job, p.core, p.at, ticks);
    if ticks == here {
        return Spot {
            count: p.count + 1,
            core: p.core + 1,
            at: 0,
        };
    }
    Spot {
        count: p.count + 1,
        core: p.core,
        at: p.at + ticks,
    }
}

// One job of a pass: its slices where the pass places it, and nothing otherwise.
fn put_job(
    class: Class,
    kind: Kind,
    w: u32,
    job: usize,
    mine: u16,
    other: u16,
    p: Spot,
    slices: &mut [u64],
) -> Spot
    requires { (job < jobs_most) × (mine + other ≤ w) × Asks w slices.old p (passed class kind w (filling_of w slices.old p) job (share_on kind mine other ∷ [])) }
    ensures { Stands w (passed class kind w (filling_of w slices.old p) job (share_on kind mine other ∷ [])) slices.new result }
{
    let ticks = u32::from(mine);
    if is_in(class, w, ticks, u32::from(other)) {
        return put_run(kind, w, job, ticks, p, slices);
    }
    p
}

// One pass over the jobs: the slices of those of a class stand behind the rows so far.
fn pack(
    class: Class,
    kind: Kind,
    w: u32,
    mine: &[u16],
    other: &[u16],
    start: Spot,
    slices: &mut [u64],
) -> Spot
    requires sized { Sized kind w mine.now other.now }
    requires asks { Asks w slices.old start (passed class kind w (filling_of w slices.old start) 0 (shares_on kind mine.now other.now)) }
    ensures { Stands w (passed class kind w (filling_of w slices.old start) 0 (shares_on kind mine.now other.now)) slices.new result }
{
    let mut p = start;
    for (job, (here, there)) in mine.iter().zip(other).enumerate() {
        p = put_job(class, kind, w, job, *here, *there, p, slices);
    }
    p
}

// The three passes over a kind, from its first position: the rows that there are then.
fn pack_kind(
    kind: Kind,
    w: u32,
    mine: &[u16],
    other: &[u16],
    count: usize,
    slices: &mut [u64],
) -> usize
    requires sized { Sized kind w mine.now other.now }
    requires asks { Asks w slices.old (begun count) (filled kind w (filling_of w slices.old (begun count)) (pieces_of kind w (shares_on kind mine.now other.now))) }
    ensures { Rowed (filled kind w (filling_of w slices.old (begun count)) (pieces_of kind w (shares_on kind mine.now other.now))) slices.new result }
{
    let start = Spot {
        count,
        core: 0,
        at: 0,
    };
    let evens = pack(Class::Even, kind, w, mine, other, start, slices);
    let movers = pack(Class::Other, kind, w, mine, other, evens, slices);
    let all = pack(Class::Alone, kind, w, mine, other, movers, slices);
    all.count
}

// The whole table: all slices of the first kind, then those of the second.
pub(crate) fn table(w: u32, first: &[u16], second: &[u16], slices: &mut [u64]) -> usize
    requires table_asks { TableAsks w (shares_in (length first.now) first.now second.now) }
    requires lengths { (length second.now ≡ length first.now) × (slices_most ≤ length slices.old) }
    ensures { Tabled w (shares_in (length first.now) first.now second.now) slices.old slices.new result }
{
    let count = pack_kind(Kind::First, w, first, second, 0, slices);
    pack_kind(Kind::Second, w, second, first, count, slices)
}
