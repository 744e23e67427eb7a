// Where the jobs start: docs/SPEC.md, "Where the split starts". What the jobs have at home is put into columns, and added up.
ghost use Rattle.std.specs.Prelude.{◌≡◌, ◌∷◌, [], length};
ghost use Rattle.rows.specs.Lists.{All};
ghost use Rattle.model.specs.Columns.{job_at, jobs_in};
ghost use Rattle.model.specs.Limits.{window_most};
ghost use Rattle.model.specs.declared.Kind.TheVariants.{First};
ghost use Rattle.legal.specs.Lawful.{LegalJob};
ghost use Rattle.split.specs.Columns.{OfRows, end_of, GoneHome};
ghost use Rattle.split.specs.Home.{at_home};

use crate::{Ends, Sums};

// Where a job is at home, seen from the first kind. A cost is 0 where the kind is not allowed, as in the columns that `split` takes.
#[tactic(auto, unfolding(crate::specs::Home::at_home, model::specs::Columns::job_at))]
fn at_home(first: u32, second: u32) -> Ends
    ensures { result ≡ end_of (at_home First (job_at first second)) }
{
    if second == 0 || (first != 0 && first <= second) {
        Ends {
            keep: first,
            give: 0,
        }
    } else {
        Ends {
            keep: 0,
            give: second,
        }
    }
}

// All jobs go home: their ticks are put into `s1` and `s2`, and added up, on the first kind (here) and on the second (there).
// What is cast fits two bytes, since a job has at most a window's ticks at home.
#[tactic(auto, using(crate::proofs::home::GoingHome::keep_fits, crate::proofs::home::GoingHome::give_fits))]
pub(crate) fn go_home(first: &[u32], second: &[u32], s1: &mut [u16], s2: &mut [u16]) -> Sums
    requires rows { OfRows (length first.now) (second.now ∷ s1.old ∷ s2.old ∷ []) }
    requires all { All (LegalJob window_most) (jobs_in (length first.now) first.now second.now) }
    ensures { GoneHome first.now second.now s1.new s2.new result }
{
    let mut here = 0u64;
    let mut there = 0u64;
    // By index, and no `zip` of `iter_mut`, of whose elements nothing is known after the loop: tried, the proof did not close.
    for (i, cost) in first.iter().enumerate() {
        let to = at_home(*cost, second[i]);
        s1[i] = to.keep as u16;
        s2[i] = to.give as u16;
        here += u64::from(to.keep);
        there += u64::from(to.give);
    }
    Sums { here, there }
}
