// Lists, columns and rows: what every crate above says of them, and the laws that its proofs cite. It knows nothing of boards and jobs.
// The definitions are specs/Lists.antt and specs/Upto.antt; proofs/Lib.antt is the guide to the laws.
#![tactic(auto)]

ghost use Rattle.std.specs.Prelude.{◌≡◌, min};

// `n`, or all where it is more than there are.
pub fn at_most(n: usize, most: usize) -> usize
    ensures { result ≡ min n most }
{
    n.min(most)
}
