// Marks for the legs of a block. Each leg has one, which is set once at the most, so the work grows with the length of a block and not with its records
// times its legs.
#![tactic(auto)]

ghost use Rattle.std.specs.Prelude.{◌≡◌, ◌&&◌, ◌-◌, ◌≤◌, ◌<◌, leb, ltb, length, get_or};
ghost use Rattle.iff_rules.specs.Legs.{one};
ghost use Rattle.leg_marks.specs.Once.{once_to};
ghost use Rattle.leg_marks.specs.Tally.{Tally};

// As many as `iff::limits::MOST_STOPS`: n stops have one leg less, and there is no leg 0.
pub const MARKS: usize = 998;

// Marks the legs from `first` up to `last`, unless one is marked already.
pub fn mark_legs(marks: &mut [u8], first: u64, last: u64) -> bool
    requires { (first ≤ last) × (last ≤ length marks.old) }
    ensures { Tally first last (λ k. one (leb first k && ltb k last)) marks.old marks.new result }
{
    for leg in first as usize..last as usize {
        if marks[leg] != 0 {
            return false;
        }
        marks[leg] = 1;
    }
    true
}

// Leg k goes from stop k to k + 1, so n stops have one leg less.
pub fn legs_of(n: usize) -> usize
    ensures { result ≡ n - 1 }
{
    n.saturating_sub(1)
}

// Legs 1 to `legs` are marked.
pub fn all_marked(marks: &[u8], legs: usize) -> bool
    requires { legs < length marks.now }
    ensures { result ≡ once_to legs (λ k. get_or marks.now k 0) }
{
    marks[1..=legs].iter().all(|mark| *mark == 1)
}
