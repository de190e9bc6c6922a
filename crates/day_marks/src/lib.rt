// A vector's words: no mark stands beyond the days.
#![tactic(auto)]

ghost use Rattle.std.specs.Prelude.{◌≡◌, ◌-◌, ◌<◌, length, drop};
ghost use Rattle.iff.specs.Values.{vector_right, vector_width};
ghost use Rattle.day_marks.specs.Marks.{marks_fit};

// A word of marks has none beyond the days that are left.
fn fits_days(word: u64, days: usize) -> bool
    ensures { result ≡ marks_fit word days }
{
    if 64 <= days {
        return true;
    }
    word >> days == 0
}

// The days that are left after a word of marks.
fn days_behind(days: usize) -> usize
    ensures { result ≡ days - 64 }
{
    days.saturating_sub(64)
}

// The words behind the tag are a vector's over so many days.
pub fn are_marks_right(row: &[u64], days: usize) -> bool
    requires { vector_width < length row.now }
    ensures { result ≡ vector_right vector_width days (drop 1 row.now) }
{
    let mut left = days;
    for word in &row[1..=iff::limits::MARK_WORDS] {
        if !fits_days(*word, left) {
            return false;
        }
        left = days_behind(left);
    }
    true
}
