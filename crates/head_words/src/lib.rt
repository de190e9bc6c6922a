// Words of the rows of first lines: whether keys rise, put there, and the form of a delivery's lines, by DELIVERY's.
#![tactic(auto)]

ghost use Rattle.std.specs.Prelude.{◌≡◌, ◌<◌, length, set};
ghost use Rattle.iff_rules.specs.Rows.{flag, form_of};

use iff::{Edition, Form};

// Whether the keys of a file rise, once they are all read: in the row of its first line.
pub fn set_rises(t: &mut [u64], rises: bool)
    requires { 5 < length t.old }
    ensures { t.new ≡ set t.old 5 (flag rises) }
{
    t[iff::words::RISES] = first_lines::flag_of(rises);
}

// The form of a delivery's lines, by DELIVERY's row: its days of validity, and the edition.
pub fn form_of(delivery: &[u64]) -> Form
    ensures { result ≡ form_of delivery.now }
{
    let first = tables::word_or_zero(delivery, iff::words::FIRST_DAY);
    let last = tables::word_or_zero(delivery, iff::words::LAST_DAY);
    Form {
        days: calendar::span(first, last) as usize,
        edition: Edition::Iff424,
    }
}
