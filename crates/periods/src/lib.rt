// A zone's period in a sound store: the one that holds a day.
#![tactic(auto)]

ghost use Rattle.std.specs.Prelude.{◌≡◌, ◌+◌, ◌*◌, ◌≤◌, length};
ghost use Rattle.iff.specs.Tables.{row_width, row_at, rows_in};
ghost use Rattle.iff.specs.declared.GroupFile.TheVariants.{Timezone};
ghost use Rattle.iff.specs.declared.File.TheVariants.{Groups};
ghost use Rattle.iff_desk.specs.Store.{holds, period_of};
ghost use Rattle.keys.specs.Blocks.{rows_between};
ghost use Rattle.store.specs.Found.{Stored, RowFor};
ghost use Rattle.periods.specs.Held.{first_held};

// A period, row `i` of TIMEZONE, holds a day.
fn holds_at(t: &[u64], i: usize, day: u64) -> bool
    requires { i * row_width (Groups Timezone) + row_width (Groups Timezone) ≤ length t.now }
    ensures { result ≡ holds day (row_at (row_width (Groups Timezone)) t.now i) }
{
    let first = tables::word_at(t, store::ZONE_WIDTH, i, iff::words::PERIOD_FIRST);
    let last = tables::word_at(t, store::ZONE_WIDTH, i, iff::words::PERIOD_LAST);
    let Some(from) = calendar::day_of(first) else {
        return false;
    };
    let Some(to) = calendar::day_of(last) else {
        return false;
    };
    if day < from {
        return false;
    }
    day <= to
}

// The period among some rows of TIMEZONE.
fn period_in(t: &[u64], from: usize, to: usize, day: u64) -> Option<usize>
    requires { to * row_width (Groups Timezone) ≤ length t.now }
    ensures { RowFor (row_width (Groups Timezone)) t.now (first_held day (rows_between (row_width (Groups Timezone)) t.now from to)) result }
{
    for i in from..to {
        if holds_at(t, i, day) {
            return Some(i);
        }
    }
    None
}

// The period of a zone that holds a day, by the day's number.
pub fn find_period(t: &[u64], used: usize, places: &[u32], zone: u64, day: u64) -> Option<usize>
    requires { Stored (Groups Timezone) used t.now }
    ensures { RowFor (row_width (Groups Timezone)) t.now (period_of (rows_in (Groups Timezone) t.now) zone day) result }
{
    let part = store::find_group(
        iff::File::Groups(iff::GroupFile::Timezone),
        t,
        used,
        places,
        zone,
    );
    if part.from == part.to {
        return None;
    }
    period_in(t, part.from + 1, part.to, day)
}
