// Files of rows are sound: every row after the first line's is one that a line of its file may leave.
#![tactic(auto)]

ghost use Rattle.std.specs.Prelude.{◌≡◌, ◌+◌, ◌-◌, ◌*◌, ◌≤◌, length};
ghost use Rattle.iff.specs.Tables.{row_at, row_width};
ghost use Rattle.iff.specs.declared.File.TheVariants.{Rows};
ghost use Rattle.iff_rules.specs.Rows.{Context};
ghost use Rattle.iff_desk.specs.Sound.{sound_plain_row, sound_plain};
ghost use Rattle.keys.specs.Blocks.{rows_between};
ghost use Rattle.references.specs.Agree.{StationKeys, StationKeysAmong};

use iff::{File, Form, RowFile, tags, words};
use references::StationCounts;

// One row, after `count` rows of its file.
fn is_row_sound(
    file: RowFile,
    count: usize,
    row: &[u64],
    form: Form,
    countries: &[u64],
    zones: &[u64],
    counts: StationCounts,
    places: &[u32],
) -> bool
    requires { length row.now ≡ row_width (Rows file) }
    ensures { (c : Context) → c.form ≡ form → StationKeysAmong c counts countries.now zones.now
        → result ≡ sound_plain_row c file count row.now }
{
    let tag = row[words::TAG];
    if tag != tags::LETTERLESS {
        return false;
    }
    let record = shapes::record_of(File::Rows(file), tag);
    if !shapes::is_shaped(record, form, row) {
        return false;
    }
    if !meanings::row_means(file, count, row) {
        return false;
    }
    row_references::met_by_row(file, row, countries, zones, counts, places)
}

// Row `i` of a table, where the row of the first line is row 0.
fn is_sound_at(
    file: RowFile,
    t: &[u64],
    w: usize,
    i: usize,
    form: Form,
    countries: &[u64],
    zones: &[u64],
    counts: StationCounts,
    places: &[u32],
) -> bool
    requires { (w ≡ row_width (Rows file)) × (1 ≤ i) × (i * w + w ≤ length t.now) }
    ensures { (c : Context) → c.form ≡ form → StationKeysAmong c counts countries.now zones.now
        → result ≡ sound_plain_row c file (i - 1) (row_at w t.now i) }
{
    let from = i * w;
    let to = from + w;
    is_row_sound(
        file,
        i - 1,
        &t[from..to],
        form,
        countries,
        zones,
        counts,
        places,
    )
}

// The rows behind that of the first line, up to row `used`. `places` are a hint where rows of keys are, and may hold anything.
pub fn are_rows_sound(
    file: RowFile,
    t: &[u64],
    used: usize,
    form: Form,
    countries: &[u64],
    zones: &[u64],
    places: &[u32],
) -> bool
    requires { used * row_width (Rows file) ≤ length t.now }
    ensures { (c : Context) → c.form ≡ form → StationKeys c countries.now zones.now
        → result ≡ sound_plain c file (rows_between (row_width (Rows file)) t.now 1 used) }
{
    let w = tables::row_width(File::Rows(file));
    let counts = references::count_for_stations(countries, zones);
    (1..used).all(|i| is_sound_at(file, t, w, i, form, countries, zones, counts, places))
}
