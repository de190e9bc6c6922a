// What the questions look up in a sound store: the group that a key opens, a station's row, a word of the first line. A table comes with the
// number of its rows in use and with places, a hint where its keys stand, on which nothing rests; or with an exact index of its keys.
#![tactic(auto)]

ghost use Rattle.std.specs.Prelude.{◌≡◌, ℕ, ◌<◌, length, List, Some};
ghost use Rattle.iff.specs.Files.{PerFile};
ghost use Rattle.iff.specs.Tables.{Row, row_width, rows_in, word};
ghost use Rattle.iff.specs.declared.RowFile.TheVariants.{Stations};
ghost use Rattle.iff.specs.declared.File.TheVariants.{Delivery, Rows, Timetbls};
ghost use Rattle.iff_rules.specs.Rows.{first_of};
ghost use Rattle.iff_desk.specs.Store.{station_row};
ghost use Rattle.keys.specs.Lookup.{FoundRow};
ghost use Rattle.slots.specs.Slots.{Index};
ghost use Rattle.store.specs.Found.{Stored, HasGroups, GroupAt, BlocksTold, row_or, Stands, RowFor};

// How many words a row of TIMEZONE has, and one of STATIONS.
pub const ZONE_WIDTH: usize = 6;

pub const STATION_WIDTH: usize = 6;

// Rows of a table, from `from` on and before `to`.
#[derive(Clone, Copy)]
pub struct Part {
    pub from: usize,
    pub to: usize,
}

// Word `k` of a row that was looked for; 0 where there is none.
pub fn word_of(t: &[u64], w: usize, row: Option<usize>, k: usize) -> u64
    requires { (k < w) × Stands w t.now row }
    ensures { result ≡ word (row_or w t.now row) k }
{
    match row {
        Some(i) => tables::word_at(t, w, i, k),
        None => 0,
    }
}

// The group of a row that was looked up by its key, whatever found it: up to the next `#`. No row where there is none.
fn group_from(file: iff::File, t: &[u64], used: usize, row: Option<usize>) -> Part
    requires { Stored file used t.now × HasGroups file × ((i : ℕ) → row ≡ Some i → i < used) }
    ensures { (key : ℕ) → FoundRow file used t.now key row → GroupAt file used t.now key result }
{
    let w = tables::row_width(file);
    match row {
        Some(i) => Part {
            from: i,
            to: walks::next_head(t, w, i + 1, used),
        },
        None => Part { from: 0, to: 0 },
    }
}

// The group that a key opens: a service's block, a zone's periods, a footnote's vector, the changes at a station. No row where there is none.
pub fn find_group(file: iff::File, t: &[u64], used: usize, places: &[u32], key: u64) -> Part
    requires { Stored file used t.now × HasGroups file }
    ensures { GroupAt file used t.now key result }
{
    let row = lookups::find_at(file, t, used, places, key);
    group_from(file, t, used, row)
}

// A service's block in TIMETBLS, whose `#` row tells how many rows it has: none of them is gone through for its end.
pub fn find_block(t: &[u64], used: usize, places: &[u32], key: u64) -> Part
    requires { Stored Timetbls used t.now × BlocksTold t.now }
    ensures { GroupAt Timetbls used t.now key result }
{
    let Some(i) = lookups::find_at(iff::File::Timetbls, t, used, places, key) else {
        return Part { from: 0, to: 0 };
    };
    let lines = tables::word_at(t, tables::BLOCK_WIDTH, i, iff::words::LINE_COUNT) as usize;
    let to = i + lines;
    Part { from: i, to: to }
}

// The group of a key by an exact index of the keys: no search for a key that opens none.
pub fn find_group_surely(file: iff::File, t: &[u64], used: usize, heads: &[u32], key: u64) -> Part
    requires { Stored file used t.now × HasGroups file × Index file t.now used (length heads.now) heads.now }
    ensures { GroupAt file used t.now key result }
{
    let row = sure_lookups::find_surely(file, t, used, heads, key);
    group_from(file, t, used, row)
}

// The row of a station.
pub fn find_station(t: &[u64], used: usize, places: &[u32], key: u64) -> Option<usize>
    requires { Stored (Rows Stations) used t.now }
    ensures { (R : PerFile (List Row))
        → R.stations ≡ rows_in (Rows Stations) t.now
        → RowFor (row_width (Rows Stations)) t.now (station_row R key) result }
{
    lookups::find_at(
        iff::File::Rows(iff::RowFile::Stations),
        t,
        used,
        places,
        key,
    )
}

// Word `k` of the first line's row.
pub fn first_word(t: &[u64], used: usize, k: usize) -> u64
    requires { Stored Delivery used t.now × (k < row_width Delivery) }
    ensures { result ≡ word (first_of (rows_in Delivery t.now)) k }
{
    if used == 0 {
        0
    } else {
        tables::word_at(t, 6, 0, k)
    }
}
