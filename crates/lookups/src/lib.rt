// The keys of tables, looked up: the row of a key among the first rows, by one search after the other (`key_places`, `halves`).
#![tactic(auto)]

ghost use Rattle.std.specs.Prelude.{◌≡◌};
ghost use Rattle.iff.specs.Lists.{has};
ghost use Rattle.iff.specs.declared.File.TheVariants.{Timetbls};
ghost use Rattle.keys.specs.Lookup.{keys_among, HitRow, FoundRow};

// SEARCHES, each of which answers the row

// A search among all of the first rows, one after the other, so that what it misses is not there.
fn found_by_scan(file: iff::File, t: &[u64], used: usize, key: u64) -> Option<usize>
    ensures { FoundRow file used t.now key result }
{
    let w = tables::row_width(file);
    let tag = keys::key_tag(file);
    let col = keys::key_word(file);
    let rows = keys::rows_among(t, w, used);
    for i in 0..rows {
        if tables::keyed_at(t, w, i, tag, col, key) {
            return Some(i);
        }
    }
    None
}

// A search over the blocks of TIMETBLS, from each `#` to the next. A row is tested before it is called found, so nothing rests on the
// numbers of lines.
fn found_by_blocks(t: &[u64], used: usize, key: u64) -> Option<usize>
    ensures { HitRow Timetbls used t.now key result }
{
    let rows = keys::rows_among(t, tables::BLOCK_WIDTH, used);
    let mut i = 1;
    // A loop by hand: where the next block begins is known only from what stands in row `i`, so no range says it.
    while i < rows {
        if tables::keyed_at(
            t,
            tables::BLOCK_WIDTH,
            i,
            iff::tags::HASH,
            iff::words::NAMED,
            key,
        ) {
            return Some(i);
        }
        i = keys::next_block(t, rows, i);
    }
    None
}

// LOOKUPS: the row of a key among the first `used` rows of a table, whichever search finds it

// By halves, and where that misses, row by row. A delivery that is accepted names only what is there, so where keys rise no scan is made.
pub fn find_among(file: iff::File, t: &[u64], used: usize, key: u64) -> Option<usize>
    ensures { FoundRow file used t.now key result }
{
    match halves::found_by_halves(file, t, used, key) {
        Some(i) => Some(i),
        None => found_by_scan(file, t, used, key),
    }
}

// The same with an index: at the key's place, whatever the order of the keys.
pub fn find_at(file: iff::File, t: &[u64], used: usize, places: &[u32], key: u64) -> Option<usize>
    ensures { FoundRow file used t.now key result }
{
    match key_places::found_by_place(file, t, used, places, key) {
        Some(i) => Some(i),
        None => find_among(file, t, used, key),
    }
}

// A service in TIMETBLS: at its place where there is an index, by halves where services rise, else from block to block.
pub fn find_service(t: &[u64], used: usize, places: &[u32], key: u64) -> Option<usize>
    ensures { FoundRow Timetbls used t.now key result }
{
    match key_places::found_by_place(iff::File::Timetbls, t, used, places, key) {
        Some(i) => Some(i),
        None => match halves::found_by_halves(iff::File::Timetbls, t, used, key) {
            Some(i) => Some(i),
            None => match found_by_blocks(t, used, key) {
                Some(i) => Some(i),
                None => found_by_scan(iff::File::Timetbls, t, used, key),
            },
        },
    }
}

// Whether there is one.
pub fn names_among(file: iff::File, t: &[u64], used: usize, key: u64) -> bool
    ensures { result ≡ has key (keys_among file used t.now) }
{
    find_among(file, t, used, key).is_some()
}

pub fn names_at(file: iff::File, t: &[u64], used: usize, places: &[u32], key: u64) -> bool
    ensures { result ≡ has key (keys_among file used t.now) }
{
    find_at(file, t, used, places, key).is_some()
}

pub fn names_service(t: &[u64], used: usize, places: &[u32], key: u64) -> bool
    ensures { result ≡ has key (keys_among Timetbls used t.now) }
{
    find_service(t, used, places, key).is_some()
}
