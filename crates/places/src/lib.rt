// The rows of keys put into slots, as a hint for lookups (`lookups::find_at`): the keys of a table, or those services alone that a file names.
#![tactic(auto)]

ghost use Rattle.std.specs.Prelude.{◌≡◌, ◌<◌, length};
ghost use Rattle.places.specs.Slots.{Inside};

// Where a number stands among the slots for a key, or the first free one before it; or neither.
#[derive(Clone, Copy)]
pub enum Slot {
    Of(usize),
    Free(usize),
    Nowhere,
}

// Looks for a number among the slots for a key. 0 is a free slot.
fn slot_of(places: &[u32], key: u64, stands: u32) -> Slot
    ensures { Inside (length places.now) result }
{
    let slots = places.len();
    if slots <= keys::PROBES {
        return Slot::Nowhere;
    }
    let first = keys::place_of(key, slots);
    for at in first..first + keys::PROBES {
        if places[at] == 0 {
            return Slot::Free(at);
        }
        if places[at] == stands {
            return Slot::Of(at);
        }
    }
    Slot::Nowhere
}

// Puts a number into the first free slot for a key, unless it stands before that. Row 0 is the first line's, so 0 is a free slot. Where none is free,
// or there are too few slots, or the number is too wide for a slot, the key is left out, and is searched for.
fn put(places: &mut [u32], key: u64, number: u64)
    ensures { length places.new ≡ length places.old }
{
    if number > 4294967295 {
        return;
    }
    let stands = number as u32;
    if let Slot::Free(at) = slot_of(places, key, stands) {
        places[at] = stands;
    }
}

// Puts the keys of a table into their slots. Two tables may share the slots, since a row is tested in the table that is asked.
pub fn index_rows(file: iff::File, t: &[u64], used: usize, places: &mut [u32])
    ensures { length places.new ≡ length places.old }
{
    let w = tables::row_width(file);
    let tag = keys::key_tag(file);
    let col = keys::key_word(file);
    let rows = keys::rows_among(t, w, used);
    for i in 1..rows {
        if tables::word_at(t, w, i, iff::words::TAG) == tag {
            let key = tables::word_at(t, w, i, col);
            put(places, key, i as u64);
        }
    }
}

// SERVICES: those that a file names are asked for first, each by its own number in one of its slots, and their rows then stand in the place of those
// numbers. So there is room for what a file names, however many services there are.

// Asks for a service.
pub fn ask(places: &mut [u32], service: u64)
    ensures { length places.new ≡ length places.old }
{
    put(places, service, service);
}

// The row of a service in the place of its number, where it was asked for.
fn answer(places: &mut [u32], service: u64, row: usize)
    ensures { length places.new ≡ length places.old }
{
    if service > 4294967295 {
        return;
    }
    if row > 4294967295 {
        return;
    }
    let place = row as u32;
    if let Slot::Of(at) = slot_of(places, service, service as u32) {
        places[at] = place;
    }
}

// The rows of the services that were asked for, from each `#` to the next.
pub fn index_asked(t: &[u64], used: usize, places: &mut [u32])
    ensures { length places.new ≡ length places.old }
{
    let rows = keys::rows_among(t, tables::BLOCK_WIDTH, used);
    let mut i = 1;
    // A loop by hand: where the next block begins is known only from what stands in row `i`, so no range says it.
    while i < rows {
        let service = tables::word_at(t, tables::BLOCK_WIDTH, i, iff::words::NAMED);
        answer(places, service, i);
        i = keys::next_block(t, rows, i);
    }
}
