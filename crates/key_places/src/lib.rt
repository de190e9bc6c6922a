// A key of a table looked for at its place, in the slots that are tried for it.
#![tactic(auto)]

ghost use Rattle.std.specs.Prelude.{◌≡◌};
ghost use Rattle.keys.specs.Lookup.{HitRow};

use keys::PROBES;

// A row's number out of its slot.
fn place_row(place: u32) -> usize
    ensures { result ≡ place }
{
    place as usize
}

// A look at the slots for a key. A free one ends it: the key is in none of those after it. A slot with a row of another table, which may be out of
// range here, is passed over. So it may miss, and serves alone where what it misses is left to others.
pub fn found_by_place(
    file: iff::File,
    t: &[u64],
    used: usize,
    places: &[u32],
    key: u64,
) -> Option<usize>
    ensures { HitRow file used t.now key result }
{
    let slots = places.len();
    if slots <= PROBES {
        return None;
    }
    let w = tables::row_width(file);
    let tag = keys::key_tag(file);
    let col = keys::key_word(file);
    let rows = keys::rows_among(t, w, used);
    let at = keys::place_of(key, slots);
    for place in &places[at..at + PROBES] {
        let row = place_row(*place);
        if row == 0 {
            return None;
        }
        if row < rows {
            if tables::keyed_at(t, w, row, tag, col, key) {
                return Some(row);
            }
        }
    }
    None
}
