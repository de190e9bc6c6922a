// The slots of an index of keys: whether a row of a key stands in one of those that are tried for it, and which of them is free.
#![tactic(auto)]

ghost use Rattle.std.specs.Prelude.{◌≡◌, ◌&&◌, ◌*◌, ◌<◌, ◌≤◌, ltb, length};
ghost use Rattle.iff.specs.Tables.{row_width, row_at, keyed};
ghost use Rattle.keys.specs.Places.{probes, place_of};
ghost use Rattle.slots.specs.Slots.{Probed};

// What the slots for a key are like: a free one comes before any row of the key, or a row of the key is met, or neither.
#[derive(Clone, Copy)]
pub enum Met {
    Free(usize),
    Taken,
    Full,
}

// A number that was met in a slot is a row before row `i` with this tag and key. Other tables' rows may stand there too.
fn is_earlier(t: &[u64], w: usize, row: usize, i: usize, tag: u64, col: usize, key: u64) -> bool
    requires { (col < w) × (i * w ≤ length t.now) }
    ensures { result ≡ (ltb row i && keyed tag col key (row_at w t.now row)) }
{
    if row < i {
        return tables::keyed_at(t, w, row, tag, col, key);
    }
    false
}

// Walks over the slots for a key.
pub fn probe(file: iff::File, t: &[u64], i: usize, places: &[u32], key: u64) -> Met
    requires { (i * row_width file ≤ length t.now) × (probes < length places.now) }
    ensures { Probed file t.now i key places.now (place_of key (length places.now)) result }
{
    let w = tables::row_width(file);
    let tag = keys::key_tag(file);
    let col = keys::key_word(file);
    let from = keys::place_of(key, places.len());
    for at in from..from + keys::PROBES {
        let row = places[at] as usize;
        if row == 0 {
            return Met::Free(at);
        }
        if is_earlier(t, w, row, i, tag, col, key) {
            return Met::Taken;
        }
    }
    Met::Full
}
