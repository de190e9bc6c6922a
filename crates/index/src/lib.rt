// The index of a table's keys: whether they are distinct and whether they rise, told in one pass, in whatever order they come.
#![tactic(auto)]

ghost use Rattle.std.specs.Prelude.{◌≡◌, false, ◌*◌, ◌≤◌, length};
ghost use Rattle.iff.specs.Tables.{row_width};
ghost use Rattle.slots.specs.Slots.{names_at};
ghost use Rattle.slot_puts.specs.Puts.{AtRow};
ghost use Rattle.index.specs.Keying.{RowPut, KeysPut};

// What a table's keys are like.
#[derive(Clone, Copy)]
pub struct KeysAre {
    pub distinct: bool,
    pub rise: bool,
}

// One row: its key is tested and put into the index, where it names something. The run of the keys so far; or none, where its key came before.
pub fn index_row(
    file: iff::File,
    t: &[u64],
    i: usize,
    run: fresh_keys::KeyRun,
    places: &mut [u32],
) -> Option<fresh_keys::KeyRun>
    requires { AtRow file t.now run i places.old }
    ensures { RowPut file t.now run i places.old places.new result }
{
    let w = tables::row_width(file);
    let tag = keys::key_tag(file);
    let col = keys::key_word(file);
    if tables::word_at(t, w, i, iff::words::TAG) != tag {
        return Some(run);
    }
    let key = tables::word_at(t, w, i, col);
    if slot_puts::put_key(file, t, i, run, key, places) {
        return Some(fresh_keys::next_run(run, key));
    }
    None
}

// Tells whether the keys of a table are distinct, and whether they rise, and leaves each key's row in its slots, for later lookups. What stood in the
// slots before, rows of other tables, does no harm and stays.
pub fn index_keys(file: iff::File, t: &[u64], used: usize, places: &mut [u32]) -> KeysAre
    requires { (used * row_width file ≤ length t.now) × (names_at file t.now 0 ≡ false) }
    ensures { KeysPut file used t.now places.old places.new result }
{
    let mut run = fresh_keys::no_keys();
    for i in 1..used {
        let Some(next) = index_row(file, t, i, run, places) else {
            return KeysAre {
                distinct: false,
                rise: false,
            };
        };
        run = next;
    }
    KeysAre {
        distinct: true,
        rise: run.rises,
    }
}
