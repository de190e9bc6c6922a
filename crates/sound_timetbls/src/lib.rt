// The rows of TIMETBLS after its first line, as "Soundness" of document 01 asks for them: block by block, and no service comes twice.
#![tactic(auto)]

ghost use Rattle.std.specs.Prelude.{◌≡◌, false, ◌≤◌, length};
ghost use Rattle.iff.specs.Tables.{row_at, row_width, is_hash_row};
ghost use Rattle.iff.specs.declared.File.TheVariants.{Timetbls};
ghost use Rattle.slots.specs.Slots.{Index};
ghost use Rattle.sound_services.specs.Services.{most_indexed, AllGone};
ghost use Rattle.sound_row_walks.specs.Walk.{used_in};
ghost use Rattle.sound_timetbls.specs.Told.{BlocksTold, EndTold};

// All blocks are sound and no service comes twice: the number of rows in use, the first line's among them, whether the services rise, and whether all
// of them are in the index.
#[derive(Clone, Copy)]
pub struct SoundBlocks {
    pub rows: usize,
    pub rise: bool,
    pub indexed: bool,
}

// The end of the rows in use, all blocks before it sound.
fn tell_services(
    t: &[u64],
    used: usize,
    done: u64,
    run: fresh_keys::KeyRun,
    places: &mut [u32],
) -> Option<SoundBlocks>
    requires { AllGone t.now used done × (done ≤ most_indexed → Index Timetbls t.now used (length places.old) places.old) }
    ensures { EndTold t.now used run places.new result × (length places.new ≡ length places.old) }
{
    if sound_services::are_distinct(t, used, done, places) {
        let told = done <= sound_services::INDEXED;
        return Some(SoundBlocks {
            rows: used,
            rise: run.rises,
            indexed: told,
        });
    }
    None
}

// All blocks, each of which begins with a `#`, up to the end of the rows in use, which is found on the way. So is each block's service tested and put
// into the index, while its row is at hand and the index has not enough; the rows behind it up to the next `#` name nothing.
pub fn are_blocks_sound(
    t: &[u64],
    counts: references::BlockCounts,
    companies: &[u64],
    modes: &[u64],
    stations: &[u64],
    footnotes: &[u64],
    places: &mut [u32],
) -> Option<SoundBlocks>
    requires { (1 ≤ used_in t.now) × (is_hash_row (row_at (row_width Timetbls) t.now 0) ≡ false) }
    ensures { BlocksTold counts companies.now modes.now stations.now footnotes.now
        t.now (used_in t.now) places.new result × (length places.new ≡ length places.old) }
{
    let room = t.len() / tables::BLOCK_WIDTH;
    let mut run = fresh_keys::no_keys();
    let mut done: u64 = 0;
    let mut i: usize = 1;
    // A loop by hand: how many rows a block has is known only once it is walked, so no range says where the next begins.
    while i < room {
        let tag = tables::word_at(t, tables::BLOCK_WIDTH, i, iff::words::TAG);
        if tag == 0 {
            return tell_services(t, i, done, run, places);
        }
        if tag != iff::tags::HASH {
            return None;
        }
        let end = sound_blocks::test_block(
            t, i, counts, companies, modes, stations, footnotes, places,
        )?;
        run = sound_services::index_service(t, i, done, run, places)?;
        done += 1;
        i = end;
    }
    tell_services(t, i, done, run, places)
}
