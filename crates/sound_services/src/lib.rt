// The services of a table told to be distinct while its blocks are tested: the first ones by the index, and of more of them by walks over the table.
#![tactic(auto)]

ghost use Rattle.std.specs.Prelude.{◌≡◌, ◌≤◌, length};
ghost use Rattle.iff.specs.declared.File.TheVariants.{Timetbls};
ghost use Rattle.iff_desk.specs.Sound.{distinct};
ghost use Rattle.keys.specs.Lookup.{keys_among};
ghost use Rattle.sound_services.specs.Services.{most_indexed, ServiceAt, ServicePut, AllGone};

// So many services are put into the index, the first ones: half of its slots are then left for the keys of other tables, and for those services that
// CHANGES names. Where slots are full, each key more is searched for among all rows before it.
pub const INDEXED: u64 = 65536;

// The service of the block in row `i`, after `done` others: it is tested and put into the index, or where that has enough, only the run of the keys
// goes on. None, where the service came before.
pub fn index_service(
    t: &[u64],
    i: usize,
    done: u64,
    run: fresh_keys::KeyRun,
    places: &mut [u32],
) -> Option<fresh_keys::KeyRun>
    requires { ServiceAt t.now done run i places.old }
    ensures { ServicePut t.now done run i places.old places.new result }
{
    if done < INDEXED {
        return index::index_row(iff::File::Timetbls, t, i, run, places);
    }
    let service = tables::word_at(t, tables::BLOCK_WIDTH, i, iff::words::NAMED);
    Some(fresh_keys::next_run(run, service))
}

// No service comes twice. While all were put into the index, each was new, and the slots stay as they are; of more of them, walks over the whole
// table tell, and where those do not, the index.
pub fn are_distinct(t: &[u64], used: usize, done: u64, places: &mut [u32]) -> bool
    requires { AllGone t.now used done }
    ensures { (result ≡ distinct (keys_among Timetbls used t.now)) × (length places.new ≡ length places.old)
        × (done ≤ most_indexed → places.new ≡ places.old) }
{
    if done <= INDEXED {
        return true;
    }
    match repeats::first_repeat(t, used, done) {
        repeats::Repeats::Never => true,
        repeats::Repeats::First(_) => false,
        repeats::Repeats::Untold => {
            let are = index::index_keys(iff::File::Timetbls, t, used, places);
            are.distinct
        }
    }
}
