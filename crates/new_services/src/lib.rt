// Whether the service of a block of TIMETBLS is new to those before it, told or taken to be; and what is remembered of them all.
#![tactic(auto)]

ghost use Rattle.std.specs.Prelude.{◌≡◌, true, false, length};
ghost use Rattle.iff.specs.declared.Form.{Form};
ghost use Rattle.iff.specs.declared.File.TheVariants.{Timetbls};
ghost use Rattle.iff_rules.specs.Rows.{as_block};
ghost use Rattle.iff_rules.specs.Load.{service_of};
ghost use Rattle.keys.specs.Lookup.{keys_in};
ghost use Rattle.fresh_keys.specs.Runs.{run_of};
ghost use Rattle.marks.specs.Marks.{slots, Marked};
ghost use Rattle.new_services.specs.News.{NewTold, Remembered};

// Whether a block's service is new to those before it, and whether that was found out: else it is taken for new.
#[derive(Clone, Copy)]
pub struct Newness {
    pub fresh: bool,
    pub told: bool,
}

// In so many rows a search takes next to no time.
const FEW_ROWS: usize = 65536;

// Nothing but a search would tell of this service, and the table is long: where services come in any order, searches for each of them take far longer
// than all the rest.
fn is_dear(search: bool, run: fresh_keys::KeyRun, row: usize, service: u64) -> bool
    ensures { search ≡ true → result ≡ false }
{
    if search {
        return false;
    }
    if row < FEW_ROWS {
        return false;
    }
    let with = fresh_keys::next_run(run, service);
    !with.rises
}

// Whether a service is new to those before it, whose rows the table holds: by its marks, else by a search, unless that is too dear. With `search` it
// is found out at any cost.
pub fn tell_new(
    search: bool,
    run: fresh_keys::KeyRun,
    marks: &[u8],
    t: &[u64],
    row: usize,
    service: u64,
) -> Newness
    requires { (run ≡ run_of (keys_in Timetbls t.now)) × Marked marks.now (keys_in Timetbls t.now) }
    ensures { NewTold search t.now service result }
{
    if marks::is_unmarked(marks, service) {
        return Newness {
            fresh: true,
            told: true,
        };
    }
    if is_dear(search, run, row, service) {
        return Newness {
            fresh: true,
            told: false,
        };
    }
    let fresh = fresh_keys::is_fresh(iff::File::Timetbls, run, t, service);
    Newness {
        fresh: fresh,
        told: true,
    }
}

// What is remembered of the services with this block's, which is marked.
pub fn after_block(run: fresh_keys::KeyRun, marks: &mut [u8], block: &[u8]) -> fresh_keys::KeyRun
    requires { length marks.old ≡ slots }
    ensures { (form : Form) → Remembered run marks.old (service_of form (as_block block.now)) marks.new result }
{
    let service = block_services::service_of(block);
    marks::mark(marks, service);
    fresh_keys::next_run(run, service)
}
