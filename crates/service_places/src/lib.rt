// Where a service's block stands among the blocks of TIMETBLS.
#![tactic(auto)]

ghost use Rattle.std.specs.Prelude.{◌≡◌, suc, ◌≤◌, length};
ghost use Rattle.iff.specs.Tables.{rows_in};
ghost use Rattle.iff.specs.declared.File.TheVariants.{Timetbls};
ghost use Rattle.service_places.specs.Placed.{services_before};

// The ordinal of the block whose `#` is row `from`: one more than the services before it.
pub fn ordinal_at(t: &[u64], from: usize) -> u64
    requires { from ≤ length (rows_in Timetbls t.now) }
    ensures { result ≡ suc (length (services_before t.now from)) }
{
    let end = from * tables::BLOCK_WIDTH;
    fresh_keys::count_services(&t[0..end]) + 1
}
