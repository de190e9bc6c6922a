// A change that may name a service which is not there, on tables that were found sound: where an index of the services says so, it is refused with no
// search for the service.
#![tactic(auto)]

ghost use Rattle.std.specs.Prelude.{◌≡◌, List, [], true, Err};
ghost use Rattle.iff.specs.Files.{PerFile};
ghost use Rattle.iff.specs.Tables.{Row, rows_in};
ghost use Rattle.iff.specs.declared.File.TheVariants.{Delivery, Timetbls};
ghost use Rattle.iff.specs.declared.Reason.TheVariants.{NoService};
ghost use Rattle.iff_desk.specs.Changing.{change_after, change_in};
ghost use Rattle.iff_desk.specs.Store.{group_of};
ghost use Rattle.store.specs.Found.{Stored, BlocksTold};
ghost use Rattle.changing.specs.Agree.{RowsOf, Ready};
ghost use Rattle.changing.specs.Sides.{side_of, asked_from};
ghost use Rattle.lost_services.specs.Told.{ServicesTold};

use changing::Visit;
use iff::{File, Reason};
use iff_desk::Change;
use needed_times::StoreCounts;

// No row names the service. Nothing is said where the services were not put into the slots.
fn is_lost(services_told: bool, timetbls: &[u64], used: usize, places: &[u32], service: u64) -> bool
    requires { Stored Timetbls used timetbls.now × ServicesTold services_told used timetbls.now places.now }
    ensures { result ≡ true → group_of service (rows_in Timetbls timetbls.now) ≡ [] }
{
    if services_told {
        return sure_lookups::is_absent(File::Timetbls, timetbls, used, places, service);
    }
    false
}

// Where B's service is not there: what A is refused for comes first.
fn refused_before(
    delivery: &[u64],
    timetbls: &[u64],
    places: &[u32],
    counts: StoreCounts,
    from: Visit,
) -> Result<Change, Reason>
    requires { Stored Delivery counts.delivery delivery.now
        × Stored Timetbls counts.timetbls timetbls.now
        × BlocksTold timetbls.now }
    ensures { (R : PerFile (List Row))
        → R.delivery ≡ rows_in Delivery delivery.now
        → R.timetbls ≡ rows_in Timetbls timetbls.now
        → result ≡ change_after (asked_from R (side_of from)) (Err NoService) }
{
    changing::asked_from(delivery, timetbls, places, counts, from)?;
    Err(Reason::NoService)
}

// A change, whether its services are there or not.
pub fn change_or_lost(
    delivery: &[u64],
    timezone: &[u64],
    stations: &[u64],
    footnote: &[u64],
    timetbls: &[u64],
    changes: &[u64],
    xfootnote: &[u64],
    xchanges: &[u64],
    places: &[u32],
    services_told: bool,
    counts: StoreCounts,
    from: Visit,
    to: Visit,
) -> Result<Change, Reason>
    requires { Ready counts places.now delivery.now timezone.now stations.now footnote.now timetbls.now changes.now xfootnote.now xchanges.now
        × ServicesTold services_told counts.timetbls timetbls.now places.now }
    ensures { (R : PerFile (List Row))
        → RowsOf R delivery.now timezone.now stations.now footnote.now timetbls.now
        changes.now xfootnote.now xchanges.now
        → result ≡ change_in true R (side_of from) (side_of to) }
{
    if is_lost(
        services_told,
        timetbls,
        counts.timetbls,
        places,
        from.service,
    ) {
        return Err(Reason::NoService);
    }
    if is_lost(services_told, timetbls, counts.timetbls, places, to.service) {
        return refused_before(delivery, timetbls, places, counts, from);
    }
    changing::change_in(
        delivery, timezone, stations, footnote, timetbls, changes, xfootnote, xchanges, places,
        places, places, counts, from, to,
    )
}
