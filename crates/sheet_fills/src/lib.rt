// The questions of a sheet answered, of tables found sound: 23 first, then what all of them share is found once, and each is answered by itself.
#![tactic(auto)]

ghost use Rattle.std.specs.Prelude.{◌≡◌, List, true, ◌*◌, ◌≤◌, length};
ghost use Rattle.iff.specs.Files.{PerFile};
ghost use Rattle.iff.specs.Tables.{Row, rows_in};
ghost use Rattle.iff.specs.declared.File.TheVariants.{Timetbls};
ghost use Rattle.iff_desk.specs.Sheet.{question_width};
ghost use Rattle.changing.specs.Agree.{RowsOf};
ghost use Rattle.desk.specs.Sure.{Leant, CountedRows};
ghost use Rattle.lost_services.specs.Told.{ServicesTold};
ghost use Rattle.sheet_fills.specs.Tested.{Tested, Filled};

use iff::{File, GroupFile, Reason, RowFile, Test};
use needed_times::StoreCounts;
use sheet_answers::ANSWER_WIDTH;
use sheet_lists::QUESTION_WIDTH;

// How many rows of the tables that a change reads are in use, once for all questions.
fn count_rows(
    delivery: &[u64],
    timezone: &[u64],
    stations: &[u64],
    footnote: &[u64],
    timetbls: &[u64],
    changes: &[u64],
    xfootnote: &[u64],
    xchanges: &[u64],
) -> StoreCounts
    requires { Tested delivery.now timezone.now stations.now footnote.now timetbls.now changes.now xfootnote.now xchanges.now }
    ensures { CountedRows result delivery.now timezone.now stations.now footnote.now timetbls.now
        changes.now xfootnote.now xchanges.now }
{
    StoreCounts {
        delivery: used_counts::used_by_halves(File::Delivery, delivery),
        timezone: used_counts::used_by_halves(File::Groups(GroupFile::Timezone), timezone),
        stations: used_counts::used_by_halves(File::Rows(RowFile::Stations), stations),
        footnote: used_counts::used_by_halves(File::Groups(GroupFile::Footnote), footnote),
        timetbls: used_counts::used_by_halves(File::Timetbls, timetbls),
        changes: used_counts::used_by_halves(File::Groups(GroupFile::Changes), changes),
        xfootnote: used_counts::used_by_halves(File::Groups(GroupFile::Xfootnote), xfootnote),
        xchanges: used_counts::used_by_halves(File::Groups(GroupFile::Xchanges), xchanges),
    }
}

// Places for the services that the questions name, where the test of soundness did not put them all into the slots.
fn place_asked(
    services_told: bool,
    questions: &[u64],
    asked: usize,
    timetbls: &[u64],
    used: usize,
    places: &mut [u32],
)
    requires { asked * question_width ≤ length questions.now }
    ensures { services_told ≡ true → places.new ≡ places.old }
{
    if services_told {
        return;
    }
    asked_places::place_services(questions, asked, timetbls, used, places);
}

// The questions answered, where there is room for as many answers. The places are those that the test of soundness filled, and tell which services are
// there where it said so.
pub fn fill_list(
    delivery: &[u64],
    timezone: &[u64],
    stations: &[u64],
    footnote: &[u64],
    timetbls: &[u64],
    changes: &[u64],
    xfootnote: &[u64],
    xchanges: &[u64],
    places: &mut [u32],
    services_told: bool,
    questions: &[u64],
    answers: &mut [u64],
) -> Test
    requires { Leant delivery.now timezone.now stations.now footnote.now timetbls.now changes.now xfootnote.now xchanges.now
        × Tested delivery.now timezone.now stations.now footnote.now timetbls.now changes.now xfootnote.now xchanges.now
        × ServicesTold services_told (length (rows_in Timetbls timetbls.now)) timetbls.now places.old }
    ensures { (R : PerFile (List Row))
        → RowsOf R delivery.now timezone.now stations.now footnote.now timetbls.now
        changes.now xfootnote.now xchanges.now
        → Filled R questions.now answers.old result answers.new }
{
    let asked = questions.len() / QUESTION_WIDTH;
    if answers.len() / ANSWER_WIDTH < asked {
        return Err(Reason::ShortList);
    }
    let counts = count_rows(
        delivery, timezone, stations, footnote, timetbls, changes, xfootnote, xchanges,
    );
    place_asked(
        services_told,
        questions,
        asked,
        timetbls,
        counts.timetbls,
        places,
    );
    head_index::index_heads(changes, counts.changes, xchanges, counts.xchanges, places);
    sheet_lists::put_answers(
        delivery,
        timezone,
        stations,
        footnote,
        timetbls,
        changes,
        xfootnote,
        xchanges,
        places,
        services_told,
        counts,
        questions,
        asked,
        answers,
    );
    Ok(())
}
