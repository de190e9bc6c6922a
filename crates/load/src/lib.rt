// A load: the eleven files tested and read in order, and their rows left in the eleven tables. A refused load leaves every table zero.
#![tactic(auto)]

ghost use Rattle.std.specs.Prelude.{length};
ghost use Rattle.iff.specs.Files.{eleven};
ghost use Rattle.iff_laws.specs.Outcomes.{Loaded};

use iff::Answer;

// For every file and every table.
pub fn load(
    delivery: &[u8],
    company: &[u8],
    country: &[u8],
    trnsmode: &[u8],
    timezone: &[u8],
    stations: &[u8],
    footnote: &[u8],
    timetbls: &[u8],
    changes: &[u8],
    xfootnote: &[u8],
    xchanges: &[u8],
    t_delivery: &mut [u64],
    t_company: &mut [u64],
    t_country: &mut [u64],
    t_trnsmode: &mut [u64],
    t_timezone: &mut [u64],
    t_stations: &mut [u64],
    t_footnote: &mut [u64],
    t_timetbls: &mut [u64],
    t_changes: &mut [u64],
    t_xfootnote: &mut [u64],
    t_xchanges: &mut [u64],
) -> Answer
    ensures { Loaded
        (eleven delivery.now company.now country.now trnsmode.now timezone.now
        stations.now footnote.now timetbls.now changes.now xfootnote.now
        xchanges.now)
        (eleven (length t_delivery.old) (length t_company.old) (length t_country.old)
        (length t_trnsmode.old) (length t_timezone.old) (length t_stations.old)
        (length t_footnote.old) (length t_timetbls.old) (length t_changes.old)
        (length t_xfootnote.old) (length t_xchanges.old))
        result
        (eleven t_delivery.new t_company.new t_country.new t_trnsmode.new
        t_timezone.new t_stations.new t_footnote.new t_timetbls.new
        t_changes.new t_xfootnote.new t_xchanges.new) }
{
    let v0 = sizes::sizes(
        delivery,
        company,
        country,
        trnsmode,
        timezone,
        stations,
        footnote,
        timetbls,
        changes,
        xfootnote,
        xchanges,
        t_delivery.len(),
        t_company.len(),
        t_country.len(),
        t_trnsmode.len(),
        t_timezone.len(),
        t_stations.len(),
        t_footnote.len(),
        t_timetbls.len(),
        t_changes.len(),
        t_xfootnote.len(),
        t_xchanges.len(),
    );
    clearing::clear_all(
        t_delivery,
        t_company,
        t_country,
        t_trnsmode,
        t_timezone,
        t_stations,
        t_footnote,
        t_timetbls,
        t_changes,
        t_xfootnote,
        t_xchanges,
    );
    let header = heads::first_body(delivery);
    let first = first_files::read_first_files(
        v0, header, delivery, company, country, trnsmode, timezone, stations, footnote, t_delivery,
        t_company, t_country, t_trnsmode, t_timezone, t_stations, t_footnote,
    );
    let v1 = first.verdict;
    let form = first.form;
    let last = last_files::read_last_files(
        v1,
        form,
        header,
        timetbls,
        changes,
        xfootnote,
        xchanges,
        t_timetbls,
        t_changes,
        t_xfootnote,
        t_xchanges,
        t_company,
        t_trnsmode,
        t_stations,
        t_footnote,
    );
    let v2 = last.verdict;
    clearing::settle(
        v2,
        t_delivery,
        t_company,
        t_country,
        t_trnsmode,
        t_timezone,
        t_stations,
        t_footnote,
        t_timetbls,
        t_changes,
        t_xfootnote,
        t_xchanges,
    );
    answers::answer_of(v2, form.days, last.services)
}
