// The files up to FOOTNOTE, read in order, each into its own cleared table.
#![tactic(auto)]

ghost use Rattle.std.specs.Prelude.{◌≡◌, true};
ghost use Rattle.iff.specs.Refusals.{fine};
ghost use Rattle.first_files.specs.Firsts.{seven, FirstsReady, FirstsRead};

use iff::{Form, GroupFile, RowFile, Verdict};

// What is known after them: the first fault, and the form that DELIVERY's first line gives.
#[derive(Clone, Copy)]
pub struct FirstFiles {
    pub verdict: Verdict,
    pub form: Form,
}

// Where a file names nothing in the others, what is lent to its reader is not looked at.
pub fn read_first_files(
    v: Verdict,
    header: &[u8],
    delivery: &[u8],
    company: &[u8],
    country: &[u8],
    trnsmode: &[u8],
    timezone: &[u8],
    stations: &[u8],
    footnote: &[u8],
    t_delivery: &mut [u64],
    t_company: &mut [u64],
    t_country: &mut [u64],
    t_trnsmode: &mut [u64],
    t_timezone: &mut [u64],
    t_stations: &mut [u64],
    t_footnote: &mut [u64],
) -> FirstFiles
    requires { fine v ≡ true → FirstsReady
        (seven delivery.now company.now country.now trnsmode.now timezone.now stations.now footnote.now)
        (seven t_delivery.old t_company.old t_country.old t_trnsmode.old t_timezone.old t_stations.old t_footnote.old) }
    ensures { FirstsRead header.now
        (seven delivery.now company.now country.now trnsmode.now timezone.now
        stations.now footnote.now)
        v
        (seven t_delivery.old t_company.old t_country.old t_trnsmode.old
        t_timezone.old t_stations.old t_footnote.old)
        (seven t_delivery.new t_company.new t_country.new t_trnsmode.new
        t_timezone.new t_stations.new t_footnote.new)
        result }
{
    let v1 = heads::read_delivery(v, delivery, t_delivery);
    let form = head_words::form_of(t_delivery);
    let v2 = row_files::read_row_file(
        RowFile::Company,
        v1,
        form,
        company,
        header,
        t_company,
        t_country,
        t_timezone,
    );
    let v3 = references::company_test(v2, t_delivery, t_company);
    let v4 = row_files::read_row_file(
        RowFile::Country,
        v3,
        form,
        country,
        header,
        t_country,
        t_stations,
        t_timezone,
    );
    let v5 = row_files::read_row_file(
        RowFile::Trnsmode,
        v4,
        form,
        trnsmode,
        header,
        t_trnsmode,
        t_country,
        t_timezone,
    );
    let v6 = group_files::read_group_file(
        GroupFile::Timezone,
        v5,
        form,
        timezone,
        header,
        t_timezone,
        t_company,
        t_trnsmode,
        t_stations,
        t_country,
        t_footnote,
        0,
    );
    let v7 = row_files::read_row_file(
        RowFile::Stations,
        v6,
        form,
        stations,
        header,
        t_stations,
        t_country,
        t_timezone,
    );
    let v8 = group_files::read_group_file(
        GroupFile::Footnote,
        v7,
        form,
        footnote,
        header,
        t_footnote,
        t_company,
        t_trnsmode,
        t_stations,
        t_country,
        t_timezone,
        0,
    );
    FirstFiles {
        verdict: v8,
        form: form,
    }
}
