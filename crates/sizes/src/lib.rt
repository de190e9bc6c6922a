// The sizes of a delivery's files, tested before any of them is read: 1, then 3, then 2, each over the files in order.
#![tactic(auto)]

ghost use Rattle.std.specs.Prelude.{◌≡◌};
ghost use Rattle.iff.specs.Files.{eleven};
ghost use Rattle.iff.specs.Refusals.{or_else};
ghost use Rattle.sizes.specs.Sizes.{lengths_within, absences_verdict, rooms_verdict, sizes_verdict};

use iff::{File, GroupFile, RowFile, Verdict};

// Files of at most so many bytes each: the first that has more is at fault.
pub fn lengths(
    most: usize,
    n_delivery: usize,
    n_company: usize,
    n_country: usize,
    n_trnsmode: usize,
    n_timezone: usize,
    n_stations: usize,
    n_footnote: usize,
    n_timetbls: usize,
    n_changes: usize,
    n_xfootnote: usize,
    n_xchanges: usize,
) -> Verdict
    ensures { result ≡ lengths_within most
        (eleven n_delivery n_company n_country n_trnsmode n_timezone n_stations n_footnote n_timetbls
        n_changes n_xfootnote n_xchanges) }
{
    let v1 = size_tests::length_test(Ok(()), most, File::Delivery, n_delivery);
    let v2 = size_tests::length_test(v1, most, File::Rows(RowFile::Company), n_company);
    let v3 = size_tests::length_test(v2, most, File::Rows(RowFile::Country), n_country);
    let v4 = size_tests::length_test(v3, most, File::Rows(RowFile::Trnsmode), n_trnsmode);
    let v5 = size_tests::length_test(v4, most, File::Groups(GroupFile::Timezone), n_timezone);
    let v6 = size_tests::length_test(v5, most, File::Rows(RowFile::Stations), n_stations);
    let v7 = size_tests::length_test(v6, most, File::Groups(GroupFile::Footnote), n_footnote);
    let v8 = size_tests::length_test(v7, most, File::Timetbls, n_timetbls);
    let v9 = size_tests::length_test(v8, most, File::Groups(GroupFile::Changes), n_changes);
    let v10 = size_tests::length_test(v9, most, File::Groups(GroupFile::Xfootnote), n_xfootnote);
    size_tests::length_test(v10, most, File::Groups(GroupFile::Xchanges), n_xchanges)
}

fn absences(
    v: Verdict,
    n_delivery: usize,
    n_company: usize,
    n_country: usize,
    n_trnsmode: usize,
    n_timezone: usize,
    n_stations: usize,
    n_footnote: usize,
    n_timetbls: usize,
    n_changes: usize,
    n_xfootnote: usize,
    n_xchanges: usize,
) -> Verdict
    ensures { result ≡ or_else v (absences_verdict
        (eleven n_delivery n_company n_country n_trnsmode n_timezone n_stations n_footnote n_timetbls
        n_changes n_xfootnote n_xchanges)) }
{
    let x = 0 < n_xchanges;
    let v1 = size_tests::absence_test(v, x, File::Delivery, n_delivery);
    let v2 = size_tests::absence_test(v1, x, File::Rows(RowFile::Company), n_company);
    let v3 = size_tests::absence_test(v2, x, File::Rows(RowFile::Country), n_country);
    let v4 = size_tests::absence_test(v3, x, File::Rows(RowFile::Trnsmode), n_trnsmode);
    let v5 = size_tests::absence_test(v4, x, File::Groups(GroupFile::Timezone), n_timezone);
    let v6 = size_tests::absence_test(v5, x, File::Rows(RowFile::Stations), n_stations);
    let v7 = size_tests::absence_test(v6, x, File::Groups(GroupFile::Footnote), n_footnote);
    let v8 = size_tests::absence_test(v7, x, File::Timetbls, n_timetbls);
    let v9 = size_tests::absence_test(v8, x, File::Groups(GroupFile::Changes), n_changes);
    let v10 = size_tests::absence_test(v9, x, File::Groups(GroupFile::Xfootnote), n_xfootnote);
    size_tests::absence_test(v10, x, File::Groups(GroupFile::Xchanges), n_xchanges)
}

fn rooms(
    v: Verdict,
    delivery: &[u8],
    company: &[u8],
    country: &[u8],
    trnsmode: &[u8],
    timezone: &[u8],
    stations: &[u8],
    footnote: &[u8],
    timetbls: &[u8],
    changes: &[u8],
    xfootnote: &[u8],
    xchanges: &[u8],
    r_delivery: usize,
    r_company: usize,
    r_country: usize,
    r_trnsmode: usize,
    r_timezone: usize,
    r_stations: usize,
    r_footnote: usize,
    r_timetbls: usize,
    r_changes: usize,
    r_xfootnote: usize,
    r_xchanges: usize,
) -> Verdict
    ensures { result ≡ or_else v (rooms_verdict
        (eleven delivery.now company.now country.now trnsmode.now
        timezone.now stations.now footnote.now timetbls.now
        changes.now xfootnote.now xchanges.now)
        (eleven r_delivery r_company r_country r_trnsmode r_timezone r_stations r_footnote r_timetbls
        r_changes r_xfootnote r_xchanges)) }
{
    let v1 = size_tests::room_test(v, File::Delivery, delivery, r_delivery);
    let v2 = size_tests::room_test(v1, File::Rows(RowFile::Company), company, r_company);
    let v3 = size_tests::room_test(v2, File::Rows(RowFile::Country), country, r_country);
    let v4 = size_tests::room_test(v3, File::Rows(RowFile::Trnsmode), trnsmode, r_trnsmode);
    let v5 = size_tests::room_test(v4, File::Groups(GroupFile::Timezone), timezone, r_timezone);
    let v6 = size_tests::room_test(v5, File::Rows(RowFile::Stations), stations, r_stations);
    let v7 = size_tests::room_test(v6, File::Groups(GroupFile::Footnote), footnote, r_footnote);
    let v8 = size_tests::room_test(v7, File::Timetbls, timetbls, r_timetbls);
    let v9 = size_tests::room_test(v8, File::Groups(GroupFile::Changes), changes, r_changes);
    let v10 = size_tests::room_test(
        v9,
        File::Groups(GroupFile::Xfootnote),
        xfootnote,
        r_xfootnote,
    );
    size_tests::room_test(v10, File::Groups(GroupFile::Xchanges), xchanges, r_xchanges)
}

// 1, then 3, then 2, each over the files in order.
pub fn sizes(
    delivery: &[u8],
    company: &[u8],
    country: &[u8],
    trnsmode: &[u8],
    timezone: &[u8],
    stations: &[u8],
    footnote: &[u8],
    timetbls: &[u8],
    changes: &[u8],
    xfootnote: &[u8],
    xchanges: &[u8],
    r_delivery: usize,
    r_company: usize,
    r_country: usize,
    r_trnsmode: usize,
    r_timezone: usize,
    r_stations: usize,
    r_footnote: usize,
    r_timetbls: usize,
    r_changes: usize,
    r_xfootnote: usize,
    r_xchanges: usize,
) -> Verdict
    ensures { result ≡ sizes_verdict
        (eleven delivery.now company.now country.now trnsmode.now
        timezone.now stations.now footnote.now timetbls.now
        changes.now xfootnote.now xchanges.now)
        (eleven r_delivery r_company r_country r_trnsmode r_timezone r_stations r_footnote r_timetbls
        r_changes r_xfootnote r_xchanges) }
{
    let v1 = lengths(
        iff::limits::LONGEST_FILE,
        delivery.len(),
        company.len(),
        country.len(),
        trnsmode.len(),
        timezone.len(),
        stations.len(),
        footnote.len(),
        timetbls.len(),
        changes.len(),
        xfootnote.len(),
        xchanges.len(),
    );
    let v2 = absences(
        v1,
        delivery.len(),
        company.len(),
        country.len(),
        trnsmode.len(),
        timezone.len(),
        stations.len(),
        footnote.len(),
        timetbls.len(),
        changes.len(),
        xfootnote.len(),
        xchanges.len(),
    );
    rooms(
        v2,
        delivery,
        company,
        country,
        trnsmode,
        timezone,
        stations,
        footnote,
        timetbls,
        changes,
        xfootnote,
        xchanges,
        r_delivery,
        r_company,
        r_country,
        r_trnsmode,
        r_timezone,
        r_stations,
        r_footnote,
        r_timetbls,
        r_changes,
        r_xfootnote,
        r_xchanges,
    )
}
