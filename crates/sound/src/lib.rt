// Soundness of eleven lent tables, of any length and content: "Tables are sound when the needed first lines are there, rows meet every rule here on kept
// fields and file length, and unused places are zero."
#![tactic(auto)]

ghost use Rattle.std.specs.Prelude.{◌≡◌, true, ◌&&◌, List, ltb, ℕ, ◌≤◌, length};
ghost use Rattle.iff.specs.Files.{PerFile, eleven};
ghost use Rattle.iff.specs.Tables.{rows_in};
ghost use Rattle.iff.specs.declared.File.TheVariants.{Delivery, Timetbls};
ghost use Rattle.iff_rules.specs.Rows.{context_of, first_of, form_of};
ghost use Rattle.iff_desk.specs.Sound.{sound as are_sound, rows_of_tables};
ghost use Rattle.sound.specs.Whole.{Counted, all_there, all_framed, all_behind, SoundTold};

use iff::{Edition, File, Form, GroupFile, RowFile, words};

// The slots of the index: a prime number of places to begin at, and those that are tried behind them. Half a megabyte serves some hundred thousand keys.
pub const SLOTS: usize = 131135;

// How many rows of each table are in use. Those of TIMETBLS are most of a delivery's, and are counted where they are tested.
#[derive(Clone, Copy)]
pub struct UsedRows {
    pub delivery: usize,
    pub company: usize,
    pub country: usize,
    pub trnsmode: usize,
    pub timezone: usize,
    pub stations: usize,
    pub footnote: usize,
    pub changes: usize,
    pub xfootnote: usize,
    pub xchanges: usize,
}

// Counts them, once.
pub fn count_rows(
    delivery: &[u64],
    company: &[u64],
    country: &[u64],
    trnsmode: &[u64],
    timezone: &[u64],
    stations: &[u64],
    footnote: &[u64],
    changes: &[u64],
    xfootnote: &[u64],
    xchanges: &[u64],
) -> UsedRows
    ensures { (t : List ℕ) → Counted (eleven delivery.now company.now country.now trnsmode.now
        timezone.now stations.now footnote.now t changes.now
        xfootnote.now xchanges.now) result }
{
    UsedRows {
        delivery: keys::used_rows(File::Delivery, delivery),
        company: keys::used_rows(File::Rows(RowFile::Company), company),
        country: keys::used_rows(File::Rows(RowFile::Country), country),
        trnsmode: keys::used_rows(File::Rows(RowFile::Trnsmode), trnsmode),
        timezone: keys::used_rows(File::Groups(GroupFile::Timezone), timezone),
        stations: keys::used_rows(File::Rows(RowFile::Stations), stations),
        footnote: keys::used_rows(File::Groups(GroupFile::Footnote), footnote),
        changes: keys::used_rows(File::Groups(GroupFile::Changes), changes),
        xfootnote: keys::used_rows(File::Groups(GroupFile::Xfootnote), xfootnote),
        xchanges: keys::used_rows(File::Groups(GroupFile::Xchanges), xchanges),
    }
}

// TIMETBLS has rows: its first word tells.
fn has_blocks(t: &[u64]) -> bool
    ensures { result ≡ ltb 0 (length (rows_in Timetbls t.now)) }
{
    if t.len() < tables::BLOCK_WIDTH {
        return false;
    }
    0 < t[words::TAG]
}

// Three tables with rows in use.
fn three(a: usize, b: usize, c: usize) -> bool
    ensures { result ≡ (ltb 0 a && (ltb 0 b && ltb 0 c)) }
{
    if a == 0 {
        return false;
    }
    if b == 0 {
        return false;
    }
    0 < c
}

// The files that are needed are there: all but the last three, and XFOOTNOTE where XCHANGES is.
fn are_there(used: UsedRows, timetbls: bool) -> bool
    ensures { (T : PerFile (List ℕ)) → Counted T used → timetbls ≡ ltb 0 (length (rows_in Timetbls T.timetbls))
        → result ≡ all_there (rows_of_tables T) }
{
    if !three(used.delivery, used.company, used.country) {
        return false;
    }
    if !three(used.trnsmode, used.timezone, used.stations) {
        return false;
    }
    if used.footnote == 0 {
        return false;
    }
    if !timetbls {
        return false;
    }
    if used.xchanges == 0 {
        return true;
    }
    0 < used.xfootnote
}

// The frames of all tables but TIMETBLS, in the files' order. The keys of each go into the index.
fn are_framed(
    delivery: &[u64],
    company: &[u64],
    country: &[u64],
    trnsmode: &[u64],
    timezone: &[u64],
    stations: &[u64],
    footnote: &[u64],
    timetbls: &[u64],
    changes: &[u64],
    xfootnote: &[u64],
    xchanges: &[u64],
    used: UsedRows,
    first: &[u64],
    form: Form,
    places: &mut [u32],
) -> bool
    requires { Counted (eleven delivery.now company.now country.now trnsmode.now timezone.now stations.now footnote.now timetbls.now changes.now xfootnote.now xchanges.now) used
        × (5 ≤ length first.now) }
    ensures { result ≡ all_framed form first.now (eleven delivery.now company.now country.now trnsmode.now
        timezone.now stations.now footnote.now timetbls.now changes.now
        xfootnote.now xchanges.now) }
{
    let with_delivery = sound_frames::is_framed(
        true,
        File::Delivery,
        delivery,
        used.delivery,
        first,
        form,
        places,
    );
    let with_company = sound_frames::is_framed(
        with_delivery,
        File::Rows(RowFile::Company),
        company,
        used.company,
        first,
        form,
        places,
    );
    let with_country = sound_frames::is_framed(
        with_company,
        File::Rows(RowFile::Country),
        country,
        used.country,
        first,
        form,
        places,
    );
    let with_trnsmode = sound_frames::is_framed(
        with_country,
        File::Rows(RowFile::Trnsmode),
        trnsmode,
        used.trnsmode,
        first,
        form,
        places,
    );
    let with_timezone = sound_frames::is_framed(
        with_trnsmode,
        File::Groups(GroupFile::Timezone),
        timezone,
        used.timezone,
        first,
        form,
        places,
    );
    let with_stations = sound_frames::is_framed(
        with_timezone,
        File::Rows(RowFile::Stations),
        stations,
        used.stations,
        first,
        form,
        places,
    );
    let with_footnote = sound_frames::is_framed(
        with_stations,
        File::Groups(GroupFile::Footnote),
        footnote,
        used.footnote,
        first,
        form,
        places,
    );
    let with_changes = sound_frames::is_framed(
        with_footnote,
        File::Groups(GroupFile::Changes),
        changes,
        used.changes,
        first,
        form,
        places,
    );
    let with_xfootnote = sound_frames::is_framed(
        with_changes,
        File::Groups(GroupFile::Xfootnote),
        xfootnote,
        used.xfootnote,
        first,
        form,
        places,
    );
    let with_xchanges = sound_frames::is_framed(
        with_xfootnote,
        File::Groups(GroupFile::Xchanges),
        xchanges,
        used.xchanges,
        first,
        form,
        places,
    );
    with_xchanges
}

// The rows behind the first lines' of all tables but TIMETBLS, in the files' order. DELIVERY has none. `services` is the number of TIMETBLS' rows.
fn are_right_behind(
    delivery: &[u64],
    company: &[u64],
    country: &[u64],
    trnsmode: &[u64],
    timezone: &[u64],
    stations: &[u64],
    footnote: &[u64],
    timetbls: &[u64],
    changes: &[u64],
    xfootnote: &[u64],
    xchanges: &[u64],
    used: UsedRows,
    services: usize,
    form: Form,
    places: &[u32],
) -> bool
    requires { Counted (eleven delivery.now company.now country.now trnsmode.now timezone.now stations.now footnote.now timetbls.now changes.now xfootnote.now xchanges.now) used
        × (services ≡ length (rows_in Timetbls timetbls.now)) }
    ensures { form ≡ (context_of (rows_of_tables (eleven delivery.now company.now country.now trnsmode.now
        timezone.now stations.now footnote.now timetbls.now changes.now
        xfootnote.now xchanges.now))).form
        → result ≡ all_behind (context_of (rows_of_tables (eleven delivery.now company.now country.now trnsmode.now
        timezone.now stations.now footnote.now timetbls.now changes.now
        xfootnote.now xchanges.now))) (eleven delivery.now company.now country.now trnsmode.now
        timezone.now stations.now footnote.now timetbls.now changes.now
        xfootnote.now xchanges.now) }
{
    let groups = references::GroupCounts {
        companies: used.company,
        modes: used.trnsmode,
        stations: used.stations,
        services: services,
        xfootnotes: used.xfootnote,
    };
    let with_delivery = used.delivery < 2;
    let with_company = sound_behind::are_rows_right(
        with_delivery,
        RowFile::Company,
        company,
        used.company,
        form,
        country,
        timezone,
        places,
    );
    let with_country = sound_behind::are_rows_right(
        with_company,
        RowFile::Country,
        country,
        used.country,
        form,
        country,
        timezone,
        places,
    );
    let with_trnsmode = sound_behind::are_rows_right(
        with_country,
        RowFile::Trnsmode,
        trnsmode,
        used.trnsmode,
        form,
        country,
        timezone,
        places,
    );
    let with_timezone = sound_behind::are_groups_right(
        with_trnsmode,
        GroupFile::Timezone,
        timezone,
        used.timezone,
        form,
        groups,
        company,
        trnsmode,
        stations,
        timetbls,
        places,
        xfootnote,
    );
    let with_stations = sound_behind::are_rows_right(
        with_timezone,
        RowFile::Stations,
        stations,
        used.stations,
        form,
        country,
        timezone,
        places,
    );
    let with_footnote = sound_behind::are_groups_right(
        with_stations,
        GroupFile::Footnote,
        footnote,
        used.footnote,
        form,
        groups,
        company,
        trnsmode,
        stations,
        timetbls,
        places,
        xfootnote,
    );
    let with_changes = sound_behind::are_groups_right(
        with_footnote,
        GroupFile::Changes,
        changes,
        used.changes,
        form,
        groups,
        company,
        trnsmode,
        stations,
        timetbls,
        places,
        xfootnote,
    );
    let with_xfootnote = sound_behind::are_groups_right(
        with_changes,
        GroupFile::Xfootnote,
        xfootnote,
        used.xfootnote,
        form,
        groups,
        company,
        trnsmode,
        stations,
        timetbls,
        places,
        xfootnote,
    );
    let with_xchanges = sound_behind::are_groups_right(
        with_xfootnote,
        GroupFile::Xchanges,
        xchanges,
        used.xchanges,
        form,
        groups,
        company,
        trnsmode,
        stations,
        timetbls,
        places,
        xfootnote,
    );
    with_xchanges
}

// The form of a delivery, by its first line's row.
pub fn form_of(first: &[u64]) -> Form
    requires { 5 ≤ length first.now }
    ensures { result ≡ form_of first.now }
{
    let days = calendar::span(first[words::FIRST_DAY], first[words::LAST_DAY]);
    Form {
        days: days as usize,
        edition: Edition::Iff424,
    }
}

// The tables that are needed are there: the frames, TIMETBLS as a whole, the rows of the others, and DELIVERY's own company. CHANGES, whose rows name
// services, comes after TIMETBLS, whose services are in the index then, as far as they are not too many; those that CHANGES names are in any case.
// Where one of these had to be asked for, its number may stand where a row stood, and the slots are a hint and no longer an index. Where all are
// sound, whether the slots are an index of all services: a free slot says that a service is not there.
fn are_all_sound(
    delivery: &[u64],
    company: &[u64],
    country: &[u64],
    trnsmode: &[u64],
    timezone: &[u64],
    stations: &[u64],
    footnote: &[u64],
    timetbls: &[u64],
    changes: &[u64],
    xfootnote: &[u64],
    xchanges: &[u64],
    used: UsedRows,
    first: &[u64],
    places: &mut [u32],
) -> Option<bool>
    requires { Counted (eleven delivery.now company.now country.now trnsmode.now timezone.now stations.now footnote.now timetbls.now changes.now xfootnote.now xchanges.now) used
        × (first.now ≡ first_of (rows_in Delivery delivery.now)) × (5 ≤ length first.now)
        × (all_there (rows_of_tables (eleven delivery.now company.now country.now trnsmode.now timezone.now stations.now footnote.now timetbls.now changes.now xfootnote.now xchanges.now)) ≡ true) }
    ensures { SoundTold (eleven delivery.now company.now country.now trnsmode.now
        timezone.now stations.now footnote.now timetbls.now changes.now
        xfootnote.now xchanges.now) places.new result }
{
    let form = form_of(first);
    if !are_framed(
        delivery, company, country, trnsmode, timezone, stations, footnote, timetbls, changes,
        xfootnote, xchanges, used, first, form, places,
    ) {
        return None;
    }
    let blocks = references::BlockCounts {
        companies: used.company,
        modes: used.trnsmode,
        stations: used.stations,
        footnotes: used.footnote,
    };
    let (services, told) = sound_behind::judge_blocks(
        timetbls, first, form, blocks, company, trnsmode, stations, footnote, places,
    )?;
    let asked = named_places::index_in_rows(changes, used.changes, timetbls, services, places);
    if !are_right_behind(
        delivery, company, country, trnsmode, timezone, stations, footnote, timetbls, changes,
        xfootnote, xchanges, used, services, form, places,
    ) {
        return None;
    }
    if !lookups::names_at(
        File::Rows(RowFile::Company),
        company,
        used.company,
        places,
        first[words::OWN_COMPANY],
    ) {
        return None;
    }
    if asked {
        return Some(false);
    }
    Some(told)
}

// Soundness, with slots lent for the index of the keys, which may hold anything before and hold every key's row as a hint afterwards; and whether
// they are more than a hint for services.
pub fn tell_soundness(
    delivery: &[u64],
    company: &[u64],
    country: &[u64],
    trnsmode: &[u64],
    timezone: &[u64],
    stations: &[u64],
    footnote: &[u64],
    timetbls: &[u64],
    changes: &[u64],
    xfootnote: &[u64],
    xchanges: &[u64],
    places: &mut [u32],
) -> Option<bool>
    ensures { SoundTold (eleven delivery.now company.now country.now trnsmode.now
        timezone.now stations.now footnote.now timetbls.now changes.now
        xfootnote.now xchanges.now) places.new result }
{
    let used = count_rows(
        delivery, company, country, trnsmode, timezone, stations, footnote, changes, xfootnote,
        xchanges,
    );
    if !are_there(used, has_blocks(timetbls)) {
        return None;
    }
    let first = &delivery[0..6];
    are_all_sound(
        delivery, company, country, trnsmode, timezone, stations, footnote, timetbls, changes,
        xfootnote, xchanges, used, first, places,
    )
}

// The same, where only soundness is asked for.
pub fn is_sound_by(
    delivery: &[u64],
    company: &[u64],
    country: &[u64],
    trnsmode: &[u64],
    timezone: &[u64],
    stations: &[u64],
    footnote: &[u64],
    timetbls: &[u64],
    changes: &[u64],
    xfootnote: &[u64],
    xchanges: &[u64],
    places: &mut [u32],
) -> bool
    ensures { result ≡ are_sound (eleven delivery.now company.now country.now trnsmode.now
        timezone.now stations.now footnote.now timetbls.now changes.now
        xfootnote.now xchanges.now) }
{
    tell_soundness(
        delivery, company, country, trnsmode, timezone, stations, footnote, timetbls, changes,
        xfootnote, xchanges, places,
    )
    .is_some()
}
