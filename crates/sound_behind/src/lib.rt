// The rows behind first lines', file by file: each function hands a refusal on, and a table without rows has nothing to be tested. TIMETBLS, whose rows
// are most of a delivery's, is gone through once, for its frame too.
#![tactic(auto)]

ghost use Rattle.std.specs.Prelude.{◌≡◌, ◌&&◌, ◌≤◌, ◌<◌, length};
ghost use Rattle.iff.specs.Tables.{rows_in};
ghost use Rattle.iff.specs.declared.File.TheVariants.{Rows, Groups, Timetbls};
ghost use Rattle.iff_rules.specs.Rows.{Context};
ghost use Rattle.references.specs.Agree.{StationKeys, GroupKeysAmong};
ghost use Rattle.sound_behind.specs.Behind.{behind, BlocksJudged};

use iff::{File, Form, GroupFile, RowFile, tags, words};

// A file of rows.
pub fn are_rows_right(
    so_far: bool,
    file: RowFile,
    t: &[u64],
    used: usize,
    form: Form,
    countries: &[u64],
    zones: &[u64],
    places: &[u32],
) -> bool
    requires { used ≡ length (rows_in (Rows file) t.now) }
    ensures { (c : Context) → c.form ≡ form → StationKeys c countries.now zones.now
        → result ≡ (so_far && behind c (Rows file) (rows_in (Rows file) t.now)) }
{
    if !so_far {
        return false;
    }
    if used == 0 {
        return true;
    }
    sound_rows::are_rows_sound(file, t, used, form, countries, zones, places)
}

// A file of groups.
pub fn are_groups_right(
    so_far: bool,
    file: GroupFile,
    t: &[u64],
    used: usize,
    form: Form,
    counts: references::GroupCounts,
    companies: &[u64],
    modes: &[u64],
    stations: &[u64],
    services: &[u64],
    places: &[u32],
    xfootnotes: &[u64],
) -> bool
    requires { used ≡ length (rows_in (Groups file) t.now) }
    ensures { (c : Context) → c.form ≡ form
        → GroupKeysAmong c counts companies.now modes.now stations.now services.now
        xfootnotes.now
        → result ≡ (so_far && behind c (Groups file) (rows_in (Groups file) t.now)) }
{
    if !so_far {
        return false;
    }
    if used == 0 {
        return true;
    }
    sound_groups::are_groups_sound(
        file, t, used, form, counts, companies, modes, stations, services, places, xfootnotes,
    )
}

// TIMETBLS, its frame with it: its rows are counted and what is told of its services is told where its blocks are tested. Where it is right, how
// many of its rows are in use, and whether all of its services are in the index.
pub fn judge_blocks(
    t: &[u64],
    delivery: &[u64],
    form: Form,
    counts: references::BlockCounts,
    companies: &[u64],
    modes: &[u64],
    stations: &[u64],
    footnotes: &[u64],
    places: &mut [u32],
) -> Option<(usize, bool)>
    requires { (0 < length (rows_in Timetbls t.now)) × (5 ≤ length delivery.now) }
    ensures { BlocksJudged counts companies.now modes.now stations.now footnotes.now
        form delivery.now t.now places.new result }
{
    if tables::word_or_zero(t, words::TAG) != tags::AT {
        return None;
    }
    let blocks = sound_timetbls::are_blocks_sound(
        t, counts, companies, modes, stations, footnotes, places,
    )?;
    if !tables::zero_from(t, blocks.rows * tables::BLOCK_WIDTH) {
        return None;
    }
    if !sound_frames::are_rows_framed_by(
        File::Timetbls,
        t,
        blocks.rows,
        delivery,
        form,
        blocks.rise,
    ) {
        return None;
    }
    Some((blocks.rows, blocks.indexed))
}
