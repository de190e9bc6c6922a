// TIMETBLS and the files after it, read in order, each into its own cleared table.
#![tactic(auto)]

ghost use Rattle.std.specs.Prelude.{◌≡◌, true};
ghost use Rattle.iff.specs.Refusals.{fine};
ghost use Rattle.last_files.specs.Lasts.{four, LastsReady, LastsRead};

use iff::{Form, GroupFile, Verdict};

// What is known after them: the first fault, and where there is none how many services TIMETBLS has.
#[derive(Clone, Copy)]
pub struct LastFiles {
    pub verdict: Verdict,
    pub services: u64,
}

// Where a file names nothing in the others, what is lent to its reader is not looked at.
pub fn read_last_files(
    v: Verdict,
    form: Form,
    header: &[u8],
    timetbls: &[u8],
    changes: &[u8],
    xfootnote: &[u8],
    xchanges: &[u8],
    t_timetbls: &mut [u64],
    t_changes: &mut [u64],
    t_xfootnote: &mut [u64],
    t_xchanges: &mut [u64],
    companies: &[u64],
    modes: &[u64],
    stations: &[u64],
    footnotes: &[u64],
) -> LastFiles
    requires { fine v ≡ true → LastsReady (four timetbls.now changes.now xfootnote.now xchanges.now)
        (four t_timetbls.old t_changes.old t_xfootnote.old t_xchanges.old) }
    ensures { LastsRead form header.now companies.now modes.now stations.now footnotes.now
        (four timetbls.now changes.now xfootnote.now xchanges.now)
        v
        (four t_timetbls.old t_changes.old t_xfootnote.old t_xchanges.old)
        (four t_timetbls.new t_changes.new t_xfootnote.new t_xchanges.new)
        result }
{
    let blocks = timetbls::read_timetbls(
        v, form, timetbls, header, t_timetbls, companies, modes, stations, footnotes,
    );
    let v1 = blocks.verdict;
    let service_rows = blocks.rows;
    let v2 = group_files::read_group_file(
        GroupFile::Changes,
        v1,
        form,
        changes,
        header,
        t_changes,
        companies,
        modes,
        stations,
        t_timetbls,
        t_xfootnote,
        service_rows,
    );
    let v3 = group_files::read_group_file(
        GroupFile::Xfootnote,
        v2,
        form,
        xfootnote,
        header,
        t_xfootnote,
        companies,
        modes,
        stations,
        t_timetbls,
        footnotes,
        service_rows,
    );
    let v4 = group_files::read_group_file(
        GroupFile::Xchanges,
        v3,
        form,
        xchanges,
        header,
        t_xchanges,
        companies,
        modes,
        stations,
        t_timetbls,
        t_xfootnote,
        service_rows,
    );
    LastFiles {
        verdict: v4,
        services: blocks.services,
    }
}
