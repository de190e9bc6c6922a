// What no two rows of one group may share: periods of a zone that overlap, a pair of services, four keys and a footnote.
#![tactic(auto)]

ghost use Rattle.std.specs.Prelude.{◌≡◌, not, ◌+◌, ◌*◌, ◌≤◌, length};
ghost use Rattle.iff.specs.Lists.{any};
ghost use Rattle.iff.specs.Tables.{row_at, row_width};
ghost use Rattle.iff.specs.declared.File.TheVariants.{Groups};
ghost use Rattle.iff_rules.specs.Unique.{overlap, same_pair, same_exception, clash};
ghost use Rattle.keys.specs.Blocks.{rows_between};

use iff::{GroupFile, words};

// Two periods share a day.
fn overlaps(r: &[u64], e: &[u64]) -> bool
    requires { (4 ≤ length r.now) × (4 ≤ length e.now) }
    ensures { result ≡ overlap r.now e.now }
{
    let first = r[words::PERIOD_FIRST];
    let last = r[words::PERIOD_LAST];
    let from = e[words::PERIOD_FIRST];
    let to = e[words::PERIOD_LAST];
    if calendar::is_period(first, to) {
        return calendar::is_period(from, last);
    }
    false
}

// The same pair of services.
fn same_pair(r: &[u64], e: &[u64]) -> bool
    requires { (3 ≤ length r.now) × (3 ≤ length e.now) }
    ensures { result ≡ same_pair r.now e.now }
{
    if r[words::FROM_SERVICE] == e[words::FROM_SERVICE] {
        return r[words::TO_SERVICE] == e[words::TO_SERVICE];
    }
    false
}

// The same four keys and footnote.
fn same_exception(r: &[u64], e: &[u64]) -> bool
    requires { (7 ≤ length r.now) × (7 ≤ length e.now) }
    ensures { result ≡ same_exception r.now e.now }
{
    if r[words::FROM_COMPANY] != e[words::FROM_COMPANY] {
        return false;
    }
    if r[words::FROM_MODE] != e[words::FROM_MODE] {
        return false;
    }
    if r[words::TO_COMPANY] != e[words::TO_COMPANY] {
        return false;
    }
    if r[words::TO_MODE] != e[words::TO_MODE] {
        return false;
    }
    r[words::EXCEPTION_FOOTNOTE] == e[words::EXCEPTION_FOOTNOTE]
}

// Two rows of one group share what no two of them may.
pub fn clashes(file: GroupFile, r: &[u64], e: &[u64]) -> bool
    requires { (length r.now ≡ row_width (Groups file)) × (length e.now ≡ row_width (Groups file)) }
    ensures { result ≡ clash file r.now e.now }
{
    match file {
        GroupFile::Timezone => overlaps(r, e),
        GroupFile::Footnote => false,
        GroupFile::Changes => same_pair(r, e),
        GroupFile::Xfootnote => false,
        GroupFile::Xchanges => same_exception(r, e),
    }
}

// The row clashes with row `i` of a table.
fn clashes_at(file: GroupFile, t: &[u64], w: usize, i: usize, row: &[u64]) -> bool
    requires { (w ≡ row_width (Groups file)) × (i * w + w ≤ length t.now) × (length row.now ≡ w) }
    ensures { result ≡ clash file row.now (row_at w t.now i) }
{
    let from = i * w;
    let to = from + w;
    clashes(file, row, &t[from..to])
}

// The row clashes with none of the rows from `from` on and before `to`.
pub fn fresh_in_group(file: GroupFile, t: &[u64], from: usize, to: usize, row: &[u64]) -> bool
    requires { (to * row_width (Groups file) ≤ length t.now) × (length row.now ≡ row_width (Groups file)) }
    ensures { result ≡ not (any (clash file row.now) (rows_between (row_width (Groups file)) t.now from to)) }
{
    let w = tables::row_width(iff::File::Groups(file));
    for i in from..to {
        if clashes_at(file, t, w, i, row) {
            return false;
        }
    }
    true
}
