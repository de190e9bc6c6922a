// Document 01's Order: what may follow what in a group, and where a group may end.
#![tactic(auto)]

ghost use Rattle.std.specs.Prelude.{◌≡◌};
ghost use Rattle.iff_rules.specs.Order.{may_follow, in_group, one_vector, is_period, group_moves, may_end, ends_opened};

use iff::{GroupFile, GroupStand};

// A zone's period is `+` or `-`.
fn is_sign(tag: u64) -> bool
    ensures { result ≡ is_period tag }
{
    if tag == iff::tags::PLUS {
        return true;
    }
    tag == iff::tags::DASH
}

// A footnote has one vector, right after its `#`.
fn is_only_vector(stand: GroupStand, tag: u64) -> bool
    ensures { result ≡ one_vector stand tag }
{
    match stand {
        GroupStand::Opening => false,
        GroupStand::Opened => tag == iff::tags::LETTERLESS,
        GroupStand::Going => false,
    }
}

// A row with this tag may stand in a group behind its `#`.
fn may_stand(file: GroupFile, stand: GroupStand, tag: u64) -> bool
    ensures { result ≡ in_group file stand tag }
{
    match file {
        GroupFile::Timezone => is_sign(tag),
        GroupFile::Footnote => is_only_vector(stand, tag),
        GroupFile::Changes => tag == iff::tags::DASH,
        GroupFile::Xfootnote => is_only_vector(stand, tag),
        GroupFile::Xchanges => tag == iff::tags::DASH,
    }
}

// A row with this tag may come where a group stands.
pub fn may_follow(file: GroupFile, stand: GroupStand, tag: u64) -> bool
    ensures { result ≡ may_follow file stand tag }
{
    match stand {
        GroupStand::Opening => tag == iff::tags::HASH,
        GroupStand::Opened => may_stand(file, stand, tag),
        GroupStand::Going => may_stand(file, stand, tag),
    }
}

// Where a group stands after a row more.
pub fn group_moves(stand: GroupStand) -> GroupStand
    ensures { result ≡ group_moves stand }
{
    match stand {
        GroupStand::Opening => GroupStand::Opened,
        GroupStand::Opened => GroupStand::Going,
        GroupStand::Going => GroupStand::Going,
    }
}

// A group may end right after its `#`.
fn ends_opened(file: GroupFile) -> bool
    ensures { result ≡ ends_opened file }
{
    match file {
        GroupFile::Timezone => false,
        GroupFile::Footnote => false,
        GroupFile::Changes => true,
        GroupFile::Xfootnote => false,
        GroupFile::Xchanges => true,
    }
}

// A group may end here; where none was opened, nothing is missing.
pub fn may_end(file: GroupFile, stand: GroupStand) -> bool
    ensures { result ≡ may_end file stand }
{
    match stand {
        GroupStand::Opening => true,
        GroupStand::Opened => ends_opened(file),
        GroupStand::Going => true,
    }
}
