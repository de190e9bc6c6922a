// Document 01's Order: what a first byte is, in a group and in a block.
#![tactic(auto)]

ghost use Rattle.std.specs.Prelude.{◌≡◌};
ghost use Rattle.iff.specs.Lists.{has};
ghost use Rattle.iff_rules.specs.Order.{group_tag, vector_tag, known_in_group, known_in_block};

use iff::GroupFile;

// A byte is one of some.
fn has_byte(bytes: &[u8], b: u8) -> bool
    ensures { result ≡ has b bytes.now }
{
    bytes.contains(&b)
}

// A first byte that a file of groups knows.
pub fn is_known_in_group(file: GroupFile, letter: u8) -> bool
    ensures { result ≡ known_in_group file letter }
{
    match file {
        GroupFile::Timezone => has_byte(b"@#+-", letter),
        GroupFile::Footnote => has_byte(b"@#01", letter),
        GroupFile::Changes => has_byte(b"@#-", letter),
        GroupFile::Xfootnote => has_byte(b"@#01", letter),
        GroupFile::Xchanges => has_byte(b"@#-", letter),
    }
}

// A first byte that TIMETBLS knows.
pub fn is_known_in_block(letter: u8) -> bool
    ensures { result ≡ known_in_block letter }
{
    has_byte(b"@#%-&*>.+;<?", letter)
}

// The tag of a row of a vectors' file: a vector has no letter.
fn vector_tag(letter: u8) -> u64
    ensures { result ≡ vector_tag letter }
{
    match letter {
        b'#' => iff::tags::HASH,
        b'@' => iff::tags::AT,
        _ => iff::tags::LETTERLESS,
    }
}

// The first word of a group's row: the letter, or 1 where the record has none.
pub fn group_tag(file: GroupFile, letter: u8) -> u64
    ensures { result ≡ group_tag file letter }
{
    match file {
        GroupFile::Timezone => letter as u64,
        GroupFile::Footnote => vector_tag(letter),
        GroupFile::Changes => letter as u64,
        GroupFile::Xfootnote => vector_tag(letter),
        GroupFile::Xchanges => letter as u64,
    }
}
