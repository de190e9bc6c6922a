// The names of files, and the paths that the check program opens, put together as text in a lent buffer. What has no room is cut off.
#![tactic(auto)]

ghost use Rattle.iff.specs.Files.{row_file_name, group_file_name, file_name};
ghost use Rattle.text_puts.specs.Texts.{Appended, Front};
ghost use Rattle.name_puts.specs.Paths.{path_of};

use iff::{File, GroupFile, RowFile};
use text_puts::put_bytes;

#[tactic(auto, unfolding(iff::specs::Bytes::bytes))]
fn put_row_name(out: &mut [u8], at: usize, file: RowFile) -> usize
    ensures { Appended out.old at (row_file_name file) out.new result }
{
    match file {
        RowFile::Company => put_bytes(out, at, b"COMPANY"),
        RowFile::Country => put_bytes(out, at, b"COUNTRY"),
        RowFile::Trnsmode => put_bytes(out, at, b"TRNSMODE"),
        RowFile::Stations => put_bytes(out, at, b"STATIONS"),
    }
}

#[tactic(auto, unfolding(iff::specs::Bytes::bytes))]
fn put_group_name(out: &mut [u8], at: usize, file: GroupFile) -> usize
    ensures { Appended out.old at (group_file_name file) out.new result }
{
    match file {
        GroupFile::Timezone => put_bytes(out, at, b"TIMEZONE"),
        GroupFile::Footnote => put_bytes(out, at, b"FOOTNOTE"),
        GroupFile::Changes => put_bytes(out, at, b"CHANGES"),
        GroupFile::Xfootnote => put_bytes(out, at, b"XFOOTNOTE"),
        GroupFile::Xchanges => put_bytes(out, at, b"XCHANGES"),
    }
}

#[tactic(auto, unfolding(iff::specs::Bytes::bytes))]
pub fn put_name(out: &mut [u8], at: usize, file: File) -> usize
    ensures { Appended out.old at (file_name file) out.new result }
{
    match file {
        File::Delivery => put_bytes(out, at, b"DELIVERY"),
        File::Rows(f) => put_row_name(out, at, f),
        File::Groups(f) => put_group_name(out, at, f),
        File::Timetbls => put_bytes(out, at, b"TIMETBLS"),
    }
}

// The path of a file in a folder, at the front of a buffer.
#[tactic(auto, using(text_puts::proofs::TextLaws::then, text_puts::proofs::TextLaws::at_front))]
pub fn put_path(folder: &[u8], file: File, out: &mut [u8]) -> usize
    ensures front { Front result out.new }
    ensures appended { Appended out.old 0 (path_of folder.now file) out.new result }
{
    let to = put_bytes(out, 0, folder);
    put_name(out, to, file)
}
