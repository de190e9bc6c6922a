// The size of one file, tested before any file is read: its length, its presence, and its table's room.
#![tactic(auto)]

ghost use Rattle.std.specs.Prelude.{◌≡◌, Bool, ltb, length};
ghost use Rattle.iff.specs.Files.{needed};
ghost use Rattle.iff.specs.Refusals.{or_else};
ghost use Rattle.iff.specs.Lines.{lines};
ghost use Rattle.iff.specs.declared.GroupFile.TheVariants.{Xchanges};
ghost use Rattle.iff.specs.declared.File.{File};
ghost use Rattle.iff.specs.declared.File.TheVariants.{Groups};
ghost use Rattle.iff_rules.specs.Load.{absence_verdict, room_verdict};
ghost use Rattle.size_tests.specs.Lengths.{length_within};

use iff::{File, GroupFile, Reason, Verdict};

// Each test hands a fault before it on, so that the first fault of several is what the last of them answers.

// 1: a file is too long.
pub fn length_test(v: Verdict, most: usize, file: File, n: usize) -> Verdict
    ensures { result ≡ or_else v (length_within most file n) }
{
    match v {
        Err(_) => v,
        Ok(()) => {
            if n <= most {
                return Ok(());
            }
            Err(iff::Fault {
                reason: Reason::TooLong,
                place: Some(iff::Place {
                    file,
                    ordinal: 0,
                    line: 0,
                }),
            })
        }
    }
}

// The last three may be absent, XFOOTNOTE only where XCHANGES is.
pub fn is_needed(xchanges: bool, file: File) -> bool
    ensures { (there : File → Bool) → there (Groups Xchanges) ≡ xchanges → result ≡ needed there file }
{
    match file {
        File::Delivery => true,
        File::Rows(_) => true,
        File::Groups(group) => match group {
            GroupFile::Timezone => true,
            GroupFile::Footnote => true,
            GroupFile::Changes => false,
            GroupFile::Xfootnote => xchanges,
            GroupFile::Xchanges => false,
        },
        File::Timetbls => true,
    }
}

// 3: a file that is needed is absent.
pub fn absence_test(v: Verdict, xchanges: bool, file: File, n: usize) -> Verdict
    ensures { (there : File → Bool) → there (Groups Xchanges) ≡ xchanges → there file ≡ ltb 0 n → result ≡ or_else v (absence_verdict there file) }
{
    match v {
        Err(_) => v,
        Ok(()) => {
            if is_needed(xchanges, file) {
                if n == 0 {
                    return Err(iff::Fault {
                        reason: Reason::Absent,
                        place: Some(iff::Place {
                            file,
                            ordinal: 0,
                            line: 0,
                        }),
                    });
                }
                return Ok(());
            }
            Ok(())
        }
    }
}

// 2: a table has no room for a file's lines. They are counted only where no fault came before.
pub fn room_test(v: Verdict, file: File, text: &[u8], words: usize) -> Verdict
    ensures { result ≡ or_else v (room_verdict file (length (lines text.now)) words) }
{
    match v {
        Err(_) => v,
        Ok(()) => {
            let count = line_counts::count_lines(text);
            let room = tables::room(file, words);
            if count <= room {
                return Ok(());
            }
            Err(iff::Fault {
                reason: Reason::NoRoom,
                place: Some(iff::Place {
                    file,
                    ordinal: 0,
                    line: 0,
                }),
            })
        }
    }
}
