// The files of a folder, read by name.
#![tactic(auto)]

ghost use Rattle.std.specs.Prelude.{length, take};
ghost use Rattle.text_puts.specs.Texts.{Front};
ghost use Rattle.folders.specs.Reads.{Opened, ReadFrom, Given, ReadAs};

use iff::File;
use std::fs;
use std::fs::Files;
use std::io::Read;

// Nothing is opened where the system opens nothing, nor where a path is not text: std opens no other.
fn open_at(files: &impl Files<File = fs::File>, path: &[u8]) -> Option<fs::File>
    ensures { Opened path.now result }
{
    match str::from_utf8(path) {
        Ok(text) => fs::open(files, text).ok(),
        Err(_) => None,
    }
}

// Reads until a buffer is full, the file ends or a read fails, and answers how many bytes.
fn read_full(file: &mut fs::File, buf: &mut [u8]) -> usize
    ensures { Front result buf.new }
{
    let mut done = 0;
    // A loop by hand: how many bytes a read gives is known only from its answer, so no range says it.
    while done < buf.len() {
        match file.read(&mut buf[done..]) {
            Ok(n) if n > 0 => done += n,
            _ => break,
        }
    }
    done
}

fn read_from(file: &mut fs::File, buf: &mut [u8]) -> usize
    ensures prefix_len { Front result buf.new }
    ensures read_from { ReadFrom file.old (length buf.old) (take result buf.new) }
{
    read_full(file, buf)
}

// Reads an opened file to its end, as far as a buffer has room, and closes it; nothing is read where none is.
fn read_opened(opened: Option<fs::File>, buf: &mut [u8]) -> usize
    ensures prefix_len { Front result buf.new }
    ensures given { Given opened (length buf.old) (take result buf.new) }
{
    match opened {
        Some(mut file) => read_from(&mut file, buf),
        None => 0,
    }
}

// Reads a file of a folder, whose path is empty or ends in `/`, into a buffer, and answers how many bytes. None where it cannot be opened.
pub fn read_named(
    files: &impl Files<File = fs::File>,
    file: File,
    folder: &[u8],
    buf: &mut [u8],
) -> usize
    ensures prefix_len { Front result buf.new }
    ensures read_as { ReadAs folder.now file (length buf.old) (take result buf.new) }
{
    let mut path = [0u8; 4096];
    let n = name_puts::put_path(folder, file, &mut path);
    let opened = open_at(files, &path[..n]);
    read_opened(opened, buf)
}
