// The check program over numbered folders, 01 to 65: two lines for each. tools/write-cases has what stands in them.
#![tactic(auto)]

use std::fs::Files;
use std::{fs, io};

const CASES: u8 = 65;

fn check_case(rt: &(impl Files<File = fs::File> + Print), number: u8) -> io::Result<()> {
    let folder = [48 + number / 10, 48 + number % 10, b'/'];
    println!(rt; "IFF 4.2.4")?;
    let mut line = [0u8; 80];
    let n = checking::check_folder(rt, &folder, &mut line);
    rt.write_all(&line[..n])
}

fn main(rt: HostRuntime) -> io::Result<()> {
    for number in 1..=CASES {
        check_case(&rt, number)?;
    }
    Ok(())
}
