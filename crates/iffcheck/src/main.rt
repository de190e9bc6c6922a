// The check program: reads the eleven files by name from its folder and prints two lines.
#![tactic(auto)]

use std::io;

fn main(rt: HostRuntime) -> io::Result<()> {
    println!(rt; "IFF 4.2.4")?;
    let mut line = [0u8; 80];
    let n = checking::check_folder(&rt, b"", &mut line);
    rt.write_all(&line[..n])
}
