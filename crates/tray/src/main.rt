// The tray program: reads a tray file from standard input, and prints its report.
#![tactic(auto)]

use std::io;
use std::io::Write;

fn main(rt: HostRuntime) -> io::Result<()> {
    // one byte more than the longest file: it tells that bytes are left over
    let mut file = [0u8; report::LONGEST + 1];
    let n = streams::read_full(&mut rt.stdin(), &mut file)?;
    let mut text = [0u8; report::ROOM];
    let Ok(length) = report::report(&file[..n], &mut text) else {
        return Ok(());
    };
    rt.stdout().write_all(&text[..length])
}
