// A sheet can differ: W1 with a wrong sum, and with the right one after it.
#![tactic(auto)]

use lines::line;
use std::io;

fn main(rt: HostRuntime) -> io::Result<()> {
    let mut out = rt.stdout();
    line(&mut out, b"W1", worked::w1(13))?;
    line(&mut out, b"W1", worked::w1(12))?;
    Ok(())
}
