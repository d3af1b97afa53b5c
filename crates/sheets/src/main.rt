// The worked sheets W1 to W10 of document 01, run through the public calls: a line a sheet.
#![tactic(auto)]

use lines::line;
use std::io;

fn main(rt: HostRuntime) -> io::Result<()> {
    let mut out = rt.stdout();
    line(&mut out, b"W1", worked::w1(12))?;
    line(&mut out, b"W2", worked::w2())?;
    line(&mut out, b"W3", worked::w3())?;
    line(&mut out, b"W4", worked::w4())?;
    line(&mut out, b"W5", worked::w5())?;
    line(&mut out, b"W6", worked::w6())?;
    line(&mut out, b"W7", worked::w7())?;
    line(&mut out, b"W8", worked::w8())?;
    line(&mut out, b"W9", worked::w9())?;
    line(&mut out, b"W10", worked::w10())?;
    Ok(())
}
