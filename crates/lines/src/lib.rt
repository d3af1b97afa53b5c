// A line of a program's output: a name, and whether it agrees with what was written down.
#![tactic(auto)]

use std::io;
use std::io::Write;

pub fn line<W: Write>(out: &mut W, name: &[u8], agrees: bool) -> io::Result<()> {
    out.write_all(name)?;
    out.write_all(if agrees { b" agrees\n" } else { b" differs\n" })
}
