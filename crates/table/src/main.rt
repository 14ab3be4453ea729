#![tactic(auto)]

use listing::write_report;
use std::io;

// Reads a rule table from standard input and says what is in it, or what is wrong with it.
fn main(rt: HostRuntime) -> io::Result<()> {
    write_report(rt.alloc(), &mut rt.stdin(), &mut rt.stdout())
}
