// The toy models of rules 14.1 and 14.2, run. Writes a line for each call: what it was given, and what it answered.

#![tactic(auto)]

mod checks;
mod decoding;
mod encoding;
mod fragmenting;
mod normalising;
mod tables;
mod telling;

use std::io;

fn main(rt: HostRuntime) -> io::Result<()> {
    let mut to = rt.stdout();
    checks::run(&mut to)?;
    normalising::run(&mut to)?;
    encoding::run(&mut to)?;
    fragmenting::run(&mut to)?;
    decoding::run(&mut to)
}
