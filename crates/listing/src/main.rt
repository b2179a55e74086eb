// The program: a noisy table on standard input, its listing on standard output.
#![tactic(auto)]

mod halt;
mod lines;
mod text;

use std::io;
use std::io::{Read, Write};
use text::listing;

fn main(rt: HostRuntime) -> io::Result<()> {
    let mut table = Vec::new(rt.alloc());
    rt.stdin().read_to_end(&mut table)?;
    let text = listing(rt.alloc(), table.as_slice())?;
    rt.stdout().write_all(text.as_slice())
}

#[cfg(test)]
mod tests;
