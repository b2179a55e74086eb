// The program: a script of calls on a tree sheet on standard input, the outcome of each on standard output.
#![tactic(auto)]

mod call;
mod digits;
mod mistake;
mod outcome;
mod play;
mod script;
mod word;

use play::{Stop, play_script};
use std::io::Read;

fn main(rt: HostRuntime) -> Result<(), Stop> {
    let mut text = Vec::new(rt.alloc());
    rt.stdin().read_to_end(&mut text)?;
    match play_script(rt.alloc(), text.as_slice()) {
        Ok(lines) => {
            rt.print(lines)?;
            Ok(())
        }
        Err(Stop::Wrong(trouble)) => {
            rt.println(trouble)?;
            Err(Stop::Wrong(trouble))
        }
        Err(stop) => Err(stop),
    }
}
