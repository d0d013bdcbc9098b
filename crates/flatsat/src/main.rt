// The tester's program: plays the script on standard input and prints what each call answers.
// Format: docs/SCRIPT.md. All that it prints is the text that `play` makes; what that text is, specs/Plays.antt says.
#![tactic(auto)]

mod audit;
mod play;

use play::play;
use std::io;
use std::io::{Read, Write};

fn main(rt: HostRuntime) -> io::Result<()> {
    let mut script = Vec::new(rt.alloc());
    rt.stdin().read_to_end(&mut script)?;
    let text = play(rt.alloc(), &script)?;
    rt.stdout().write_all(&text)
}
