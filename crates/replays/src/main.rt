// Replays a list of answers that others gave against the forms, and says for each kind of line how many there are and how many agree, and
// how many altered lines there are and are refused.
#![tactic(auto)]

use lists::replay::{replay_input, verdict_of};
use std::io;

fn main(rt: HostRuntime) -> io::Result<()> {
    let tally = replay_input(&rt, rt.alloc(), &mut rt.stdin(), verdict_of)?;
    println!(rt; "{tally}")
}
