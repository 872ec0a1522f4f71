// Replays a list of another implementation's answers against the forms, and says for each kind of line how many there are and how many agree, and
// how many altered lines there are and are refused.
#![tactic(auto)]

mod rows;
mod verdict;

use crate::rows::Rows;
use crate::verdict::verdict_of;
use lists::replay::replay_input;
use std::io;

fn main(rt: HostRuntime) -> io::Result<()> {
    let rows = Rows(replay_input(&rt, rt.alloc(), &mut rt.stdin(), verdict_of)?);
    println!(rt; "{rows}")
}
