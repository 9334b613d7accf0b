// Cases over a keeper in memory: they are read from standard input, played, and what differs is written.
#![tactic(auto)]

use dv_cases::play_from;
use stands::MemoryStand;
use std::io;
use std::process::ExitCode;

mod stands;

fn main(rt: HostRuntime) -> io::Result<ExitCode> {
    let mut stand = MemoryStand::new(rt.alloc());
    play_from(&rt, rt.alloc(), rt.reader(), &mut rt.stdout(), &mut stand)
}
