//! The planner: a plan file on standard input, and on standard output how much of each task's running comes in late.
#![tactic(auto)]

use analysis::{Count, Weight};
use arrayvec::ArrayVec;
use guarantees::slower_never_better;
use planfile::report;
use std::io;
use std::io::{Read, Write};

/// How many bytes of standard input are read at most.
const MOST: usize = 16384;

fn main(rt: HostRuntime) -> io::Result<()> {
    slower_never_better::<Count>();
    let mut file = ArrayVec::<u8, MOST>::new();
    io::copy(&mut rt.stdin().take(MOST as u64), &mut file)?;
    let mut page = [0u8; 512];
    let used = report(file.as_slice(), &mut page);
    let mut output = rt.stdout();
    output.write_all(&page[0..used])
}
