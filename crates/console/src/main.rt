//! The console: a script of calls on standard input, one a line, and their answers on standard output.
#![tactic(auto)]

use analysis::{Count, Heaviest, Possible, Weight};
use anyhow::anyhow;
use guarantees::slower_never_better;
use script::{Reading, ScriptBook, script_reads_lines};
use std::env;
use std::io::{Read, Write};

/// How many bytes of standard input are read at a time.
const CHUNK: usize = 4096;

/// Whether charts are wanted: no argument is other than `--chart`, and there is one.
fn wants_chart(rt: &HostRuntime) -> anyhow::Result<bool> {
    if env::args(rt)?
        .skip(1)
        .any(|word| word.as_str() != "--chart")
    {
        eprintln!(rt; "usage: console [--chart] < SCRIPT")?;
        return Err(anyhow!("an argument that is not --chart"));
    }
    Ok(env::args(rt)?.nth(1).is_some())
}

/// Answers the lines of standard input.
fn run(rt: &HostRuntime, chart: bool) -> anyhow::Result<()> {
    let mut input = rt.stdin();
    let mut output = rt.stdout();
    let mut chunk = [0u8; CHUNK];
    let mut book = ScriptBook::new();
    let mut reading = Reading::new(chart);
    let mut out = Vec::new(rt.alloc());
    // Stays: no plainer otherwise: `lines` would refuse bytes that are no text and hold a line of any length; for chunks of bytes std has no iterator.
    for _ in 0..u64::MAX {
        let n = input.read(&mut chunk)?;
        if n == 0 {
            break;
        }
        book = reading.take(book, &chunk[0..n], &mut out)?;
        output.write_all(&out)?;
        out.clear();
    }
    reading.finish(book, &mut out)?;
    output.write_all(&out)?;
    Ok(())
}

fn main(rt: HostRuntime) -> anyhow::Result<()> {
    slower_never_better::<Count>();
    slower_never_better::<Possible>();
    slower_never_better::<Heaviest>();
    script_reads_lines();
    let chart = wants_chart(&rt)?;
    run(&rt, chart)
}
