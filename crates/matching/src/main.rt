//! Puts the same questions to the proved book and to a simulator, and to pairs of books of which one is worse, and says how many
//! answers differ.
#![tactic(auto)]

mod asks;
mod books;
mod compare;
mod edits;
mod examples;
mod figures;
mod generator;
mod matches;
mod pairs;
mod questions;
mod rules;
mod sides;
mod sims;
mod tables;
mod tally;
mod worked;

use figures::print_figures;
use generator::Generator;
use matches::MatchTallies;
use std::io;
use tally::{KINDS, Refusals, Tallies, Tally};
use worked::work_examples;

/// Prints a group's line.
fn print_tally(rt: &HostRuntime, name: &str, tally: &Tally) -> io::Result<()> {
    let asked = tally.asked;
    let answered = tally.answered;
    let differ = tally.differ;
    println!(rt; "{name}: {asked} asked, {answered} answered, {differ} differ")
}

/// Prints a line for each group, after `prefix`; `word` says what the counted late answers are.
fn print_groups(rt: &HostRuntime, prefix: &str, word: &str, groups: &Tallies) -> io::Result<()> {
    print!(rt; "{prefix}")?;
    print_tally(rt, "edits", &groups.edits)?;
    for (tally, (_, name)) in groups.exact.iter().zip(KINDS) {
        print_late(rt, prefix, name, word, tally)?;
    }
    print_late(rt, prefix, "rounded", word, &groups.rounded)?;
    print_late(rt, prefix, "task", word, &groups.task)
}

/// Prints a group's line, with how many answers are late, or later.
fn print_late(
    rt: &HostRuntime,
    prefix: &str,
    name: &str,
    word: &str,
    tally: &Tally,
) -> io::Result<()> {
    let asked = tally.asked;
    let answered = tally.answered;
    let late = tally.late;
    let differ = tally.differ;
    println!(rt;
        "{prefix}{name}: {asked} asked, {answered} answered, {late} {word}, {differ} differ"
    )
}

/// Prints how many questions had too many scenarios or too large numbers.
fn print_skipped(rt: &HostRuntime, tallies: &MatchTallies) -> io::Result<()> {
    let questions = tallies.groups.exact[0].skipped;
    let numbers = tallies.close.skipped;
    println!(rt;
        "passed over: {questions} jobs with too many scenarios, {numbers} with numbers above 128 bits"
    )
}

/// Prints how often each refusal came.
fn print_refusals(rt: &HostRuntime, refusals: &Refusals) -> io::Result<()> {
    for (number, times) in refusals.times.iter().enumerate().skip(1) {
        println!(rt; "refused with {number}: {times} times")?;
    }
    Ok(())
}

/// Puts generated books and questions to both sides, and prints how many answers differ.
fn print_matches(rt: &HostRuntime) -> io::Result<()> {
    let mut tallies = MatchTallies::default();
    tallies.run_all(&mut Generator::new(1), 3000);
    print_groups(rt, "", "late", &tallies.groups)?;
    print_late(rt, "", "close", "late", &tallies.close)?;
    print_skipped(rt, &tallies)?;
    print_refusals(rt, &tallies.refusals)
}

/// Makes runs of calls on two books, and prints how often the worse one answered better.
fn print_pairs(rt: &HostRuntime) -> io::Result<()> {
    let mut groups = Tallies::default();
    groups.run_pairs(&mut Generator::new(2), 400);
    print_groups(rt, "never better, ", "later", &groups)
}

fn main(rt: HostRuntime) -> io::Result<()> {
    print_tally(&rt, "worked examples", &work_examples())?;
    print_matches(&rt)?;
    print_pairs(&rt)?;
    print_figures(&rt)
}
