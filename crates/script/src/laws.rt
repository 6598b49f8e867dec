//! What holds of every line that is gathered, and of every script.
ghost use Rattle.script.specs.Laws.{GathersLines, TellsMeaning, ReadsLines};

/// A buffer gathers a line byte by byte, and tells what the line means.
pub fn buffer_tells_meaning()
    ensures gathers { GathersLines }
    ensures tells { TellsMeaning }
{}

/// A script is read line by line: each line prints its answer, and the book goes where the line leads.
pub fn script_reads_lines()
    ensures { ReadsLines }
{}
