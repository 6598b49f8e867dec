//! Worked examples of books and of what is answered about their jobs.
#![tactic(auto)]

ghost use Rattle.examples.specs.Worked.{WorkedExamples};

/// Each worked example stands: the definitions that the calls on a plan are proved against give its numbers.
pub fn worked_examples_stand()
    ensures { WorkedExamples }
{}
