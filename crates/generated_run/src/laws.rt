//! Laws of generated runs. Each is the contract of a function with an empty body.
ghost use Rattle.generated_run.specs.GeneratedRun.{OneGeneratedLine, SmallRun};

/// Any two runs of a seed with so many tokens come to the same line.
pub fn one_generated_line()
    ensures { OneGeneratedLine }
{}

/// The run of a seed with two statements, and a line.
pub fn small_run()
    ensures { SmallRun }
{}
