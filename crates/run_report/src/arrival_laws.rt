//! What holds for all lines.

ghost use Rattle.run_report.specs.Lines.{AreLinesWritable};

/// Each line of an arrival trace can be written, under the policy that judged it. Does nothing.
pub fn lines_are_writable()
    ensures { AreLinesWritable }
{}
