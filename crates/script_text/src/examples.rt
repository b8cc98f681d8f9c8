//! Worked examples: texts, with the script or the fault of each.

ghost use Rattle.script_text.specs.Examples.{BothFormats, Faults};

/// Each kind of line, in a script of format 1 and in one of format 2.
pub fn both_formats()
    ensures { BothFormats }
{}

/// Each kind of fault, with its line.
pub fn faults()
    ensures { Faults }
{}
