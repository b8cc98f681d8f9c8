//! A worked example: where the scripts of 0 begin.

ghost use Rattle.gen_script.specs.Examples.{FirstDraw, FirstLines};

/// The first draw from 0, and the first five lines that it makes.
pub fn first_lines_of_zero()
    ensures draw { FirstDraw }
    ensures lines { FirstLines }
{}
