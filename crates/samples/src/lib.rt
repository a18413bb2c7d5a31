//! Samples of runs, by computation.
#![tactic(auto)]

ghost use Rattle.samples.specs.Samples.{Stands};
ghost use Rattle.samples.specs.Table.{table};

/// Each sample comes out as its row of the table says: from the bytes of its image to quote, outcome, position, count,
/// names and imports.
pub fn samples()
    ensures { Stands table }
{}
