// The nearest table on a tree that adds up: the formulas, and what is proved of them. Each theorem stands on a function's contract.
#![tactic(auto)]

ghost use Rattle.inference.specs.Bounds.{Magnitudes};
ghost use Rattle.inference.specs.Nearest.{TreeNearest};
ghost use Rattle.inference.specs.TwoPass.{TwoPassStands};
ghost use Rattle.inference.specs.Worked.{Worked};

// The table of the formulas adds up, and every other table that adds up lies strictly farther from the counts.
pub fn nearest_stands()
    ensures { TreeNearest }
{}

// The formulas satisfy the published recurrences.
pub fn two_pass_stands()
    ensures { TwoPassStands }
{}

// With counts within a limit, no number on the way is larger than 65 times the denominator times that limit.
pub fn magnitudes_stand()
    ensures { Magnitudes }
{}

// The formulas give the tables that were worked through by hand.
pub fn worked_tables_stand()
    ensures { Worked }
{}
