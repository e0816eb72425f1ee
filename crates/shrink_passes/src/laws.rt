//! Laws of the passes, whose clauses say what the definitions in `specs/` mean.
ghost use Rattle.shrink_passes.specs.ShrinkLaws.{DropIsRight, InlineIsRight};
ghost use Rattle.shrink_passes.specs.ShrunkProgram.{ShrunkForms, ShrunkKeeps, ShrunkRuns};

/// The program that `inline` answers has the form of programs, stays saturated and ordinary, gives the same data with no more counts, and is neither larger nor
/// deeper.
pub fn inlined_programs_are_right()
    ensures right { InlineIsRight }
{}

/// The program without the parameters of constants that are always box has the form of programs, stays saturated and ordinary, gives the same data with no more
/// counts, and is neither larger nor deeper.
pub fn dropped_programs_are_right()
    ensures right { DropIsRight }
{}

/// The program after all passes, from matches on proofs to parameters that are always box, has the form of programs, is saturated and ordinary, and is neither larger
/// nor deeper than the saturated program; where the saturated main gives data by evaluation with environments, so does its main, with no more counts; and where main evaluates by substitution to data with n nodes, its main gives that data with at most n contractions
/// and 2 * n blocks, none wider than the words of the program, and with as many matches as the saturated main by substitution.
pub fn shrunk_programs_run()
    ensures form { ShrunkForms }
    ensures keeps { ShrunkKeeps }
    ensures runs { ShrunkRuns }
{}
