//! Laws of both passes that no call's contract names.
ghost use Rattle.box_passes.specs.PropMatch.{PropMatchSizes};
ghost use Rattle.box_passes.specs.SaturateLaws.{SaturatedWidths, SameMatches};
ghost use Rattle.box_passes.specs.PassLaws.{PassesForm, PassesCount};

/// No term gets more nodes, or deeper, or a place under more binders, when its matches on propositional families are dropped.
pub fn prop_match_is_no_larger()
    ensures sizes { PropMatchSizes }
{}

/// No evaluation of the saturated main makes a block of more words than the program has.
pub fn saturated_blocks_are_narrow()
    ensures widths { SaturatedWidths }
{}

/// Both evaluations of a saturated program, by substitution and with environments, have the same number of matches.
pub fn both_evaluations_have_the_same_matches()
    ensures matches { SameMatches }
{}

/// The program after both passes has the form of programs, is saturated, has ordinary matches alone, and is small.
pub fn passes_keep_form()
    ensures form { PassesForm }
{}

/// Where main evaluates to data with n nodes, the main after both passes gives that data, with counts that n bounds.
pub fn passes_keep_data_and_counts()
    ensures counts { PassesCount }
{}
