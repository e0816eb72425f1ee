//! Weak-head reduction by closures and a stack (Krivine's machine, with read-back), with units.
//!
//! A term stands under bindings of its innermost variables (`bindings`): so a step copies no body. From the focus the machine goes inwards to a
//! head (`machine`, `heads`); what is passed by lies in a vector of frames; where the head has no step, it goes outwards frame by frame
//! (`meeting`), till a step is found (`steps`) or nothing is left. What was found then is a value (`values`): a head with its arguments, or a
//! match or a fixpoint that is stuck on such a spine below it (`spines`), of which nothing is read (`weak`). It can be looked at (`seen`), and
//! read back (`reading`): closed parts and parts under no bindings as the shared terms that they were, and what a variable is bound to once,
//! however often it occurs: it is kept beside its binding (`memo`). A term whose head shows that it has no step is a value at once (`quick`).
//! Where a variable's term was reduced to a constructor with arguments, or to a term that stands by itself, that is kept with the units that this
//! took, if there is memory (`reducts`): where the variable is met again, the units are taken, and nothing is reduced. A call keeps at most one
//! binding, with one term that was read, for each variable that its steps bound; they are let go of with the value. Besides it keeps at most 65,536
//! entries of a table, each with one binding for each argument of the constructor that it is; they are let go of when the table is, a full table
//! is emptied, or another takes the place of one whose binding has gone. What is kept no clause says. The table of `Closures` lives for one call;
//! the arguments of a value are often reduced next, as by a comparison, and where that is asked for, the table is put away and used there (`setting`).
//!
//! What is promised: `Setting::weak_value` follows the directed rules exactly, units, `Spent` and `TooDeep` included (`follows`); its value has no step
//! (`normal`), is joined to the term by weak-head steps (`reached`), and is beyond the limits of terms only where the run has passed them
//! (`beyond`). `Closures` implements `Reducer` of `pc_rules`, as `Subst` of `reduction` does, by reading such a value (`follows`, `reached`).
//! No unit is taken for reading back, nor for a look-up in bindings but those of the steps to what is known of the variable.
//!
//! Below stand `stamps` (what was read is known again by its binding's), `pc_terms`, `calculus_rules`, `pc_rules`, `redexes` (unfolded bodies,
//! look-ups) and `reduction` (laws of weak-head steps in a frame); above stand the jobs.
#![tactic(auto)]

pub mod bindings;
pub mod closures;
mod frames;
mod heads;
mod machine;
mod meeting;
pub mod memo;
mod quick;
pub mod reading;
mod reducts;
pub mod seen;
pub mod setting;
pub mod spines;
mod steps;
pub mod values;
mod weak;
