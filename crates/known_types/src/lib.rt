//! Types that were inferred before: a table from which the inference of a term in an environment and a context is taken again.
//!
//! What an inference takes of units and notes of uses depends neither on the units that are left nor on the uses that are noted, and more room changes
//! nothing (`run_costs`). So where a term was inferred with a result, another inference of it in the same environment and the same context, with as
//! much room and as many units, has that result, takes as many units, and notes the same uses: `Sited::known` gives it without the work
//! (`gives`), and `Sited::keep` puts it into the table.
//!
//! A site has stamps of an environment and of a context by which both are known again (`IsOf`); `Nowhere` knows nothing and keeps
//! nothing, and costs nothing. What a table has is true wherever its stamps are, so it lies behind a plain reference, and no clause speaks of what it has.
//!
//! Memory: a table has so many slots as it was made with, for one inference and for one longer context each; another one takes the place of what is
//! there. Each keeps a context, a term and its type alive.
//!
//! Below stand `pc_rules` (the directed rules), `run_costs` (what a run takes) and `stamps`, above inference of types and the test of erasable terms.
#![tactic(auto)]

mod below;
mod known;
mod marks;
pub mod site;
pub mod sited;
mod spending;
pub mod table;
pub mod typer;
mod world;
