//! Which terms are erasable (PCUIC: Sozeau et al., "Coq Coq Correct!", POPL 2020, section 4: erasable terms).
//!
//! `test::test` gives exactly what the directed test gives, with its units, uses of rules, refusals and nesting (`follows`): the first of the
//! four kinds of evidence that there is, or none. Evidence is answered only where there is evidence of that kind (`evidence`). The test of a
//! type, `endings::ends_in_sort`, goes through products in a loop.
//!
//! `test::test_in` does the same at a site, where types that were inferred before may be taken again; `anywhere` makes each `Typer` one that is asked at sites.
//!
//! Below stand `pc_rules` (the definitions, the traits `Typer` and `Reducer`), `known_types` (sites, and the trait `SiteTyper`), `rule_laws` (what evidence that is found means), `instances`
//! (entries of predicates, contexts under binders); above, the crate that erases.
#![tactic(auto)]

pub mod anywhere;
mod endings;
mod families;
pub mod test;
