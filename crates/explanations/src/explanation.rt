//! The explanations of refusals.
ghost use Rattle.std.specs.Prelude.{◌≡◌, ◌++◌, codes, decimal, slice_get, IfOk, Some};
ghost use Rattle.explanations.specs.Adding.{Adds};
ghost use Rattle.explanations.specs.Words.{words_of};
ghost use Rattle.explanations.specs.Explanation.{clash_lines, constraint_lines, constraint_text, explain_broken, explain_deep, explain_spent, kept_lines, line_end, name_at, uses_lines};

use crate::lines::{
    count_line, missing_line, number_line, place_line, relation_text, sort_line, term_line,
    text_at, text_line,
};
use crate::text::Text;
use dump_reader::environment::RawEnv;
use pc_rules::broken::{Broken, Clash, Place};
use pc_rules::meter::Account;
use std::alloc::{AllocError, Global};
use universe_levels::constraint::Constraint;

/// What a broken rule is in words.
#[tactic(auto, unfolding(crate::specs::Words::words_of))]
fn words(rule: &Broken) -> &'static [u8]
    ensures is { result.now ≡ words_of rule.now }
{
    match rule {
        Broken::UnboundRel { .. } => b"a variable has no binder",
        Broken::UnknownName { .. } => b"nothing that fits is declared by this name before",
        Broken::BadNumber { .. } => b"no family or constructor has this number",
        Broken::LevelUndeclared { .. } => b"a level is not declared",
        Broken::UniverseCycle { .. } => b"no levels meet these constraints together",
        Broken::NotASort { .. } => b"a type is asked for, and a term of another type stands there",
        Broken::NotAProduct { .. } =>
            b"a function is asked for, and a term of another type stands there",
        Broken::NotBelow { .. } => b"the type found is not the type asked for",
        Broken::CountWrong { .. } =>
            b"the number of parameters, names, branches or indices is wrong",
        Broken::NotTheFamily { .. } =>
            b"the scrutinee's type is not the match's family with all its arguments",
        Broken::ElimNotAllowed { .. } =>
            b"a match on a family in Prop has a sort that it may not have",
        Broken::NotEnoughAbstractions { .. } =>
            b"the body of a definition of a fixpoint begins with too few lambdas",
        Broken::NotGuarded { .. } =>
            b"a recursive call has too few arguments or one that is not smaller, or a body begins with too few lambdas",
        Broken::NotPositive { .. } => b"a constructor is not strictly positive",
        Broken::SortTooSmall { .. } =>
            b"the sort of a constructor's argument is greater than its family's",
        Broken::DuplicateName { .. } => b"the name is declared before",
        Broken::RecArgNotInductive { .. } => b"the type of a recursive argument is no family",
    }
}

/// Two numbers, with their labels.
fn two_numbers(out: &mut Text, first: &[u8], m: u32, second: &[u8], n: u32)
    ensures adds { Adds out.old out.new ((first.now ++ (decimal m ++ line_end)) ++ (second.now ++ (decimal n ++ line_end))) }
{
    number_line(out, first, m);
    number_line(out, second, n)
}

/// A constraint.
fn put_relation(out: &mut Text, raw: &RawEnv, c: Constraint)
    ensures adds { Adds out.old out.new (constraint_text raw.now (Some c)) }
{
    out.put(b"(");
    out.put(relation_text(c.relation));
    out.put(b" ");
    out.put(text_at(&raw.level_names, c.left.0));
    out.put(b" ");
    out.put(text_at(&raw.level_names, c.right.0));
    out.put(b")")
}

/// A constraint of the environment, by its place, if it is there.
fn put_constraint(out: &mut Text, raw: &RawEnv, i: u32)
    ensures adds { Adds out.old out.new (constraint_text raw.now (slice_get raw.now.constraints i)) }
{
    match raw.constraints.as_slice().get(i as usize) {
        Some(c) => put_relation(out, raw, *c),
        None => out.put(b""),
    }
}

/// A constraint of the environment, by its place, on a line.
fn constraint_line(out: &mut Text, raw: &RawEnv, i: u32)
    ensures adds { Adds out.old out.new (codes "constraint: " ++ (constraint_text raw.now (slice_get raw.now.constraints i) ++ line_end)) }
{
    out.put(b"constraint: ");
    put_constraint(out, raw, i);
    out.put(b"\n")
}

/// Constraints of the environment, by their places.
fn constraint_lines(out: &mut Text, raw: &RawEnv, places: &[u32])
    ensures adds { Adds out.old out.new (constraint_lines raw.now places.now) }
{
    for i in places {
        constraint_line(out, raw, *i);
    }
}

/// Two that differ: the one that is found, and the one that is asked for.
fn clash_lines(out: &mut Text, raw: &RawEnv, clash: &Clash)
    ensures adds { Adds out.old out.new (clash_lines raw.now clash.now) }
{
    match clash {
        Clash::Terms(found, asked) => {
            term_line(out, raw, b"found, where they differ", found);
            term_line(out, raw, b"asked for, where they differ", asked)
        }
        Clash::Sorts(found, asked) => {
            sort_line(out, raw, b"sort found: ", found.get());
            sort_line(out, raw, b"sort asked for: ", asked.get());
            out.put(
                b"needed: the first at most the second, or the same where types are to be equal\n",
            )
        }
    }
}

/// What a name that stands twice is.
fn twice<'a>(raw: &'a RawEnv, place: Place, name: u32) -> &'a [u8]
    ensures is { result.now ≡ name_at raw.now place name }
{
    match place {
        Place::Level(_) => text_at(&raw.level_names, name),
        _ => text_at(&raw.names, name),
    }
}

/// What a refusal keeps.
fn kept_lines(out: &mut Text, raw: &RawEnv, place: Place, rule: &Broken)
    ensures adds { Adds out.old out.new (kept_lines raw.now place rule.now) }
{
    match rule {
        Broken::UnboundRel { index, length } => {
            two_numbers(out, b"variable: ", *index, b"variables in scope: ", *length)
        }
        Broken::UnknownName { name } => text_line(out, b"name: ", text_at(&raw.names, name.0)),
        Broken::BadNumber { number, count } => {
            two_numbers(out, b"number: ", *number, b"there are: ", *count)
        }
        Broken::LevelUndeclared { level } => {
            text_line(out, b"level: ", text_at(&raw.level_names, level.0))
        }
        Broken::UniverseCycle { constraints } => constraint_lines(out, raw, constraints.as_slice()),
        Broken::NotASort { whnf } => term_line(out, raw, b"type found", whnf),
        Broken::NotAProduct { whnf } => term_line(out, raw, b"type found", whnf),
        Broken::NotBelow { clash } => clash_lines(out, raw, clash),
        Broken::CountWrong { want, got } => {
            two_numbers(out, b"asked for: ", *want, b"found: ", *got)
        }
        Broken::NotTheFamily { whnf } => term_line(out, raw, b"type found", whnf),
        Broken::ElimNotAllowed { family } => {
            text_line(out, b"family of: ", text_at(&raw.names, family.block.0));
            number_line(out, b"family: ", family.family)
        }
        Broken::NotEnoughAbstractions { def } => number_line(out, b"definition: ", *def),
        Broken::NotGuarded { argument } => term_line(out, raw, b"what stands there", argument),
        Broken::NotPositive { family, ctor } => {
            two_numbers(out, b"family: ", *family, b"constructor: ", *ctor)
        }
        Broken::SortTooSmall { argument, family } => {
            sort_line(out, raw, b"sort of the argument: ", argument.get());
            sort_line(out, raw, b"sort of the family: ", family.get());
            missing_line(out, raw, argument.get(), family.get())
        }
        Broken::DuplicateName { name } => text_line(out, b"name: ", twice(raw, place, *name)),
        Broken::RecArgNotInductive { whnf } => term_line(out, raw, b"type found", whnf),
    }
}

/// What explains that a rule is broken at a place. Only want of memory.
pub fn explain_broken(
    alloc: Global,
    raw: &RawEnv,
    place: Place,
    rule: &Broken,
) -> Result<Vec<u8>, AllocError>
    ensures text { IfOk result (λ v. v.items ≡ explain_broken raw.now place rule.now) }
{
    let mut out = Text::new(alloc);
    place_line(&mut out, raw, b"place: ", place);
    text_line(&mut out, b"rule: ", words(rule));
    kept_lines(&mut out, raw, place, rule);
    out.finish(alloc)
}

/// How often a rule was used.
fn use_line(out: &mut Text, rule: u32, uses: u64)
    ensures adds { Adds out.old out.new (codes "uses of rule " ++ (decimal rule ++ (codes " before: " ++ (decimal uses ++ line_end)))) }
{
    out.put(b"uses of rule ");
    out.put_number(rule);
    out.put(b" before: ");
    out.put_count(uses);
    out.put(b"\n")
}

/// How often each rule was used.
fn uses_lines(out: &mut Text, uses: &[u64; 12])
    ensures adds { Adds out.old out.new (uses_lines 1 uses.now) }
{
    for rule in 0..12 {
        use_line(out, rule + 1, uses[rule as usize]);
    }
}

/// What explains that the units are spent at a place, before which so many of them were taken. Only want of memory.
pub fn explain_spent(
    alloc: Global,
    raw: &RawEnv,
    taken: u64,
    place: Place,
    before: &Account,
) -> Result<Vec<u8>, AllocError>
    ensures text { IfOk result (λ v. v.items ≡ explain_spent raw.now taken place before.now) }
{
    let mut out = Text::new(alloc);
    place_line(&mut out, raw, b"place: ", place);
    count_line(&mut out, b"turns taken before: ", taken);
    uses_lines(&mut out, &before.uses);
    out.finish(alloc)
}

/// What explains that a limit is passed at a place. Only want of memory.
pub fn explain_deep(alloc: Global, raw: &RawEnv, place: Place) -> Result<Vec<u8>, AllocError>
    ensures text { IfOk result (λ v. v.items ≡ explain_deep raw.now place) }
{
    let mut out = Text::new(alloc);
    place_line(&mut out, raw, b"only where: ", place);
    out.finish(alloc)
}
