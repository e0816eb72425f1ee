//! Whether two values are one tree: by their heads, and their arguments one by one.
ghost use Rattle.std.specs.Prelude.{◌≡◌, ◌↔◌, IsTrue, IfOk, IfErr};
ghost use Rattle.trees.specs.Measures.{IsBeyond};
ghost use Rattle.pc_terms.specs.Syntax.{head};
ghost use Rattle.pc_terms.specs.declared.term.MakeFault.TheVariants.{TooDeep};
ghost use Rattle.reduce_machine.specs.Layers.{IsMatchNode};
ghost use Rattle.reduce_machine.specs.Reads.{read};
ghost use Rattle.reduce_machine.specs.Seen.{argument_term, seen_term, IsSeen};
ghost use Rattle.lazy_conversion.specs.Sound.{IsSeenArgument};
ghost use Rattle.lazy_conversion.specs.Stuck.{match_term};
ghost use Rattle.lazy_conversion.specs.Tracks.{EitherBeyond};

use crate::part::Part;
use crate::sameness::{same_around, same_parts};
use crate::spine_heads::code;
use crate::stuck::{Stuck, stuck_match};
use pc_terms::term::{MakeFault, Term};
use reduce_machine::bindings::Lazy;
use reduce_machine::seen::{Argument, Seen};
use std::alloc::Global;

/// Whether two terms under bindings are one tree. `TooDeep` only where both are beyond the limits of terms.
fn same_lazies(a: &Lazy, b: &Lazy) -> Result<bool, MakeFault>
    ensures ok { IfOk result (λ r. IsTrue r ↔ (read a.now ≡ read b.now)) }
    ensures too_deep { IfErr result (λ e. e ≡ TooDeep → EitherBeyond (read a.now) (read b.now)) }
{
    let left = Part {
        term: &a.term,
        under: 0,
        env: &a.env,
    };
    let right = Part {
        term: &b.term,
        under: 0,
        env: &b.env,
    };
    same_parts(left, right)
}

/// The term of an argument.
fn read_argument(alloc: Global, a: Argument<'_>) -> Result<Term, MakeFault>
    requires { IsSeenArgument a }
    ensures ok { IfOk result (λ t. t ≡ argument_term a.entry) }
    ensures too_deep { IfErr result (λ e. e ≡ TooDeep → IsBeyond (argument_term a.entry)) }
{
    match a {
        Argument::Lazy(l) => l.read(alloc),
        Argument::Value(seen) => seen.read(alloc),
    }
}

/// Whether two arguments, which are read, are one tree.
fn same_read(alloc: Global, a: Argument<'_>, b: Argument<'_>) -> Result<bool, MakeFault>
    requires left { IsSeenArgument a }
    requires right { IsSeenArgument b }
    ensures ok { IfOk result (λ r. IsTrue r ↔ (argument_term a.entry ≡ argument_term b.entry)) }
    ensures too_deep { IfErr result (λ e. e ≡ TooDeep → EitherBeyond (argument_term a.entry) (argument_term b.entry)) }
{
    let left = read_argument(alloc, a)?;
    let right = read_argument(alloc, b)?;
    Ok(left.same(&right))
}

/// Whether two arguments are one tree. Where one is a value and the other is none, both are read. `TooDeep` only where one of them is beyond the limits
/// of terms, and else `Memory`.
#[cycle(same)]
pub fn same_arguments(alloc: Global, a: Argument<'_>, b: Argument<'_>) -> Result<bool, MakeFault>
    requires left { IsSeenArgument a }
    requires right { IsSeenArgument b }
    ensures ok { IfOk result (λ r. IsTrue r ↔ (argument_term a.entry ≡ argument_term b.entry)) }
    ensures too_deep { IfErr result (λ e. e ≡ TooDeep → EitherBeyond (argument_term a.entry) (argument_term b.entry)) }
{
    match (a, b) {
        (Argument::Lazy(l), Argument::Lazy(r)) => same_lazies(l, r),
        (Argument::Value(x), Argument::Value(y)) => same_seen(alloc, x, y),
        _ => same_read(alloc, a, b),
    }
}

/// Whether the heads of two values, of which the left one is no match, are one tree. `TooDeep` only where both are beyond the limits of terms.
fn same_plain(x: Seen<'_>, y: Seen<'_>) -> Result<bool, MakeFault>
    requires left { IsSeen x }
    requires right { IsSeen y }
    requires other { IsMatchNode (head (seen_term x)) → ⊥ }
    ensures ok { IfOk result (λ r. IsTrue r ↔ (head (seen_term x.entry) ≡ head (seen_term y.entry))) }
    ensures too_deep { IfErr result (λ e. e ≡ TooDeep → EitherBeyond (head (seen_term x.entry)) (head (seen_term y.entry))) }
{
    match stuck_match(y) {
        Some(_) => Ok(false),
        None => same_lazies(code(&x.spine.head), code(&y.spine.head)),
    }
}

/// Whether two values are one tree.
#[cycle(same)]
fn same_seen(alloc: Global, x: Seen<'_>, y: Seen<'_>) -> Result<bool, MakeFault>
    requires left { IsSeen x }
    requires right { IsSeen y }
    ensures ok { IfOk result (λ r. IsTrue r ↔ (seen_term x.entry ≡ seen_term y.entry)) }
    ensures too_deep { IfErr result (λ e. e ≡ TooDeep → EitherBeyond (seen_term x.entry) (seen_term y.entry)) }
{
    let count = x.count();
    if y.count() != count {
        return Ok(false);
    }
    let heads = same_heads(alloc, x, y)?;
    if !heads {
        return Ok(false);
    }
    for i in 0..count {
        let left = x.argument(i);
        let right = y.argument(i);
        let same = same_arguments(alloc, left, right)?;
        if !same {
            return Ok(false);
        }
    }
    Ok(true)
}

/// Whether the heads of two values are one tree. `TooDeep` only where one of the values is beyond the limits of terms, and else `Memory`.
#[cycle(same)]
pub fn same_heads(alloc: Global, x: Seen<'_>, y: Seen<'_>) -> Result<bool, MakeFault>
    requires left { IsSeen x }
    requires right { IsSeen y }
    ensures ok { IfOk result (λ r. IsTrue r ↔ (head (seen_term x.entry) ≡ head (seen_term y.entry))) }
    ensures too_deep { IfErr result (λ e. e ≡ TooDeep → EitherBeyond (seen_term x.entry) (seen_term y.entry)) }
{
    let Some(f) = stuck_match(x) else {
        return same_plain(x, y);
    };
    let Some(g) = stuck_match(y) else {
        return Ok(false);
    };
    same_stuck(alloc, f, g)
}

/// Whether two matches that are stuck are one tree.
#[cycle(same)]
fn same_stuck(alloc: Global, f: Stuck<'_>, g: Stuck<'_>) -> Result<bool, MakeFault>
    requires left { IsSeen f.scrut }
    requires right { IsSeen g.scrut }
    ensures ok { IfOk result (λ r. IsTrue r ↔ (match_term f.entry ≡ match_term g.entry)) }
    ensures too_deep { IfErr result (λ e. e ≡ TooDeep → EitherBeyond (match_term f.entry) (match_term g.entry)) }
{
    let around = same_around(f.outer, f.env, g.outer, g.env)?;
    if !around {
        return Ok(false);
    }
    same_seen(alloc, f.scrut, g.scrut)
}
