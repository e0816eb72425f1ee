//! The signature of a function's type: a first-order set for each argument, and one for the answer.
ghost use Rattle.std.specs.Prelude.{◌≡◌, ◌≢◌, ◌≤◌, [], IfOk, length};
ghost use Rattle.first_order.specs.Searching.{searched, as_is, AreNamed};
ghost use Rattle.first_order.specs.Signature.{IsSignature};
ghost use Rattle.first_order.specs.DirectedSignature.{is_product as product, next_type, argument, signature_within, signature_search, sets_of, set_of, signed, found_argument, AreAllNamed};
ghost use Rattle.pc_rules.specs.Follows.{Follows};

use crate::arguments::without;
use crate::faults::{ShapeRefusal, SignatureRefusal};
use crate::searching::first_order;
use crate::shapes::{Shapes, ShapesList, Signature};
use crate::vectors::put;
use pc_rules::context::Ctx;
use pc_rules::environment::Env;
use pc_rules::meter::Meter;
use pc_rules::reducer::Reducer;
use pc_terms::term::{Node, Term};
use std::alloc::Global;

/// The most arguments of a signature.
pub const MOST_ARGUMENTS: usize = 255;

/// Whether a type is a product. Takes no memory.
fn is_product(ty: &Term) -> bool
    ensures is { result ≡ product ty.now }
{
    matches!(ty.view(), Node::Prod(_, _))
}

/// The weak-head normal form of the codomain of the product `ty`, without the variable. `NotFirstOrder` with the product where the codomain names it.
fn next_type<R: Reducer>(
    alloc: Global,
    reducer: &R,
    env: &Env,
    ty: &Term,
    codomain: &Term,
    m: &mut Meter,
) -> Result<Term, ShapeRefusal>
    ensures follows { Follows (next_type env.now ty.now codomain.now m.old.account) (searched as_is result) m.old m.new }
{
    let found = without(alloc, 1, codomain)?;
    let Some(lowered) = found else {
        let ty = ty.share()?;
        return Err(ShapeRefusal::NotFirstOrder { ty });
    };
    let ctx = Ctx::new();
    let whnf = reducer.whnf(alloc, env, &ctx, &lowered, m)?;
    Ok(whnf)
}

/// The first-order set of a product's domain, and the weak-head normal form of its codomain, which doesn't name the variable. `NotFirstOrder` with the type
/// where it is no product or its codomain names the variable.
fn argument<R: Reducer>(
    alloc: Global,
    reducer: &R,
    env: &Env,
    ty: &Term,
    m: &mut Meter,
) -> Result<(Shapes, Term), ShapeRefusal>
    ensures follows { Follows (argument env.now ty.now m.old.account) (searched found_argument result) m.old m.new }
    ensures named { IfOk result (λ p. AreNamed env.now p.0.types) }
{
    let Node::Prod(domain, codomain) = ty.view() else {
        let ty = ty.share()?;
        return Err(ShapeRefusal::NotFirstOrder { ty });
    };
    let shapes = first_order(alloc, reducer, env, domain, m)?;
    let next = next_type(alloc, reducer, env, ty, codomain, m)?;
    Ok((shapes, next))
}

/// The signature of a type in weak-head normal form, which has no argument where the type is no product.
fn signature_of<R: Reducer>(
    alloc: Global,
    reducer: &R,
    env: &Env,
    whnf: Term,
    m: &mut Meter,
) -> Result<Signature, SignatureRefusal>
    ensures follows { Follows (signature_within env.now 255 whnf m.old.account) (signed result) m.old m.new }
    ensures few { IfOk result (λ s. length s.args ≤ 255) }
    ensures named { IfOk result (λ s. AreAllNamed env.now s.args × AreNamed env.now s.answer.types) }
{
    let mut args = Vec::new(alloc);
    let mut ty = whnf;
    'arguments: while is_product(&ty) {
        if args.len() == MOST_ARGUMENTS {
            return Err(SignatureRefusal::Arguments);
        }
        let (shapes, next) = argument(alloc, reducer, env, &ty, m)?;
        put(&mut args, shapes)?;
        ty = next;
    }
    let answer = first_order(alloc, reducer, env, &ty, m)?;
    Ok(Signature {
        args: ShapesList::of(args),
        answer,
    })
}

/// The signature of a closed type, which takes at least one argument.
///
/// While the type's weak-head normal form is a product, its domain is searched as `first_order` does, its codomain must not name the variable, and the codomain's
/// weak-head normal form comes next; the last type is searched as the answer's. Units are those of the reductions and of the searches. `NotFirstOrder` with the type's
/// weak-head normal form where that is no product, with the product whose codomain names its variable, or with what a search keeps; `Types` as in `first_order`, for each search by
/// itself; `Arguments` exactly where a 256th argument would be taken, before its domain is searched. `Spent` and `TooDeep` come as in `first_order`.
pub fn signature<R: Reducer>(
    alloc: Global,
    reducer: &R,
    env: &Env,
    ty: &Term,
    m: &mut Meter,
) -> Result<Signature, SignatureRefusal>
    ensures follows { Follows (signature_search env.now ty.now m.old.account) (signed result) m.old m.new }
    ensures is { IfOk result (λ s. IsSignature env.now ty.now (sets_of s.args) (set_of s.answer)) }
    ensures takes { IfOk result (λ s. s.args ≢ []) }
    ensures few { IfOk result (λ s. length s.args ≤ 255) }
    ensures named { IfOk result (λ s. AreAllNamed env.now s.args × AreNamed env.now s.answer.types) }
{
    let ctx = Ctx::new();
    let whnf = reducer.whnf(alloc, env, &ctx, ty, m)?;
    if !is_product(&whnf) {
        return Err(SignatureRefusal::NotFirstOrder { ty: whnf });
    }
    signature_of(alloc, reducer, env, whnf, m)
}
