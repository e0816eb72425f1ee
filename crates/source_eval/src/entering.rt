//! Terms that are entered.
ghost use Rattle.std.specs.Prelude.{◌≡◌, IfOk, IfErr, MatchOption, Some, None};
ghost use Rattle.pc_terms.specs.declared.term.MakeFault.TheVariants.{Memory};
ghost use Rattle.pc_terms.specs.Syntax.{Const};
ghost use Rattle.calculus_rules.specs.Lookups.{kept_at, body_of};
ghost use Rattle.pc_rules.specs.DirectedEvaluation.{node, evaluation};
ghost use Rattle.source_eval.specs.Waiting.{Comes};

use crate::found::Found;
use crate::frames::Frame;
use calculus_rules::declaration::Kept;
use pc_rules::environment::Env;
use pc_terms::leaf::Name;
use pc_terms::term::{MakeFault, Node, Term};

/// The body of a constant; none where it has none.
fn body(env: &Env, name: Name) -> Result<Option<Term>, MakeFault>
    ensures ok { IfOk result (λ o. MatchOption o (body_of (kept_at env.now.declarations name) ≡ None) (λ b. body_of (kept_at env.now.declarations name) ≡ Some b)) }
    ensures only_memory { IfErr result (λ e. e ≡ Memory) }
{
    match env.find(name) {
        Some(
            Kept::Constant {
                body: Some(body),
                ..
            },
        ) => {
            let body = body.share()?;
            Ok(Some(body))
        }
        _ => Ok(None),
    }
}

/// What comes of a constant.
fn constant(env: &Env, whole: Term, name: Name) -> Result<Found, MakeFault>
    requires { whole ≡ Const name }
    ensures ok { IfOk result (Comes env.now (λ u. node env.now (evaluation env.now) (Const name) u)) }
    ensures only_memory { IfErr result (λ e. e ≡ Memory) }
{
    let Some(body) = body(env, name)? else {
        return Ok(Found::Stuck(whole));
    };
    Ok(Found::Enter(body))
}

/// What comes of a term that is entered, for which a unit has been taken, after so many contracta.
pub(crate) fn enter(env: &Env, t: &Term, contracta: u64) -> Result<Found, MakeFault>
    ensures ok { IfOk result (Comes env.now (λ u. node env.now (evaluation env.now) t.now u)) }
    ensures only_memory { IfErr result (λ e. e ≡ Memory) }
{
    let whole = t.share()?;
    match t.view() {
        Node::Rel(_) => Ok(Found::Stuck(whole)),
        Node::Const(name) => constant(env, whole, *name),
        Node::LetIn(value, _, body) => {
            let body = body.share()?;
            let term = value.share()?;
            Ok(Found::Inward {
                frame: Frame::Body(body),
                term,
            })
        }
        Node::App(function, argument) => {
            let argument = argument.share()?;
            let term = function.share()?;
            Ok(Found::Inward {
                frame: Frame::Argument {
                    application: whole,
                    argument,
                    contracta,
                },
                term,
            })
        }
        Node::Case(m) => {
            let m = m.get();
            let term = m.scrut.share()?;
            Ok(Found::Inward {
                frame: Frame::Scrutinee(whole),
                term,
            })
        }
        _ => Ok(Found::Value(whole)),
    }
}
