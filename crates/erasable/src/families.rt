//! Families in `Prop`.
ghost use Rattle.std.specs.Prelude.{◌≡◌};
ghost use Rattle.calculus_rules.specs.PropSorts.{is_prop};
ghost use Rattle.erasable.specs.PropConstructors.{is_prop_constructor};

use instances::kept::kept_family;
use pc_rules::environment::Env;
use pc_terms::leaf::FamilyId;
use universe_levels::sort::Sort;

/// Whether a sort is `Prop`. Takes no memory.
pub(crate) fn is_prop(s: &Sort) -> bool
    ensures is { result ≡ is_prop s.now }
{
    match s {
        Sort::Prop => true,
        Sort::Of(_) => false,
    }
}

/// Whether there is such a constructor, of a family in `Prop`. Takes no memory.
pub(crate) fn is_prop_constructor(env: &Env, id: FamilyId, number: u32) -> bool
    ensures is { result ≡ is_prop_constructor env.now id number }
{
    let Some(family) = kept_family(env, id) else {
        return false;
    };
    match family.ctors.as_slice().get(number as usize) {
        Some(_) => is_prop(&family.sort),
        None => false,
    }
}
