//! What equality and cumulativity tell of their two sides (PCUIC: Sozeau et al., "Coq Coq Correct!", POPL 2020: confluence, and what follows from
//! it).
//!
//! Equality and cumulativity of `calculus_rules` are closed under chains, so what two terms that are below each other have in common isn't to be seen. In an accepted
//! environment and a context of any values:
//! - `products_are_injective`: equal products have equal domains and equal codomains (`equal`), and those of which one is below the other have equal domains, with the
//!   codomain below the other's (`below`);
//! - `sorts_are_entailed` (`below`): a sort is below another only if it is at most that;
//! - `families_are_injective` (`below`): an applied family is below another only if the families are the same and the arguments equal, each to each;
//! - `constructors_are_injective` (`equal`): an applied constructor is equal to another only if the constructors are the same and the arguments equal;
//! - `formers_are_apart`: no product is below a sort or an applied family, nor the other way round, and no sort is below an applied family or it below a sort.
//!
//! They follow from confluence of parallel reduction, in which a term's parts take a step each and then the term itself may take one of the steps of
//! `calculus_rules` (`proofs/Reducing`, `Confluence`). It knows no values of a context: equality is carried to it with the values put in (`FromEquality`), and back (`ToEquality`).
//!
//! Below stand `calculus_rules` with the definitions and `typing_laws` with weakening of equality; above stands `type_laws`.
#![tactic(auto)]

ghost use Rattle.equality_laws.specs.Laws.{
  ProductsAreEqual,
  ProductsAreBelow,
  SortsAreBelow,
  FamiliesAreBelow,
  ConstructorsAreEqual,
  ProductNotSort,
  SortNotProduct,
  ProductNotFamily,
  FamilyNotProduct,
  SortNotFamily,
  FamilyNotSort,
};

/// Products are injective.
pub fn products_are_injective()
    ensures equal { ProductsAreEqual }
    ensures below { ProductsAreBelow }
{}

/// A sort is below another only if it is at most that.
pub fn sorts_are_entailed()
    ensures below { SortsAreBelow }
{}

/// Applied families are injective.
pub fn families_are_injective()
    ensures below { FamiliesAreBelow }
{}

/// Applied constructors are injective, and different ones aren't equal.
pub fn constructors_are_injective()
    ensures equal { ConstructorsAreEqual }
{}

/// Products, sorts and applied families aren't below each other.
pub fn formers_are_apart()
    ensures product_not_sort { ProductNotSort }
    ensures sort_not_product { SortNotProduct }
    ensures product_not_family { ProductNotFamily }
    ensures family_not_product { FamilyNotProduct }
    ensures sort_not_family { SortNotFamily }
    ensures family_not_sort { FamilyNotSort }
{}
