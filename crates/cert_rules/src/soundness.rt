//! What the certified walk accepts has a derivation by the declarative rules.
ghost use Rattle.cert_rules.specs.WalkLaws.{ScriptsAreSound, WalkIsSound, WalkedSortsAreSound, WalkedChecksAreSound, WalkedEnvironmentsAreSound};

/// Two terms for which a script is accepted are equal by conversion, or the first is below the second.
pub fn scripts_are_sound()
    ensures sound { ScriptsAreSound }
{}

/// In a well-counted environment and context, the type to which the walk comes for a term is one of its types by the rules of typing, and
/// both are well counted; the sort is that of a type of it; and the type against which it is checked is one of it.
pub fn walked_types_are_types()
    ensures infer { WalkIsSound }
    ensures sort_of { WalkedSortsAreSound }
    ensures check { WalkedChecksAreSound }
{}

/// An environment that the walk accepts is well formed, with its main term and that term's type.
pub fn walked_environments_are_well_formed()
    ensures environments { WalkedEnvironmentsAreSound }
{}
