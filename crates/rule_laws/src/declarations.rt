//! The directed rules of blocks, declarations and whole environments are sound.
ghost use Rattle.rule_laws.specs.Declarations.{BlocksAreSound, DeclarationsAreSound, EnvironmentsAreSound};

/// Over a well-counted environment, a new block that the directed rules let pass fits by the rules of well-formed environments, with the
/// sorts of constructor arguments that they find, and so does a declaration; and an environment that they accept is well formed, with its
/// main term and that term's type. What is given is formed as terms in memory are and holds no heads of blocks; the test decides
/// entailment, and where no cycle is found the constraints are consistent.
pub fn accepted_environments_are_well_formed()
    ensures blocks { BlocksAreSound }
    ensures declarations { DeclarationsAreSound }
    ensures environments { EnvironmentsAreSound }
{}
