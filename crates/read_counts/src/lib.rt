//! The counts of an environment that was read: within those that erasure asks for.
//!
//! The text's limits hold each family to at most 1,024 constructors, and its parameters and each constructor's arguments to at most 255. The check
//! keeps what was read, so the families of the accepted environment have these counts too: `read_counts_are_few`, clause `few`.
//!
//! Below stand `dump_reader` and `env_check`, whose contracts give the law's premises, and `erase_rules`, whose condition it is; what checks an
//! environment and erases it stands above.
#![tactic(auto)]

ghost use Rattle.read_counts.specs.ReadCounts.{ReadCountsAreFew};

/// Each family of an accepted environment that some text spells within the limits has at most 1,024 constructors, at most 255 parameters, and
/// at most 255 arguments of each constructor.
pub fn read_counts_are_few()
    ensures few { ReadCountsAreFew }
{}
