//! What stays the same while parts of a block are checked.

use pc_rules::environment::Env;
use pc_terms::leaf::Name;

/// The typer that judges the parts of a block, the environment over which it does, how many rules may still stand in one another, and the
/// block's name.
#[derive(Drop)]
pub(crate) struct BlockSetting<'a, T> {
    pub(crate) typer: &'a T,
    pub(crate) env: &'a Env,
    pub(crate) room: u32,
    pub(crate) block: Name,
}
