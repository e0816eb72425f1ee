//! Lengths of lists as numbers of 32 bits.
ghost use Rattle.std.specs.Prelude.{◌≡◌, ◌≤◌, ◌<◌, IfOk, IfErr};
ghost use Rattle.trees.specs.Measures.{depth_limit};

use pc_terms::term::{DEPTH_LIMIT, MakeFault};

/// A length of at most 2,048. `TooDeep` where it is over that, which is past the depth of every term with a node for each item.
pub(crate) fn short_length(items: usize) -> Result<u32, MakeFault>
    ensures is { IfOk result (λ n. n ≡ items) }
    ensures small { IfOk result (λ n. n ≤ depth_limit) }
    ensures long { IfErr result (λ e. depth_limit < items) }
{
    if items > DEPTH_LIMIT as usize {
        return Err(MakeFault::TooDeep);
    }
    Ok(items as u32)
}
