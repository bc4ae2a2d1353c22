ghost use Rattle.std.specs.Prelude.{◌<◌, All, IfOk, MatchResult, length};
ghost use Rattle.st_blocks.specs.Blocks.{AreOrdered};
ghost use Rattle.st_blocks.specs.Faults.{IsNestingFault};

use crate::blocks::Block;
use crate::faults::NestingFault;
use crate::holders::judge;
use crate::names::{firsts, graph_of, names_of};
use std::alloc::Global;

/// The numbers of block types, from 0 in their order of text, in an order in which each stands after those that it declares. A word
/// that names no block type of the list, as that of a standard block (IEC 61131-3), declares none. Of several block types of one
/// name, in any letter case, the first counts, and the others aren't listed.
///
/// Fails for the first block type that holds itself, directly or through others, or else where one is more than 16 deep (this
/// profile), or if memory is refused.
pub fn order_blocks(alloc: Global, blocks: &[Block<'_>]) -> Result<Vec<usize>, NestingFault>
    ensures order { MatchResult result (λ order. AreOrdered blocks.now order.items)
        (IsNestingFault blocks.now) }
    ensures range { IfOk result (λ order. All (λ a. a < length blocks.now) order.items) }
{
    let names = names_of(alloc, blocks)?;
    let graph = graph_of(alloc, &names, blocks)?;
    let numbers = judge(alloc, &graph)?;
    Ok(firsts(alloc, &names, blocks, &numbers)?)
}
