//! The blocks of two rows that are left once those that stand in both are passed over.

ghost use Rattle.std.specs.Prelude.{◌≡◌, ◌+◌, ◌<◌, ◌++◌, ◌∷◌, ℕ, All, IfSome, IfOk, OnOk, length, take, drop};
ghost use Rattle.graph_version.specs.Sharing.{block_values};
ghost use Rattle.version_diff.specs.Differences.{seen_in, AreApart, difference_of};
ghost use Rattle.version_diff.specs.Pairs.{AreSameByNumber};

use edge_block::Block;
use graph_types::Filter;
use std::alloc::{AllocError, Global};
use std::sync::Arc;

/// The blocks that are left of an earlier row and of a later one.
#[derive(Drop)]
pub(crate) struct Left {
    pub(crate) earlier: Vec<Arc<Block>>,
    pub(crate) later: Vec<Arc<Block>>,
}

/// How many of the next earlier blocks are looked at for a later one.
const WINDOW: usize = 8;

/// The place of a block, by its number, if it is one of the first so many.
fn place_of(blocks: &[Arc<Block>], wanted: &Block, most: usize) -> Option<usize>
    requires alike { All (λ b. b.number ≡ wanted.now.number → b ≡ wanted.now) (block_values blocks.now) }
    ensures within { IfSome result (λ place. place < length blocks.now) }
    ensures there { IfSome result (λ place. block_values blocks.now
        ≡ block_values (take place blocks.now) ++ (wanted.now ∷ block_values (drop (place + 1) blocks.now))) }
{
    for (place, block) in blocks.iter().enumerate() {
        if place == most {
            return None;
        }
        if block.number() == wanted.number() {
            return Some(place);
        }
    }
    None
}

/// Adds blocks, which are shared.
fn push_blocks(blocks: &mut Vec<Arc<Block>>, more: &[Arc<Block>]) -> Result<(), AllocError>
    ensures { OnOk result (block_values blocks.new.items ≡ block_values blocks.old.items ++ block_values more.now) }
{
    for block in more {
        blocks.push(Arc::try_clone(block)?)?;
    }
    Ok(())
}

/// The blocks that are left of two rows.
///
/// A row keeps the order of its blocks but for those that were dropped, and those that a batch changed are others, with numbers of
/// their own. So each later block is looked for among the next few of the earlier ones, behind the last that was found, and among
/// twice as many for each one before it in a row that wasn't found.
pub(crate) fn left_of(
    alloc: Global,
    earlier: &[Arc<Block>],
    later: &[Arc<Block>],
    view: &Filter,
) -> Result<Left, AllocError>
    requires earlier { AreApart (seen_in view.now (block_values earlier.now)) }
    requires later { AreApart (seen_in view.now (block_values later.now)) }
    requires alike { AreSameByNumber (block_values earlier.now) (block_values later.now) }
    ensures { IfOk result (λ left. (source : ℕ)
        → difference_of source (seen_in view.now (block_values left.earlier.items)) (seen_in view.now (block_values left.later.items))
        ≡ difference_of source (seen_in view.now (block_values earlier.now)) (seen_in view.now (block_values later.now))) }
{
    let mut gone = Vec::new(alloc);
    let mut came = Vec::new(alloc);
    let mut rest = earlier;
    let mut window = WINDOW;
    for block in later {
        match place_of(rest, block, window) {
            Some(place) => {
                let (before, _) = rest.split_at(place);
                let (_, behind) = rest.split_at(place + 1);
                push_blocks(&mut gone, before)?;
                rest = behind;
                window = WINDOW;
            }
            None => {
                came.push(Arc::try_clone(block)?)?;
                window = window.saturating_mul(2);
            }
        }
    }
    push_blocks(&mut gone, rest)?;
    Ok(Left {
        earlier: gone,
        later: came,
    })
}
