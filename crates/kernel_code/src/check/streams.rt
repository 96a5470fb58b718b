//! The `begin` blocks in which nodes stand.

ghost use Rattle.std.specs.Prelude.{◌≡◌, ◌≤◌, ◌<◌, ℕ, length};
ghost use Rattle.kernel_code.specs.Known.{is_in, stands_in};

/// The block of a `begin`: its stream, and the nodes in it, from `start` up to `end`.
#[derive(Clone, Copy, Debug, PartialEq, Eq)]
pub struct StreamBlock {
    pub stream: u32,
    pub start: usize,
    pub end: usize,
}

fn is_in(stream: u32, node: usize, block: StreamBlock) -> bool
    ensures { result ≡ is_in stream node block }
{
    block.start <= node && node < block.end && stream == block.stream
}

/// Whether a node stands in one of the blocks, as one of that stream.
pub fn stands_in(stream: u32, node: usize, blocks: &[StreamBlock]) -> bool
    ensures { result ≡ stands_in stream node blocks.now }
{
    blocks.iter().any(|block| is_in(stream, node, *block))
}

/// Lets go of the last blocks as far as they end before a node or at it, so that as many are kept
/// as are open.
pub fn close_blocks(blocks: &mut Vec<StreamBlock>, node: usize)
    ensures { (x j : ℕ) → node ≤ j → stands_in x j blocks.new.items ≡ stands_in x j blocks.old.items }
{
    while let Some(block) = blocks.last() {
        if block.end > node {
            return;
        }
        blocks.pop();
    }
}
