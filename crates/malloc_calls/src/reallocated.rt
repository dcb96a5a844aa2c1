//! What a realloc came to.

ghost use Rattle.std.specs.Prelude.{◌≡◌};
ghost use Rattle.malloc_calls.specs.Reallocs.{kept_block, got_block, refused_block};

use chunk_tags::Block;
use own_blocks::{Origin, Reply, Why};

/// What a realloc came to: the block that the name has then, and the answer.
#[derive(Debug, Drop)]
pub struct Reallocated {
    pub block: Block,
    pub reply: Reply,
}

/// A block that stays where it is.
pub(crate) fn kept_block(from: Origin, block: Block) -> Reallocated
    ensures { result ≡ kept_block from block }
{
    let reply = Reply::Kept {
        addr: block.addr,
        size: block.size,
        from,
    };
    Reallocated { block, reply }
}

/// A block that is elsewhere.
pub(crate) fn got_block(from: Origin, block: Block) -> Reallocated
    ensures { result ≡ got_block from block }
{
    let reply = Reply::Got {
        addr: block.addr,
        size: block.size,
        from,
    };
    Reallocated { block, reply }
}

/// A block that stays as it was, since nothing was got for it.
pub(crate) fn refused_block(block: Block) -> Reallocated
    ensures { result ≡ refused_block block }
{
    Reallocated {
        block,
        reply: Reply::Null(Why::Refused),
    }
}
