//! The kind of the block that is open at a line.
ghost use Rattle.std.specs.Prelude.{◌≡◌};
ghost use Rattle.rc_lines.specs.OpenBlock.{block_at};

use rc_config::OpenBlock;
use rc_openings::Block;

/// The kind of an open block, which has its openings.
pub fn kind_of(block: &OpenBlock) -> Block
    ensures { result ≡ block_at block.now }
{
    match block {
        OpenBlock::Closed => Block::Closed,
        OpenBlock::Global => Block::Global,
        OpenBlock::Interface(_) => Block::Interface,
        OpenBlock::AccessList(_, _) => Block::AccessList,
        OpenBlock::Map(_, _) => Block::RouteMap,
        OpenBlock::Ospf => Block::Ospf,
        OpenBlock::Bgp => Block::Bgp,
        OpenBlock::InFamily => Block::Ipv4Family,
        OpenBlock::InOtherFamily => Block::OtherFamily,
        OpenBlock::Ignored => Block::Ignored,
    }
}
