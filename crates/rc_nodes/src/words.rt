//! How a node lies in one word.
ghost use Rattle.std.specs.Prelude.{◌≡◌, ◌<◌};
ghost use Rattle.rc_nodes.specs.Words.{word_of, var_of, lo_of, hi_of, IsWord, home};

/// A reference to a decision tree: 0 is the tree of no header, 1 that of every header, and k + 2 the node in slot k.
#[derive(Clone, Copy, PartialEq, Eq)]
pub struct Ref {
    pub index: u32,
}

/// The tree of no header.
pub const NEVER: Ref = Ref { index: 0 };

/// The tree of every header.
pub const ALWAYS: Ref = Ref { index: 1 };

/// A test of a header's bit, by its number: `lo` is the tree where it is 0, `hi` the one where it is 1.
#[derive(Clone, Copy)]
pub struct Node {
    pub var: u8,
    pub lo: Ref,
    pub hi: Ref,
}

/// The word of a node: bit 63 is set, then 7 bits have the variable, 28 the reference of low, 28 that of high.
pub(crate) fn pack(node: Node) -> u64
    requires var { node.var < 128 }
    requires lo { node.lo.index < 268435456 }
    requires hi { node.hi.index < 268435456 }
    ensures word { result ≡ word_of node.var node.lo.index node.hi.index }
    ensures fits { IsWord result }
    ensures var { var_of result ≡ node.var }
    ensures lo { lo_of result ≡ node.lo.index }
    ensures hi { hi_of result ≡ node.hi.index }
{
    (1 << 63) + ((node.var as u64) << 56) + ((node.lo.index as u64) << 28) + node.hi.index as u64
}

/// The node of a word.
pub(crate) fn unpack(word: u64) -> Node
    requires { IsWord word }
    ensures parts { (result.var ≡ var_of word) × (result.lo.index ≡ lo_of word) × (result.hi.index ≡ hi_of word) }
    ensures word { word_of result.var result.lo.index result.hi.index ≡ word }
{
    Node {
        var: ((word >> 56) % 128) as u8,
        lo: Ref {
            index: ((word >> 28) % 268435456) as u32,
        },
        hi: Ref {
            index: (word % 268435456) as u32,
        },
    }
}

/// The slot where the probe for a word starts. The product mixes all bits of the word into its high ones, since a capacity is mostly a
/// power of two, and `word % capacity` would then read low bits of `hi` alone.
#[tactic(auto, unfolding(crate::specs::Words::home))]
pub(crate) fn home(word: u64, capacity: u32) -> u32
    requires { 0 < capacity }
    ensures home { result ≡ home capacity word }
    ensures inside { result < capacity }
{
    let mixed = word.wrapping_mul(0x9E37_79B9_7F4A_7C15) >> 32;
    ((mixed * capacity as u64) >> 32) as u32
}
