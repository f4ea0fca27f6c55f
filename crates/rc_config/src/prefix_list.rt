//! Prefix lists (IOS `ip prefix-list`).
ghost use Rattle.std.specs.Prelude.{◌≡◌, ◌≤◌, All, IfSome};
ghost use Rattle.rc_config.specs.PrefixList.{greatest_sequence, has_sequence, no_lines, IsLawfulList};
ghost use Rattle.rc_config.specs.declared.prefix_list.PrefixLine.{PrefixLine};

use crate::{Action, ByNumber, Numbered};
use rc_base::Prefix;
use std::alloc::Global;

/// A line of a prefix list. It matches the prefixes whose first bits are those of its own prefix and whose length is that of
/// its own or, where it has a bound, within the bounds.
#[derive(Clone, Copy)]
pub struct PrefixLine {
    /// The sequence number.
    pub sequence: u32,
    pub action: Action,
    pub prefix: Prefix,
    /// The least length that matches, over that of the prefix and up to 32.
    pub ge: Option<u8>,
    /// The greatest length that matches, over that of the prefix and up to 32, and not below `ge`.
    pub le: Option<u8>,
}

impl Numbered for PrefixLine {
    ghost number = { λ l. l.sequence };

    fn number(&self) -> u32 {
        self.sequence
    }
}

/// A prefix list: its lines by rising sequence number.
#[derive(Drop)]
pub struct PrefixList {
    pub lines: ByNumber<PrefixLine>,
}

impl PrefixList {
    /// A list without lines. It takes no memory.
    #[tactic(auto, using(crate::proofs::PolicyLaws::no_lines_lawful))]
    pub fn new(alloc: Global) -> PrefixList
        ensures value { result ≡ no_lines }
        ensures lawful { IsLawfulList result }
    {
        PrefixList {
            lines: ByNumber::new(alloc),
        }
    }

    /// The number of the last line, which is the greatest, or `None` exactly where there are no lines.
    pub fn greatest(&self) -> Option<u32>
        ensures value { result ≡ greatest_sequence self.now.lines }
        ensures greatest { IfSome result (λ n. All (λ (l : PrefixLine). l.sequence ≤ n) self.now.lines) }
    {
        self.lines.greatest()
    }

    /// Whether a line has this number.
    pub fn has_line(&self, sequence: u32) -> bool
        ensures { result ≡ has_sequence self.now.lines sequence }
    {
        self.lines.has(sequence)
    }
}
