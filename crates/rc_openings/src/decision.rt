//! What the openings of its block say of a line: the one decision of which everything else about the line follows.
ghost use Rattle.std.specs.Prelude.{◌≡◌, ℕ, List, ◌↔◌};
ghost use Rattle.rc_openings.specs.Words.{words_left};
ghost use Rattle.rc_openings.specs.Reading as reading;
ghost use Rattle.rc_openings.specs.declared.block.Block.{Block as BlockKind};

use crate::{Block, Form, LineRefusal, Verdict, Words, number_in, unopened};

/// What the openings of its block say of a line.
#[derive(Clone, Copy)]
pub enum Decision<'a> {
    /// It is passed over.
    Passed,
    /// It is refused.
    Refused(LineRefusal),
    /// It is of this form, and these words stand behind its opening.
    Form(Form, Words<'a>),
}

/// The sequence number, from 1 to 2147483647, with which a line begins.
pub fn number_in_front(mut line: Words) -> Option<u32>
    ensures { result ≡ reading.number_in_front (words_left line.entry) }
{
    match line.next_word() {
        Some(word) => number_in(1, 2_147_483_647, word),
        None => None,
    }
}

/// The words behind a sequence number, where the line begins with one.
fn behind_number(line: Words) -> Words
    ensures { words_left result ≡ reading.behind_number (words_left line.entry) }
{
    let mut rest = line;
    match rest.next_word() {
        Some(word) => {
            if number_in(1, 2_147_483_647, word).is_some() {
                rest
            } else {
                line
            }
        }
        None => line,
    }
}

fn has_colon(word: &[u8]) -> bool
    ensures { result ≡ reading.has_colon word.now }
{
    word.iter().any(|b| *b == b':')
}

/// Whether the line is about a neighbour of another address family than IPv4.
fn is_of_another_family(mut line: Words) -> bool
    ensures { result ≡ reading.is_of_another_family (words_left line.entry) }
{
    match (line.next_word(), line.next_word()) {
        (Some(word), Some(address)) => word == b"neighbor".as_slice() && has_colon(address),
        _ => false,
    }
}

/// Whether the line takes back what was said of such a neighbour.
fn unsays_another_family(mut line: Words) -> bool
    ensures { result ≡ reading.unsays_another_family (words_left line.entry) }
{
    match line.next_word() {
        Some(word) => word == b"no".as_slice() && is_of_another_family(line),
        None => false,
    }
}

/// Whether the line is passed over for the neighbour that it names.
fn names_another_family(line: Words) -> bool
    ensures { result ≡ reading.names_another_family (words_left line.entry) }
{
    is_of_another_family(line) || unsays_another_family(line)
}

impl Block {
    /// The block by whose openings the line is read.
    fn read_in(self, line: Words) -> Block
        ensures { result ≡ reading.read_in self (words_left line.entry) }
    {
        match self {
            Block::Bgp | Block::Ipv4Family => {
                if names_another_family(line) {
                    Block::Ignored
                } else {
                    self
                }
            }
            _ => self,
        }
    }

    /// The words of a line in which its opening is looked for.
    fn own_words(self, line: Words) -> Words
        ensures { words_left result ≡ reading.own_words self (words_left line.entry) }
    {
        match self {
            Block::AccessList => behind_number(line),
            _ => line,
        }
    }

    /// What the opening with most words says of the line in this block. In the block of an access list a sequence number
    /// in front of the line is set aside first, and in that of a BGP process, or of IPv4's family there, a line about an IPv6
    /// neighbour is passed over.
    #[tactic(auto, unfolding(crate::specs::Reading::decided))]
    pub fn decided(self, line: Words) -> Decision
        ensures { reading.IsDecision (reading.decided self (words_left line.entry)) result }
    {
        self.read_in(line).decided_by(self.own_words(line))
    }

    /// The same by the words in which the opening is looked for.
    fn decided_by(self, own: Words) -> Decision
        ensures { reading.IsDecision (reading.decision_of self (words_left own.entry)) result }
    {
        match self.opening_of(own) {
            None => Decision::Refused(unopened(own)),
            Some(opening) => match opening.verdict {
                Verdict::Ignored => Decision::Passed,
                Verdict::Refused => Decision::Refused(LineRefusal::Unsupported),
                Verdict::Form(form) => Decision::Form(form, opening.behind(own)),
            },
        }
    }
}

/// A line is decided by the opening with most words, and so in one way.
pub fn one_decision()
    ensures { (block : BlockKind) (line : List (List ℕ)) (decision : reading.Decision) → reading.IsDecided block line decision ↔ decision ≡ reading.decided block line }
{}
