//! The blocks of a configuration, and the openings of each.
ghost use Rattle.std.specs.Prelude.{◌≡◌, ℕ, Bool, true, List, [], ◌∷◌, map, drop};
ghost use Rattle.std.specs.List.{list_any};
ghost use Rattle.std.specs.Option.{option_copied, option_map};
ghost use Rattle.rc_openings.specs.Words.{words_left};
ghost use Rattle.rc_openings.specs.Opening.{IsAnswer, IsDecisive, Row, begins_with, row_of, decisive_row};
ghost use Rattle.rc_openings.specs.Apart.{front_has, forms_have, is_own, is_form_of};
ghost use Rattle.rc_openings.specs.Block.{rows_of, begins_form_anywhere};
ghost use Rattle.rc_openings.specs.FamilyOpenings.{family_end, other_family};
ghost use Rattle.rc_openings.specs.declared.block.Block.{Block as BlockKind};
ghost use Rattle.rc_openings.specs.declared.form.Form.{Form as FormKind};

use crate::access_list::{access_list_opening, access_list_table};
use crate::bgp::{bgp_opening, bgp_table};
use crate::decide::{begins_form, copied, decisive_of};
use crate::family::ipv4_family_opening;
use crate::global::{global_opening, global_table};
use crate::interface::{interface_opening, interface_table};
use crate::ospf::{ospf_opening, ospf_table};
use crate::route_map::{route_map_opening, route_map_table};
use crate::{BgpForm, Form, Opening, Verdict, Words};

/// The kind of block that a line stands in.
#[derive(Clone, Copy)]
pub enum Block {
    /// No block is open, and the line is indented.
    Closed,
    /// The line has no indent.
    Global,
    Interface,
    /// A named access list.
    AccessList,
    RouteMap,
    Ospf,
    Bgp,
    /// IPv4's address family in the block of a BGP process.
    Ipv4Family,
    /// Another address family there, whose lines are passed over up to its end.
    OtherFamily,
    /// A block whose lines are all passed over.
    Ignored,
}

static ANY_LINE: [Opening; 1] = [Opening {
    text: b"",
    verdict: Verdict::Ignored,
}];

static FAMILY_END: [Opening; 1] = [Opening {
    text: b"exit-address-family",
    verdict: Verdict::Form(Form::Bgp(BgpForm::ExitAddressFamily)),
}];

static OTHER_FAMILY: [Opening; 2] = [
    Opening {
        text: b"",
        verdict: Verdict::Ignored,
    },
    Opening {
        text: b"exit-address-family",
        verdict: Verdict::Form(Form::Bgp(BgpForm::ExitAddressFamily)),
    },
];

/// The opening that ends a family.
fn family_end_openings() -> &'static [Opening]
    ensures { map row_of result.now ≡ family_end ∷ [] }
{
    &FAMILY_END
}

/// The openings of a family whose lines are passed over.
fn other_family_openings() -> &'static [Opening]
    ensures { map row_of result.now ≡ other_family }
{
    &OTHER_FAMILY
}

impl Block {
    /// The opening that decides the line in this block, or `None` exactly where it begins with none of the block's.
    pub fn decide(self, line: Words) -> Option<Opening>
        ensures decisive { IsAnswer (rows_of self) (words_left line.entry) (option_map row_of result) }
        ensures computed { option_map row_of result ≡ decisive_row (rows_of self) (words_left line.entry) }
    {
        copied(self.opening_of(line))
    }

    /// The same, lent.
    pub(crate) fn opening_of(self, line: Words) -> Option<&'static Opening>
        ensures decisive { IsAnswer (rows_of self) (words_left line.entry) (option_map row_of (option_copied result)) }
        ensures computed { option_map row_of (option_copied result) ≡ decisive_row (rows_of self) (words_left line.entry) }
    {
        self.found(line)
    }

    /// The opening with which the line begins that has most words.
    #[tactic(auto, unfolding(crate::specs::Words::words_of))]
    fn found(self, line: Words) -> Option<&'static Opening>
        ensures { IsAnswer (rows_of self) (words_left line.entry) (option_map row_of (option_copied result)) }
    {
        match self {
            Block::Closed => None,
            Block::Global => global_opening(line),
            Block::Interface => interface_opening(line),
            Block::AccessList => access_list_opening(line),
            Block::RouteMap => route_map_opening(line),
            Block::Ospf => ospf_opening(line),
            Block::Bgp => bgp_opening(line),
            Block::Ipv4Family => ipv4_family_opening(line),
            Block::OtherFamily => decisive_of(other_family_openings(), line),
            Block::Ignored => decisive_of(&ANY_LINE, line),
        }
    }
}

/// Whether the line, from that word on, begins with a form opening of some block.
pub fn is_form(line: Words, from: usize) -> bool
    ensures { result ≡ begins_form_anywhere (drop from (words_left line.entry)) }
{
    let words = line.skip(from);
    global_table().begins_form(words)
        || interface_table().begins_form(words)
        || access_list_table().begins_form(words)
        || route_map_table().begins_form(words)
        || ospf_table().begins_form(words)
        || bgp_table().begins_form(words)
        || begins_form(family_end_openings(), words)
}

/// A law: no two openings of one block decide one line.
pub fn one_opening_decides()
    ensures { (block : BlockKind) (line : List (List ℕ)) (r s : Row) → IsDecisive (rows_of block) line r → IsDecisive (rows_of block) line s → r ≡ s }
{}

/// A line with a given front, as `access-list`, is of the forms alone whose openings share it, where it is of a form.
pub fn front_decides()
    ensures { (own : FormKind → Bool) (block : BlockKind) (front line : List (List ℕ)) (row : Row) → front_has own front (rows_of block) ≡ true → begins_with line front ≡ true → IsDecisive (rows_of block) line row → is_own own row.verdict ≡ true }
{}

/// A line of a form begins with one of the fronts that the form's openings begin with.
pub fn form_has_front()
    ensures { (own : FormKind → Bool) (block : BlockKind) (fronts : List (List (List ℕ))) (line : List (List ℕ)) (row : Row) → forms_have own fronts (rows_of block) ≡ true → IsDecisive (rows_of block) line row → is_form_of own row.verdict ≡ true → list_any (begins_with line) fronts ≡ true }
{}
