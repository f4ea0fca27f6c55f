//! What a line says whose form is decided: the grammar of the form reads the words behind the opening.
ghost use Rattle.std.specs.Prelude.{IfOk};
ghost use Rattle.rc_openings.specs.Reading.{Gives};
ghost use Rattle.rc_openings.specs.Words.{words_left, words_of};
ghost use Rattle.rc_config.specs.Lawful.{FitsFile, HasLawfulLists, IsInRange};
ghost use Rattle.rc_grammar.specs.Grammars.{answer_of};

use rc_config::{Command, OpenBlock, RouterText};
use rc_lines::Line;
use rc_openings::{Form, LineError, Words};

/// What a line of this form says in this block, by its words behind the opening. Each grammar is a call of its own, so that a line needs
/// the room of its own grammar alone.
pub(crate) fn read_form(
    form: Form,
    behind: Words,
    line: &Line,
    block: &OpenBlock,
    file: &RouterText,
) -> Result<Command, LineError>
    requires { HasLawfulLists file.now }
    ensures row { Gives result (answer_of block.now file.now line.now.number (words_of line.now.text) form (words_left behind.entry)) }
    ensures in_range { IfOk result IsInRange }
    ensures fits { IfOk result (FitsFile file.now) }
{
    match form {
        Form::General(form) => rc_gram_if::read_general_form(form, behind, line, file),
        Form::Interface(form) => rc_gram_if::read_interface_form(form, behind, line, block, file),
        Form::AccessList(form) => rc_gram_acl::read_form(form, behind, line, block, file),
        Form::Policy(form) => rc_gram_policy::read_list_form(form, behind, file),
        Form::MapEntry(form) => { rc_gram_policy::read_entry_form(form, behind, line, block, file) }
        Form::Ospf(form) => rc_gram_ospf::read_form(form, behind, line, file),
        Form::Bgp(form) => rc_gram_bgp::read_form(form, behind, line, block, file),
    }
}
