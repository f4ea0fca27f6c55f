//! What a line of an access list tests.
ghost use Rattle.std.specs.Prelude.{◌≡◌, IfOk};
ghost use Rattle.rc_openings.specs.Words.{words_left};
ghost use Rattle.rc_gram_acl.specs.Entry as entries;
ghost use Rattle.rc_gram_acl.specs.Lines.{MakeLawfulLines};

use crate::lines::{LineTests, extended, standard};
use crate::refused::has_refused_place;
use rc_config::AccessListKind;
use rc_openings::{LineRefusal, Words};

/// Why an extended line that fits no row is refused.
fn refusal_of(words: Words) -> LineRefusal
    ensures { result ≡ entries.refusal_of (words_left words.entry) }
{
    if has_refused_place(words) {
        LineRefusal::Unsupported
    } else {
        LineRefusal::BadValue
    }
}

/// What a line of a list of this kind tests, by the words behind `permit` or `deny`: `SRC [log]` in a standard list,
/// `PROTO ADDR [PORT] ADDR [PORT] [MORE] [log|log-input]` in an extended one.
///
/// It errs exactly where the words fit no row. Words that are refused wherever they stand are not looked for here.
pub(crate) fn read_entry(kind: AccessListKind, words: Words) -> Result<LineTests, LineRefusal>
    ensures row { result ≡ entries.entry kind (words_left words.entry) }
    // A line of a standard list tests its source alone, and each further test stands only where the protocol has what it asks.
    ensures lawful { IfOk result (MakeLawfulLines kind) }
{
    match kind {
        AccessListKind::Standard => match standard(words) {
            Some(tests) => Ok(tests),
            None => Err(LineRefusal::BadValue),
        },
        AccessListKind::Extended => match extended(words) {
            Some(tests) => Ok(tests),
            None => Err(refusal_of(words)),
        },
    }
}
