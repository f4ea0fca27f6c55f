//! The openings of a line under `ip access-list`, behind its sequence number.
ghost use Rattle.std.specs.Option.{option_copied, option_map};
ghost use Rattle.rc_openings.specs.Groups.{IsTable};
ghost use Rattle.rc_openings.specs.AccessListOpenings.{access_list};
ghost use Rattle.rc_openings.specs.Opening.{IsAnswer, row_of};
ghost use Rattle.rc_openings.specs.Words.{words_left};

use crate::table::{Index, NONE_LONGER, Table, before, count, each_start, one, openings, starts};
use crate::{AccessListForm, Form, Opening, Verdict, Words};

/// The openings of one word, by its first letter.
macro_rules! one_word {
    ($make:ident) => {
        $make! {
            b'd' {
                b"deny" => Verdict::Form(Form::AccessList(AccessListForm::Deny)),
                b"dynamic" => Verdict::Refused,
            }
            b'e' {
                b"evaluate" => Verdict::Refused,
                b"exit" => Verdict::Ignored,
            }
            b'p' {
                b"permit" => Verdict::Form(Form::AccessList(AccessListForm::Permit)),
            }
            b'r' {
                b"remark" => Verdict::Form(Form::AccessList(AccessListForm::Remark)),
            }
        }
    };
}

const ONE_WORD_COUNT: usize = one_word!(count);

static ONE_WORD: [Opening; ONE_WORD_COUNT] = one_word!(openings);

static ONE_WORD_STARTS: [u8; 59] = one_word!(starts);

pub(crate) fn access_list_table() -> Table
    ensures { IsTable result access_list }
{
    Table {
        one_word: Index {
            openings: &ONE_WORD,
            starts: &ONE_WORD_STARTS,
        },
        more_words: NONE_LONGER,
        starred: NONE_LONGER,
    }
}

/// The opening that decides a line of an access list: a call of its own, since its table is part of it.
#[inline(never)]
pub(crate) fn access_list_opening(line: Words) -> Option<&'static Opening>
    ensures { IsAnswer access_list (words_left line.entry) (option_map row_of (option_copied result)) }
{
    access_list_table().decide(line)
}
