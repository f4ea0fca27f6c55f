//! The openings of a line under `router ospf`.
ghost use Rattle.std.specs.Option.{option_copied, option_map};
ghost use Rattle.rc_openings.specs.Groups.{IsTable};
ghost use Rattle.rc_openings.specs.OspfOpenings.{ospf};
ghost use Rattle.rc_openings.specs.Opening.{IsAnswer, row_of};
ghost use Rattle.rc_openings.specs.Words.{words_left};

use crate::table::{Index, Longer, Table, before, count, each_start, one, openings, starts};
use crate::{Form, Opening, OspfForm, Verdict, Words};

/// The openings of one word, by its first letter.
macro_rules! one_word {
    ($make:ident) => {
        $make! {
            b'a' {
                b"area" => Verdict::Refused,
            }
            b'b' {
                b"bfd" => Verdict::Ignored,
            }
            b'd' {
                b"distance" => Verdict::Refused,
                b"distribute-list" => Verdict::Refused,
                b"default-metric" => Verdict::Refused,
                b"default-information" => Verdict::Refused,
            }
            b'e' {
                b"exit" => Verdict::Ignored,
            }
            b'i' {
                b"ispf" => Verdict::Ignored,
            }
            b'l' {
                b"log-adjacency-changes" => Verdict::Ignored,
            }
            b'm' {
                b"maximum-paths" => Verdict::Refused,
                b"max-metric" => Verdict::Refused,
                b"max-lsa" => Verdict::Ignored,
            }
            b'n' {
                b"network" => Verdict::Form(Form::Ospf(OspfForm::Network)),
                b"neighbor" => Verdict::Refused,
                b"nsf" => Verdict::Ignored,
                b"no" => Verdict::Ignored,
            }
            b'p' {
                b"passive-interface" => Verdict::Form(Form::Ospf(OspfForm::PassiveInterface)),
            }
            b'r' {
                b"router-id" => Verdict::Form(Form::Ospf(OspfForm::RouterId)),
                b"redistribute" => Verdict::Refused,
            }
            b's' {
                b"summary-address" => Verdict::Refused,
            }
            b't' {
                b"timers" => Verdict::Ignored,
            }
        }
    };
}

const ONE_WORD_COUNT: usize = one_word!(count);

static ONE_WORD: [Opening; ONE_WORD_COUNT] = one_word!(openings);

static ONE_WORD_STARTS: [u8; 59] = one_word!(starts);

/// The openings of more words, by the first letter of the second one.
macro_rules! more_words {
    ($make:ident) => {
        $make! {
            b'b' {
                b"redistribute bgp" => Verdict::Form(Form::Ospf(OspfForm::RedistributeBgp)),
            }
            b'c' {
                b"redistribute connected" => Verdict::Form(Form::Ospf(OspfForm::RedistributeConnected)),
            }
            b'd' {
                b"passive-interface default" => Verdict::Form(Form::Ospf(OspfForm::PassiveInterfaceDefault)),
            }
            b'o' {
                b"default-information originate" => Verdict::Form(Form::Ospf(OspfForm::DefaultInformationOriginate)),
            }
            b'p' {
                b"no passive-interface" => Verdict::Form(Form::Ospf(OspfForm::NoPassiveInterface)),
            }
            b'r' {
                b"auto-cost reference-bandwidth" => Verdict::Form(Form::Ospf(OspfForm::ReferenceBandwidth)),
            }
            b's' {
                b"redistribute static" => Verdict::Form(Form::Ospf(OspfForm::RedistributeStatic)),
            }
        }
    };
}

const MORE_WORDS_COUNT: usize = more_words!(count);

static MORE_WORDS: [Opening; MORE_WORDS_COUNT] = more_words!(openings);

static MORE_WORDS_STARTS: [u8; 59] = more_words!(starts);

/// The openings whose second word is `*`, by the first letter of the third one.
macro_rules! starred {
    ($make:ident) => {
        $make! {
            b's' {
                b"area * stub" => Verdict::Form(Form::Ospf(OspfForm::StubArea)),
            }
        }
    };
}

const STARRED_COUNT: usize = starred!(count);

static STARRED: [Opening; STARRED_COUNT] = starred!(openings);

static STARRED_STARTS: [u8; 59] = starred!(starts);

pub(crate) fn ospf_table() -> Table
    ensures { IsTable result ospf }
{
    Table {
        one_word: Index {
            openings: &ONE_WORD,
            starts: &ONE_WORD_STARTS,
        },
        more_words: Longer {
            fronts: b"radnp",
            index: Index {
                openings: &MORE_WORDS,
                starts: &MORE_WORDS_STARTS,
            },
        },
        starred: Longer {
            fronts: b"a",
            index: Index {
                openings: &STARRED,
                starts: &STARRED_STARTS,
            },
        },
    }
}

/// The opening that decides a line of the OSPF process: a call of its own, since its table is part of it.
#[inline(never)]
pub(crate) fn ospf_opening(line: Words) -> Option<&'static Opening>
    ensures { IsAnswer ospf (words_left line.entry) (option_map row_of (option_copied result)) }
{
    ospf_table().decide(line)
}
