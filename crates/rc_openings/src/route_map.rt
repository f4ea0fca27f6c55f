//! The openings of a line under `route-map`.
ghost use Rattle.std.specs.Option.{option_copied, option_map};
ghost use Rattle.rc_openings.specs.Groups.{IsTable};
ghost use Rattle.rc_openings.specs.RouteMapOpenings.{route_map};
ghost use Rattle.rc_openings.specs.Opening.{IsAnswer, row_of};
ghost use Rattle.rc_openings.specs.Words.{words_left};

use crate::table::{
    Index, Longer, NONE_LONGER, Table, before, count, each_start, one, openings, starts,
};
use crate::{Form, MapEntryForm, Opening, Verdict, Words};

/// The openings of one word, by its first letter.
macro_rules! one_word {
    ($make:ident) => {
        $make! {
            b'c' {
                b"continue" => Verdict::Refused,
            }
            b'd' {
                b"description" => Verdict::Ignored,
            }
            b'e' {
                b"exit" => Verdict::Ignored,
            }
            b'm' {
                b"match" => Verdict::Refused,
            }
            b's' {
                b"set" => Verdict::Refused,
            }
        }
    };
}

const ONE_WORD_COUNT: usize = one_word!(count);

static ONE_WORD: [Opening; ONE_WORD_COUNT] = one_word!(openings);

static ONE_WORD_STARTS: [u8; 59] = one_word!(starts);

/// The openings of more words, by the first letter of the second one.
macro_rules! more_words {
    ($make:ident) => {
        $make! {
            b'a' {
                b"set as-path prepend" => Verdict::Form(Form::MapEntry(MapEntryForm::PrependAsPath)),
            }
            b'c' {
                b"match community" => Verdict::Form(Form::MapEntry(MapEntryForm::MatchCommunity)),
                b"set community" => Verdict::Form(Form::MapEntry(MapEntryForm::SetCommunity)),
            }
            b'i' {
                b"match ip address" => Verdict::Form(Form::MapEntry(MapEntryForm::MatchAddress)),
                b"match ip address prefix-list" => Verdict::Form(Form::MapEntry(MapEntryForm::MatchPrefixList)),
            }
            b'l' {
                b"set local-preference" => Verdict::Form(Form::MapEntry(MapEntryForm::SetLocalPreference)),
            }
            b'm' {
                b"set metric" => Verdict::Form(Form::MapEntry(MapEntryForm::SetMetric)),
                b"set metric-type type-1" => Verdict::Form(Form::MapEntry(MapEntryForm::SetMetricType1)),
                b"set metric-type type-2" => Verdict::Form(Form::MapEntry(MapEntryForm::SetMetricType2)),
            }
            b'o' {
                b"set origin" => Verdict::Form(Form::MapEntry(MapEntryForm::SetOrigin)),
                b"set origin igp" => Verdict::Form(Form::MapEntry(MapEntryForm::SetOriginIgp)),
                b"set origin incomplete" => Verdict::Form(Form::MapEntry(MapEntryForm::SetOriginIncomplete)),
            }
            b't' {
                b"set tag" => Verdict::Ignored,
            }
            b'w' {
                b"set weight" => Verdict::Form(Form::MapEntry(MapEntryForm::SetWeight)),
            }
        }
    };
}

const MORE_WORDS_COUNT: usize = more_words!(count);

static MORE_WORDS: [Opening; MORE_WORDS_COUNT] = more_words!(openings);

static MORE_WORDS_STARTS: [u8; 59] = more_words!(starts);

pub(crate) fn route_map_table() -> Table
    ensures { IsTable result route_map }
{
    Table {
        one_word: Index {
            openings: &ONE_WORD,
            starts: &ONE_WORD_STARTS,
        },
        more_words: Longer {
            fronts: b"sm",
            index: Index {
                openings: &MORE_WORDS,
                starts: &MORE_WORDS_STARTS,
            },
        },
        starred: NONE_LONGER,
    }
}

/// The opening that decides a line of a route map: a call of its own, since its table is part of it.
#[inline(never)]
pub(crate) fn route_map_opening(line: Words) -> Option<&'static Opening>
    ensures { IsAnswer route_map (words_left line.entry) (option_map row_of (option_copied result)) }
{
    route_map_table().decide(line)
}
