//! The openings of a line under `address-family ipv4`: those of the process, but for the forms that stand outside of it.
ghost use Rattle.std.specs.Option.{option_copied, option_map};
ghost use Rattle.rc_openings.specs.Groups.{IsTable};
ghost use Rattle.rc_openings.specs.FamilyOpenings.{ipv4_family};
ghost use Rattle.rc_openings.specs.Opening.{IsAnswer, row_of};
ghost use Rattle.rc_openings.specs.Words.{words_left};

use crate::table::{Index, Longer, Table, before, count, each_start, one, openings, starts};
use crate::{BgpForm, Form, Opening, Verdict, Words};

/// The openings of one word, by its first letter.
macro_rules! one_word {
    ($make:ident) => {
        $make! {
            b'a' {
                b"aggregate-address" => Verdict::Refused,
                b"address-family" => Verdict::Refused,
            }
            b'b' {
                b"bgp" => Verdict::Refused,
            }
            b'd' {
                b"distance" => Verdict::Refused,
                b"default-information" => Verdict::Refused,
                b"default-metric" => Verdict::Refused,
            }
            b'e' {
                b"exit" => Verdict::Ignored,
                b"exit-address-family" => Verdict::Form(Form::Bgp(BgpForm::ExitAddressFamily)),
            }
            b'm' {
                b"maximum-paths" => Verdict::Form(Form::Bgp(BgpForm::MaximumPaths)),
            }
            b'n' {
                b"network" => Verdict::Form(Form::Bgp(BgpForm::Network)),
                b"neighbor" => Verdict::Refused,
                b"no" => Verdict::Ignored,
            }
            b'r' {
                b"redistribute" => Verdict::Refused,
            }
            b't' {
                b"template" => Verdict::Refused,
                b"table-map" => Verdict::Refused,
                b"timers" => Verdict::Ignored,
            }
        }
    };
}

const ONE_WORD_COUNT: usize = one_word!(count);

static ONE_WORD: [Opening; ONE_WORD_COUNT] = one_word!(openings);

static ONE_WORD_STARTS: [u8; 59] = one_word!(starts);

/// The openings of more words, by the first letter of the second one.
macro_rules! more_words {
    ($make:ident) => {
        $make! {
            b'b' {
                b"no bgp default ipv4-unicast" => Verdict::Form(Form::Bgp(BgpForm::NoDefaultIpv4Unicast)),
                b"bgp bestpath compare-routerid" => Verdict::Ignored,
            }
            b'c' {
                b"redistribute connected" => Verdict::Form(Form::Bgp(BgpForm::RedistributeConnected)),
            }
            b'd' {
                b"bgp deterministic-med" => Verdict::Ignored,
            }
            b'e' {
                b"maximum-paths eibgp" => Verdict::Refused,
            }
            b'g' {
                b"bgp graceful-restart" => Verdict::Ignored,
            }
            b'i' {
                b"maximum-paths ibgp" => Verdict::Form(Form::Bgp(BgpForm::MaximumPathsIbgp)),
                b"address-family ipv4 vrf" => Verdict::Refused,
                b"address-family ipv4 multicast" => Verdict::Refused,
                b"address-family ipv4 mdt" => Verdict::Refused,
            }
            b'l' {
                b"bgp log-neighbor-changes" => Verdict::Ignored,
            }
            b'n' {
                b"no neighbor * activate" => Verdict::Form(Form::Bgp(BgpForm::NoNeighborActivate)),
                b"no neighbor" => Verdict::Refused,
            }
            b'o' {
                b"redistribute ospf" => Verdict::Form(Form::Bgp(BgpForm::RedistributeOspf)),
            }
            b's' {
                b"redistribute static" => Verdict::Form(Form::Bgp(BgpForm::RedistributeStatic)),
            }
        }
    };
}

const MORE_WORDS_COUNT: usize = more_words!(count);

static MORE_WORDS: [Opening; MORE_WORDS_COUNT] = more_words!(openings);

static MORE_WORDS_STARTS: [u8; 59] = more_words!(starts);

/// The openings whose second word is `*`, by the first letter of the third one.
macro_rules! starred {
    ($make:ident) => {
        $make! {
            b'a' {
                b"neighbor * activate" => Verdict::Form(Form::Bgp(BgpForm::NeighborActivate)),
                b"neighbor * advertisement-interval" => Verdict::Ignored,
            }
            b'd' {
                b"neighbor * default-originate" => Verdict::Form(Form::Bgp(BgpForm::NeighborDefaultOriginate)),
                b"neighbor * description" => Verdict::Ignored,
            }
            b'f' {
                b"neighbor * fall-over" => Verdict::Ignored,
            }
            b'n' {
                b"neighbor * next-hop-self" => Verdict::Form(Form::Bgp(BgpForm::NeighborNextHopSelf)),
            }
            b'p' {
                b"neighbor * prefix-list" => Verdict::Form(Form::Bgp(BgpForm::NeighborPrefixList)),
                b"neighbor * peer-group" => Verdict::Form(Form::Bgp(BgpForm::NeighborPeerGroup)),
                b"neighbor * password" => Verdict::Ignored,
            }
            b'r' {
                b"neighbor * route-map" => Verdict::Form(Form::Bgp(BgpForm::NeighborRouteMap)),
            }
            b's' {
                b"neighbor * send-community" => Verdict::Form(Form::Bgp(BgpForm::NeighborSendCommunity)),
                b"neighbor * soft-reconfiguration" => Verdict::Ignored,
            }
            b't' {
                b"neighbor * timers" => Verdict::Ignored,
            }
            b'v' {
                b"neighbor * version" => Verdict::Ignored,
            }
            b'w' {
                b"neighbor * weight" => Verdict::Form(Form::Bgp(BgpForm::NeighborWeight)),
            }
        }
    };
}

const STARRED_COUNT: usize = starred!(count);

static STARRED: [Opening; STARRED_COUNT] = starred!(openings);

static STARRED_STARTS: [u8; 59] = starred!(starts);

pub(crate) fn ipv4_family_table() -> Table
    ensures { IsTable result ipv4_family }
{
    Table {
        one_word: Index {
            openings: &ONE_WORD,
            starts: &ONE_WORD_STARTS,
        },
        more_words: Longer {
            fronts: b"banrm",
            index: Index {
                openings: &MORE_WORDS,
                starts: &MORE_WORDS_STARTS,
            },
        },
        starred: Longer {
            fronts: b"n",
            index: Index {
                openings: &STARRED,
                starts: &STARRED_STARTS,
            },
        },
    }
}

/// The opening that decides a line of IPv4's family: a call of its own, since its table is part of it.
#[inline(never)]
pub(crate) fn ipv4_family_opening(line: Words) -> Option<&'static Opening>
    ensures { IsAnswer ipv4_family (words_left line.entry) (option_map row_of (option_copied result)) }
{
    ipv4_family_table().decide(line)
}
