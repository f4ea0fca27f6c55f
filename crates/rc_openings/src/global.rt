//! The openings of a line with no indent.
ghost use Rattle.std.specs.Option.{option_copied, option_map};
ghost use Rattle.rc_openings.specs.Groups.{IsTable};
ghost use Rattle.rc_openings.specs.GlobalOpenings.{global};
ghost use Rattle.rc_openings.specs.Opening.{IsAnswer, row_of};
ghost use Rattle.rc_openings.specs.Words.{words_left};

use crate::table::{
    Index, Longer, NONE_LONGER, Table, before, count, each_start, one, openings, starts,
};
use crate::{
    AccessListForm, BgpForm, Form, GeneralForm, Opening, OspfForm, PolicyForm, Verdict, Words,
};

/// The openings of one word, by its first letter.
macro_rules! one_word {
    ($make:ident) => {
        $make! {
            b'B' {
                b"Building" => Verdict::Ignored,
            }
            b'C' {
                b"Current" => Verdict::Ignored,
            }
            b'U' {
                b"Using" => Verdict::Ignored,
            }
            b'a' {
                b"access-list" => Verdict::Form(Form::AccessList(AccessListForm::Numbered)),
                b"aaa" => Verdict::Ignored,
                b"archive" => Verdict::Ignored,
                b"alias" => Verdict::Ignored,
                b"arp" => Verdict::Ignored,
            }
            b'b' {
                b"bridge" => Verdict::Refused,
                b"boot-start-marker" => Verdict::Ignored,
                b"boot-end-marker" => Verdict::Ignored,
                b"boot" => Verdict::Ignored,
            }
            b'c' {
                b"clock" => Verdict::Ignored,
                b"control-plane" => Verdict::Ignored,
                b"cdp" => Verdict::Ignored,
                b"crypto" => Verdict::Ignored,
                b"class-map" => Verdict::Ignored,
                b"card" => Verdict::Ignored,
                b"controller" => Verdict::Ignored,
                b"call-home" => Verdict::Ignored,
            }
            b'd' {
                b"dial-peer" => Verdict::Ignored,
                b"diagnostic" => Verdict::Ignored,
            }
            b'e' {
                b"enable" => Verdict::Ignored,
                b"exception" => Verdict::Ignored,
                b"errdisable" => Verdict::Ignored,
                b"event" => Verdict::Ignored,
                b"end" => Verdict::Ignored,
                b"exit" => Verdict::Ignored,
            }
            b'f' {
                b"file" => Verdict::Ignored,
                b"flow" => Verdict::Ignored,
            }
            b'h' {
                b"hostname" => Verdict::Form(Form::General(GeneralForm::Hostname)),
                b"hw-module" => Verdict::Ignored,
            }
            b'i' {
                b"interface" => Verdict::Form(Form::General(GeneralForm::Interface)),
                b"ipv6" => Verdict::Ignored,
            }
            b'k' {
                b"key" => Verdict::Ignored,
                b"kron" => Verdict::Ignored,
            }
            b'l' {
                b"line" => Verdict::Ignored,
                b"logging" => Verdict::Ignored,
                b"license" => Verdict::Ignored,
                b"lldp" => Verdict::Ignored,
                b"login" => Verdict::Ignored,
                b"lacp" => Verdict::Ignored,
            }
            b'm' {
                b"mpls" => Verdict::Refused,
                b"memory" => Verdict::Ignored,
                b"memory-size" => Verdict::Ignored,
                b"mmi" => Verdict::Ignored,
                b"mgcp" => Verdict::Ignored,
                b"multilink" => Verdict::Ignored,
                b"mac" => Verdict::Ignored,
                b"monitor" => Verdict::Ignored,
            }
            b'n' {
                b"ntp" => Verdict::Ignored,
                b"netconf" => Verdict::Ignored,
                b"no" => Verdict::Ignored,
            }
            b'o' {
                b"object-group" => Verdict::Refused,
            }
            b'p' {
                b"privilege" => Verdict::Ignored,
                b"policy-map" => Verdict::Ignored,
                b"parameter-map" => Verdict::Ignored,
                b"process" => Verdict::Ignored,
                b"parser" => Verdict::Ignored,
                b"platform" => Verdict::Ignored,
                b"port-channel" => Verdict::Ignored,
            }
            b'r' {
                b"route-map" => Verdict::Form(Form::Policy(PolicyForm::RouteMap)),
                b"router" => Verdict::Refused,
                b"redundancy" => Verdict::Ignored,
                b"radius" => Verdict::Ignored,
                b"radius-server" => Verdict::Ignored,
                b"restconf" => Verdict::Ignored,
            }
            b's' {
                b"service" => Verdict::Ignored,
                b"sntp" => Verdict::Ignored,
                b"snmp-server" => Verdict::Ignored,
                b"scheduler" => Verdict::Ignored,
                b"spanning-tree" => Verdict::Ignored,
                b"security" => Verdict::Ignored,
                b"subscriber" => Verdict::Ignored,
                b"sdm" => Verdict::Ignored,
                b"switch" => Verdict::Ignored,
            }
            b't' {
                b"track" => Verdict::Refused,
                b"time-range" => Verdict::Refused,
                b"transceiver" => Verdict::Ignored,
                b"tacacs" => Verdict::Ignored,
                b"tacacs-server" => Verdict::Ignored,
                b"transport" => Verdict::Ignored,
            }
            b'u' {
                b"username" => Verdict::Ignored,
                b"udld" => Verdict::Ignored,
            }
            b'v' {
                b"vrf" => Verdict::Refused,
                b"version" => Verdict::Ignored,
                b"vtp" => Verdict::Ignored,
                b"vlan" => Verdict::Ignored,
                b"voice" => Verdict::Ignored,
                b"voice-card" => Verdict::Ignored,
            }
            b'w' {
                b"wsma" => Verdict::Ignored,
            }
            b'z' {
                b"zone" => Verdict::Refused,
                b"zone-pair" => Verdict::Refused,
            }
        }
    };
}

const ONE_WORD_COUNT: usize = one_word!(count);

static ONE_WORD: [Opening; ONE_WORD_COUNT] = one_word!(openings);

static ONE_WORD_STARTS: [u8; 59] = one_word!(starts);

/// The openings of more words, by the first letter of the second one.
macro_rules! more_words {
    ($make:ident) => {
        $make! {
            b'a' {
                b"ip access-list standard" => Verdict::Form(Form::AccessList(AccessListForm::Standard)),
                b"ip access-list extended" => Verdict::Form(Form::AccessList(AccessListForm::Extended)),
                b"ip access-list" => Verdict::Refused,
                b"ip as-path" => Verdict::Ignored,
            }
            b'b' {
                b"router bgp" => Verdict::Form(Form::Bgp(BgpForm::RouterBgp)),
                b"ip bgp-community" => Verdict::Ignored,
            }
            b'c' {
                b"ip community-list" => Verdict::Form(Form::Policy(PolicyForm::CommunityList)),
                b"ip community-list standard" => Verdict::Form(Form::Policy(PolicyForm::StandardCommunityList)),
                b"ip community-list expanded" => Verdict::Refused,
                b"ip cef" => Verdict::Ignored,
                b"ip classless" => Verdict::Ignored,
            }
            b'd' {
                b"ip default-network" => Verdict::Refused,
                b"ip domain" => Verdict::Ignored,
                b"ip domain-name" => Verdict::Ignored,
                b"ip domain-lookup" => Verdict::Ignored,
                b"ip dhcp" => Verdict::Ignored,
                b"ip default-gateway" => Verdict::Ignored,
            }
            b'e' {
                b"ip extcommunity-list" => Verdict::Ignored,
            }
            b'f' {
                b"ip ftp" => Verdict::Ignored,
                b"ip forward-protocol" => Verdict::Ignored,
                b"ip finger" => Verdict::Ignored,
                b"ip flow-export" => Verdict::Ignored,
                b"ip flow-cache" => Verdict::Ignored,
            }
            b'h' {
                b"ip http" => Verdict::Ignored,
                b"ip host" => Verdict::Ignored,
            }
            b'i' {
                b"ip inspect" => Verdict::Refused,
                b"no ip routing" => Verdict::Refused,
                b"no ip classless" => Verdict::Refused,
                b"ip icmp" => Verdict::Ignored,
            }
            b'l' {
                b"ip local" => Verdict::Refused,
            }
            b'm' {
                b"ip multicast-routing" => Verdict::Ignored,
                b"ip mroute" => Verdict::Ignored,
            }
            b'n' {
                b"ip nat" => Verdict::Refused,
                b"ip name-server" => Verdict::Ignored,
            }
            b'o' {
                b"router ospf" => Verdict::Form(Form::Ospf(OspfForm::RouterOspf)),
                b"ip options" => Verdict::Ignored,
            }
            b'p' {
                b"ip prefix-list" => Verdict::Form(Form::Policy(PolicyForm::PrefixList)),
                b"ip pim" => Verdict::Ignored,
                b"ip prefix-list * description" => Verdict::Ignored,
                b"ip prefix-list sequence-number" => Verdict::Ignored,
            }
            b'r' {
                b"ip route" => Verdict::Form(Form::General(GeneralForm::StaticRoute)),
                b"ip route vrf" => Verdict::Refused,
                b"ip rcmd" => Verdict::Ignored,
                b"ip radius" => Verdict::Ignored,
                b"ip routing" => Verdict::Ignored,
            }
            b's' {
                b"ip ssh" => Verdict::Ignored,
                b"ip scp" => Verdict::Ignored,
                b"ip subnet-zero" => Verdict::Ignored,
                b"ip source-route" => Verdict::Ignored,
                b"ip sla" => Verdict::Ignored,
            }
            b't' {
                b"ip tftp" => Verdict::Ignored,
                b"ip tcp" => Verdict::Ignored,
                b"ip tacacs" => Verdict::Ignored,
            }
            b'v' {
                b"ip vrf" => Verdict::Refused,
            }
        }
    };
}

const MORE_WORDS_COUNT: usize = more_words!(count);

static MORE_WORDS: [Opening; MORE_WORDS_COUNT] = more_words!(openings);

static MORE_WORDS_STARTS: [u8; 59] = more_words!(starts);

pub(crate) fn global_table() -> Table
    ensures { IsTable result global }
{
    Table {
        one_word: Index {
            openings: &ONE_WORD,
            starts: &ONE_WORD_STARTS,
        },
        more_words: Longer {
            fronts: b"inr",
            index: Index {
                openings: &MORE_WORDS,
                starts: &MORE_WORDS_STARTS,
            },
        },
        starred: NONE_LONGER,
    }
}

/// The opening that decides a line with no indent: a call of its own, since its table is part of it.
#[inline(never)]
pub(crate) fn global_opening(line: Words) -> Option<&'static Opening>
    ensures { IsAnswer global (words_left line.entry) (option_map row_of (option_copied result)) }
{
    global_table().decide(line)
}
