//! The openings of a line under `interface`.
ghost use Rattle.std.specs.Option.{option_copied, option_map};
ghost use Rattle.rc_openings.specs.Groups.{IsTable};
ghost use Rattle.rc_openings.specs.InterfaceOpenings.{interface};
ghost use Rattle.rc_openings.specs.Opening.{IsAnswer, row_of};
ghost use Rattle.rc_openings.specs.Words.{words_left};

use crate::table::{
    Index, Longer, NONE_LONGER, Table, before, count, each_start, one, openings, starts,
};
use crate::{Form, InterfaceForm, Opening, Verdict, Words};

/// The openings of one word, by its first letter.
macro_rules! one_word {
    ($make:ident) => {
        $make! {
            b'a' {
                b"arp" => Verdict::Ignored,
                b"auto" => Verdict::Ignored,
            }
            b'b' {
                b"bandwidth" => Verdict::Form(Form::Interface(InterfaceForm::Bandwidth)),
                b"bridge-group" => Verdict::Refused,
                b"backup" => Verdict::Refused,
                b"bfd" => Verdict::Ignored,
            }
            b'c' {
                b"clock" => Verdict::Ignored,
                b"cdp" => Verdict::Ignored,
                b"channel-group" => Verdict::Ignored,
                b"carrier-delay" => Verdict::Ignored,
            }
            b'd' {
                b"description" => Verdict::Ignored,
                b"duplex" => Verdict::Ignored,
                b"delay" => Verdict::Ignored,
            }
            b'e' {
                b"encapsulation" => Verdict::Ignored,
                b"exit" => Verdict::Ignored,
            }
            b'f' {
                b"fair-queue" => Verdict::Ignored,
            }
            b'g' {
                b"glbp" => Verdict::Refused,
            }
            b'h' {
                b"hold-queue" => Verdict::Ignored,
            }
            b'i' {
                b"ipv6" => Verdict::Ignored,
            }
            b'k' {
                b"keepalive" => Verdict::Ignored,
            }
            b'l' {
                b"lldp" => Verdict::Ignored,
                b"load-interval" => Verdict::Ignored,
                b"logging" => Verdict::Ignored,
                b"lacp" => Verdict::Ignored,
            }
            b'm' {
                b"mpls" => Verdict::Refused,
                b"media-type" => Verdict::Ignored,
                b"mtu" => Verdict::Ignored,
                b"max-reserved-bandwidth" => Verdict::Ignored,
                b"mls" => Verdict::Ignored,
                b"mop" => Verdict::Ignored,
            }
            b'n' {
                b"negotiation" => Verdict::Ignored,
                b"ntp" => Verdict::Ignored,
                b"no" => Verdict::Ignored,
            }
            b'p' {
                b"power" => Verdict::Ignored,
                b"ppp" => Verdict::Ignored,
            }
            b'r' {
                b"random-detect" => Verdict::Ignored,
            }
            b's' {
                b"shutdown" => Verdict::Form(Form::Interface(InterfaceForm::Shutdown)),
                b"standby" => Verdict::Refused,
                b"switchport" => Verdict::Refused,
                b"speed" => Verdict::Ignored,
                b"service-policy" => Verdict::Ignored,
                b"snmp" => Verdict::Ignored,
                b"spanning-tree" => Verdict::Ignored,
                b"storm-control" => Verdict::Ignored,
                b"serial" => Verdict::Ignored,
            }
            b't' {
                b"tunnel" => Verdict::Refused,
                b"tx-ring-limit" => Verdict::Ignored,
            }
            b'u' {
                b"udld" => Verdict::Ignored,
            }
            b'v' {
                b"vrf" => Verdict::Refused,
                b"vrrp" => Verdict::Refused,
            }
            b'x' {
                b"xconnect" => Verdict::Refused,
            }
            b'z' {
                b"zone-member" => Verdict::Refused,
            }
        }
    };
}

const ONE_WORD_COUNT: usize = one_word!(count);

static ONE_WORD: [Opening; ONE_WORD_COUNT] = one_word!(openings);

static ONE_WORD_STARTS: [u8; 59] = one_word!(starts);

/// The openings of more words, by the first letter of the second one.
macro_rules! more_words {
    ($make:ident) => {
        $make! {
            b'a' {
                b"ip address" => Verdict::Form(Form::Interface(InterfaceForm::IpAddress)),
                b"ip access-group" => Verdict::Form(Form::Interface(InterfaceForm::AccessGroup)),
                b"ip address dhcp" => Verdict::Refused,
                b"ip address negotiated" => Verdict::Refused,
                b"ip accounting" => Verdict::Ignored,
            }
            b'd' {
                b"ip directed-broadcast" => Verdict::Ignored,
            }
            b'f' {
                b"ip flow" => Verdict::Ignored,
            }
            b'h' {
                b"ip helper-address" => Verdict::Ignored,
            }
            b'i' {
                b"ip inspect" => Verdict::Refused,
                b"ip igmp" => Verdict::Ignored,
            }
            b'l' {
                b"ip load-sharing" => Verdict::Ignored,
            }
            b'm' {
                b"crypto map" => Verdict::Refused,
                b"ip mtu" => Verdict::Ignored,
            }
            b'n' {
                b"ip nat" => Verdict::Refused,
                b"ip nbar" => Verdict::Ignored,
            }
            b'o' {
                b"ip ospf cost" => Verdict::Form(Form::Interface(InterfaceForm::OspfCost)),
                b"ip ospf hello-interval" => Verdict::Form(Form::Interface(InterfaceForm::OspfHelloInterval)),
                b"ip ospf dead-interval" => Verdict::Form(Form::Interface(InterfaceForm::OspfDeadInterval)),
                b"ip ospf network" => Verdict::Form(Form::Interface(InterfaceForm::OspfNetworkType)),
                b"ip ospf network broadcast" => Verdict::Form(Form::Interface(InterfaceForm::OspfNetworkBroadcast)),
                b"ip ospf network point-to-point" => Verdict::Form(Form::Interface(InterfaceForm::OspfNetworkPointToPoint)),
                b"ip ospf * area" => Verdict::Form(Form::Interface(InterfaceForm::OspfArea)),
                b"ip ospf" => Verdict::Refused,
                b"ip ospf priority" => Verdict::Ignored,
                b"ip ospf mtu-ignore" => Verdict::Ignored,
                b"ip ospf bfd" => Verdict::Ignored,
                b"ip ospf retransmit-interval" => Verdict::Ignored,
                b"ip ospf transmit-delay" => Verdict::Ignored,
                b"ip ospf flood-reduction" => Verdict::Ignored,
            }
            b'p' {
                b"ip policy" => Verdict::Refused,
                b"ip proxy-arp" => Verdict::Ignored,
                b"ip pim" => Verdict::Ignored,
            }
            b'r' {
                b"ip router" => Verdict::Refused,
                b"ip redirects" => Verdict::Ignored,
                b"ip route-cache" => Verdict::Ignored,
            }
            b's' {
                b"no shutdown" => Verdict::Form(Form::Interface(InterfaceForm::NoShutdown)),
            }
            b't' {
                b"ip tcp" => Verdict::Ignored,
            }
            b'u' {
                b"ip unnumbered" => Verdict::Refused,
                b"ip unreachables" => Verdict::Ignored,
            }
            b'v' {
                b"ip vrf" => Verdict::Refused,
                b"ip verify" => Verdict::Refused,
                b"ip virtual-reassembly" => Verdict::Ignored,
            }
        }
    };
}

const MORE_WORDS_COUNT: usize = more_words!(count);

static MORE_WORDS: [Opening; MORE_WORDS_COUNT] = more_words!(openings);

static MORE_WORDS_STARTS: [u8; 59] = more_words!(starts);

pub(crate) fn interface_table() -> Table
    ensures { IsTable result interface }
{
    Table {
        one_word: Index {
            openings: &ONE_WORD,
            starts: &ONE_WORD_STARTS,
        },
        more_words: Longer {
            fronts: b"icn",
            index: Index {
                openings: &MORE_WORDS,
                starts: &MORE_WORDS_STARTS,
            },
        },
        starred: NONE_LONGER,
    }
}

/// The opening that decides a line under `interface`: a call of its own, since its table is part of it.
#[inline(never)]
pub(crate) fn interface_opening(line: Words) -> Option<&'static Opening>
    ensures { IsAnswer interface (words_left line.entry) (option_map row_of (option_copied result)) }
{
    interface_table().decide(line)
}
