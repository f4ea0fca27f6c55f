//! The names of protocols, ports and ICMP types, as the program's tables.
ghost use Rattle.std.specs.Prelude.{◌≡◌, map};
ghost use Rattle.rc_gram_acl.specs.NumberName.{icmp_type_names as icmp_types, number_named as named, port_names as ports, protocol_names as protocols, row_of};

/// A name and the number that it stands for.
#[derive(Clone, Copy)]
pub(crate) struct NumberName {
    pub name: &'static [u8],
    pub number: u16,
}

static PROTOCOLS: [NumberName; 10] = [
    NumberName {
        name: b"icmp",
        number: 1,
    },
    NumberName {
        name: b"igmp",
        number: 2,
    },
    NumberName {
        name: b"tcp",
        number: 6,
    },
    NumberName {
        name: b"udp",
        number: 17,
    },
    NumberName {
        name: b"gre",
        number: 47,
    },
    NumberName {
        name: b"esp",
        number: 50,
    },
    NumberName {
        name: b"ahp",
        number: 51,
    },
    NumberName {
        name: b"eigrp",
        number: 88,
    },
    NumberName {
        name: b"ospf",
        number: 89,
    },
    NumberName {
        name: b"pim",
        number: 103,
    },
];

static PORTS: [NumberName; 39] = [
    NumberName {
        name: b"ftp-data",
        number: 20,
    },
    NumberName {
        name: b"ftp",
        number: 21,
    },
    NumberName {
        name: b"telnet",
        number: 23,
    },
    NumberName {
        name: b"smtp",
        number: 25,
    },
    NumberName {
        name: b"tacacs",
        number: 49,
    },
    NumberName {
        name: b"domain",
        number: 53,
    },
    NumberName {
        name: b"bootps",
        number: 67,
    },
    NumberName {
        name: b"bootpc",
        number: 68,
    },
    NumberName {
        name: b"tftp",
        number: 69,
    },
    NumberName {
        name: b"www",
        number: 80,
    },
    NumberName {
        name: b"pop3",
        number: 110,
    },
    NumberName {
        name: b"ntp",
        number: 123,
    },
    NumberName {
        name: b"snmp",
        number: 161,
    },
    NumberName {
        name: b"snmptrap",
        number: 162,
    },
    NumberName {
        name: b"bgp",
        number: 179,
    },
    NumberName {
        name: b"isakmp",
        number: 500,
    },
    NumberName {
        name: b"syslog",
        number: 514,
    },
    NumberName {
        name: b"echo",
        number: 7,
    },
    NumberName {
        name: b"discard",
        number: 9,
    },
    NumberName {
        name: b"daytime",
        number: 13,
    },
    NumberName {
        name: b"chargen",
        number: 19,
    },
    NumberName {
        name: b"time",
        number: 37,
    },
    NumberName {
        name: b"whois",
        number: 43,
    },
    NumberName {
        name: b"gopher",
        number: 70,
    },
    NumberName {
        name: b"finger",
        number: 79,
    },
    NumberName {
        name: b"sunrpc",
        number: 111,
    },
    NumberName {
        name: b"ident",
        number: 113,
    },
    NumberName {
        name: b"nntp",
        number: 119,
    },
    NumberName {
        name: b"netbios-ns",
        number: 137,
    },
    NumberName {
        name: b"netbios-dgm",
        number: 138,
    },
    NumberName {
        name: b"netbios-ss",
        number: 139,
    },
    NumberName {
        name: b"irc",
        number: 194,
    },
    NumberName {
        name: b"exec",
        number: 512,
    },
    NumberName {
        name: b"login",
        number: 513,
    },
    NumberName {
        name: b"cmd",
        number: 514,
    },
    NumberName {
        name: b"lpd",
        number: 515,
    },
    NumberName {
        name: b"rip",
        number: 520,
    },
    NumberName {
        name: b"uucp",
        number: 540,
    },
    NumberName {
        name: b"non500-isakmp",
        number: 4500,
    },
];

static ICMP_TYPES: [NumberName; 4] = [
    NumberName {
        name: b"echo-reply",
        number: 0,
    },
    NumberName {
        name: b"unreachable",
        number: 3,
    },
    NumberName {
        name: b"echo",
        number: 8,
    },
    NumberName {
        name: b"time-exceeded",
        number: 11,
    },
];

/// The number of the name that a word is.
pub(crate) fn number_named(rows: &[NumberName], word: &[u8]) -> Option<u16>
    ensures { result ≡ named (map row_of rows.now) word.now }
{
    for row in rows {
        if row.name == word {
            return Some(row.number);
        }
    }
    None
}

/// The protocols that have names, but for `ip`, which is all of them.
pub(crate) fn protocol_names() -> &'static [NumberName]
    ensures { map row_of result.now ≡ protocols }
{
    &PROTOCOLS
}

/// The ports that have names, of tcp and udp alike.
pub(crate) fn port_names() -> &'static [NumberName]
    ensures { map row_of result.now ≡ ports }
{
    &PORTS
}

/// The ICMP types that have names here.
pub(crate) fn icmp_type_names() -> &'static [NumberName]
    ensures { map row_of result.now ≡ icmp_types }
{
    &ICMP_TYPES
}
