//! The configuration of a router.
ghost use Rattle.std.specs.Prelude.{◌≡◌, ◌++◌, ◌<◌, ◌≤◌, [], IfOk, OnOk, string_bytes, if◌then◌else◌};
ghost use Rattle.std.specs.Option.{option_map_or};
ghost use Rattle.rc_base.specs.Addr.{dotted};
ghost use Rattle.rc_generate.specs.Files.{access_group, access_list, configuration, head, lan, link, links, ospf, rest};

use crate::addresses::{Place, filters, lan_address, ring_address};
use crate::names::{put_number, put_three_digits};
use rc_base::Addr;
use std::alloc::{AllocError, Global};

/// Puts an address at the end of a text: four decimal octets with dots between them.
#[tactic(auto, unfolding(rc_base::specs::Addr::dotted))]
fn put_address(text: &mut String, addr: Addr) -> Result<(), AllocError>
    ensures { OnOk result (string_bytes text.new ≡ string_bytes text.old ++ dotted addr) }
{
    let bits = addr.bits();
    put_number(text, bits / 16_777_216)?;
    text.push_str(".")?;
    put_number(text, bits / 65_536 % 256)?;
    text.push_str(".")?;
    put_number(text, bits / 256 % 256)?;
    text.push_str(".")?;
    put_number(text, bits % 256)
}

/// Puts the host name of a router.
#[tactic(auto, unfolding(crate::specs::Files::head))]
fn put_head(text: &mut String, router: u32) -> Result<(), AllocError>
    ensures { OnOk result (string_bytes text.new ≡ string_bytes text.old ++ head router) }
{
    text.push_str("hostname r")?;
    put_three_digits(text, router)?;
    text.push_str("\n")
}

/// Puts an interface of a link between two routers.
#[tactic(auto, unfolding(crate::specs::Files::link))]
fn put_link(text: &mut String, number: u32, address: Addr) -> Result<(), AllocError>
    ensures { OnOk result (string_bytes text.new ≡ string_bytes text.old ++ link number address) }
{
    text.push_str("interface GigabitEthernet0/")?;
    put_number(text, number)?;
    text.push_str("\n ip address ")?;
    put_address(text, address)?;
    text.push_str(" 255.255.255.252\n")
}

/// Puts the interface of a chord, if there is one.
fn put_chord(text: &mut String, address: Option<Addr>) -> Result<(), AllocError>
    ensures { OnOk result (string_bytes text.new ≡ string_bytes text.old ++ option_map_or (link 2) address []) }
{
    match address {
        Some(address) => put_link(text, 2, address),
        None => Ok(()),
    }
}

/// Puts the interface of a LAN.
#[tactic(auto, unfolding(crate::specs::Files::lan))]
fn put_lan(text: &mut String, address: Addr) -> Result<(), AllocError>
    ensures { OnOk result (string_bytes text.new ≡ string_bytes text.old ++ lan address) }
{
    text.push_str("interface GigabitEthernet0/3\n ip address ")?;
    put_address(text, address)?;
    text.push_str(" 255.255.255.0\n")
}

/// Puts the access group of a LAN's interface, where its router filters.
#[tactic(auto, unfolding(crate::specs::Files::access_group))]
fn put_access_group(text: &mut String, is_filtering: bool) -> Result<(), AllocError>
    ensures { OnOk result (string_bytes text.new ≡ string_bytes text.old ++ (if is_filtering then access_group else [])) }
{
    if is_filtering {
        return text.push_str(" ip access-group 101 out\n");
    }
    Ok(())
}

/// Puts the lines of OSPF.
#[tactic(auto, unfolding(crate::specs::Files::ospf))]
fn put_ospf(text: &mut String) -> Result<(), AllocError>
    ensures { OnOk result (string_bytes text.new ≡ string_bytes text.old ++ ospf) }
{
    text.push_str(
        "router ospf 1\n passive-interface GigabitEthernet0/3\n network 0.0.0.0 255.255.255.255 area 0\n",
    )
}

/// Puts the access list of a router that filters.
#[tactic(auto, unfolding(crate::specs::Files::access_list))]
fn put_access_list(text: &mut String, is_filtering: bool) -> Result<(), AllocError>
    ensures { OnOk result (string_bytes text.new ≡ string_bytes text.old ++ (if is_filtering then access_list else [])) }
{
    if is_filtering {
        return text.push_str(
            "access-list 101 deny tcp any any eq telnet\naccess-list 101 permit ip any any\n",
        );
    }
    Ok(())
}

/// Puts the lines of a router's links.
fn put_links(text: &mut String, place: Place) -> Result<(), AllocError>
    requires some { place.router < place.routers }
    requires few { place.routers ≤ 512 }
    ensures { OnOk result (string_bytes text.new ≡ string_bytes text.old ++ links place.routers place.router) }
{
    put_link(text, 0, ring_address(place.router, 1))?;
    put_link(text, 1, ring_address(place.before(), 2))?;
    put_chord(text, place.chord_address())
}

/// Puts the lines of a router behind its links.
fn put_rest(text: &mut String, router: u32) -> Result<(), AllocError>
    requires { router < 512 }
    ensures { OnOk result (string_bytes text.new ≡ string_bytes text.old ++ rest router) }
{
    let is_filtering = filters(router);
    put_lan(text, lan_address(router))?;
    put_access_group(text, is_filtering)?;
    put_ospf(text)?;
    put_access_list(text, is_filtering)
}

/// The configuration of a router.
#[tactic(auto, unfolding(crate::specs::Files::configuration))]
pub(crate) fn configuration(alloc: Global, place: Place) -> Result<Vec<u8>, AllocError>
    requires some { place.router < place.routers }
    requires few { place.routers ≤ 512 }
    ensures { IfOk result (λ text. text.items ≡ configuration place.routers place.router) }
{
    let mut text = String::new(alloc);
    put_head(&mut text, place.router)?;
    put_links(&mut text, place)?;
    put_rest(&mut text, place.router)?;
    Ok(text.into_bytes())
}
