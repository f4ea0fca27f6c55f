//! The classes of addresses.
ghost use Rattle.std.specs.Prelude.{◌≡◌, ◌≤◌, IfSome};
ghost use Rattle.rc_config.specs.Classes.{natural_length};

use rc_base::Addr;

/// The length of the network of an address by its class (RFC 791 s.3.2): 8 below 128.0.0.0, 16 below 192.0.0.0 and 24 below
/// 224.0.0.0, or `None` exactly from there on, where addresses are of no network.
pub fn natural_len(address: Addr) -> Option<u8>
    ensures short { IfSome result (λ n. n ≤ 32) }
    ensures value { result ≡ natural_length address }
{
    let bits = address.bits();
    if bits < 0x8000_0000 {
        Some(8)
    } else if bits < 0xc000_0000 {
        Some(16)
    } else if bits < 0xe000_0000 {
        Some(24)
    } else {
        None
    }
}
