//! Lengths out of range, masks, and the orders of prefixes and ports.
use rc_base::{Addr, Prefix, len_of};
use rc_config::{IfAddr, Ports};

#[test]
fn lengths_have_bounds(rt: HostRuntime) {
    let addr = Addr::new(0x0a00_0001);
    assert!(rt;
        Prefix::new(addr, 33).is_none()
            && IfAddr::new(addr, 0).is_none()
            && IfAddr::new(addr, 33).is_none()
    );
}

#[test]
fn masks_have_lengths(rt: HostRuntime) {
    assert!(rt;
        len_of(Addr::new(0xffff_fffc)) == Some(30)
            && len_of(Addr::new(0xffff_ffff)) == Some(32)
            && len_of(Addr::new(0)) == Some(0)
            && len_of(Addr::new(0xff00_ff00)).is_none()
            && len_of(Addr::new(0x0000_00ff)).is_none()
    );
}

#[test]
fn prefixes_in_order(rt: HostRuntime) {
    let wide = Prefix::new(Addr::new(0x0a00_0000), 8).expect(&rt, "/8");
    let narrow = Prefix::new(Addr::new(0x0a01_0200), 24).expect(&rt, "/24");
    assert!(rt; wide < narrow);
}

#[test]
fn at_most_ten_ports(rt: HostRuntime) {
    let ten = Ports::from_slice(&[80; 10]).expect(&rt, "ten ports");
    let two = Ports::from_slice(&[22, 23]).expect(&rt, "two ports");
    assert!(rt;
        ten.with_port(80).is_none()
            && Ports::new(22).with_port(23) == Some(two)
            && two < ten
            && Ports::new(22) < two
    );
}
