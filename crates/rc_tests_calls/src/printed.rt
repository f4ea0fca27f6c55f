//! In how many calls lines, tables and walks go out, and sinks that fail.
use rc_base::{Addr, IfId, Items, Pos, Prefix, RouterId};
use rc_config::{Named, Network};
use rc_moves::{Stop, Walk};
use rc_outside::MemSink;
use rc_report::{Buffer, Part, put_line, put_routes, put_walk};
use rc_route::{Hop, Hops, Route, SharedHops, Source, Table};
use std::alloc::{AllocError, Global};
use std::process::Abort;
use std::test::Fail;

/// 1025 bytes of which no two pieces are alike.
fn long_text() -> [u8; 1025] {
    let mut text = [0; 1025];
    for (place, byte) in text.iter_mut().enumerate() {
        *byte = (place % 251) as u8;
    }
    text
}

/// A sink that takes five bytes of the call of this number, and fails; no call has the number 0.
fn sink_failing_at(alloc: Global, call: u64) -> Result<MemSink, AllocError> {
    let failures = Vec::from_slice(alloc, &[(call, 5usize)])?;
    MemSink::new(alloc, 2048, failures)
}

/// Whether a text is put, or not, in so many calls, and so much of it was written.
fn is_put(
    line: &mut Buffer,
    sink: &mut MemSink,
    text: &[u8],
    fails: bool,
    calls: u64,
    written: usize,
) -> bool {
    let said = put_line(sink, line, &[Part::Text(text)]);
    said.is_err() == fails
        && sink.calls == calls
        && sink.bytes.len() == written
        && text.starts_with(sink.bytes.as_slice())
}

/// Whether the next line goes out whole, behind so many bytes.
fn goes_on(line: &mut Buffer, sink: &mut MemSink, written: usize) -> bool {
    put_line(sink, line, &[Part::Text(b"next\n")]).is_ok()
        && sink.bytes.len() == written.saturating_add(5)
        && sink.bytes.as_slice().ends_with(b"next\n")
}

/// Lengths of texts, which call fails, if one does, how many calls there are, and how many bytes were written then.
const PIECES: [(usize, u64, u64, usize); 10] = [
    (0, 0, 0, 0),
    (1, 0, 1, 1),
    (511, 0, 1, 511),
    (512, 0, 1, 512),
    (513, 0, 2, 513),
    (1024, 0, 2, 1024),
    (1025, 0, 3, 1025),
    (1025, 1, 1, 5),
    (1025, 2, 2, 517),
    (1025, 3, 3, 1025),
];

/// Asserts of each row how the front of this length goes out.
fn check_fronts(
    rt: &impl Abort,
    alloc: Global,
    all: &[u8],
    rows: &[(usize, u64, u64, usize)],
) -> Result<(), AllocError> {
    let mut line = Buffer::new(alloc)?;
    for (length, failing, calls, written) in rows {
        let (text, _) = all.split_at(all.len().min(*length));
        let mut sink = sink_failing_at(alloc, *failing)?;
        let fails = *failing != 0;
        let is_put = is_put(&mut line, &mut sink, text, fails, *calls, *written);
        let goes_on = goes_on(&mut line, &mut sink, *written);
        assert!(rt; is_put && goes_on, "{length} bytes");
    }
    Ok(())
}

/// Pieces have 512 bytes, and the rest is last; a sink that fails isn't called again, and what was in hand doesn't go before the next line.
#[test]
fn a_line_goes_out_in_pieces(rt: HostRuntime) -> Result<(), Fail> {
    check_fronts(&rt, rt.alloc(), &long_text(), &PIECES)?;
    Ok(())
}

/// A network without routers, where no place has a name.
fn nowhere(alloc: Global) -> Result<Network, AllocError> {
    Network::of(alloc, Named::new(alloc))
}

/// A route to 10.0.N.0/24 that leads to nowhere so many times.
fn route(alloc: Global, n: u8, hops: &[Hop]) -> Result<Route, Fail> {
    let prefix = Prefix::new(Addr::new(0x0a00_0000 + 256 * u32::from(n)), 24).ok_or("a prefix")?;
    let hops = Items::from_vec(Vec::from_slice(alloc, hops)?);
    Ok(Route {
        prefix,
        source: Source::Ebgp,
        distance: 20,
        metric: 7,
        hops: SharedHops::of(alloc, Hops::from_items(hops))?,
    })
}

/// A short route, and one of 300 hops.
fn two_routes(alloc: Global) -> Result<Table, Fail> {
    let mut table = Table::new(alloc);
    table.push(route(alloc, 0, &[Hop::Null])?)?;
    table.push(route(alloc, 1, &[Hop::Null; 300])?)?;
    Ok(table)
}

/// A walk over an interface of a router that goes round.
fn round(alloc: Global) -> Result<Walk, AllocError> {
    let router = RouterId::at(0);
    let mut positions = Items::new(alloc);
    positions.push(Pos::Own(router))?;
    positions.push(Pos::Entering(IfId { router, index: 1 }))?;
    Ok(Walk {
        positions,
        stop: Stop::Loop,
    })
}

/// Routes and walk as they are printed.
fn text_of_both(alloc: Global) -> Result<Vec<u8>, AllocError> {
    let lines = b"router \n10.0.0.0/24 ebgp 20/7 null\n10.0.1.0/24 ebgp 20/7";
    let mut text = Vec::from_slice(alloc, lines)?;
    for _ in 0..300 {
        text.extend_from_slice(b" null")?;
    }
    text.extend_from_slice(b"\nat  self\nat  \nend loop\n")?;
    Ok(text)
}

/// In how many calls routes and a walk go out, where this is printed of them.
fn calls_for(
    alloc: Global,
    table: &Table,
    walk: &Walk,
    text: &[u8],
) -> Result<Option<u64>, AllocError> {
    let net = nowhere(alloc)?;
    let mut line = Buffer::new(alloc)?;
    let mut sink = MemSink::new(alloc, 2048, Vec::new(alloc))?;
    let are_put = put_routes(&mut sink, &mut line, &net, RouterId::at(0), table).is_ok()
        && put_walk(&mut sink, &mut line, &net, walk).is_ok()
        && sink.bytes.as_slice() == text;
    Ok(if are_put { Some(sink.calls) } else { None })
}

/// The router's line and the short route take a call each, the long one three, and each line of the walk one.
#[test]
fn each_line_goes_out_at_its_end(rt: HostRuntime) -> Result<(), Fail> {
    let text = text_of_both(rt.alloc())?;
    let table = two_routes(rt.alloc())?;
    let walk = round(rt.alloc())?;
    let calls = calls_for(rt.alloc(), &table, &walk, text.as_slice())?;
    assert!(rt; calls == Some(8));
    Ok(())
}
