//! The cubes of a set of headers, as lines, with examples and their walks.
ghost use Rattle.std.specs.Prelude.{◌≡◌, ◌++◌, true, codes, flat_map, option_copied};
ghost use Rattle.rc_cubes.specs.Cubes.{cubes};
ghost use Rattle.rc_nodes.specs.Seats.{IsKnown, IsSeatOf, Keeps, SeatKnows};
ghost use Rattle.rc_outside.specs.Put.{IsPut, IsPutByHand};
ghost use Rattle.rc_report.specs.CubeText.{cube_line, cube_text, cubes_text, example_line, example_text, field_text, fields_text, is_always_shown, number_text, shown, test_of, value_of};
ghost use Rattle.rc_report.specs.Parts.{part_text};
ghost use Rattle.rc_report.specs.WalkText.{walk_text};
ghost use Rattle.rc_trees.specs.Trees.{Tree};

use crate::put::close_line;
use crate::{Buffer, Part, SinkFault, put_line, put_parts, put_walk};
use rc_base::{Addr, Field, Items, header_is_free};
use rc_config::Network;
use rc_cubes::{Cube, Cubes};
use rc_moves::Walk;
use rc_nodes::{May, Nodes, Ref, Seat};
use rc_outside::Sink;

/// What a line shows of a header's fields.
#[derive(Clone, Copy)]
pub(crate) enum Told {
    /// What a cube tests of them.
    Tests(Cube),
    /// Their numbers in a cube's example.
    Values(Cube),
}

/// A field's number: that of an address with dots.
fn number_part(field: Field, number: u32) -> Part<'static>
    ensures { part_text result ≡ number_text field number }
{
    match field {
        Field::Dst | Field::Src => Part::Address(Addr::new(number)),
        _ => Part::Number(u64::from(number)),
    }
}

/// A field that a cube tests, or empty texts where it tests no bit of it.
#[tactic(auto, unfolding(crate::specs::CubeText::test_of))]
fn test_parts(cube: &Cube, field: Field) -> [Part<'static>; 6]
    ensures { flat_map part_text result ≡ test_of cube.now field }
{
    let mask = field.of(&cube.mask);
    if mask == 0 {
        return [
            Part::Text(b""),
            Part::Text(b""),
            Part::Text(b""),
            Part::Text(b""),
            Part::Text(b""),
            Part::Text(b""),
        ];
    }
    [
        Part::Text(b" "),
        Part::Text(field.name()),
        Part::Text(b"="),
        number_part(field, field.of(&cube.value)),
        Part::Text(b"&"),
        number_part(field, mask),
    ]
}

/// Whether an example shows a field also where its cube doesn't test it.
fn is_always_shown(field: Field) -> bool
    ensures { result ≡ is_always_shown field }
{
    match field {
        Field::IcmpType | Field::IcmpCode | Field::Ack | Field::Rst => false,
        _ => true,
    }
}

/// A field of a cube's example, or empty texts where the example doesn't show it.
#[tactic(auto, unfolding(crate::specs::CubeText::value_of))]
fn value_parts(cube: &Cube, field: Field) -> [Part<'static>; 6]
    ensures { flat_map part_text result ≡ value_of cube.now field }
{
    let mask = field.of(&cube.mask);
    if !is_always_shown(field) && mask == 0 {
        return [
            Part::Text(b""),
            Part::Text(b""),
            Part::Text(b""),
            Part::Text(b""),
            Part::Text(b""),
            Part::Text(b""),
        ];
    }
    [
        Part::Text(b" "),
        Part::Text(field.name()),
        Part::Text(b"="),
        number_part(field, field.of(&cube.value)),
        Part::Text(b""),
        Part::Text(b""),
    ]
}

fn field_parts(told: &Told, field: Field) -> [Part<'static>; 6]
    ensures { flat_map part_text result ≡ field_text told.now field }
{
    match told {
        Told::Tests(cube) => test_parts(cube, field),
        Told::Values(cube) => value_parts(cube, field),
    }
}

fn put_fields<S: Sink>(
    out: &mut S,
    line: &mut Buffer,
    told: &Told,
    fields: &[Field],
) -> Result<(), SinkFault>
    ensures { IsPutByHand S.Sink out.old out.new result (line.old ++ flat_map (field_text told.now) fields.now) line.new }
{
    for field in fields {
        let parts = field_parts(told, *field);
        put_parts(out, line, &parts)?;
    }
    Ok(())
}

/// A line's head, and all fields in the header's order.
fn put_open_line<S: Sink>(
    out: &mut S,
    line: &mut Buffer,
    head: &'static [u8],
    told: &Told,
) -> Result<(), SinkFault>
    ensures { IsPutByHand S.Sink out.old out.new result (line.old ++ (head.now ++ fields_text told.now)) line.new }
{
    let fields = Field::all();
    put_parts(out, line, &[Part::Text(head)])?;
    put_fields(out, line, told, fields)
}

fn put_headed<S: Sink>(
    out: &mut S,
    line: &mut Buffer,
    head: &'static [u8],
    told: &Told,
) -> Result<(), SinkFault>
    ensures { IsPut S.Sink out.old out.new result ((head.now ++ fields_text told.now) ++ codes "\n") }
{
    line.clear();
    put_open_line(out, line, head, told)?;
    close_line(out, line)
}

fn put_cube_line<S: Sink>(out: &mut S, line: &mut Buffer, cube: &Cube) -> Result<(), SinkFault>
    ensures { IsPut S.Sink out.old out.new result (cube_line cube.now) }
{
    if header_is_free(&cube.mask) {
        return put_line(out, line, &[Part::Text(b"cube all\n")]);
    }
    put_headed(out, line, b"cube", &Told::Tests(*cube))
}

#[tactic(auto, unfolding(crate::specs::CubeText::example_line))]
fn put_example_line<S: Sink>(out: &mut S, line: &mut Buffer, cube: &Cube) -> Result<(), SinkFault>
    ensures { IsPut S.Sink out.old out.new result (example_line cube.now) }
{
    put_headed(out, line, b"example", &Told::Values(*cube))
}

fn put_walks<S: Sink>(
    out: &mut S,
    line: &mut Buffer,
    net: &Network,
    walks: &[Walk],
) -> Result<(), SinkFault>
    ensures { IsPut S.Sink out.old out.new result (flat_map (walk_text net.now) walks.now) }
{
    for walk in walks {
        put_walk(out, line, net, walk)?;
    }
    Ok(())
}

/// The line of a cube's example, and its walks.
fn put_example<S: Sink>(
    out: &mut S,
    line: &mut Buffer,
    net: &Network,
    cube: &Cube,
    walks: &Items<Walk>,
) -> Result<(), SinkFault>
    ensures { IsPut S.Sink out.old out.new result (example_text net.now cube.now walks.now) }
{
    put_example_line(out, line, cube)?;
    put_walks(out, line, net, walks.as_slice())
}

/// The line of a cube, and its example.
fn put_with_example<S: Sink>(
    out: &mut S,
    line: &mut Buffer,
    net: &Network,
    cube: &Cube,
    walks: &Items<Walk>,
) -> Result<(), SinkFault>
    ensures { IsPut S.Sink out.old out.new result (cube_line cube.now ++ example_text net.now cube.now walks.now) }
{
    put_cube_line(out, line, cube)?;
    put_example(out, line, net, cube, walks)
}

fn put_cube<S: Sink>(
    out: &mut S,
    line: &mut Buffer,
    net: &Network,
    cube: &Cube,
    walks: Option<&Items<Walk>>,
) -> Result<(), SinkFault>
    ensures { IsPut S.Sink out.old out.new result (cube_text net.now cube.now (option_copied walks.entry)) }
{
    match walks {
        Some(walks) => put_with_example(out, line, net, cube, walks),
        None => put_cube_line(out, line, cube),
    }
}

/// The first cube of a set alone.
fn put_first<S: Sink, M: May>(
    out: &mut S,
    line: &mut Buffer,
    net: &Network,
    nodes: &Nodes<M>,
    seat: &mut Seat<M>,
    set: Ref,
    examples: &[Items<Walk>],
) -> Result<(), SinkFault>
    requires seat { IsSeatOf nodes.now seat.old }
    requires known { IsKnown seat.old set.index }
    ensures seat { IsSeatOf nodes.now seat.new }
    ensures keeps { Keeps seat.old seat.new }
    ensures put { (t : Tree) → SeatKnows seat.old set.index t → IsPut S.Sink out.old out.new result (cubes_text net.now (shown true (cubes t)) examples.now) }
{
    let mut cubes = Cubes::new(set);
    let first = cubes.next(nodes, seat);
    match first {
        Some(cube) => put_cube(out, line, net, &cube, examples.first()),
        None => Ok(()),
    }
}

/// All cubes of a set.
fn put_all<S: Sink, M: May>(
    out: &mut S,
    line: &mut Buffer,
    net: &Network,
    nodes: &Nodes<M>,
    seat: &mut Seat<M>,
    set: Ref,
    examples: &[Items<Walk>],
) -> Result<(), SinkFault>
    requires seat { IsSeatOf nodes.now seat.old }
    requires known { IsKnown seat.old set.index }
    ensures seat { IsSeatOf nodes.now seat.new }
    ensures keeps { Keeps seat.old seat.new }
    ensures put { (t : Tree) → SeatKnows seat.old set.index t → IsPut S.Sink out.old out.new result (cubes_text net.now (cubes t) examples.now) }
{
    let mut cubes = Cubes::new(set);
    let mut left = examples.iter();
    while let Some(cube) = cubes.next(nodes, seat) {
        put_cube(out, line, net, &cube, left.next())?;
    }
    Ok(())
}

/// Puts the lines of a set's cubes, in order, or of the first alone; behind each of the first ones, as many as there are lists
/// of walks, the line of its example and the lines of its walks. What is in hand of an earlier line, which failed, is dropped.
pub fn put_cubes<S: Sink, M: May>(
    out: &mut S,
    line: &mut Buffer,
    net: &Network,
    nodes: &Nodes<M>,
    seat: &mut Seat<M>,
    set: Ref,
    only_first: bool,
    examples: &[Items<Walk>],
) -> Result<(), SinkFault>
    requires seat { IsSeatOf nodes.now seat.old }
    requires known { IsKnown seat.old set.index }
    ensures seat { IsSeatOf nodes.now seat.new }
    ensures keeps { Keeps seat.old seat.new }
    ensures put { (t : Tree) → SeatKnows seat.old set.index t → IsPut S.Sink out.old out.new result (cubes_text net.now (shown only_first (cubes t)) examples.now) }
{
    if only_first {
        return put_first(out, line, net, nodes, seat, set, examples);
    }
    put_all(out, line, net, nodes, seat, set, examples)
}
