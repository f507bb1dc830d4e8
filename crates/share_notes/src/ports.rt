//! The roles of a module's ports.
ghost use Rattle.std.specs.Prelude.{◌≡◌, ◌+◌, ◌++◌, ◌≤◌, All, IfOk, OnOk, MatchResult, map, sum_by};
ghost use Rattle.std.specs.List.{range_with_len};
ghost use Rattle.circuit_types.specs.Causes.{IsRefusal};
ghost use Rattle.circuit_types.specs.DataSources.{IsWired};
ghost use Rattle.circuit_types.specs.Due.{IsClear, IsDue};
ghost use Rattle.circuit_types.specs.InputBits.{FitsNets};
ghost use Rattle.circuit_types.specs.Items.{top_items, wires as wires_among};
ghost use Rattle.circuit_types.specs.Nets.{most_bits, AreNets};
ghost use Rattle.circuit_types.specs.declared.tree.Wire.{Wire as AnyWire};
ghost use Rattle.share_notes.specs.declared.mark.MarkedWire.{MarkedWire as AnyMarked};
ghost use Rattle.share_notes.specs.declared.direction.Direction.TheVariants.{Input as Inward, Output as Outward};
ghost use Rattle.share_notes.specs.Causes.{gap_lines as gap_lines_of, double_lines as double_lines_of, share_causes, role_causes};
ghost use Rattle.share_notes.specs.Known.{IsPlaced, KnowsPlaces, KnowsFirst, AreShared};
ghost use Rattle.share_notes.specs.Roles.{role_at as role_of_place, wire_roles, input_roles as input_roles_of, output_share, roles_by, roles_of as roles_of_items};
ghost use Rattle.share_notes.specs.Shares.{given, numbered_shares as numbered_shares_of};

use crate::clock::clock_lines;
use crate::direction::Direction;
use crate::lines::least;
use crate::mark::{Mark, MarkedWire, form_lines, marked_wires, missing_lines};
use crate::note::Note;
use crate::order::in_port_order;
use crate::secrets::Secrets;
use crate::shares::{FirstBits, NumberedShare, numbered_shares, share_count, single_lines};
use circuit_types::{
    InputRole, Item, Nets, NoMemory, OutputShare, Refusal, Role, Roles, Stop, Tree, top,
};
use sequences::Sequence;
use std::alloc::Global;

/// The roles of the ports of the module that is verified; the nets are this module's.
///
/// Refused, in this order and with the least line: a note that is none or may not stand where it stands; an input wire
/// without a note; a secret bit that lacks a share, or a share note where there is one share; a share that an earlier wire
/// of the same direction gives; a second clock, a flip-flop that is clocked by something else, or a clock that is read.
pub fn roles(alloc: Global, tree: &Tree<'_>, nets: &Nets) -> Result<Roles, Stop>
    requires nets { AreNets (top_items tree.now) nets.now }
    requires wired { IsWired nets.now }
    ensures roles { IfOk result (λ r. r ≡ roles_of_items (top_items tree.now)) }
    ensures fits { IfOk result (λ r. FitsNets r nets.now) }
    ensures cause { MatchResult result
        (λ r. IsClear (role_causes (top_items tree.now) nets.now))
        (IsRefusal (IsDue (role_causes (top_items tree.now) nets.now))) }
{
    roles_of(alloc, items_of(tree), nets)
}

/// The items of the module that is verified.
fn items_of<'t, 'a>(tree: &'t Tree<'a>) -> &'t [Item<'a>]
    ensures { result.now ≡ top_items tree.now }
{
    match top(tree) {
        Some(place) => match tree.modules.as_slice().get(place) {
            Some(unit) => unit.items.as_slice(),
            None => Default::default(),
        },
        None => Default::default(),
    }
}

/// The roles of the ports of a module with these items.
pub fn roles_of(alloc: Global, items: &[Item<'_>], nets: &Nets) -> Result<Roles, Stop>
    requires { sum_by (λ (w : AnyWire). w.width) (wires_among items.now) ≤ most_bits }
    ensures roles { IfOk result (λ r. r ≡ roles_of_items items.now) }
    ensures cause { MatchResult result
        (λ r. IsClear (role_causes items.now nets.now))
        (IsRefusal (IsDue (role_causes items.now nets.now))) }
{
    let wires = marked_wires(alloc, items)?;
    if let Some(line) = least(&form_lines(alloc, &wires)?) {
        return Err(Stop::Refused(Refusal::NoteForm { line }));
    }
    if let Some(line) = least(&missing_lines(alloc, &wires)?) {
        return Err(Stop::Refused(Refusal::NoteMissing { line }));
    }
    let count = share_count(&wires);
    let single = single_lines(alloc, count, &wires)?;
    let clocks = clock_lines(alloc, &wires, nets)?;
    let ordered = in_port_order(wires)?;
    roles_in_order(alloc, &ordered, count, single, &clocks)
}

/// The secret bits and the shares of one direction.
#[derive(Drop)]
pub struct Shared<'a> {
    pub secrets: Secrets<'a>,
    pub shares: Vec<NumberedShare>,
    pub first: FirstBits,
}

fn shared_in<'a>(
    alloc: Global,
    wires: &'a [MarkedWire],
    direction: Direction,
) -> Result<Shared<'a>, NoMemory>
    requires placed { All IsPlaced wires.now }
    requires few { sum_by (λ (w : AnyMarked). w.width) wires.now ≤ most_bits }
    ensures { IfOk result (AreShared direction wires.now) }
{
    let secrets = Secrets::new(alloc, wires, direction)?;
    let shares = numbered_shares(alloc, wires, direction, &secrets)?;
    let first = FirstBits::new(alloc, &shares)?;
    Ok(Shared {
        secrets,
        shares,
        first,
    })
}

/// The roles that wires in port order give, where there are so many shares. `single` are the lines of share notes where
/// there is one share, and `clocks` those of wrong uses of a clock.
fn roles_in_order(
    alloc: Global,
    wires: &[MarkedWire],
    count: u32,
    single: Vec<u32>,
    clocks: &[u32],
) -> Result<Roles, Stop>
    requires placed { All IsPlaced wires.now }
    requires few { sum_by (λ (w : AnyMarked). w.width) wires.now ≤ most_bits }
    ensures roles { IfOk result (λ r. r ≡ roles_by count wires.now) }
    ensures cause { MatchResult result
        (λ r. IsClear (share_causes count single.items clocks.now
        (numbered_shares_of Inward wires.now) (numbered_shares_of Outward wires.now)))
        (IsRefusal (IsDue (share_causes count single.items clocks.now
        (numbered_shares_of Inward wires.now) (numbered_shares_of Outward wires.now)))) }
{
    let inputs = shared_in(alloc, wires, Direction::Input)?;
    let outputs = shared_in(alloc, wires, Direction::Output)?;
    if let Some(line) = least(&gap_lines(count, single, &inputs, &outputs)?) {
        return Err(Stop::Refused(Refusal::ShareGap { line }));
    }
    if let Some(line) = least(&double_lines(alloc, &inputs, &outputs)?) {
        return Err(Stop::Refused(Refusal::ShareDouble { line }));
    }
    if let Some(line) = least(clocks) {
        return Err(Stop::Refused(Refusal::ClockUse { line }));
    }
    let roles = input_roles(alloc, wires, &inputs.secrets)?;
    let shares = output_shares(alloc, &outputs.shares)?;
    Ok(Roles {
        shares: count,
        secrets: Sequence::from_vec(inputs.secrets.list),
        inputs: Sequence::from_vec(roles),
        output_secrets: Sequence::from_vec(outputs.secrets.list),
        outputs: Sequence::from_vec(shares),
    })
}

fn gap_lines(
    count: u32,
    single: Vec<u32>,
    inputs: &Shared<'_>,
    outputs: &Shared<'_>,
) -> Result<Vec<u32>, NoMemory>
    requires inputs { KnowsFirst inputs.now.shares.items inputs.now.first.bits }
    requires outputs { KnowsFirst outputs.now.shares.items outputs.now.first.bits }
    ensures { IfOk result (λ lines. lines.items
        ≡ gap_lines_of count single.items inputs.now.shares.items outputs.now.shares.items) }
{
    let mut lines = single;
    inputs.first.push_gaps(count, &inputs.shares, &mut lines)?;
    outputs.first.push_gaps(count, &outputs.shares, &mut lines)?;
    Ok(lines)
}

fn double_lines(
    alloc: Global,
    inputs: &Shared<'_>,
    outputs: &Shared<'_>,
) -> Result<Vec<u32>, NoMemory>
    requires inputs { KnowsFirst inputs.now.shares.items inputs.now.first.bits }
    requires outputs { KnowsFirst outputs.now.shares.items outputs.now.first.bits }
    ensures { IfOk result (λ lines. lines.items ≡ double_lines_of inputs.now.shares.items outputs.now.shares.items) }
{
    let mut lines = Vec::new(alloc);
    inputs.first.push_doubles(&inputs.shares, &mut lines)?;
    outputs.first.push_doubles(&outputs.shares, &mut lines)?;
    Ok(lines)
}

/// The roles of the bits of the input wires.
fn input_roles<'a>(
    alloc: Global,
    wires: &'a [MarkedWire],
    secrets: &Secrets<'a>,
) -> Result<Vec<InputRole>, NoMemory>
    requires known { KnowsPlaces secrets.now.list.items secrets.now.places }
    requires placed { All IsPlaced wires.now }
    ensures { IfOk result (λ roles. roles.items ≡ input_roles_of secrets.now.list.items wires.now) }
{
    let mut roles = Vec::new(alloc);
    for wire in wires {
        push_wire_roles(wire, secrets, &mut roles)?;
    }
    Ok(roles)
}

/// Puts the roles of the wire's bits, if it is an input, behind others.
fn push_wire_roles<'a>(
    wire: &'a MarkedWire,
    secrets: &Secrets<'a>,
    roles: &mut Vec<InputRole>,
) -> Result<(), NoMemory>
    requires known { KnowsPlaces secrets.now.list.items secrets.now.places }
    requires placed { IsPlaced wire.now }
    ensures { OnOk result (roles.new.items ≡ roles.old.items ++ wire_roles secrets.now.list.items wire.now) }
{
    if !Direction::Input.has(wire.port) {
        return Ok(());
    }
    match &wire.mark {
        Mark::Noted(note) => push_roles(wire.first, wire.width, note, secrets, roles),
        _ => Ok(()),
    }
}

/// Puts the roles of the bits of a wire with this note behind others.
fn push_roles<'a>(
    first: u32,
    width: u32,
    note: &'a Note,
    secrets: &Secrets<'a>,
    roles: &mut Vec<InputRole>,
) -> Result<(), NoMemory>
    requires known { KnowsPlaces secrets.now.list.items secrets.now.places }
    requires within { first + width ≤ most_bits }
    ensures { OnOk result (roles.new.items ≡ roles.old.items
        ++ map (λ place. record { bit = first + place; role = role_of_place secrets.now.list.items note.now place })
        (range_with_len 0 width)) }
{
    for place in 0..width {
        roles.push(InputRole {
            bit: first + place,
            role: role_at(note, place, secrets),
        })?;
    }
    Ok(())
}

/// The role of the bit at this place of a wire with this note.
fn role_at<'a>(note: &'a Note, place: u32, secrets: &Secrets<'a>) -> Role
    requires { KnowsPlaces secrets.now.list.items secrets.now.places }
    ensures { result ≡ role_of_place secrets.now.list.items note.now place }
{
    match note {
        Note::Share { name, index } => Role::Share {
            secret: secrets.place(name.as_slice(), place),
            share: *index,
        },
        Note::Shares { name } => Role::Share {
            secret: secrets.place(name.as_slice(), 0),
            share: place,
        },
        Note::Random => Role::Random,
        Note::Public => Role::Public,
        Note::Clock => Role::Clock,
        Note::Held(value) => Role::Held(*value),
    }
}

fn output_shares(alloc: Global, shares: &[NumberedShare]) -> Result<Vec<OutputShare>, NoMemory>
    ensures { IfOk result (λ v. v.items ≡ map output_share shares.now) }
{
    shares
        .iter()
        .map(|share| OutputShare {
            bit: share.bit,
            secret: share.secret,
            share: share.share,
        })
        .collect(alloc)
}
