//! The shares that wires give, and which of them are missing or given twice.
ghost use Rattle.std.specs.Prelude.{◌≡◌, ◌+◌, ◌≤◌, ◌<◌, ◌++◌, [], ◌∷◌, All, List, map, length, IfOk, OnOk, min, max};
ghost use Rattle.std.specs.List.{cons_option};
ghost use Rattle.circuit_types.specs.Nets.{most_bits};
ghost use Rattle.share_notes.specs.declared.shares.NumberedShare.{NumberedShare as AnyShare};
ghost use Rattle.share_notes.specs.Lines.{wire_lines};
ghost use Rattle.share_notes.specs.Shares.{given_at, given_bit, given_by, given, numbered_share, share_count as share_count_of, top_share as top_share_of, lacks_share, is_repeated, share_lines, has_share_note as has_share_note_of, single_lines as single_lines_of};
ghost use Rattle.share_notes.specs.Known.{IsPlaced, KnowsPlaces, KnowsFirst, earlier_of, first_bit};

use crate::direction::Direction;
use crate::mark::{Mark, MarkedWire};
use crate::note::Note;
use crate::secrets::{Secrets, given_at};
use circuit_types::NoMemory;
use std::alloc::Global;
use std::collections::BTreeMap;

/// A bit that is a share of a secret bit, and the line of its wire.
#[derive(Clone, Copy)]
pub struct NumberedShare {
    pub line: u32,
    pub bit: u32,
    /// The place of the secret bit among all.
    pub secret: u32,
    pub share: u32,
}

/// How many shares there are: one more than the greatest share index of any note, or 0.
#[tactic(auto, unfolding(crate::specs::Shares::share_count))]
pub fn share_count(wires: &[MarkedWire]) -> u32
    requires { All IsPlaced wires.now }
    ensures { result ≡ share_count_of wires.now }
{
    let mut count: u32 = 0;
    for wire in wires {
        count = count.max(top_share(wire));
    }
    count
}

/// One more than the greatest share index of the wire's note.
fn top_share(wire: &MarkedWire) -> u32
    requires { IsPlaced wire.now }
    ensures { result ≡ top_share_of wire.now.width wire.now.mark }
{
    match &wire.mark {
        Mark::Noted(Note::Share { index, .. }) => *index + 1,
        Mark::Noted(Note::Shares { .. }) => wire.width,
        _ => 0,
    }
}

/// The shares that the wires of this direction give.
#[tactic(auto, unfolding(crate::specs::Shares::given))]
pub fn numbered_shares<'a>(
    alloc: Global,
    wires: &'a [MarkedWire],
    direction: Direction,
    secrets: &Secrets<'a>,
) -> Result<Vec<NumberedShare>, NoMemory>
    requires known { KnowsPlaces secrets.now.list.items secrets.now.places }
    requires within { All IsPlaced wires.now }
    ensures { IfOk result (λ v. v.items ≡ map (numbered_share secrets.now.list.items) (given direction wires.now)) }
{
    let mut shares = Vec::new(alloc);
    for wire in wires {
        push_shares(wire, direction, secrets, &mut shares)?;
    }
    Ok(shares)
}

/// Puts the shares that the wire gives, if it has this direction, behind others.
fn push_shares<'a>(
    wire: &'a MarkedWire,
    direction: Direction,
    secrets: &Secrets<'a>,
    shares: &mut Vec<NumberedShare>,
) -> Result<(), NoMemory>
    requires known { KnowsPlaces secrets.now.list.items secrets.now.places }
    requires within { wire.now.first + wire.now.width ≤ most_bits }
    ensures { OnOk result (shares.new.items ≡ shares.old.items
        ++ map (numbered_share secrets.now.list.items) (given_by direction wire.now)) }
{
    if !direction.has(wire.port) {
        return Ok(());
    }
    for place in 0..wire.width {
        push_share(wire, place, secrets, shares)?;
    }
    Ok(())
}

/// Puts the share that the bit at this place is, if it is one, behind others.
fn push_share<'a>(
    wire: &'a MarkedWire,
    place: u32,
    secrets: &Secrets<'a>,
    shares: &mut Vec<NumberedShare>,
) -> Result<(), NoMemory>
    requires known { KnowsPlaces secrets.now.list.items secrets.now.places }
    requires within { wire.now.first + place ≤ most_bits }
    ensures { OnOk result (shares.new.items ≡ shares.old.items
        ++ map (numbered_share secrets.now.list.items) (cons_option (given_bit wire.now place) [])) }
{
    let Some(given) = given_at(&wire.mark, place) else {
        return Ok(());
    };
    shares.push(NumberedShare {
        line: wire.line,
        bit: wire.first + place,
        secret: secrets.place(given.name, given.bit),
        share: given.share,
    })?;
    Ok(())
}

/// By secret bit and share, the first bit that is this share.
#[derive(Drop)]
pub struct FirstBits {
    pub bits: BTreeMap<(u32, u32), u32>,
}

impl FirstBits {
    pub fn new(alloc: Global, shares: &[NumberedShare]) -> Result<FirstBits, NoMemory>
        ensures { IfOk result (λ first. KnowsFirst shares.now first.bits) }
    {
        let mut first = FirstBits {
            bits: BTreeMap::new(alloc),
        };
        for share in shares {
            first.add(*share)?;
        }
        Ok(first)
    }

    fn add(&mut self, share: NumberedShare) -> Result<(), NoMemory>
        ensures { OnOk result ((shares : List AnyShare) → KnowsFirst shares self.old.bits
            → KnowsFirst (shares ++ share ∷ []) self.new.bits) }
    {
        let bit = earlier(self.of(share.secret, share.share), share.bit);
        self.bits.insert((share.secret, share.share), bit)?;
        Ok(())
    }

    fn of(&self, secret: u32, share: u32) -> Option<u32>
        ensures { (shares : List AnyShare) → KnowsFirst shares self.now.bits
            → result ≡ first_bit shares secret share }
    {
        self.bits.get(&(secret, share)).copied()
    }

    /// Whether the secret bit of this share lacks one of the first `count` shares.
    fn lacks_share(&self, count: u32, share: NumberedShare) -> bool
        ensures { (shares : List AnyShare) → KnowsFirst shares self.now.bits
            → result ≡ lacks_share count shares share }
    {
        for index in 0..count {
            if self.of(share.secret, index).is_none() {
                return true;
            }
        }
        false
    }

    /// Whether an earlier bit is the same share.
    fn is_repeated(&self, share: NumberedShare) -> bool
        ensures { (shares : List AnyShare) → KnowsFirst shares self.now.bits
            → result ≡ is_repeated shares share }
    {
        match self.of(share.secret, share.share) {
            Some(bit) => bit < share.bit,
            None => false,
        }
    }

    /// Puts the lines of the shares whose secret bits lack one of the first `count` shares behind others.
    pub fn push_gaps(
        &self,
        count: u32,
        shares: &[NumberedShare],
        lines: &mut Vec<u32>,
    ) -> Result<(), NoMemory>
        requires { KnowsFirst shares.now self.now.bits }
        ensures { OnOk result (lines.new.items ≡ lines.old.items
            ++ share_lines (lacks_share count shares.now) shares.now) }
    {
        for share in shares {
            if self.lacks_share(count, *share) {
                lines.push(share.line)?;
            }
        }
        Ok(())
    }

    /// Puts the lines of the shares that earlier bits are behind others.
    pub fn push_doubles(
        &self,
        shares: &[NumberedShare],
        lines: &mut Vec<u32>,
    ) -> Result<(), NoMemory>
        requires { KnowsFirst shares.now self.now.bits }
        ensures { OnOk result (lines.new.items ≡ lines.old.items ++ share_lines (is_repeated shares.now) shares.now) }
    {
        for share in shares {
            if self.is_repeated(*share) {
                lines.push(share.line)?;
            }
        }
        Ok(())
    }
}

/// The lesser of a bit and the first one so far.
fn earlier(first: Option<u32>, bit: u32) -> u32
    ensures { Some result ≡ earlier_of first (Some bit) }
{
    match first {
        Some(other) => other.min(bit),
        None => bit,
    }
}

fn has_share_note(wire: &MarkedWire) -> bool
    ensures { result ≡ has_share_note_of wire.now }
{
    match &wire.mark {
        Mark::Noted(Note::Share { .. }) => true,
        Mark::Noted(Note::Shares { .. }) => true,
        _ => false,
    }
}

/// The lines of the wires with share notes, where there is one share.
pub fn single_lines(alloc: Global, count: u32, wires: &[MarkedWire]) -> Result<Vec<u32>, NoMemory>
    ensures { IfOk result (λ lines. lines.items ≡ single_lines_of count wires.now) }
{
    if count == 1 {
        share_note_lines(alloc, wires)
    } else {
        Ok(Vec::new(alloc))
    }
}

fn share_note_lines(alloc: Global, wires: &[MarkedWire]) -> Result<Vec<u32>, NoMemory>
    ensures { IfOk result (λ lines. lines.items ≡ wire_lines has_share_note_of wires.now) }
{
    let mut lines = Vec::new(alloc);
    for wire in wires {
        if has_share_note(wire) {
            lines.push(wire.line)?;
        }
    }
    Ok(lines)
}
