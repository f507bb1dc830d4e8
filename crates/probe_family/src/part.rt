//! The parts of a family, and their list.
ghost use Rattle.std.specs.Prelude.{◌≡◌, ◌↔◌, IsTrue, IfOk};
ghost use Rattle.bit_rows.specs.Sets.{is_in};
ghost use Rattle.probe_family.specs.Families.{is_taken_from};

use crate::NoMemory;
use bit_rows::BitRow;
use std::alloc::Global;
use std::marker::Model;

/// So many members of a set.
#[derive(Drop)]
pub struct Part {
    pub take: u32,
    pub set: BitRow,
}

impl Part {
    /// As many members of an equal set.
    pub fn copy(&self) -> Result<Part, NoMemory>
        ensures { IfOk result (λ part. part ≡ self.now) }
    {
        let set = self.set.copy()?;
        Ok(Part {
            take: self.take,
            set,
        })
    }

    /// Whether the parts take as many members of equal sets.
    pub fn same(&self, other: &Part) -> bool
        ensures { IsTrue result ↔ (self.now ≡ other.now) }
    {
        self.take == other.take && self.set.same(&other.set)
    }

    /// Whether `p` is in the set.
    pub(crate) fn has(&self, p: u32) -> bool
        ensures { result ≡ is_in self.now.set p }
    {
        p < self.set.len() && self.set.get(p)
    }

    /// Whether as many of the numbers are in the set as the part takes.
    pub(crate) fn is_taken_from(&self, numbers: &[u32]) -> bool
        ensures { result ≡ is_taken_from self.now numbers.now }
    {
        numbers.iter().filter(|p| self.has(**p)).count() == self.take as usize
    }
}

/// The parts of a family; contracts see their list.
#[derive(Drop)]
pub struct Parts {
    parts: Vec<Part>,
}

impl Model for Parts {
    ghost use Rattle.std.specs.Prelude.{List};
    ghost use Rattle.probe_family.specs.declared.part.Part.{Part};

    ghost Value = { List Part };

    ghost view = { λ p. p.parts.items };
}

impl Parts {
    /// The parts of a vector. It takes no memory.
    pub fn from_vec(parts: Vec<Part>) -> Parts
        ensures { result ≡ parts.items }
    {
        Parts { parts }
    }

    /// The vector back, without copying.
    pub fn into_vec(self) -> Vec<Part>
        ensures { result.items ≡ self }
    {
        self.parts
    }

    /// The parts in order.
    pub fn as_slice(&self) -> &[Part]
        ensures { result.now ≡ self.now }
    {
        self.parts.as_slice()
    }

    /// Equal parts in the same order.
    pub fn copy(&self) -> Result<Parts, NoMemory>
        ensures { IfOk result (λ parts. parts ≡ self.now) }
    {
        let parts = copy_all(*self.parts.allocator(), self.parts.as_slice())?;
        Ok(Parts { parts })
    }

    /// Whether the parts are the same, in the same order.
    pub fn same(&self, other: &Parts) -> bool
        ensures { IsTrue result ↔ (self.now ≡ other.now) }
    {
        are_same(self.parts.as_slice(), other.parts.as_slice())
    }
}

/// A vector of equal parts.
fn copy_all(alloc: Global, parts: &[Part]) -> Result<Vec<Part>, NoMemory>
    ensures { IfOk result (λ copied. copied.items ≡ parts.now) }
{
    let mut copied = Vec::new(alloc);
    for part in parts {
        copied.push(part.copy()?)?;
    }
    Ok(copied)
}

/// Whether the parts are the same, in the same order.
fn are_same(parts: &[Part], others: &[Part]) -> bool
    ensures { IsTrue result ↔ (parts.now ≡ others.now) }
{
    if parts.len() != others.len() {
        return false;
    }
    for (i, part) in parts.iter().enumerate() {
        if !part.same(&others[i]) {
            return false;
        }
    }
    true
}
