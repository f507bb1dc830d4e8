//! The sides of parts under a hull.
ghost use Rattle.std.specs.Prelude.{◌≡◌, IfOk, All, length, map};
ghost use Rattle.probe_family.specs.Choices.{parts_of};
ghost use Rattle.probe_family.specs.declared.part.Part.{Part};
ghost use Rattle.family_split.specs.Sides.{FitSides, sides_of, split_sides};

use bit_rows::BitRow;
use probe_family::{Choice, NoMemory, Part};
use std::alloc::Global;

/// A part's members inside a hull and those outside.
#[derive(Drop)]
pub struct Sides {
    pub take: u32,
    pub inside: BitRow,
    pub outside: BitRow,
}

fn sides_of(part: &Part, hull: &BitRow) -> Result<Sides, NoMemory>
    requires { length part.now.set ≡ length hull.now }
    ensures { IfOk result (λ sides. sides ≡ sides_of hull.now part.now) }
{
    let mut inside = part.set.copy()?;
    inside.meet_from(hull);
    let mut outside = part.set.copy()?;
    outside.minus_from(hull);
    Ok(Sides {
        take: part.take,
        inside,
        outside,
    })
}

/// The sides of each part.
pub fn all_sides(alloc: Global, parts: &[Part], hull: &BitRow) -> Result<Vec<Sides>, NoMemory>
    requires { All (λ (part : Part). length part.set ≡ length hull.now) parts.now }
    ensures { IfOk result (λ sides. sides.items ≡ map (sides_of hull.now) parts.now) }
{
    let mut sides = Vec::new(alloc);
    for part in parts {
        sides.push(sides_of(part, hull)?)?;
    }
    Ok(sides)
}

/// So many members of each part inside the hull, and the rest of its take outside.
pub fn choose<'a>(
    alloc: Global,
    sides: &'a [Sides],
    numbers: &[u32],
) -> Result<Vec<Choice<'a>>, NoMemory>
    requires { FitSides sides.now numbers.now }
    ensures { IfOk result (λ choices. parts_of choices.items ≡ split_sides sides.now numbers.now) }
{
    let mut choices = Vec::new(alloc);
    for (i, side) in sides.iter().enumerate() {
        let number = numbers[i];
        choices.push(Choice {
            take: number,
            set: &side.inside,
        })?;
        choices.push(Choice {
            take: side.take - number,
            set: &side.outside,
        })?;
    }
    Ok(choices)
}
