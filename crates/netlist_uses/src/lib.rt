//! Tests of netlists over public calls: what drives each bit, roles, levels, cones and checked certificates. There is
//! nothing else here.
#![tactic(auto)]

#[cfg(test)]
mod builds;
#[cfg(test)]
mod checks;
#[cfg(test)]
mod cones;
#[cfg(test)]
mod maker;
#[cfg(test)]
mod orders;
#[cfg(test)]
mod premises;
#[cfg(test)]
mod roles;
