//! What is left of a family once its tuples inside a hull are proved.
//!
//! A *hull* is a set of probes that is proved as a whole, and so serves each tuple inside it. The other tuples of a
//! family take some probe from outside. [`children`] lists families that have exactly these tuples, each in one
//! child: one for each way to say how many probes of each part lie inside the hull.
#![tactic(auto)]

mod laws;
mod numbers;
mod sides;
mod split;

pub use laws::{
    children_are_families, children_are_few, children_have_fewer_tuples,
    each_tuple_in_hull_or_one_child,
};
pub use split::children;
