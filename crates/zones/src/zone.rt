//! A zone: a type, and how its points are made from those of places of lower numbers.

pub mod points;
pub mod words;

/// How a zone's points are made from those of places of lower numbers.
#[derive(Clone, Copy)]
pub enum Rule {
    Union(usize, usize),
    Intersection(usize, usize),
    /// The first without the second.
    Difference(usize, usize),
    /// The floor points that are not in the place.
    Outside(usize),
}

/// A place that is made of places of lower numbers.
#[derive(Clone, Copy)]
pub struct Zone {
    pub ty: u8,
    pub rule: Rule,
}
