//! The walks, which go from both ends: front items and back items together are the list, each item once.
//! They know the multimap's walks, and what its keys and values show.

mod names;
mod properties;
mod sections;

pub use names::{SectionAll, SectionAllMut, SectionNames};
pub use properties::{
    PropertiesIntoIter, PropertyIter, PropertyIterMut, PropertyValues, RemovedValues,
};
pub use sections::{SectionIntoIter, SectionIter, SectionIterMut};
