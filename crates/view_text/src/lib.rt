//! The texts of a section's picture, byte for byte.
//!
//! A [`Picture`] is plain data: the boxes of a section's jobs and of its refused schedules, and the arrows between
//! them. Two texts of it stand here, and both are definitions of that data: a graph in the language of Graphviz
//! (`specs/Graphs`), and a part of a page with a drawing, given where its boxes are set (`specs/Pages`). What a layout
//! has to keep is in `specs/Layouts`; its coordinates are free. Texts that a picture holds may have any characters:
//! those that would mean something else are escaped (`specs/Escapes`).
//!
//! *Cost.* Each box and each arrow is looked at once; boxes are found by their numbers. A row's boxes are sorted.
#![tactic(auto)]

mod curve;
mod dot;
mod escaping;
mod layout;
mod picture;
mod places;
mod svg;

pub use curve::Curve;
pub use dot::dot_text;
pub use layout::{Layout, Spot};
pub use picture::{Kind, Link, Node, Picture, Tie};
pub use svg::{PAGE_HEAD, svg_text};
