//! Documents as trees: elements with kids, attributes and texts, as ESIS lines give them.
//!
//! Every crate above speaks of documents by these types. A contract sees a node as a plain tree of
//! `specs/`, a list type as its list, and knows of each `Tree` that its root is a sound element.
#![tactic(auto)]

mod against;
mod built;
mod bytes;
mod contents;
mod draft;
mod escaped;
mod extent;
mod items;
mod line;
mod name_index;
mod name_table;
mod names;
mod node;
mod node_test;
mod noting;
mod numbered;
mod pieces;
mod planting;
mod printer;
mod shape;
mod source;
mod tree;
mod unescaped;
mod values;
mod writer;

pub use against::Against;
pub use bytes::Bytes;
pub use draft::Draft;
pub use escaped::push_escaped;
pub use extent::{Extent, Kind};
pub use items::Items;
pub use line::next_line;
pub use name_table::NameTable;
pub use node::{Kids, Node};
pub use node_test::Test;
pub use printer::write_nodes;
pub use shape::{Shape, ShapeAttr, ShapeContent, ShapeElem, ShapePart};
pub use tree::Tree;
pub use unescaped::push_unescaped;
pub use values::value;
pub use writer::Writer;
