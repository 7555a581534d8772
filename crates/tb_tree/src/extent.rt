//! Where a node lies in its document's text.

/// Which kind a node is of.
#[derive(Clone, Copy, Debug, PartialEq, Eq)]
pub enum Kind {
    Element,
    Attribute,
    Text,
}

/// One node of a document: where its lines stand in the text, and where its kids end.
#[derive(Clone, Copy, Debug)]
pub struct Extent {
    /// The first byte of its lines, from 0; an element's begin with those of its attributes.
    pub from: u32,
    /// Past the last byte of its lines.
    pub to: u32,
    /// The number of the last node below it, or its own where none is.
    pub last: u32,
    /// The number of its name among those of its kind, from 0; a text has none.
    pub name: u32,
    /// How many nodes it is inside of, the document node among them.
    pub level: u16,
    pub kind: Kind,
    /// A byte of the attribute's value or of the text is escaped.
    pub escaped: bool,
}
