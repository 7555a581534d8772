//! The list of nodes of one pattern node.

ghost use Rattle.std.specs.Prelude.{◌≡◌};
ghost use Rattle.tb_twig.specs.Lists.{items_in};

use tb_span::Item;

/// Items by start: those of a store, or some of them.
#[derive(Drop)]
pub enum Nodes<'a> {
    Lent(&'a [Item]),
    Kept(Vec<Item>),
}

impl<'a> Nodes<'a> {
    pub fn as_slice(&self) -> &[Item]
        ensures { result.now ≡ items_in self.now }
    {
        match self {
            Nodes::Lent(items) => items,
            Nodes::Kept(items) => items.as_slice(),
        }
    }
}
