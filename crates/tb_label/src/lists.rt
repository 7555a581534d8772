//! The lists of a store: for each test the nodes that meet it.

ghost use Rattle.std.specs.Prelude.{◌≡◌, ◌==◌, ◌<◌, ◌++◌, ℕ, List, [], length, IfOk, OnOk};
ghost use Rattle.tb_span.specs.declared.item.Item.{Item};
ghost use Rattle.tb_tree.specs.NameTables.{AreApart};
ghost use Rattle.tb_tree.specs.Extents.{name_in};
ghost use Rattle.tb_tree.specs.declared.node_test.Test.{Test};
ghost use Rattle.tb_label.specs.Lists.{items_at, in_names, in_lists, one_if};
ghost use Rattle.tb_label.specs.Picked.{is_wanted, IsKnown};

use std::alloc::{AllocError, Global};
use tb_span::Item;
use tb_tree::{Bytes, Extent, Kind, NameTable, Test};

/// The items of each name, by start: the names have numbers, and each number a list.
#[derive(Drop)]
pub struct Names {
    pub names: NameTable,
    pub lists: Vec<Vec<Item>>,
}

impl Names {
    /// An empty list for each of the names, which are different.
    pub fn new(alloc: Global, names: &[Bytes]) -> Result<Names, AllocError>
        requires apart { AreApart names.now }
        ensures names { IfOk result (λ made. made.names ≡ names.now) }
        ensures empty { IfOk result (λ made. (k : ℕ) → items_at made k ≡ []) }
        ensures count { IfOk result (λ made. length made.lists.items ≡ length names.now) }
    {
        let mut table = NameTable::new(alloc);
        let mut lists = Vec::new(alloc);
        'names: for name in names {
            table.number(alloc, name.as_slice())?;
            lists.push(Vec::new(alloc))?;
        }
        Ok(Names {
            names: table,
            lists,
        })
    }

    /// Adds an item of the name with that number.
    pub fn push(&mut self, number: u32, item: &Item) -> Result<(), AllocError>
        requires known { number < length self.old.lists.items }
        ensures pushed { OnOk result ((k : ℕ) → items_at self.new k ≡ items_at self.old k ++ one_if (k == number) item.now) }
        ensures names { OnOk result (self.new.names ≡ self.old.names) }
        ensures count { OnOk result (length self.new.lists.items ≡ length self.old.lists.items) }
    {
        self.lists[number as usize].push(*item)?;
        Ok(())
    }

    pub fn of(&self, name: &Bytes) -> &[Item]
        ensures { result.now ≡ in_names self.now name.now }
    {
        match self.names.known(name.as_slice()) {
            Some(number) => self.at(number),
            None => &[],
        }
    }

    fn at(&self, number: usize) -> &[Item]
        ensures { result.now ≡ items_at self.now number }
    {
        match self.lists.get(number) {
            Some(list) => list.as_slice(),
            None => &[],
        }
    }
}

/// The items of each test, by start.
#[derive(Drop)]
pub struct Lists {
    pub elements: Names,
    pub all_elements: Vec<Item>,
    pub attributes: Names,
    pub all_attributes: Vec<Item>,
    pub texts: Vec<Item>,
}

impl Lists {
    /// Empty lists, for these names of elements and of attributes.
    pub fn new(alloc: Global, elements: &[Bytes], attributes: &[Bytes]) -> Result<Lists, AllocError>
        requires elements { AreApart elements.now }
        requires attributes { AreApart attributes.now }
        ensures names { IfOk result (λ lists. (lists.elements.names ≡ elements.now) × (lists.attributes.names ≡ attributes.now)) }
        ensures counts { IfOk result (λ lists.
            (length lists.elements.lists.items ≡ length elements.now) × (length lists.attributes.lists.items ≡ length attributes.now)) }
        ensures empty { IfOk result (λ lists. (t : Test) → in_lists lists t ≡ []) }
    {
        Ok(Lists {
            elements: Names::new(alloc, elements)?,
            all_elements: Vec::new(alloc),
            attributes: Names::new(alloc, attributes)?,
            all_attributes: Vec::new(alloc),
            texts: Vec::new(alloc),
        })
    }

    /// Adds a node's item to the lists of the tests that it meets.
    pub fn add(&mut self, extent: &Extent, item: &Item) -> Result<(), AllocError>
        requires known { IsKnown (length self.old.elements.lists.items) (length self.old.attributes.lists.items) extent.now.kind extent.now.name }
        ensures added { OnOk result (AreApart self.old.elements.names → AreApart self.old.attributes.names
            → length self.old.elements.lists.items ≡ length self.old.elements.names
            → length self.old.attributes.lists.items ≡ length self.old.attributes.names
            → (t : Test) → in_lists self.new t ≡ in_lists self.old t
            ++ one_if (is_wanted t extent.now.kind
            (name_in self.old.elements.names self.old.attributes.names extent.now.kind extent.now.name)) item.now) }
        ensures names { OnOk result ((self.new.elements.names ≡ self.old.elements.names) × (self.new.attributes.names ≡ self.old.attributes.names)) }
        ensures counts { OnOk result ((length self.new.elements.lists.items ≡ length self.old.elements.lists.items)
            × (length self.new.attributes.lists.items ≡ length self.old.attributes.lists.items)) }
    {
        match extent.kind {
            Kind::Element => {
                self.elements.push(extent.name, item)?;
                self.all_elements.push(*item)?;
            }
            Kind::Attribute => {
                self.attributes.push(extent.name, item)?;
                self.all_attributes.push(*item)?;
            }
            Kind::Text => {
                self.texts.push(*item)?;
            }
        }
        Ok(())
    }

    /// The nodes that meet the test, by start.
    pub fn of(&self, test: &Test) -> &[Item]
        ensures { result.now ≡ in_lists self.now test.now }
    {
        match test {
            Test::Name(name) => self.elements.of(name),
            Test::AnyElement => self.all_elements.as_slice(),
            Test::AttrName(name) => self.attributes.of(name),
            Test::AnyAttr => self.all_attributes.as_slice(),
            Test::AnyText => self.texts.as_slice(),
        }
    }
}
