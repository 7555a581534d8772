//! Paths that start at no variable of `LET`.

ghost use Rattle.std.specs.Prelude.{◌≡◌, ◌++◌, IfOk, OnOk};
ghost use Rattle.tb_query.specs.declared.path.Start.TheVariants as start;
ghost use Rattle.tb_tlc.specs.Planned.{stand_op};
ghost use Rattle.tb_tlc.specs.Shared.{variable_of};

use crate::scope::column_of;
use crate::shared::{Name, Steps};
use crate::{ColumnStart, Op};
use std::alloc::{AllocError, Global};
use std::marker::Model;
use tb_pattern::Mark;
use tb_query::Step;
use tb_tree::Bytes;

/// A path whose name and steps are shared, from a document or from a variable that has a column.
#[derive(Debug, Drop)]
pub struct StoodPath {
    /// The name of the document, or none where the path starts at the variable.
    name: Option<Name>,
    var: u32,
    steps: Steps,
}

impl Model for StoodPath {
    ghost use Rattle.tb_query.specs.declared.path.Path.{Path};
    ghost use Rattle.tb_query.specs.contracts.path.Path as path_rows;
    ghost use Rattle.tb_tlc.specs.Shared.{start_of};

    ghost Value = { Path };

    ghost coded = { path_rows.the_row.coded };

    ghost view = { λ path. record { start = start_of path.name path.var; steps = path.steps } };
}

impl StoodPath {
    pub fn from_document(
        alloc: Global,
        name: &Bytes,
        steps: &[Step],
    ) -> Result<StoodPath, AllocError>
        ensures { IfOk result (λ path. path ≡ record { start = start.Document name.now; steps = steps.now }) }
    {
        let mut own = Steps::new(alloc);
        own.push(alloc, steps)?;
        Ok(StoodPath {
            name: Some(Name::new(alloc, name)?),
            var: 0,
            steps: own,
        })
    }

    pub fn from_variable(alloc: Global, var: u32, steps: &[Step]) -> Result<StoodPath, AllocError>
        ensures { IfOk result (λ path. path ≡ record { start = start.Var var; steps = steps.now }) }
    {
        let mut own = Steps::new(alloc);
        own.push(alloc, steps)?;
        Ok(StoodPath {
            name: None,
            var,
            steps: own,
        })
    }

    /// The path with more steps behind its own, which are shared.
    pub fn behind(&self, alloc: Global, steps: &[Step]) -> Result<StoodPath, AllocError>
        ensures { IfOk result (λ path. path ≡ record { start = self.now.start; steps = self.now.steps ++ steps.now }) }
    {
        let mut path = self.share(alloc)?;
        path.steps.push(alloc, steps)?;
        Ok(path)
    }

    /// The same path, of which nothing is copied.
    pub fn share(&self, alloc: Global) -> Result<StoodPath, AllocError>
        ensures { IfOk result (λ path. path ≡ self.now) }
    {
        let name = match &self.name {
            Some(name) => Some(name.share()?),
            None => None,
        };
        let steps = self.steps.share(alloc)?;
        Ok(StoodPath {
            name,
            var: self.var,
            steps,
        })
    }

    /// The variable that it starts at, or none where it starts at a document.
    pub fn variable(&self) -> Option<u32>
        ensures { result ≡ variable_of self.now.start }
    {
        match &self.name {
            Some(_) => None,
            None => Some(self.var),
        }
    }

    /// The operator that adds a column with its nodes. The next column has this number.
    pub fn into_op(self, columns: &[(u32, u32)], next: u32, mark: Mark) -> Op
        ensures { result ≡ stand_op columns.now next mark self }
    {
        let StoodPath { name, var, steps } = self;
        let start = match name {
            Some(name) => ColumnStart::Document(name),
            None => ColumnStart::Column(column_of(columns, var, next)),
        };
        Op::Select { start, steps, mark }
    }
}
