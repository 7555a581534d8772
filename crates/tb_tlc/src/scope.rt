//! What the variables of a query stand for while it is planned.

ghost use Rattle.std.specs.Prelude.{◌≡◌, ◌++◌, [], IfOk, Option};
ghost use Rattle.tb_query.specs.Tuples.{standing, let_path, behind_variable};
ghost use Rattle.tb_tlc.specs.Planned.{column_of};
ghost use Rattle.tb_tlc.specs.Scopes.{seen};

use crate::stood::StoodPath;
use std::alloc::{AllocError, Global};
use tb_query::{Path, Start, Step};

/// Variables, the last one bound first: those of `LET` with the paths that they stand for, none of which starts
/// at such a variable, and the others with their columns.
#[derive(Debug, Drop)]
pub struct Scope {
    pub lets: Vec<(u32, StoodPath)>,
    pub columns: Vec<(u32, u32)>,
}

impl Scope {
    /// The scope without variables.
    pub fn new(alloc: Global) -> Scope
        ensures { seen result ≡ record { lets = []; columns = [] } }
    {
        Scope {
            lets: Vec::new(alloc),
            columns: Vec::new(alloc),
        }
    }
}

/// The path that a path stands for.
pub fn standing(
    alloc: Global,
    lets: &[(u32, StoodPath)],
    path: &Path,
) -> Result<StoodPath, AllocError>
    ensures { IfOk result (λ p. p ≡ standing lets.now path.now) }
{
    match &path.start {
        Start::Document(name) => StoodPath::from_document(alloc, name, path.steps.as_slice()),
        Start::Var(var) => behind_variable(alloc, lets, *var, path.steps.as_slice()),
    }
}

/// The steps behind what the variable stands for.
fn behind_variable(
    alloc: Global,
    lets: &[(u32, StoodPath)],
    var: u32,
    steps: &[Step],
) -> Result<StoodPath, AllocError>
    ensures { IfOk result (λ p. p ≡ behind_variable var (let_path var lets.now) steps.now) }
{
    'lets: for named in lets {
        if var == named.0 {
            return named.1.behind(alloc, steps);
        }
    }
    StoodPath::from_variable(alloc, var, steps)
}

/// The column of a variable, or the next one where it has none.
pub fn column_of(columns: &[(u32, u32)], var: u32, next: u32) -> u32
    ensures { result ≡ column_of next var columns.now }
{
    'columns: for placed in columns {
        if var == placed.0 {
            return placed.1;
        }
    }
    next
}
