//! Names and steps that many operators of a plan share.

ghost use Rattle.std.specs.Prelude.{◌≡◌, ◌++◌, [], map, flat_map, IfOk, OnOk};
ghost use Rattle.tb_tlc.specs.Shared.{parts_of};

use std::alloc::{AllocError, Global};
use std::marker::Model;
use std::rc::Rc;
use tb_query::Step;
use tb_tree::{Bytes, Items};

/// The name of a document, kept once for all that share it.
#[derive(Debug, Drop)]
pub struct Name {
    bytes: Rc<Bytes>,
}

impl Model for Name {
    ghost use Rattle.std.specs.Prelude.{List, ℕ};

    ghost Value = { List ℕ };

    ghost view = { λ name. name.bytes.value };
}

impl Name {
    pub fn new(alloc: Global, name: &Bytes) -> Result<Name, AllocError>
        ensures { IfOk result (λ made. made ≡ name.now) }
    {
        let bytes = Rc::new(alloc, name.copy(alloc)?)?;
        Ok(Name { bytes })
    }

    pub fn as_slice(&self) -> &[u8]
        ensures { result.now ≡ self.now }
    {
        self.bytes.as_slice()
    }

    /// The same name, which isn't copied.
    pub fn share(&self) -> Result<Name, AllocError>
        ensures { IfOk result (λ shared. shared ≡ self.now) }
    {
        let bytes = self.bytes.clone()?;
        Ok(Name { bytes })
    }
}

/// The steps of a path, part by part: those of a variable of `LET` are kept once for all paths behind it.
#[derive(Debug, Drop)]
pub struct Steps {
    parts: Vec<Rc<Items<Step>>>,
}

impl Model for Steps {
    ghost use Rattle.std.specs.Prelude.{List};
    ghost use Rattle.std.specs.Coded.{codes};
    ghost use Rattle.tb_query.specs.declared.path.Step.{Step};
    ghost use Rattle.tb_query.specs.contracts.path.Step as step_rows;
    ghost use Rattle.tb_tlc.specs.Shared.{parts_of};

    ghost Value = { List Step };

    ghost coded = { Prim.hlevel (codes, step_rows.the_row.coded) };

    ghost view = { λ steps. parts_of steps.parts.items };
}

impl Steps {
    /// No step.
    pub fn new(alloc: Global) -> Steps
        ensures { result ≡ [] }
    {
        Steps {
            parts: Vec::new(alloc),
        }
    }

    /// The parts, in order; a step of a part follows those before it.
    pub fn parts(&self) -> &[Rc<Items<Step>>]
        ensures { parts_of result.now ≡ self.now }
    {
        self.parts.as_slice()
    }

    /// Adds copies of steps at the end.
    pub fn push(&mut self, alloc: Global, steps: &[Step]) -> Result<(), AllocError>
        ensures { OnOk result (self.new ≡ self.old ++ steps.now) }
    {
        let copies = copy_steps(alloc, steps)?;
        self.parts.push(Rc::new(alloc, copies)?)?;
        Ok(())
    }

    /// The same steps, which aren't copied.
    pub fn share(&self, alloc: Global) -> Result<Steps, AllocError>
        ensures { IfOk result (λ shared. shared ≡ self.now) }
    {
        let mut parts = Vec::with_capacity(alloc, self.parts.len())?;
        'parts: for part in self.parts.as_slice() {
            parts.push(part.clone()?)?;
        }
        Ok(Steps { parts })
    }
}

fn copy_steps(alloc: Global, steps: &[Step]) -> Result<Items<Step>, AllocError>
    ensures { IfOk result (λ copies. copies ≡ steps.now) }
{
    let mut copies = Vec::with_capacity(alloc, steps.len())?;
    'steps: for step in steps {
        copies.push(Step {
            axis: step.axis,
            test: step.test.copy(alloc)?,
        })?;
    }
    Ok(Items::from_vec(copies))
}
