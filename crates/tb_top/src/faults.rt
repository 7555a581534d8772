//! Faults of texts, apart from want of memory.

ghost use Rattle.std.specs.Prelude.{◌≡◌, ◌≢◌, IfOk};
ghost use Rattle.tb_flwor.specs.declared.fault.QueryFault.TheVariants.{NoMemory};

use std::alloc::AllocError;
use tb_flwor::QueryFault;

/// A fault of a query's text. Want of memory goes on.
pub fn refusal(fault: QueryFault) -> Result<QueryFault, AllocError>
    ensures { IfOk result (λ told. (told ≡ fault) × (told ≢ NoMemory)) }
{
    if let QueryFault::NoMemory = fault {
        return Err(AllocError);
    }
    Ok(fault)
}
