//! Room for the reduced cost of every column that a book may have.
ghost use Rattle.std.specs.Prelude.{◌≡◌, true, length, IfOk};
ghost use Rattle.books.specs.Conditions.{every};
ghost use Rattle.multipliers.specs.Costs.{is_clear};

use crate::costs::Costs;
use std::alloc::{AllocError, Global};

/// A reduced cost for each column, all nought between calls.
#[derive(Drop)]
pub struct WorkingTable {
    pub(crate) costs: Costs,
    pub ghost long: { length costs.entries ≡ 4000 },
    pub ghost clear: { every is_clear costs.entries ≡ true },
}

impl WorkingTable {
    /// A table of noughts, if there is memory for it.
    pub fn new(heap: Global) -> Result<WorkingTable, AllocError>
        ensures { IfOk result (λ t. (length t.costs.entries ≡ 4000) × (every is_clear t.costs.entries ≡ true)) }
    {
        Ok(WorkingTable {
            costs: Costs::new(heap)?,
        })
    }
}
