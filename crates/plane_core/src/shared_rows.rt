//! Rows that several planes may have together.
ghost use Rattle.std.specs.Prelude.{◌≡◌, [], IfOk};

use crate::row::SquareRow;
use basics::Listing;
use std::alloc::{AllocError, Global};
use std::marker::Model;
use std::sync::Arc;

/// A list of rows that doesn't change, shared by all that copy it. Contracts see it as the list.
pub struct SharedRows {
    // None has no row, so that it takes no memory.
    rows: Option<Arc<Listing<SquareRow>>>,
}

// Written out, as a derived one is proved again in each crate above.
impl Drop for SharedRows {
    fn drop(self) {
        let SharedRows { rows: _ } = self;
    }
}

impl Model for SharedRows {
    ghost use Rattle.std.specs.Prelude.{List};
    ghost use Rattle.plane_core.specs.declared.row.SquareRow.{SquareRow};
    ghost use Rattle.plane_core.specs.SharedRows.{rows_in};

    ghost Value = { List SquareRow };

    ghost view = { λ s. rows_in s.rows };
}

impl SharedRows {
    /// No row.
    pub fn none() -> SharedRows
        ensures { result ≡ [] }
    {
        SharedRows { rows: None }
    }

    /// These rows.
    pub fn of(alloc: Global, rows: Vec<SquareRow>) -> Result<SharedRows, AllocError>
        ensures { IfOk result (λ s. s ≡ rows.items) }
    {
        let rows = Arc::new(alloc, Listing::from_vec(rows))?;
        Ok(SharedRows { rows: Some(rows) })
    }

    /// The same rows, by one more owner of them.
    pub fn share(&self) -> Result<SharedRows, AllocError>
        ensures { IfOk result (λ s. s ≡ self.now) }
    {
        let rows = match &self.rows {
            None => None,
            Some(rows) => Some(Arc::try_clone(rows)?),
        };
        Ok(SharedRows { rows })
    }

    /// The rows in order.
    pub fn as_slice(&self) -> &[SquareRow]
        ensures { result.now ≡ self.now }
    {
        match &self.rows {
            None => &[],
            Some(rows) => rows.as_slice(),
        }
    }
}
