//! What one commit writes.

ghost use Rattle.std.specs.Prelude.{◌≡◌, []};

use ci_machine::change::{IndexChange, RowChange};
use ci_machine::records::BoardRow;
use std::marker::Model;

/// What one commit writes. It may be read, and has to be spent: it can't be dropped, and only a commit takes it apart.
pub struct Delta {
    changes: Vec<RowChange>,
    rows: Vec<BoardRow>,
    indexes: Vec<IndexChange>,
    cleared: Vec<u64>,
}

impl Model for Delta {
    ghost use Rattle.ci_store.specs.Delta.{Writing};

    ghost Value = { Writing };

    ghost view = { λ d. record { changes = d.changes.items; rows = d.rows.items; indexes = d.indexes.items; cleared = d.cleared.items } };
}

impl Delta {
    /// Changes of records, rows of statuses that are put, and changes of the groups that are held and of the pipelines that aren't
    /// finished: the first of each list first. No row of a status goes.
    pub fn new(changes: Vec<RowChange>, rows: Vec<BoardRow>, indexes: Vec<IndexChange>) -> Delta
        ensures changes { result.changes ≡ changes.items }
        ensures rows { result.rows ≡ rows.items }
        ensures indexes { result.indexes ≡ indexes.items }
        ensures cleared { result.cleared ≡ [] }
    {
        let cleared = Vec::new(*indexes.allocator());
        Delta {
            changes,
            rows,
            indexes,
            cleared,
        }
    }

    /// The same, but that the rows of the statuses of these jobs go before all else is written: a row refers to its job, so a
    /// job's record can only go after it.
    pub fn clearing(self, cleared: Vec<u64>) -> Delta
        ensures changes { result.changes ≡ self.changes }
        ensures rows { result.rows ≡ self.rows }
        ensures indexes { result.indexes ≡ self.indexes }
        ensures cleared { result.cleared ≡ cleared.items }
    {
        let Delta {
            changes,
            rows,
            indexes,
            cleared: _,
        } = self;
        Delta {
            changes,
            rows,
            indexes,
            cleared,
        }
    }

    /// The changes of records, lent.
    pub fn changes(&self) -> &[RowChange]
        ensures { result.now ≡ self.now.changes }
    {
        self.changes.as_slice()
    }

    /// The rows of statuses that are put, lent.
    pub fn rows(&self) -> &[BoardRow]
        ensures { result.now ≡ self.now.rows }
    {
        self.rows.as_slice()
    }

    /// The changes of the groups that are held and of the pipelines that aren't finished, lent.
    pub fn indexes(&self) -> &[IndexChange]
        ensures { result.now ≡ self.now.indexes }
    {
        self.indexes.as_slice()
    }

    /// The jobs whose rows of statuses go before all else is written, lent.
    pub fn cleared(&self) -> &[u64]
        ensures { result.now ≡ self.now.cleared }
    {
        self.cleared.as_slice()
    }

    /// Spends the delta, and gives its lists: the changes, the rows that are put, the changes of indexes, and the jobs whose rows go.
    pub fn into_parts(self) -> (Vec<RowChange>, Vec<BoardRow>, Vec<IndexChange>, Vec<u64>)
        ensures changes { result.0.items ≡ self.changes }
        ensures rows { result.1.items ≡ self.rows }
        ensures indexes { result.2.items ≡ self.indexes }
        ensures cleared { result.3.items ≡ self.cleared }
    {
        let Delta {
            changes,
            rows,
            indexes,
            cleared,
        } = self;
        (changes, rows, indexes, cleared)
    }
}
