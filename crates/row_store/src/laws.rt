//! What the undo of changes is for.
ghost use Rattle.std.specs.Prelude.{◌≡◌, List, reverse};
ghost use Rattle.dtx_values.specs.declared.row.Change.{Change};
ghost use Rattle.row_store.specs.Pending.{undo_over};
ghost use Rattle.row_store.specs.Tables.{TableRows, apply_all};
ghost use Rattle.row_store.specs.Undone.{RowsAreInOrder, AreNamedApart};

/// Changes made to rows, and then their undo from the last change to the first, leave the rows as they were.
pub fn undo_gives_the_rows()
    ensures { (rows : List TableRows) (cs : List Change) → RowsAreInOrder rows → AreNamedApart rows → apply_all (apply_all rows cs) (reverse (undo_over rows cs)) ≡ rows }
{}
