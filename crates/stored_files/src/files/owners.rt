//! Checks whether a database has the tables of `sunreg`.
ghost use Rattle.std.specs.Prelude.{◌↔◌, ◌≡◌, false, IsTrue};
ghost use Rattle.store_tables.specs.declared.layouts.Layout.{Layout as TheLayout};
ghost use Rattle.store_tables.specs.Layouts.{no_schema, IsNamedAs};

use sqlite::{Alter, Connection};
use store_tables::layout_of;

/// Returns whether a database has no table, index or view.
pub fn is_bare<S: Alter>(connection: &Connection<S>) -> bool
    ensures { IsTrue result ↔ (connection.now.schema ≡ no_schema) }
{
    let schema = connection.schema();
    schema.tables.as_slice().is_empty()
        && schema.indexes.as_slice().is_empty()
        && schema.views.as_slice().is_empty()
}

/// Returns whether a database has the tables of `sunreg` of any version. Compares the names and the
/// order of the tables.
pub fn is_office<S: Alter>(connection: &Connection<S>) -> bool
    ensures named { IsTrue result → (layout : TheLayout) × IsNamedAs connection.now.schema layout }
    ensures foreign { result ≡ false → (layout : TheLayout)
        → ¬ IsNamedAs connection.now.schema layout }
{
    match layout_of(connection.schema()) {
        Some(_) => true,
        None => false,
    }
}
