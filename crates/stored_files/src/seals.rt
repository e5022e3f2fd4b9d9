//! Creates and checks seals of databases. A seal is a text with digests of a database's records at
//! one time. A later check shows whether these records were changed.
ghost use Rattle.std.specs.Prelude.{◌≡◌, ◌≢◌, ◌↔◌, ◌⊎◌, false, Err, Some, IsTrue, IfOk, IfErr, OnOk};
ghost use Rattle.std.specs.Io.KnownBytes.{Appends};
ghost use Rattle.sqlite.specs.Held.{state};
ghost use Rattle.sqlite.specs.State.{HasCleanDisk};
ghost use Rattle.store_tables.specs.Content.{Content};
ghost use Rattle.store_tables.specs.declared.layouts.Layout.{Layout as TheLayout};
ghost use Rattle.store_tables.specs.Layouts.{IsNamedAs};
ghost use Rattle.table_audit.specs.Looking.{HoldsRows, OnlyLooks};
ghost use Rattle.table_seals.specs.Checking.{IsAsSealed, ReportsTables};
ghost use Rattle.table_seals.specs.Reading.{AreTablesSealable, IsSealText};
ghost use Rattle.table_seals.specs.Sealed.{SealedTables, sealed_tables_of};
ghost use Rattle.table_seals.specs.Sealing.{CannotBeSealed, HasNoZone, SealsTables};
ghost use Rattle.table_seals.specs.Texts.{seal_text, checked_text};

use crate::audits::{AuditFault, check_ours, fault_of};
use sqlite::{Alter, Connection};
use std::alloc::Global;
use std::io::Write;
use sun_points::Sink;
use table_seals::{
    Checked, NoSeal, Seal, append_checked, append_seal, check_seal, read_seal, seal_tables,
};

/// Returns a seal (digests) of the metering records in a database. Writes nothing to the database.
pub fn seal_stored<S: Alter>(
    alloc: Global,
    connection: &mut Connection<S>,
) -> Result<Seal, AuditFault>
    ensures foreign { ((layout : TheLayout) → ¬ IsNamedAs connection.old.schema layout)
        → result ≡ Err AuditFault.NotOurs }
    ensures looks { connection.old.in_transaction ≡ false
        → OnlyLooks S.Store connection.old connection.new }
    ensures reports { HasCleanDisk (state S.Store connection.new) → (content : Content)
        → HoldsRows S.Store connection.old content
        → IfOk result (λ seal. SealsTables content (Some seal)) }
    ensures unsealed { HasCleanDisk (state S.Store connection.new) → (content : Content)
        → HoldsRows S.Store connection.old content
        → result ≡ Err AuditFault.Unsealable → CannotBeSealed content }
{
    check_ours(connection)?;
    match seal_tables(alloc, connection) {
        Ok(Some(seal)) => Ok(seal),
        Ok(None) => Err(AuditFault::Unsealable),
        Err(fault) => Err(fault_of(fault)),
    }
}

/// Writes a seal (digests of a database's records) as text to `output`.
pub fn write_seal<W: Write>(alloc: Global, seal: &Seal, output: &mut W) -> Result<(), AuditFault>
    ensures { OnOk result (Appends (W.contents output.old) (W.contents output.new)
        (seal_text (sealed_tables_of seal.now))) }
{
    let Ok(text) = append_seal(alloc, seal) else {
        return Err(AuditFault::Memory);
    };
    match output.take_text(text.as_slice()) {
        Ok(()) => Ok(()),
        Err(_) => Err(AuditFault::Output),
    }
}

/// Checks the metering records in a database against a seal (digests of earlier records), which is
/// given as its text `text`. Returns what doesn't match the seal, and what later voids
/// (cancellations of entries) changed. Writes nothing to the database.
pub fn check_stored_seal<S: Alter>(
    alloc: Global,
    connection: &mut Connection<S>,
    text: &str,
) -> Result<Checked, AuditFault>
    ensures foreign { ((layout : TheLayout) → ¬ IsNamedAs connection.old.schema layout)
        → result ≡ Err AuditFault.NotOurs }
    ensures looks { connection.old.in_transaction ≡ false
        → OnlyLooks S.Store connection.old connection.new }
    ensures reports { HasCleanDisk (state S.Store connection.new) → (content : Content)
        → HoldsRows S.Store connection.old content
        → IfOk result (λ checked. (seal : SealedTables) × IsSealText seal text.now
        × ReportsTables seal content checked) }
    ensures unmarked { HasCleanDisk (state S.Store connection.new) → (content : Content)
        → HoldsRows S.Store connection.old content → result ≡ Err AuditFault.Mark
        → HasNoZone content }
    ensures no_seal { (seal : SealedTables) → AreTablesSealable seal
        → text.now ≡ seal_text seal → result ≢ Err AuditFault.NoSeal }
{
    check_ours(connection)?;
    let seal = match read_seal(alloc, text) {
        Ok(seal) => seal,
        Err(NoSeal::Other | NoSeal::Earlier) => return Err(AuditFault::NoSeal),
        Err(NoSeal::Memory) => return Err(AuditFault::Memory),
    };
    match check_seal(alloc, connection, &seal) {
        Ok(Some(checked)) => Ok(checked),
        Ok(None) => Err(AuditFault::Mark),
        Err(fault) => Err(fault_of(fault)),
    }
}

/// Writes the result of checking a database against a seal (digests of earlier records). Returns
/// whether all meters and the polls match the seal.
pub fn write_checked<W: Write>(
    alloc: Global,
    checked: &Checked,
    output: &mut W,
) -> Result<bool, AuditFault>
    ensures fine { IfOk result (λ fine. IsTrue fine ↔ IsAsSealed checked.now) }
    ensures reported { OnOk result (Appends (W.contents output.old) (W.contents output.new)
        (checked_text checked.now)) }
{
    let mut text = Vec::new(alloc);
    if append_checked(&mut text, checked).is_err() {
        return Err(AuditFault::Memory);
    }
    match output.take_text(text.as_slice()) {
        Ok(()) => Ok(checked.is_fine()),
        Err(_) => Err(AuditFault::Output),
    }
}
