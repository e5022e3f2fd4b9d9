//! Creates the tables for metering records in an empty database.
ghost use Rattle.std.specs.Prelude.{◌≡◌, ◌≢◌, ◌⊎◌, false, Err, IfErr, OnOk};
ghost use Rattle.store_tables.specs.Layouts.{no_schema};
ghost use Rattle.store_tables.specs.Zones.{IsZone};
ghost use Rattle.stored_files.specs.NewOffice.{IsMade};

use office_store::{OpenFault, SqlBooks};
use sqlite::{Alter, Connection};
use std::alloc::Global;

/// Creates the tables for metering records in an empty database, with the function
/// `SqlBooks::create`. `zone` is the time zone in which days begin and end.
pub fn create_stored<S: Alter + Drop>(
    alloc: Global,
    connection: Connection<S>,
    zone: &str,
) -> Result<(), OpenFault>
    ensures others { connection.schema ≢ no_schema → result ≡ Err OpenFault.NotOurs }
    ensures no_zone { connection.in_transaction ≡ false → connection.schema ≡ no_schema
        → ¬ IsZone zone.now → result ≡ Err OpenFault.Zone }
    ensures ours { connection.in_transaction ≡ false → connection.schema ≡ no_schema
        → IsZone zone.now
        → IfErr result (λ fault. (fault ≡ OpenFault.Store) ⊎ (fault ≡ OpenFault.Memory)) }
    ensures made { OnOk result (IsMade S.Store zone.now connection) }
{
    match SqlBooks::create(alloc, connection, zone) {
        Ok(_) => Ok(()),
        Err(unopened) => Err(unopened.fault),
    }
}
