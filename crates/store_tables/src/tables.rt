//! The CREATE TABLE statements of the store's tables, in the order in which the tables are created.
ghost use Rattle.sqlite.specs.Held.{state};
ghost use Rattle.store_tables.specs.Steps.{StepsTo, IsSameBorrow};
ghost use Rattle.store_tables.specs.Growing.{Grows};

use sqlite::{Alter, Error, Transaction};

fn create_meta<S: Alter>(tx: &mut Transaction<'_, S>) -> Result<usize, Error>
    ensures same_reference { IsSameBorrow tx.old.conn tx.new.conn }
    ensures does { StepsTo (state S.Store tx.old.conn.now) (state S.Store tx.new.conn.now) result
        (Grows 0 1) }
{
    tx.execute(
        "CREATE TABLE meta (id INTEGER NOT NULL PRIMARY KEY, version INTEGER NOT NULL, zone TEXT NOT NULL) STRICT",
        &[],
    )
}

fn create_devices<S: Alter>(tx: &mut Transaction<'_, S>) -> Result<usize, Error>
    ensures same_reference { IsSameBorrow tx.old.conn tx.new.conn }
    ensures does { StepsTo (state S.Store tx.old.conn.now) (state S.Store tx.new.conn.now) result
        (Grows 1 2) }
{
    tx.execute(
        "CREATE TABLE devices (place INTEGER NOT NULL PRIMARY KEY, name TEXT NOT NULL UNIQUE, unit INTEGER NOT NULL, timeout INTEGER NOT NULL, \"window\" INTEGER NOT NULL) STRICT",
        &[],
    )
}

fn create_points<S: Alter>(tx: &mut Transaction<'_, S>) -> Result<usize, Error>
    ensures same_reference { IsSameBorrow tx.old.conn tx.new.conn }
    ensures does { StepsTo (state S.Store tx.old.conn.now) (state S.Store tx.new.conn.now) result
        (Grows 2 3) }
{
    tx.execute(
        "CREATE TABLE points (device TEXT NOT NULL, place INTEGER NOT NULL, name TEXT NOT NULL, function INTEGER NOT NULL, area INTEGER NOT NULL, address INTEGER NOT NULL, kind TEXT NOT NULL, scale TEXT NOT NULL, PRIMARY KEY (device, place), FOREIGN KEY (device) REFERENCES devices (name)) STRICT",
        &[],
    )
}

fn create_registers<S: Alter>(tx: &mut Transaction<'_, S>) -> Result<usize, Error>
    ensures same_reference { IsSameBorrow tx.old.conn tx.new.conn }
    ensures does { StepsTo (state S.Store tx.old.conn.now) (state S.Store tx.new.conn.now) result
        (Grows 3 4) }
{
    tx.execute(
        "CREATE TABLE registers (place INTEGER NOT NULL PRIMARY KEY, name TEXT NOT NULL UNIQUE, device TEXT NOT NULL, function INTEGER NOT NULL, address INTEGER NOT NULL, scale_kind INTEGER NOT NULL, scale INTEGER NOT NULL, FOREIGN KEY (device) REFERENCES devices (name)) STRICT",
        &[],
    )
}

fn create_installations<S: Alter>(tx: &mut Transaction<'_, S>) -> Result<usize, Error>
    ensures same_reference { IsSameBorrow tx.old.conn tx.new.conn }
    ensures does { StepsTo (state S.Store tx.old.conn.now) (state S.Store tx.new.conn.now) result
        (Grows 4 5) }
{
    tx.execute(
        "CREATE TABLE installations (place INTEGER NOT NULL PRIMARY KEY, meter TEXT NOT NULL UNIQUE, register TEXT NOT NULL, ceiling INTEGER NOT NULL, ended INTEGER NOT NULL, last_moment INTEGER NOT NULL, last_raw INTEGER NOT NULL, last_sf INTEGER NOT NULL, total INTEGER NOT NULL, FOREIGN KEY (register) REFERENCES registers (name)) STRICT",
        &[],
    )
}

fn create_entries<S: Alter>(tx: &mut Transaction<'_, S>) -> Result<usize, Error>
    ensures same_reference { IsSameBorrow tx.old.conn tx.new.conn }
    ensures does { StepsTo (state S.Store tx.old.conn.now) (state S.Store tx.new.conn.now) result
        (Grows 5 6) }
{
    tx.execute(
        "CREATE TABLE entries (meter TEXT NOT NULL, place INTEGER NOT NULL, kind INTEGER NOT NULL, moment INTEGER NOT NULL, raw INTEGER NOT NULL, rolls INTEGER NOT NULL, \"after\" INTEGER NOT NULL, sf INTEGER NOT NULL, PRIMARY KEY (meter, place), FOREIGN KEY (meter) REFERENCES installations (meter)) STRICT",
        &[],
    )
}

fn create_polls<S: Alter>(tx: &mut Transaction<'_, S>) -> Result<usize, Error>
    ensures same_reference { IsSameBorrow tx.old.conn tx.new.conn }
    ensures does { StepsTo (state S.Store tx.old.conn.now) (state S.Store tx.new.conn.now) result
        (Grows 6 7) }
{
    tx.execute(
        "CREATE TABLE polls (poll INTEGER NOT NULL PRIMARY KEY, device TEXT NOT NULL, unit INTEGER NOT NULL, started INTEGER NOT NULL, tid INTEGER NOT NULL, function INTEGER NOT NULL, address INTEGER NOT NULL, count INTEGER NOT NULL, FOREIGN KEY (device) REFERENCES devices (name)) STRICT",
        &[],
    )
}

fn create_holds<S: Alter>(tx: &mut Transaction<'_, S>) -> Result<usize, Error>
    ensures same_reference { IsSameBorrow tx.old.conn tx.new.conn }
    ensures does { StepsTo (state S.Store tx.old.conn.now) (state S.Store tx.new.conn.now) result
        (Grows 7 8) }
{
    tx.execute(
        "CREATE TABLE holds (place INTEGER NOT NULL PRIMARY KEY, meter TEXT NOT NULL, poll INTEGER NOT NULL, moment INTEGER NOT NULL, raw INTEGER NOT NULL, sf INTEGER NOT NULL, cause INTEGER NOT NULL, FOREIGN KEY (meter) REFERENCES installations (meter), FOREIGN KEY (poll) REFERENCES polls (poll)) STRICT",
        &[],
    )
}

fn create_outcomes<S: Alter>(tx: &mut Transaction<'_, S>) -> Result<usize, Error>
    ensures same_reference { IsSameBorrow tx.old.conn tx.new.conn }
    ensures does { StepsTo (state S.Store tx.old.conn.now) (state S.Store tx.new.conn.now) result
        (Grows 8 9) }
{
    tx.execute(
        "CREATE TABLE outcomes (poll INTEGER NOT NULL PRIMARY KEY, moment INTEGER NOT NULL, outcome INTEGER NOT NULL, code INTEGER NOT NULL, FOREIGN KEY (poll) REFERENCES polls (poll)) STRICT",
        &[],
    )
}

fn create_intervals<S: Alter>(tx: &mut Transaction<'_, S>) -> Result<usize, Error>
    ensures same_reference { IsSameBorrow tx.old.conn tx.new.conn }
    ensures does { StepsTo (state S.Store tx.old.conn.now) (state S.Store tx.new.conn.now) result
        (Grows 9 10) }
{
    tx.execute(
        "CREATE TABLE intervals (meter TEXT NOT NULL, start INTEGER NOT NULL, mwh INTEGER NOT NULL, PRIMARY KEY (meter, start), FOREIGN KEY (meter) REFERENCES installations (meter)) STRICT",
        &[],
    )
}

fn create_replies<S: Alter>(tx: &mut Transaction<'_, S>) -> Result<usize, Error>
    ensures same_reference { IsSameBorrow tx.old.conn tx.new.conn }
    ensures does { StepsTo (state S.Store tx.old.conn.now) (state S.Store tx.new.conn.now) result
        (Grows 10 11) }
{
    tx.execute(
        "CREATE TABLE replies (caller TEXT NOT NULL, number INTEGER NOT NULL, request BLOB NOT NULL, kind TEXT NOT NULL, moment INTEGER NOT NULL, PRIMARY KEY (caller, number)) STRICT",
        &[],
    )
}

fn create_ranges<S: Alter>(tx: &mut Transaction<'_, S>) -> Result<usize, Error>
    ensures same_reference { IsSameBorrow tx.old.conn tx.new.conn }
    ensures does { StepsTo (state S.Store tx.old.conn.now) (state S.Store tx.new.conn.now) result
        (Grows 11 12) }
{
    tx.execute(
        "CREATE TABLE ranges (meter TEXT NOT NULL PRIMARY KEY, \"range\" INTEGER NOT NULL, FOREIGN KEY (meter) REFERENCES installations (meter)) STRICT",
        &[],
    )
}

pub(crate) fn create_voids<S: Alter>(tx: &mut Transaction<'_, S>) -> Result<usize, Error>
    ensures same_reference { IsSameBorrow tx.old.conn tx.new.conn }
    ensures does { StepsTo (state S.Store tx.old.conn.now) (state S.Store tx.new.conn.now) result
        (Grows 12 13) }
{
    tx.execute(
        "CREATE TABLE voids (meter TEXT NOT NULL, place INTEGER NOT NULL, moment INTEGER NOT NULL, PRIMARY KEY (meter, place), FOREIGN KEY (meter, place) REFERENCES entries (meter, place)) STRICT",
        &[],
    )
}

/// Creates `meta`, and the tables of devices, points and accounting registers (named counters).
fn create_lists<S: Alter>(tx: &mut Transaction<'_, S>) -> Result<usize, Error>
    ensures same_reference { IsSameBorrow tx.old.conn tx.new.conn }
    ensures does { StepsTo (state S.Store tx.old.conn.now) (state S.Store tx.new.conn.now) result
        (Grows 0 4) }
{
    create_meta(tx)?;
    create_devices(tx)?;
    create_points(tx)?;
    create_registers(tx)
}

/// Creates the tables of meters (`installations`), meter entries, polls and rejected readings.
fn create_meters<S: Alter>(tx: &mut Transaction<'_, S>) -> Result<usize, Error>
    ensures same_reference { IsSameBorrow tx.old.conn tx.new.conn }
    ensures does { StepsTo (state S.Store tx.old.conn.now) (state S.Store tx.new.conn.now) result
        (Grows 4 8) }
{
    create_installations(tx)?;
    create_entries(tx)?;
    create_polls(tx)?;
    create_holds(tx)
}

/// Creates the tables of poll outcomes, energy by quarter hours, and stored requests.
fn create_answers<S: Alter>(tx: &mut Transaction<'_, S>) -> Result<usize, Error>
    ensures same_reference { IsSameBorrow tx.old.conn tx.new.conn }
    ensures does { StepsTo (state S.Store tx.old.conn.now) (state S.Store tx.new.conn.now) result
        (Grows 8 11) }
{
    create_outcomes(tx)?;
    create_intervals(tx)?;
    create_replies(tx)
}

/// Creates all tables of a version 1 file.
fn create_first<S: Alter>(tx: &mut Transaction<'_, S>) -> Result<usize, Error>
    ensures same_reference { IsSameBorrow tx.old.conn tx.new.conn }
    ensures does { StepsTo (state S.Store tx.old.conn.now) (state S.Store tx.new.conn.now) result
        (Grows 0 11) }
{
    create_lists(tx)?;
    create_meters(tx)?;
    create_answers(tx)
}

/// Creates the tables `ranges` and `voids`, which versions 2 and 3 of the database file added.
pub(crate) fn create_last<S: Alter>(tx: &mut Transaction<'_, S>) -> Result<usize, Error>
    ensures same_reference { IsSameBorrow tx.old.conn tx.new.conn }
    ensures does { StepsTo (state S.Store tx.old.conn.now) (state S.Store tx.new.conn.now) result
        (Grows 11 13) }
{
    create_ranges(tx)?;
    create_voids(tx)
}

/// Creates all tables of a version 3 file.
pub(crate) fn create_tables<S: Alter>(tx: &mut Transaction<'_, S>) -> Result<usize, Error>
    ensures same_reference { IsSameBorrow tx.old.conn tx.new.conn }
    ensures does { StepsTo (state S.Store tx.old.conn.now) (state S.Store tx.new.conn.now) result
        (Grows 0 13) }
{
    create_first(tx)?;
    create_last(tx)
}
