//! Tests a meter whose energy in all files together exceeds the maximum for a meter. The rows of
//! valid files never add up to so much energy.
use energy_core::{Last, MAX_TOTAL};
use meter_journal::Installed;
use meter_journal::audit::Standing;
use std::alloc::Global;
use std::process::Abort;
use table_seals::{FiledMeter, FiledOffice, Joining, append_joins};

const STAND: Last = Last {
    at: 1900,
    raw: 5200,
    sf: 0,
};

/// Returns the data of a database file with one meter (`m1`), whose total energy is `total`, for
/// the check that database files continue each other.
fn file_of(rt: &impl Abort, alloc: Global, file: &'static str, total: u64) -> FiledOffice<'static> {
    let meter = FiledMeter {
        file,
        meter: String::from_str(alloc, "m1").expect(rt, "no memory"),
        register: String::from_str(alloc, "main").expect(rt, "no memory"),
        installed: Installed {
            range: 100_000,
            ceiling: 100_000,
            opening: STAND,
        },
        standing: Standing {
            last: STAND,
            total,
            is_ended: false,
        },
    };
    let mut meters = Vec::new(alloc);
    meters.push(meter).expect(rt, "no memory");
    FiledOffice {
        file,
        zone: String::from_str(alloc, "UTC0").expect(rt, "no memory"),
        meters,
        latest: 1,
    }
}

/// Test cases: the total energy of a meter in the second file, and the text that is then printed.
/// In the first file, the meter has 200 Wh.
static TOTALS: [(u64, &[u8]); 2] = [
    (3_999_999_999_999_800_000, b"joined: fine\n"),
    (
        MAX_TOTAL,
        b"meter m1 has more energy in all files up to new.db than a meter may have\n1 difference between files\n",
    ),
];

// Checks that the greatest total energy of a meter in one database file is also the greatest total
// energy of the meter over all files.
#[test]
fn the_energy_of_all_files_has_a_limit(rt: HostRuntime) {
    for (total, printed) in &TOTALS {
        let mut joining = Joining::new(rt.alloc());
        let old = file_of(&rt, rt.alloc(), "old.db", 200_000);
        joining.join(rt.alloc(), old).expect(&rt, "no join");
        let new = file_of(&rt, rt.alloc(), "new.db", *total);
        joining.join(rt.alloc(), new).expect(&rt, "no join");
        let mut text = Vec::new(rt.alloc());
        append_joins(&mut text, joining.lines.as_slice()).expect(&rt, "no memory");
        assert!(rt; text.as_slice() == *printed);
    }
}
