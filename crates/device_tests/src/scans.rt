//! Tests scans of a simulated device for SunSpec models, without faults and with each injected
//! fault.
use crate::images::full_image;
use crate::stand_in_link::SimulatorLink;
use mb_device::{Area, Bank, Kind, Trick};
use std::alloc::Global;
use std::process::Abort;
use sun_chain::scans::{ScanFault, ScanObserver, scan_over};
use sun_chain::{ChainFault, Image, Model, walk};

// A callback object that counts the SunSpec models that a scan reports.
#[derive(Drop)]
struct Shown(u64);

impl ScanObserver for Shown {
    fn reads(&mut self, _model: Model) {
        self.0 = self.0.saturating_add(1);
    }
}

static WHOLE: [Area; 1] = [Area {
    kind: Kind::Holding,
    start: 40000,
    count: 230,
}];

// Returns a simulated device with the complete SunSpec models 1, 103 and 203. Its last register is
// the ID of the end model.
fn full_bank(rt: &impl Abort, alloc: Global) -> Bank {
    let image = full_image(rt, alloc);
    let mut bank = Bank::new(alloc, &WHOLE).ok().expect(rt, "no bank");
    for address in 40000..40230u16 {
        bank.set(Kind::Holding, address, image.word(address).unwrap_or(0));
    }
    bank
}

// Asserts that a memory image has exactly the registers of the complete SunSpec models 1, 103 and
// 203.
fn assert_full(rt: &impl Abort, alloc: Global, found: &Image) {
    let image = full_image(rt, alloc);
    for address in 39990..40240u16 {
        assert!(rt; found.word(address) == image.word(address), "{address}");
    }
}

// The result of a scan, the number of Modbus requests, and the number of SunSpec models reported.
#[derive(Drop)]
struct Scanned {
    found: Result<Image, ScanFault>,
    requests: u64,
    models: u64,
}

// Scans a simulated device with injected faults.
fn scan_bank(alloc: Global, bank: Bank, tricks: &[(u64, Trick)]) -> Scanned {
    let mut link = SimulatorLink::new(bank, tricks);
    let mut shown = Shown(0);
    let found = scan_over(alloc, &mut link, 1, &mut shown);
    Scanned {
        found,
        requests: link.gives(),
        models: shown.0,
    }
}

// Scans a simulated device that has the complete SunSpec models 1, 103 and 203, with injected
// faults.
fn scanned_full(
    rt: &impl Abort,
    alloc: Global,
    tricks: &[(u64, Trick)],
) -> Result<Image, ScanFault> {
    scan_bank(alloc, full_bank(rt, alloc), tricks).found
}

// Scans a simulated device, asserts the number of requests, and returns the memory image that was
// read.
fn assert_image(rt: &impl Abort, alloc: Global, bank: Bank, requests: u64) -> Image {
    let scanned = scan_bank(alloc, bank, &[]);
    assert!(rt; scanned.requests == requests, "{requests}");
    scanned.found.ok().expect(rt, "no scan")
}

// A scan reads the complete SunSpec models 1, 103 and 203 with ten requests. One is for the mark
// `SunS` of a chain, three are for model headers, and three for the models' registers. The header
// of the end model is requested twice, because its length register is missing, and then its ID
// alone.
#[test]
fn full_models_are_read(rt: HostRuntime) {
    let scanned = scan_bank(rt.alloc(), full_bank(&rt, rt.alloc()), &[]);
    assert!(rt; scanned.requests == 10);
    assert!(rt; scanned.models == 3);
    assert_full(&rt, rt.alloc(), &scanned.found.ok().expect(&rt, "no scan"));
}

// Injected faults of a simulated device that drop or change the response to one frame, after which
// a retry succeeds.
static ONCE: [Trick; 5] = [
    Trick::Drop,
    Trick::Twice,
    Trick::Later,
    Trick::Id,
    Trick::Unit,
];

// If a response fails once during a scan, the request is sent again. The test injects each fault at
// each frame.
#[test]
fn a_reply_that_fails_once_is_asked_for_again(rt: HostRuntime) {
    for trick in &ONCE {
        for frame in 1..8u64 {
            let found = scanned_full(&rt, rt.alloc(), &[(frame, *trick)]);
            assert_full(&rt, rt.alloc(), &found.ok().expect(&rt, "no scan"));
        }
    }
}

// A connection that is closed, or a response with an invalid length field, ends the scan.
#[test]
fn a_connection_that_breaks_ends_the_scan(rt: HostRuntime) {
    let cut = scanned_full(&rt, rt.alloc(), &[(3, Trick::Cut(5))]);
    assert!(rt; cut.err() == Some(ScanFault::Gone));
    let garbled = scanned_full(&rt, rt.alloc(), &[(3, Trick::Garble)]);
    assert!(rt; garbled.err() == Some(ScanFault::Garbled));
}

// If a read fails twice during a scan, its registers are missing from the memory image. In this
// test they are the registers of the inverter model.
#[test]
fn a_read_that_fails_twice_is_missing(rt: HostRuntime) {
    let tricks = [(5, Trick::Drop), (6, Trick::Drop)];
    let image = scanned_full(&rt, rt.alloc(), &tricks)
        .ok()
        .expect(&rt, "no scan");
    assert!(rt; image.word(40071) == Some(50));
    assert!(rt; image.word(40072).is_none());
    assert!(rt; image.word(40121).is_none());
    assert!(rt; image.word(40122) == Some(203));
}

static UPPER: [Area; 1] = [Area {
    kind: Kind::Holding,
    start: 50000,
    count: 15536,
}];

// Returns a simulated device that stores the given holding registers (pairs of address and value).
// Its register map covers the addresses from 50000 on.
fn upper_bank(rt: &impl Abort, alloc: Global, words: &[(u16, u16)]) -> Bank {
    let mut bank = Bank::new(alloc, &UPPER).ok().expect(rt, "no bank");
    for (address, word) in words {
        bank.set(Kind::Holding, *address, *word);
    }
    bank
}

// The SunSpec mark (`SunS`), a model with the ID 9, whose points the scan does not know, and the
// end model at address 65535.
static TO_THE_LAST: [(u16, u16); 5] = [
    (50000, 0x5375),
    (50001, 0x6E53),
    (50002, 9),
    (50003, 15531),
    (65535, 0xFFFF),
];

// Test of a chain of SunSpec models that ends at address 65535. It has one model, with an ID (9)
// that the scan does not know. The scan sends five requests: two for the mark `SunS` of a chain at
// 40000, one for the mark at 50000, and two for model headers. It does not read the registers of
// model 9.
#[test]
fn a_chain_may_end_at_the_last_address(rt: HostRuntime) {
    let bank = upper_bank(&rt, rt.alloc(), &TO_THE_LAST);
    let image = assert_image(&rt, rt.alloc(), bank, 5);
    assert!(rt; image.word(50004).is_none());
    let chain = walk(rt.alloc(), &image).ok().expect(&rt, "no chain");
    assert!(rt; chain.end() == 65535);
}

// A SunSpec model 1 of 126 registers, followed by the end model.
static LONG: [(u16, u16); 6] = [
    (50000, 0x5375),
    (50001, 0x6E53),
    (50002, 1),
    (50003, 126),
    (50129, 7),
    (50130, 0xFFFF),
];

// A long SunSpec model needs several reads. The scan sends seven requests: two for the mark `SunS`
// of a chain at 40000, one for the mark at 50000, two for model headers, and two for the model's
// registers.
#[test]
fn a_long_model_takes_several_reads(rt: HostRuntime) {
    let image = assert_image(&rt, rt.alloc(), upper_bank(&rt, rt.alloc(), &LONG), 7);
    assert!(rt; image.word(50128) == Some(0));
    assert!(rt; image.word(50129) == Some(7));
}

// Scans a device with `count` SunSpec models without registers, followed by the end model.
fn many_models(rt: &impl Abort, alloc: Global, count: u16) -> Image {
    let mut bank = upper_bank(rt, alloc, &TO_THE_LAST);
    for place in 0..count {
        let address = 50002u16.saturating_add(place.saturating_mul(2));
        bank.set(Kind::Holding, address, 9);
        bank.set(Kind::Holding, address.saturating_add(1), 0);
    }
    let end = 50002u16.saturating_add(count.saturating_mul(2));
    bank.set(Kind::Holding, end, 0xFFFF);
    scan_bank(alloc, bank, &[]).found.ok().expect(rt, "no scan")
}

// A chain of SunSpec models has at most 64 models.
#[test]
fn a_chain_has_at_most_64_models(rt: HostRuntime) {
    let most = many_models(&rt, rt.alloc(), 64);
    assert!(rt; walk(rt.alloc(), &most).is_ok());
    let more = many_models(&rt, rt.alloc(), 65);
    assert!(rt; walk(rt.alloc(), &more).err() == Some(ChainFault::TooMany));
}
