//! Tests of a scan of a simulated device over a link (the connection to the device) that fails.
//! `tests/stand_in.py` scans simulators over sockets.
use mb_wire::MemoryLink;
use sun_chain::Model;
use sun_chain::scans::{ScanFault, ScanObserver};
use sunspec_text::{ScanForm, scan_text};

// An observer of a scan that ignores all progress.
#[derive(Drop)]
struct Nobody;

impl ScanObserver for Nobody {
    fn reads(&mut self, _model: Model) {}
}

// The responses of a device to the four reads of a scan. They contain the SunSpec mark, the head of
// a model 103 with 50 Modbus registers, the 50 registers, and the end model. The model's energy
// counter shows 5000 at scale factor 0.
const REPLIES: &[u8] = &[
    0, 1, 0, 0, 0, 7, 1, 3, 4, 83, 117, 110, 83, 0, 2, 0, 0, 0, 7, 1, 3, 4, 0, 103, 0, 50, 0, 3, 0,
    0, 0, 103, 1, 3, 100, 0, 0, 0, 0, 0, 0, 0, 0, 0, 0, 0, 0, 0, 0, 0, 0, 0, 0, 0, 0, 0, 0, 0, 0,
    0, 0, 0, 0, 0, 0, 0, 0, 0, 0, 0, 0, 0, 0, 0, 0, 0, 0, 0, 0, 0, 0, 19, 136, 0, 0, 0, 0, 0, 0, 0,
    0, 0, 0, 0, 0, 0, 0, 0, 0, 0, 0, 0, 0, 0, 0, 0, 0, 0, 0, 0, 0, 0, 0, 0, 0, 0, 0, 0, 0, 0, 0, 0,
    0, 0, 0, 0, 0, 0, 0, 0, 0, 0, 0, 0, 0, 0, 4, 0, 0, 0, 7, 1, 3, 4, 255, 255, 0, 0,
];

// For each test, the number of the call to the link (connection) that fails: the first write, the
// first read, and a write of the last request.
static CALLS: [u64; 3] = [1, 13, 180];

#[test]
fn a_link_that_fails_prints_nothing(rt: HostRuntime) {
    for call in &CALLS {
        let mut given = [0; 48];
        let mut output = Vec::new(rt.alloc());
        let mut link = MemoryLink::new(REPLIES, &mut given, 1, Some(*call));
        let form = ScanForm::Chain;
        let end = scan_text(rt.alloc(), &mut link, 1, form, &mut Nobody, &mut output);
        assert!(rt; end == Err(ScanFault::Failed), "{call}");
        assert!(rt; output.is_empty(), "{call}");
    }
}
