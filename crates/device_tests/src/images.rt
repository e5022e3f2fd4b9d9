//! Tests writing words into the memory image of a device. Other tests use the function that returns
//! the memory image of a device with complete SunSpec models 1, 103 and 203.
use crate::given::{Line, image_of, write_image};
use std::alloc::Global;
use std::process::Abort;
use sun_chain::{Image, ImageFault};

// The SunSpec mark (`SunS`), complete models 1, 103 and 203, and the end model. Each register of
// model 1 contains two ASCII digits, its offset in the model. Each other register except scale
// points contains its offset as a number. The golden test `full_models` uses the same registers.
static LINES: [Line; 5] = [
    Line {
        address: 40000,
        words: &[21365, 28243],
    },
    Line {
        address: 40002,
        words: &[
            1, 66, 12338, 12339, 12340, 12341, 12342, 12343, 12344, 12345, 12592, 12593, 12594,
            12595, 12596, 12597, 12598, 12599, 12600, 12601, 12848, 12849, 12850, 12851, 12852,
            12853, 12854, 12855, 12856, 12857, 13104, 13105, 13106, 13107, 13108, 13109, 13110,
            13111, 13112, 13113, 13360, 13361, 13362, 13363, 13364, 13365, 13366, 13367, 13368,
            13369, 13616, 13617, 13618, 13619, 13620, 13621, 13622, 13623, 13624, 13625, 13872,
            13873, 13874, 13875, 13876, 13877, 13878, 13879,
        ],
    },
    Line {
        address: 40070,
        words: &[
            103, 50, 2, 3, 4, 5, 1, 7, 8, 9, 10, 11, 12, 2, 14, 3, 16, 4, 18, 5, 20, 6, 22, 7, 24,
            25, 8, 27, 9, 29, 10, 31, 65535, 33, 34, 35, 36, 65534, 38, 39, 40, 41, 42, 43, 44, 45,
            46, 47, 48, 49, 50, 51,
        ],
    },
    Line {
        address: 40122,
        words: &[
            203, 105, 2, 3, 4, 5, 1, 7, 8, 9, 10, 11, 12, 13, 14, 2, 16, 3, 18, 19, 20, 21, 4, 23,
            24, 25, 26, 5, 28, 29, 30, 31, 6, 33, 34, 35, 36, 7, 38, 39, 40, 41, 42, 43, 44, 45,
            46, 47, 48, 49, 50, 51, 52, 53, 8, 55, 56, 57, 58, 59, 60, 61, 62, 63, 64, 65, 66, 67,
            68, 69, 70, 9, 72, 73, 74, 75, 76, 77, 78, 79, 80, 81, 82, 83, 84, 85, 86, 87, 88, 89,
            90, 91, 92, 93, 94, 95, 96, 97, 98, 99, 100, 101, 102, 103, 10, 105, 106,
        ],
    },
    Line {
        address: 40229,
        words: &[65535],
    },
];

/// Returns the memory image of a device with complete SunSpec models 1, 103 and 203.
pub(crate) fn full_image(rt: &impl Abort, alloc: Global) -> Image {
    image_of(rt, alloc, &LINES)
}

static WORDS: [(u16, Option<u16>); 4] = [
    (0, None),
    (65533, None),
    (65534, Some(1)),
    (65535, Some(5)),
];

// The last two registers of a memory image can be written, and the last one can be replaced. Words
// past address 65535 are refused and change nothing.
#[test]
fn words_are_put_up_to_the_last_address(rt: HostRuntime) {
    let mut image = Image::new(rt.alloc());
    write_image(&rt, &mut image, 65534, &[1, 2]);
    write_image(&rt, &mut image, 65535, &[5]);
    assert!(rt; image.put(65535, &[3, 4]) == Err(ImageFault::PastEnd));
    for (address, word) in &WORDS {
        assert!(rt; image.word(*address) == *word, "{address}");
    }
}
