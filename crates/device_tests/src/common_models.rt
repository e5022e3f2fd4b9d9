//! Tests the identity of a device, which SunSpec model 1 (common) contains.
use crate::given::{Line, assert_same, chain_of, image_of, write_image};
use std::alloc::Global;
use std::io::{self, Write};
use std::process::Abort;
use sun_chain::{Common, Image};

// A SunSpec model 1 at address 2, with two letters in each of four texts, and the device address 3.
const LINES: [Line; 7] = [
    Line {
        address: 0,
        words: &[0x5375, 0x6E53, 1],
    },
    Line {
        address: 4,
        words: &[0; 64],
    },
    Line {
        address: 4,
        words: &[0x4142],
    },
    Line {
        address: 20,
        words: &[0x4344],
    },
    Line {
        address: 36,
        words: &[0x4546],
    },
    Line {
        address: 44,
        words: &[0x4748],
    },
    Line {
        address: 68,
        words: &[3, 0],
    },
];

// A SunSpec model 1 at address 2 whose points all have SunSpec's values for points that are not
// implemented.
const ABSENT: [Line; 3] = [
    Line {
        address: 0,
        words: &[0x5375, 0x6E53, 1],
    },
    Line {
        address: 4,
        words: &[0; 64],
    },
    Line {
        address: 68,
        words: &[0xFFFF],
    },
];

// Returns the memory image of a device whose last SunSpec model is a model 1 of the length
// `length`, in registers.
fn device(rt: &impl Abort, alloc: Global, lines: &[Line], length: u16) -> Image {
    let mut image = image_of(rt, alloc, lines);
    write_image(rt, &mut image, 3, &[length]);
    write_image(rt, &mut image, length.saturating_add(4), &[0xFFFF]);
    image
}

// Prints each text of a SunSpec model 1 after the text's number of registers, and then the device
// address.
fn print_common(common: &Common<'_>, output: &mut Vec<u8>) -> io::Result<()> {
    let texts = [
        common.manufacturer,
        common.model,
        common.options,
        common.version,
        common.serial,
    ];
    for text in texts {
        write!(output, "{} ", text.words.len())?;
        text.write(output)?;
        output.write_all(b"/")?;
    }
    match common.device_address {
        Some(address) => write!(output, "{address}"),
        None => write!(output, "none"),
    }
}

fn said(rt: &impl Abort, alloc: Global, image: &Image) -> Vec<u8> {
    let chain = chain_of(rt, alloc, image);
    let common = chain.common().expect(rt, "no model 1");
    let mut output = Vec::new(alloc);
    print_common(&common, &mut output).expect(rt, "not written");
    output
}

// The lines that describe a memory image, the length of SunSpec model 1 in registers, and the
// expected identity of the device. A length of 66 includes a padding register.
static SAYINGS: [(&[Line], u16, &str); 4] = [
    (&LINES, 66, "16 AB/16 CD/8 EF/8 GH/0 /3"),
    (&LINES, 65, "16 AB/16 CD/8 EF/8 GH/0 /3"),
    (&LINES, 64, "16 AB/16 CD/8 EF/8 GH/0 /none"),
    (&ABSENT, 65, "0 /0 /0 /0 /0 /none"),
];

// The identity that is read from a device's model 1 (common) has each of the model's texts and the
// device address. A field is empty if it lies beyond the model's end, or if the device does not
// implement it (its registers have SunSpec's value for that).
#[test]
fn identity_has_each_field(rt: HostRuntime) {
    for (lines, length, want) in &SAYINGS {
        let image = device(&rt, rt.alloc(), lines, *length);
        assert_same(&rt, said(&rt, rt.alloc(), &image).as_slice(), want);
    }
}
