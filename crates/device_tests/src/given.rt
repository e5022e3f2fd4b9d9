//! Test data that several tests use: memory images of devices, texts, and point lists.

use point_list::{PointList, PointName, read_list, write_list};
use std::alloc::Global;
use std::process::Abort;
use sun_chain::{Chain, Image, walk};

pub fn assert_same(rt: &impl Abort, found: &[u8], want: &str) {
    assert!(rt; found == want.as_bytes(), "{want}");
}

pub fn write_image(rt: &impl Abort, image: &mut Image, address: u16, words: &[u16]) {
    image.put(address, words).ok().expect(rt, "not put");
}

/// The 16-bit words of consecutive Modbus registers, from a first address.
pub struct Line {
    pub address: u16,
    pub words: &'static [u16],
}

pub fn image_of(rt: &impl Abort, alloc: Global, lines: &[Line]) -> Image {
    let mut image = Image::new(alloc);
    for line in lines {
        write_image(rt, &mut image, line.address, line.words);
    }
    image
}

pub fn chain_of<'a>(rt: &impl Abort, alloc: Global, image: &'a Image) -> Chain<'a> {
    walk(alloc, image).ok().expect(rt, "no chain")
}

pub fn name(rt: &impl Abort, alloc: Global, text: &str) -> PointName {
    let bytes = text.as_bytes().to_vec(alloc).expect(rt, "no memory");
    PointName::new(bytes).ok().expect(rt, "no name")
}

pub fn list_of(rt: &impl Abort, alloc: Global, text: &[u8]) -> PointList {
    read_list(alloc, text).ok().expect(rt, "no list")
}

/// Returns the CSV text of a point list.
pub fn written(rt: &impl Abort, alloc: Global, list: &PointList) -> Vec<u8> {
    let mut output = Vec::new(alloc);
    write_list(alloc, list, &mut output)
        .ok()
        .expect(rt, "not written");
    output
}
