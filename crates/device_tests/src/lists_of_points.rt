//! Tests which points form a valid point list.
use crate::given::name;
use mb_wire::ReadFunction;
use point_list::{ListedPoint, PointList, PointName, PointScale, find_scale, texts_spell_one_list};
use read_plan::rule_is_least;
use std::alloc::Global;
use std::process::Abort;
use sun_points::{PointType, Scale};

// A test case: a SunSpec point at address 0, whose type allows a scale if `takes_scale` is true,
// and the name of its scale point. A scale point `s` (type sunssf) is at `address`. `is_list` is
// true if both points form a valid list.
struct Group {
    takes_scale: bool,
    scale: &'static str,
    address: u16,
    is_list: bool,
}

static GROUPS: [Group; 5] = [
    Group {
        takes_scale: true,
        scale: "s",
        address: 124,
        is_list: true,
    },
    Group {
        takes_scale: true,
        scale: "s",
        address: 125,
        is_list: false,
    },
    Group {
        takes_scale: true,
        scale: "t",
        address: 124,
        is_list: false,
    },
    Group {
        takes_scale: false,
        scale: "s",
        address: 124,
        is_list: false,
    },
    Group {
        takes_scale: true,
        scale: "w",
        address: 124,
        is_list: false,
    },
];

fn listed(
    rt: &impl Abort,
    alloc: Global,
    text: &str,
    address: u16,
    kind: PointType,
    scale: PointScale,
) -> ListedPoint {
    let name = name(rt, alloc, text);
    ListedPoint {
        name,
        function: ReadFunction::HoldingRegisters,
        area: 0,
        address,
        kind,
        scale,
    }
}

fn scale_point(rt: &impl Abort, alloc: Global, address: u16) -> ListedPoint {
    listed(
        rt,
        alloc,
        "s",
        address,
        PointType::Sunssf,
        PointScale::Unscaled,
    )
}

fn first_point(rt: &impl Abort, alloc: Global, group: &Group) -> ListedPoint {
    let kind = if group.takes_scale {
        PointType::Int16
    } else {
        PointType::Enum16
    };
    let scale = PointScale::Named(name(rt, alloc, group.scale));
    listed(rt, alloc, "w", 0, kind, scale)
}

fn points_of(rt: &impl Abort, alloc: Global, group: &Group) -> Vec<ListedPoint> {
    let first = first_point(rt, alloc, group);
    let scale = scale_point(rt, alloc, group.address);
    Vec::from_array(alloc, [first, scale]).expect(rt, "no memory")
}

// The scale point of a point must exist and have the type sunssf. One read must contain both
// points, and the type of the scaled point must allow a scale.
#[test]
fn groups(rt: HostRuntime) {
    for group in &GROUPS {
        let list = PointList::new(points_of(&rt, rt.alloc(), group));
        assert!(rt;
            list.is_ok() == group.is_list,
            "{} {}",
            group.scale,
            group.address
        );
    }
}

// Returns a point list with one counter at this address, with a fixed scale.
fn counter(rt: &impl Abort, alloc: Global, address: u16) -> Vec<ListedPoint> {
    let scale = PointScale::Fixed(Scale::new(0).expect(rt, "no scale"));
    let point = listed(rt, alloc, "a", address, PointType::Acc32, scale);
    Vec::from_array(alloc, [point]).expect(rt, "no memory")
}

// A counter of two registers may end at address 65535, and not after it.
#[test]
fn counters_end_at_the_last_register(rt: HostRuntime) {
    for (address, is_list) in [(65534, true), (65535, false)] {
        let list = PointList::new(counter(&rt, rt.alloc(), address));
        assert!(rt; list.is_ok() == is_list, "{address}");
    }
}

// A point list with two points of the same name is refused, and the points are returned to the
// caller.
#[test]
fn points_with_double_names_are_handed_back(rt: HostRuntime) {
    let list = PointList::new(counter(&rt, rt.alloc(), 65534));
    let mut points = list.ok().expect(&rt, "no list").into_points();
    let double = listed(
        &rt,
        rt.alloc(),
        "a",
        0,
        PointType::Acc32,
        PointScale::Unscaled,
    );
    points.push(double).expect(&rt, "no memory");
    let back = PointList::new(points).err().expect(&rt, "no double name");
    assert!(rt; back.len() == 2);
}

// A scale point is found by its name. A point of another type with that name is not found.
#[test]
fn finds_a_scale(rt: HostRuntime) {
    texts_spell_one_list();
    rule_is_least();
    let group = GROUPS.first().expect(&rt, "no group");
    let points = points_of(&rt, rt.alloc(), group);
    assert!(rt; find_scale(&points, b"w").is_none());
    let scale = find_scale(&points, b"s").expect(&rt, "no scale");
    assert!(rt; scale.address == 124);
    assert!(rt; scale.function == ReadFunction::HoldingRegisters);
}

// Texts, and whether each is a valid point name.
static TEXTS: [(&str, bool); 11] = [
    ("wh", true),
    ("m2.WH_SF", true),
    ("A", true),
    ("a23456789.123456789_123456789.12", true),
    ("", false),
    ("1x", false),
    ("_a", false),
    (".a", false),
    ("a-b", false),
    ("a b", false),
    ("a23456789.123456789_123456789.123", false),
];

// Asserts whether a text is a valid point name, and that its bytes are returned in either case.
fn assert_name(rt: &impl Abort, alloc: Global, text: &str, is_name: bool) {
    let bytes = text.as_bytes().to_vec(alloc).expect(rt, "no memory");
    let back = match PointName::new(bytes) {
        Ok(name) => {
            assert!(rt; is_name && name.as_bytes() == text.as_bytes(), "{text}");
            name.into_bytes()
        }
        Err(back) => {
            assert!(rt; !is_name, "{text}");
            back
        }
    };
    assert!(rt; back.as_slice() == text.as_bytes(), "{text}");
}

// A point name has 1 to 32 letters, digits, `_` and `.`, with a letter first.
#[test]
fn names_are_valid_up_to_32_bytes(rt: HostRuntime) {
    for (text, is_name) in &TEXTS {
        assert_name(&rt, rt.alloc(), text, *is_name);
    }
}
