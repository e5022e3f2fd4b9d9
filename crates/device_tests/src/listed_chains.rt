//! Tests the point lists that are built from devices' chains of SunSpec models.

use crate::given::{Line, assert_same, chain_of, image_of, write_image, written};
use crate::images::full_image;
use point_list::{FaultyRow, ListFault, PointList, RowFault, from_chain};
use std::alloc::Global;
use std::process::Abort;
use sun_chain::Image;

// The lines of a device's memory image, and the expected CSV text of the point list of its SunSpec
// chain.
struct Listed {
    lines: &'static [Line],
    text: &'static str,
}

const INVERTER_AND_METER: [Line; 5] = [
    Line {
        address: 40000,
        words: &[0x5375, 0x6E53, 1, 66],
    },
    Line {
        address: 40070,
        words: &[103, 50],
    },
    Line {
        address: 40094,
        words: &[0x000F, 0x4240, 0],
    },
    Line {
        address: 40122,
        words: &[203, 105],
    },
    Line {
        address: 40229,
        words: &[0xFFFF],
    },
];

// The memory image of a device with an absent point, and with a point whose scale point was not
// read.
const METER: [Line; 5] = [
    Line {
        address: 40000,
        words: &[0x5375, 0x6E53, 203, 105],
    },
    Line {
        address: 40004,
        words: &[0x8000],
    },
    Line {
        address: 40020,
        words: &[5],
    },
    Line {
        address: 40024,
        words: &[0xFFFE],
    },
    Line {
        address: 40109,
        words: &[0xFFFF],
    },
];

static CHAINS: [Listed; 2] = [
    Listed {
        lines: &INVERTER_AND_METER,
        text: "name,function,area,address,type,scale
m2.WH,3,0,40094,acc32,m2.WH_SF
m2.WH_SF,3,0,40096,sunssf,
",
    },
    Listed {
        lines: &METER,
        text: "name,function,area,address,type,scale
m1.A,3,0,40004,int16,
m1.W,3,0,40020,int16,m1.W_SF
m1.W_SF,3,0,40024,sunssf,
",
    },
];

fn list_in(rt: &impl Abort, alloc: Global, image: &Image) -> PointList {
    let chain = chain_of(rt, alloc, image);
    from_chain(alloc, &chain).ok().expect(rt, "no list")
}

// Asserts the CSV text of the point list of the SunSpec chain in a memory image.
fn assert_listed(rt: &impl Abort, alloc: Global, image: &Image, text: &str) {
    let list = list_in(rt, alloc, image);
    assert_same(rt, written(rt, alloc, &list).as_slice(), text);
}

// The point list of a SunSpec chain has all points that were read, including absent points. The
// scale of a point is empty if its scale point was not read.
#[test]
fn lists_of_chains(rt: HostRuntime) {
    for chain in &CHAINS {
        let image = image_of(&rt, rt.alloc(), chain.lines);
        assert_listed(&rt, rt.alloc(), &image, chain.text);
    }
    assert_listed(&rt, rt.alloc(), &full_image(&rt, rt.alloc()), FULL);
}

// The point list of the complete models 1, 103 and 203: the name, address, type and scale point of
// each point.
static FULL: &str = "\
name,function,area,address,type,scale
m1.Mn,3,0,40004,string16,
m1.Md,3,0,40020,string16,
m1.Opt,3,0,40036,string8,
m1.Vr,3,0,40044,string8,
m1.SN,3,0,40052,string16,
m1.DA,3,0,40068,uint16,
m2.A,3,0,40072,uint16,m2.A_SF
m2.AphA,3,0,40073,uint16,m2.A_SF
m2.AphB,3,0,40074,uint16,m2.A_SF
m2.AphC,3,0,40075,uint16,m2.A_SF
m2.A_SF,3,0,40076,sunssf,
m2.PPVphAB,3,0,40077,uint16,m2.V_SF
m2.PPVphBC,3,0,40078,uint16,m2.V_SF
m2.PPVphCA,3,0,40079,uint16,m2.V_SF
m2.PhVphA,3,0,40080,uint16,m2.V_SF
m2.PhVphB,3,0,40081,uint16,m2.V_SF
m2.PhVphC,3,0,40082,uint16,m2.V_SF
m2.V_SF,3,0,40083,sunssf,
m2.W,3,0,40084,int16,m2.W_SF
m2.W_SF,3,0,40085,sunssf,
m2.Hz,3,0,40086,uint16,m2.Hz_SF
m2.Hz_SF,3,0,40087,sunssf,
m2.VA,3,0,40088,int16,m2.VA_SF
m2.VA_SF,3,0,40089,sunssf,
m2.VAr,3,0,40090,int16,m2.VAr_SF
m2.VAr_SF,3,0,40091,sunssf,
m2.PF,3,0,40092,int16,m2.PF_SF
m2.PF_SF,3,0,40093,sunssf,
m2.WH,3,0,40094,acc32,m2.WH_SF
m2.WH_SF,3,0,40096,sunssf,
m2.DCA,3,0,40097,uint16,m2.DCA_SF
m2.DCA_SF,3,0,40098,sunssf,
m2.DCV,3,0,40099,uint16,m2.DCV_SF
m2.DCV_SF,3,0,40100,sunssf,
m2.DCW,3,0,40101,int16,m2.DCW_SF
m2.DCW_SF,3,0,40102,sunssf,
m2.TmpCab,3,0,40103,int16,m2.Tmp_SF
m2.TmpSnk,3,0,40104,int16,m2.Tmp_SF
m2.TmpTrns,3,0,40105,int16,m2.Tmp_SF
m2.TmpOt,3,0,40106,int16,m2.Tmp_SF
m2.Tmp_SF,3,0,40107,sunssf,
m2.St,3,0,40108,enum16,
m2.StVnd,3,0,40109,enum16,
m2.Evt1,3,0,40110,bitfield32,
m2.Evt2,3,0,40112,bitfield32,
m2.EvtVnd1,3,0,40114,bitfield32,
m2.EvtVnd2,3,0,40116,bitfield32,
m2.EvtVnd3,3,0,40118,bitfield32,
m2.EvtVnd4,3,0,40120,bitfield32,
m3.A,3,0,40124,int16,m3.A_SF
m3.AphA,3,0,40125,int16,m3.A_SF
m3.AphB,3,0,40126,int16,m3.A_SF
m3.AphC,3,0,40127,int16,m3.A_SF
m3.A_SF,3,0,40128,sunssf,
m3.PhV,3,0,40129,int16,m3.V_SF
m3.PhVphA,3,0,40130,int16,m3.V_SF
m3.PhVphB,3,0,40131,int16,m3.V_SF
m3.PhVphC,3,0,40132,int16,m3.V_SF
m3.PPV,3,0,40133,int16,m3.V_SF
m3.PPVphAB,3,0,40134,int16,m3.V_SF
m3.PPVphBC,3,0,40135,int16,m3.V_SF
m3.PPVphCA,3,0,40136,int16,m3.V_SF
m3.V_SF,3,0,40137,sunssf,
m3.Hz,3,0,40138,int16,m3.Hz_SF
m3.Hz_SF,3,0,40139,sunssf,
m3.W,3,0,40140,int16,m3.W_SF
m3.WphA,3,0,40141,int16,m3.W_SF
m3.WphB,3,0,40142,int16,m3.W_SF
m3.WphC,3,0,40143,int16,m3.W_SF
m3.W_SF,3,0,40144,sunssf,
m3.VA,3,0,40145,int16,m3.VA_SF
m3.VAphA,3,0,40146,int16,m3.VA_SF
m3.VAphB,3,0,40147,int16,m3.VA_SF
m3.VAphC,3,0,40148,int16,m3.VA_SF
m3.VA_SF,3,0,40149,sunssf,
m3.VAR,3,0,40150,int16,m3.VAR_SF
m3.VARphA,3,0,40151,int16,m3.VAR_SF
m3.VARphB,3,0,40152,int16,m3.VAR_SF
m3.VARphC,3,0,40153,int16,m3.VAR_SF
m3.VAR_SF,3,0,40154,sunssf,
m3.PF,3,0,40155,int16,m3.PF_SF
m3.PFphA,3,0,40156,int16,m3.PF_SF
m3.PFphB,3,0,40157,int16,m3.PF_SF
m3.PFphC,3,0,40158,int16,m3.PF_SF
m3.PF_SF,3,0,40159,sunssf,
m3.TotWhExp,3,0,40160,acc32,m3.TotWh_SF
m3.TotWhExpPhA,3,0,40162,acc32,m3.TotWh_SF
m3.TotWhExpPhB,3,0,40164,acc32,m3.TotWh_SF
m3.TotWhExpPhC,3,0,40166,acc32,m3.TotWh_SF
m3.TotWhImp,3,0,40168,acc32,m3.TotWh_SF
m3.TotWhImpPhA,3,0,40170,acc32,m3.TotWh_SF
m3.TotWhImpPhB,3,0,40172,acc32,m3.TotWh_SF
m3.TotWhImpPhC,3,0,40174,acc32,m3.TotWh_SF
m3.TotWh_SF,3,0,40176,sunssf,
m3.TotVAhExp,3,0,40177,acc32,m3.TotVAh_SF
m3.TotVAhExpPhA,3,0,40179,acc32,m3.TotVAh_SF
m3.TotVAhExpPhB,3,0,40181,acc32,m3.TotVAh_SF
m3.TotVAhExpPhC,3,0,40183,acc32,m3.TotVAh_SF
m3.TotVAhImp,3,0,40185,acc32,m3.TotVAh_SF
m3.TotVAhImpPhA,3,0,40187,acc32,m3.TotVAh_SF
m3.TotVAhImpPhB,3,0,40189,acc32,m3.TotVAh_SF
m3.TotVAhImpPhC,3,0,40191,acc32,m3.TotVAh_SF
m3.TotVAh_SF,3,0,40193,sunssf,
m3.TotVArhImpQ1,3,0,40194,acc32,m3.TotVArh_SF
m3.TotVArhImpQ1PhA,3,0,40196,acc32,m3.TotVArh_SF
m3.TotVArhImpQ1PhB,3,0,40198,acc32,m3.TotVArh_SF
m3.TotVArhImpQ1PhC,3,0,40200,acc32,m3.TotVArh_SF
m3.TotVArhImpQ2,3,0,40202,acc32,m3.TotVArh_SF
m3.TotVArhImpQ2PhA,3,0,40204,acc32,m3.TotVArh_SF
m3.TotVArhImpQ2PhB,3,0,40206,acc32,m3.TotVArh_SF
m3.TotVArhImpQ2PhC,3,0,40208,acc32,m3.TotVArh_SF
m3.TotVArhExpQ3,3,0,40210,acc32,m3.TotVArh_SF
m3.TotVArhExpQ3PhA,3,0,40212,acc32,m3.TotVArh_SF
m3.TotVArhExpQ3PhB,3,0,40214,acc32,m3.TotVArh_SF
m3.TotVArhExpQ3PhC,3,0,40216,acc32,m3.TotVArh_SF
m3.TotVArhExpQ4,3,0,40218,acc32,m3.TotVArh_SF
m3.TotVArhExpQ4PhA,3,0,40220,acc32,m3.TotVArh_SF
m3.TotVArhExpQ4PhB,3,0,40222,acc32,m3.TotVArh_SF
m3.TotVArhExpQ4PhC,3,0,40224,acc32,m3.TotVArh_SF
m3.TotVArh_SF,3,0,40226,sunssf,
m3.Evt,3,0,40227,bitfield32,
";

// Returns the memory image of `count` complete SunSpec meter models. The registers in `more`, if
// any, begin one more model.
fn meters(rt: &impl Abort, alloc: Global, count: u16, more: &[u16]) -> Image {
    let mut image = Image::new(alloc);
    write_image(rt, &mut image, 0, &[0x5375, 0x6E53]);
    for model in 0..count {
        append_meter(rt, &mut image, model, &[0; 105]);
    }
    if more.is_empty() {
        write_image(rt, &mut image, address_of(count), &[0xFFFF]);
    } else {
        append_meter(rt, &mut image, count, more);
        write_image(
            rt,
            &mut image,
            address_of(count.saturating_add(1)),
            &[0xFFFF],
        );
    }
    image
}

fn address_of(model: u16) -> u16 {
    model.saturating_mul(107).saturating_add(2)
}

fn append_meter(rt: &impl Abort, image: &mut Image, model: u16, words: &[u16]) {
    write_image(rt, image, address_of(model), &[203, 105]);
    write_image(rt, image, address_of(model).saturating_add(2), words)
}

// The number of complete meter models, the registers of one more model, and the expected number of
// points, or `None` for more than 512. Each model has 72 points, and each of its first nine
// registers is a point.
static COUNTS: [(u16, &[u16], Option<usize>); 4] = [
    (7, &[], Some(504)),
    (7, &[0; 8], Some(512)),
    (7, &[0; 9], None),
    (8, &[], None),
];

const TOO_MANY: FaultyRow = FaultyRow {
    row: 514,
    fault: RowFault::TooMany,
};

fn count_in(rt: &impl Abort, alloc: Global, image: &Image) -> Option<usize> {
    let chain = chain_of(rt, alloc, image);
    match from_chain(alloc, &chain) {
        Ok(list) => Some(list.points().len()),
        Err(ListFault::Faults(faults)) if faults.rows() == [TOO_MANY].as_slice() => None,
        Err(_) => panic!(rt; "another fault"),
    }
}

// The point list of a SunSpec chain has at most 512 points.
#[test]
fn chains_have_512_points_at_most(rt: HostRuntime) {
    for (count, more, points) in COUNTS {
        let image = meters(&rt, rt.alloc(), count, more);
        let found = count_in(&rt, rt.alloc(), &image);
        assert!(rt; found == points, "{points:?}");
    }
}

// Returns the names of the first and the last point in the point list of a device's memory image.
fn ends_of(rt: &impl Abort, alloc: Global, image: &Image) -> Vec<u8> {
    let list = list_in(rt, alloc, image);
    let mut names = Vec::new(alloc);
    if let [first, .., last] = list.points() {
        names
            .extend_from_slice(first.name.as_bytes())
            .expect(rt, "no memory");
        names
            .extend_from_slice(last.name.as_bytes())
            .expect(rt, "no memory");
    }
    names
}

// The point list of a long SunSpec chain has the points of its first and its last model.
#[test]
fn many_points(rt: HostRuntime) {
    let image = meters(&rt, rt.alloc(), 7, &[]);
    assert_same(
        &rt,
        ends_of(&rt, rt.alloc(), &image).as_slice(),
        "m1.Am7.Evt",
    );
}
