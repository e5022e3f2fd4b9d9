//! Tests the writing of point lists as CSV texts.

use crate::given::{list_of, written};

// A test case: the CSV text from which a point list is read, and the text that the program must
// write for this list.
struct Rewritten {
    text: &'static [u8],
    written: &'static [u8],
}

const EVERY_KIND: &[u8] = b"name,function,area,address,type,scale
a,3,0,0,int16,b
b,3,0,124,sunssf,
c,4,255,65535,uint16,-10
d.e_1,3,7,10,enum16,
f,3,7,11,int32,10
g,3,7,13,uint32,0
h,3,7,15,bitfield32,
i,3,7,17,acc32,-1
j,3,7,19,string1,
k,3,7,20,string125,
";

const COUNTER: &[u8] = b"name,function,area,address,type,scale
wh,3,0,40094,acc32,whsf
whsf,3,0,40096,sunssf,
";

// Texts of point lists in CSV, each with the text that the program writes after parsing it. They
// have each kind of point, text from a spreadsheet program, only a header, four spellings of one
// list, and the limits of numbers.
static TEXTS: [Rewritten; 8] = [
    Rewritten {
        text: EVERY_KIND,
        written: EVERY_KIND,
    },
    Rewritten {
        text: b"\xEF\xBB\xBFname,function,\"area\",address,type,scale\r\n\r\n\"a\",03,0,0000000005,int16,-0\r\n",
        written: b"name,function,area,address,type,scale\na,3,0,5,int16,0\n",
    },
    Rewritten {
        text: b"name,function,area,address,type,scale\n",
        written: b"name,function,area,address,type,scale\n",
    },
    Rewritten {
        text: COUNTER,
        written: COUNTER,
    },
    Rewritten {
        text: b"\xEF\xBB\xBFname,function,area,address,type,scale\r\nwh,3,0,40094,acc32,whsf\r\nwhsf,3,0,40096,sunssf,\r\n",
        written: COUNTER,
    },
    Rewritten {
        text: b"\"name\",\"function\",\"area\",\"address\",\"type\",\"scale\"\n\n\"wh\",\"3\",0,40094,\"acc32\",\"whsf\"\n\r\nwhsf,3,0,40096,sunssf,\"\"",
        written: COUNTER,
    },
    Rewritten {
        text: b"name,function,area,address,type,scale\nwh,0000000003,000,0000040094,acc32,whsf\nwhsf,3,0,40096,sunssf,\n",
        written: COUNTER,
    },
    Rewritten {
        text: b"name,function,area,address,type,scale\na,4,255,65535,int16,-10\nb,3,0,0,string125,\nc,3,0,0,uint32,-0\nd,3,0,0,int32,10\n",
        written: b"name,function,area,address,type,scale\na,4,255,65535,int16,-10\nb,3,0,0,string125,\nc,3,0,0,uint32,0\nd,3,0,0,int32,10\n",
    },
];

// A point list is always written as the same CSV text, however the text from which it was read is
// spelled.
#[test]
fn lists_are_written(rt: HostRuntime) {
    for (i, case) in TEXTS.iter().enumerate() {
        let list = list_of(&rt, rt.alloc(), case.text);
        let text = written(&rt, rt.alloc(), &list);
        assert!(rt; text.as_slice() == case.written, "text {i}");
    }
}
