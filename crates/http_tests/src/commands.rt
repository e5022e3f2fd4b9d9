//! Tests of point lists in the bodies of HTTP requests, and of the commands that are parsed from
//! these lists.
use office_events::{Command, Name};
use office_http::messages::{CommandFault, Route, command_in};

// The CSV text of a point list, the number of points, and the number of Modbus reads that cover the
// points.
static LISTS: [(&[u8], usize, usize); 2] = [
    (
        b"name,function,area,address,type,scale\nwh,3,0,40094,acc32,whsf\nwhsf,3,0,40096,sunssf,\n",
        2,
        1,
    ),
    // This point list has no points and is accepted.
    (b"name,function,area,address,type,scale\n", 0, 0),
];

// Checks that a point list parses to a command with the Modbus reads that cover its points. The
// body of a query parses to no command.
#[test]
fn lists_parse_with_their_plans(rt: HostRuntime) {
    let device = Name::new(b"main");
    for (text, points, reads) in &LISTS {
        let Ok(Command::PutList(put)) = command_in(rt.alloc(), Route::List, device, text) else {
            panic!(rt; "no list");
        };
        assert!(rt; put.device == device);
        assert!(rt; put.list.points().len() == *points);
        assert!(rt; put.list.reads().len() == *reads);
    }
    let asked = command_in(rt.alloc(), Route::Meter, device, b"{}");
    assert!(rt; matches!(asked, Err(CommandFault::Malformed)));
}
