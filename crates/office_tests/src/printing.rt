//! Tests of the commands that run a script, list SunSpec models, or print a reading plan, when
//! their input or output fails.
use crate::streams::{Kept, Slow, run};
use command_io::ExitStatus;
use script_run::Replayed;
use std::alloc::Global;
use std::io::ErrorKind;
use std::process::Abort;
use sunspec_text::{chain_text, plan_text};

// A command of the program that reads an input and prints an output.
enum Task {
    Chain,
    Plan,
    Replay,
}

impl Task {
    fn carry_out(
        &self,
        rt: &impl Abort,
        alloc: Global,
        input: &mut Slow<'_>,
        output: Kept,
    ) -> Replayed<Kept> {
        let mut output = output;
        match self {
            Task::Chain => {
                let status = chain_text(alloc, input, &mut output);
                Replayed { status, output }
            }
            Task::Plan => {
                let status = plan_text(alloc, input, &mut output);
                Replayed { status, output }
            }
            Task::Replay => run(rt, alloc, input, output),
        }
    }
}

const METER: &str = "\
    40000 53756e5300010042\n\
    40070 00670032\n\
    40094 000f42400000\n\
    40122 00cb0069\n\
    40229 ffff\n";

const METER_PRINTED: &str = "\
    base 40000\n\
    model 40002 1 66\n\
    model 40070 103 50\n\
    point WH 1000000\n\
    point WH_SF 0\n\
    model 40122 203 105\n\
    end 40229\n";

const LIST: &str = "\
    name,function,area,address,type,scale\n\
    wh,3,0,40094,acc32,whsf\n\
    whsf,3,0,40096,sunssf,\n\
    imp,3,0,40168,acc32,impsf\n\
    impsf,3,0,40176,sunssf,\n";

const LIST_PRINTED: &str = "\
    read 1 3 0 40094 83\n\
    point wh 1 0\n\
    point whsf 1 2\n\
    point imp 1 74\n\
    point impsf 1 82\n";

const FAULTY: &str = "\
    name,function,area,address,type,scale\n\
    wh,3,0,65535,acc32,\n\
    1x,3,0,5,int16,\n\
    b,5,0,5,int16,\n\
    b,3,0,6,int16,\n";

const FAULTY_PRINTED: &str = "\
    row 2 fault 7\n\
    row 3 fault 3\n\
    row 4 fault 5\n\
    row 5 fault 4\n";

// A script that sets up a device and its meter, starts a poll, and receives the device's response.
const READING: &str = "\
    1000 device inv 1 5 1\n\
    1000 register main inv 3 40094 @40096\n\
    1000 install main m1 5000 0 100000\n\
    1898 connect inv\n\
    1898 start inv 3 40094 3\n\
    1900 bytes inv 000000000009010306000014500000\n";

const READING_PRINTED: &str = "\
    ok\n\
    ok\n\
    ok\n\
    ok\n\
    started 1 1 1 00000000000601039c9e0003\n\
    poll 1 answered\n\
    reading m1 5200 rolls 0 step 200000\n\
    ok\n";

static CASES: [(Task, &str, &str, ExitStatus); 9] = [
    (Task::Replay, READING, READING_PRINTED, ExitStatus::Fine),
    (Task::Chain, METER, METER_PRINTED, ExitStatus::Fine),
    (Task::Chain, "", "fault 1\n", ExitStatus::Refused),
    (Task::Plan, LIST, LIST_PRINTED, ExitStatus::Fine),
    (Task::Plan, FAULTY, FAULTY_PRINTED, ExitStatus::Refused),
    (Task::Plan, "", "row 1 fault 2\n", ExitStatus::Refused),
    (
        Task::Plan,
        "name,function,area,address,type,scale\n",
        "",
        ExitStatus::Fine,
    ),
    (
        Task::Plan,
        "name,function,area,address,type,scale\nw,3,0,0,int16,s\ns,3,0,124,sunssf,\n",
        "read 1 3 0 0 125\npoint w 1 0\npoint s 1 124\n",
        ExitStatus::Fine,
    ),
    (
        Task::Plan,
        "name,function,area,address,type,scale\na,3,0,0,acc32,\nb,3,0,200,acc32,\n",
        "read 1 3 0 0 2\nread 2 3 0 200 2\npoint a 1 0\npoint b 2 0\n",
        ExitStatus::Fine,
    ),
];

// A failed or interrupted read ends the run of a command, and no further read follows.
#[test]
fn each_failing_read_ends_it(rt: HostRuntime) {
    for (task, text, _, _) in &CASES {
        for kind in [ErrorKind::Interrupted, ErrorKind::BrokenPipe] {
            for failing in 1..text.len() + 2 {
                let mut slow = Slow::new(text.as_bytes(), failing, kind);
                let kept = Kept::whole(rt.alloc());
                let ended = task.carry_out(&rt, rt.alloc(), &mut slow, kept);
                assert!(rt; ended.status == ExitStatus::Failed);
                assert!(rt; ended.output.got.is_empty());
                assert!(rt; slow.calls == failing);
            }
        }
    }
}

// A failed write ends the run of a command, and no further write follows.
#[test]
fn each_failing_write_ends_it(rt: HostRuntime) {
    for (task, text, output, status) in &CASES {
        for most in [1, 7, 8192] {
            let mut whole = false;
            for failing in 1..200 {
                let mut slow = Slow::whole(text.as_bytes());
                let kept = Kept::new(rt.alloc(), failing, most);
                let ended = task.carry_out(&rt, rt.alloc(), &mut slow, kept);
                whole = ended.output.assert_written(&rt, output);
                let wanted = if whole { *status } else { ExitStatus::Failed };
                assert!(rt; ended.status == wanted);
            }
            assert!(rt; whole);
        }
    }
}
