use super::cases::play;
use super::comparisons::compare;
use case_tables::{Case, ExpectedText, step};
use std::test::Fail;
use stitch_cli::Status;

const USAGE: &str = "usage: stitch route DRAWING OUT CERT
       stitch check DRAWING FILE CERT
       stitch convert IN OUT [--split] [--cut]
       stitch show FILE
       stitch edit IN OUT EDIT...
       stitch hoop FILE WIDTH HEIGHT
       stitch sample N DRAWING
       stitch migrate DRAWING OUT
       stitch trace FILE DRAWING
       stitch double DRAWING OUT CERT
";

/// A step whose arguments request nothing.
macro_rules! unasked {
    ($words:expr) => {
        step!($words, 2, ExpectedText::Exactly(""), USAGE, &[])
    };
}

static UNASKED: &[Case] = &[Case {
    before: &[],
    steps: &[
        unasked!(""),
        unasked!("--help"),
        unasked!("route a.rw b.dst"),
        unasked!("route a.rw b.dst b.dst"),
        unasked!("route a.rw b.jef c"),
        unasked!("route a.rw  c"),
        unasked!("show a.jef"),
        unasked!("show a.dst b.dst"),
        unasked!("convert a.dst a.dst"),
        unasked!("convert a.dst b.exp --split --split"),
        unasked!("edit a.dst b.exp"),
        unasked!("edit a.dst b.exp turn=4"),
        unasked!("edit a.dst b.exp thread=0,1"),
        unasked!("hoop a.dst 0 40"),
        unasked!("hoop a.dst 40 60001"),
        unasked!("check a.rw b.jef c"),
        unasked!("sample 0 a.rw"),
        unasked!("migrate a.rw a.rw"),
        unasked!("migrate a.rw"),
        unasked!("trace a.rw b.rw"),
        unasked!("trace a.dst a.dst"),
        unasked!("double a.rw b.dst b.dst"),
        unasked!("double a.rw b.jef c"),
    ],
}];

#[test]
fn words_that_ask_for_nothing_get_the_usage_text(rt: HostRuntime) -> Result<(), Fail> {
    play(&rt, rt.alloc(), UNASKED)
}

/// The tables of this crate have the other four statuses.
#[test]
fn out_of_memory_is_status_4(rt: HostRuntime) {
    compare(&rt, Status::Memory as u8, 4);
}
