use super::feeding::compare_counts;
use super::large_designs::compare_reread;
use exp_codec::Exp;
use format_traits::ReadFault;
use std::test::Fail;

/// Bytes of a file, the number of commands after each, and the refusal of all.
const BYTES: [u8; 12] = [0x1E, 0, 0x80, 0x80, 0x07, 0, 0x80, 0x03, 0, 0, 0x1E, 0];

const COUNTS: [usize; 12] = [0, 1, 1, 1, 1, 2, 2, 2, 2, 2, 2, 2];

const CONTROL: ReadFault = ReadFault::Control { at: 6 };

#[test]
fn a_command_is_told_once_its_unit_is_whole(rt: HostRuntime) -> Result<(), Fail> {
    let mut format = Exp::new(rt.alloc());
    Ok(compare_counts(&rt, &mut format, &BYTES, &COUNTS, 12, CONTROL)?)
}

#[test]
fn a_large_design_reads_again(rt: HostRuntime) -> Result<(), Fail> {
    let mut format = Exp::new(rt.alloc());
    compare_reread(&rt, &mut format, rt.alloc(), b"", &[])
}
