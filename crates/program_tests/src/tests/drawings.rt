use super::cases::play;
use case_tables::{
    CLOSED, DOUBLED, ENDED, JUDGED, MEETING, NOT_MIGRATED, NOT_ROUTED, PATTERN, READ_IN_ORDER,
    SAMPLED, TRACED, VERSIONS,
};
use std::test::Fail;

#[test]
fn closed_lines_are_sewn_along(rt: HostRuntime) -> Result<(), Fail> {
    play(&rt, rt.alloc(), CLOSED)
}

#[test]
fn lines_that_meet_are_sewn_as_one_thread(rt: HostRuntime) -> Result<(), Fail> {
    play(&rt, rt.alloc(), MEETING)
}

#[test]
fn a_pattern_is_routed_shown_and_turned(rt: HostRuntime) -> Result<(), Fail> {
    play(&rt, rt.alloc(), PATTERN)
}

#[test]
fn a_drawing_that_is_none_or_has_too_long_a_step_is_refused(rt: HostRuntime) -> Result<(), Fail> {
    play(&rt, rt.alloc(), NOT_ROUTED)
}

#[test]
fn a_design_is_judged_by_what_its_certificate_says(rt: HostRuntime) -> Result<(), Fail> {
    play(&rt, rt.alloc(), JUDGED)
}

#[test]
fn the_first_fault_in_the_inputs_of_a_check_is_reported(rt: HostRuntime) -> Result<(), Fail> {
    play(&rt, rt.alloc(), READ_IN_ORDER)
}

#[test]
fn a_sample_is_written_told_of_and_routed(rt: HostRuntime) -> Result<(), Fail> {
    play(&rt, rt.alloc(), SAMPLED)
}

#[test]
fn each_line_is_sewn_once_in_each_direction(rt: HostRuntime) -> Result<(), Fail> {
    play(&rt, rt.alloc(), DOUBLED)
}

#[test]
fn what_a_file_sews_is_drawn(rt: HostRuntime) -> Result<(), Fail> {
    play(&rt, rt.alloc(), TRACED)
}

#[test]
fn a_piece_is_sewn_from_its_start_to_its_end(rt: HostRuntime) -> Result<(), Fail> {
    play(&rt, rt.alloc(), ENDED)
}

#[test]
fn a_drawing_is_routed_by_its_version_and_migrated(rt: HostRuntime) -> Result<(), Fail> {
    play(&rt, rt.alloc(), VERSIONS)
}

#[test]
fn a_text_that_says_no_drawing_is_not_migrated(rt: HostRuntime) -> Result<(), Fail> {
    play(&rt, rt.alloc(), NOT_MIGRATED)
}
