ghost use Rattle.design_model.specs.Points.{is_point_within};
ghost use Rattle.dst_codec.specs.KindDecoding.{DecodesRecordAs, is_stop_sequin_or_end};
ghost use Rattle.dst_codec.specs.Reading.{jump_event_after, run_after_kind};
ghost use Rattle.dst_codec.specs.declared.dst.TheConstants.{LIMIT};
ghost use Rattle.std.specs.Prelude.{◌≡◌, ℕ, true, IsTrue};

use crate::bits::{decode_move, record_kind};
use crate::header::HEADER_LENGTH;
use crate::header_reading::read_header;
use crate::record_kind::RecordKind;
use design_model::{Design, Point};
use format_traits::ReadFault;
use record_formats::{Event, NextRecord, RecordReader};

/// The number of jump records in the unbroken run before the next record, counted up to three.
#[derive(Drop)]
pub struct JumpRun {
    pub jumps: u8,
}

impl RecordReader for JumpRun {
    ghost use Rattle.dst_codec.specs.Reading.{dst_layout, dst_records_from};

    ghost layout = { dst_layout };

    ghost records = { λ run. dst_records_from run.jumps };

    fn header_length(&self) -> usize {
        HEADER_LENGTH
    }

    fn read_header(&self, design: &mut Design, header: &[u8]) {
        read_header(design, header);
    }

    fn restart(&mut self) -> bool {
        self.jumps = 0;
        false
    }

    fn next(&mut self, at: u64, bytes: &[u8]) -> NextRecord {
        let [first, second, third, ..] = bytes else {
            return NextRecord::Incomplete { ended: false };
        };
        let step = decode_move([*first, *second, *third]);
        let kind = record_kind(*third);
        let jumps = self.jumps;
        self.jumps = run_after(kind, jumps);
        split_record(kind, at, jumps, step)
    }
}

/// Decodes a record of a kind by its move, after a run of `jumps` jump records.
fn split_record(kind: RecordKind, at: u64, jumps: u8, step: Point) -> NextRecord
    requires { IsTrue (is_point_within LIMIT step) }
    ensures { DecodesRecordAs kind at jumps step result }
{
    match kind {
        RecordKind::Stitch => NextRecord::Record {
            event: Event::Stitch(step),
            size: 3,
        },
        RecordKind::Jump => NextRecord::Record {
            event: jump_after(jumps, step),
            size: 3,
        },
        RecordKind::Stop | RecordKind::Sequin | RecordKind::End => split_other(kind, at, step),
    }
}

fn jump_after(jumps: u8, step: Point) -> Event
    ensures { result ≡ jump_event_after jumps step }
{
    if jumps == 2 {
        Event::TrimmedJump(step)
    } else {
        Event::Jump(step)
    }
}

/// Decodes a record that is neither a stitch nor a jump. Such records are rare, and therefore outside the
/// reader's loop.
#[cold]
#[inline(never)]
fn split_other(kind: RecordKind, at: u64, step: Point) -> NextRecord
    requires kind { is_stop_sequin_or_end kind ≡ true }
    requires step { IsTrue (is_point_within LIMIT step) }
    ensures { (run : ℕ) → DecodesRecordAs kind at run step result }
{
    match kind {
        RecordKind::Sequin => NextRecord::Refused(ReadFault::Sequin { at }),
        RecordKind::End => NextRecord::End,
        _ => NextRecord::Record {
            event: Event::StopBy(step),
            size: 3,
        },
    }
}

fn run_after(kind: RecordKind, jumps: u8) -> u8
    ensures { result ≡ run_after_kind kind jumps }
{
    match kind {
        RecordKind::Jump => jumps.min(2) + 1,
        _ => 0,
    }
}
