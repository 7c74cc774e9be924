ghost use Rattle.design_model.specs.Points.{is_point_within};
ghost use Rattle.design_model.specs.declared.point.TheConstants.{JUMP_LIMIT};
ghost use Rattle.format_traits.specs.DecoderStates.{TakesBytes};
ghost use Rattle.record_formats.specs.RecordStates.{record_so_far_at, record_state_at};
ghost use Rattle.record_formats.specs.declared.record_stage.RecordStage.TheVariants as stage;
ghost use Rattle.std.specs.Prelude.{◌≡◌, ◌+◌, ◌<◌, ◌^◌, IfOk, IsTrue, false, length};

use crate::event_adding::keep_event;
use crate::record_reader::{NextRecord, RecordReader};
use crate::record_stage::RecordStage;
use design_model::{Design, Memory, Point};
use format_traits::ReadFault;

/// How far a reader of records read: the number of bytes, the hoop's position, and the stage.
#[derive(Clone, Copy)]
pub struct Reached {
    pub size: usize,
    pub place: Point,
    pub stage: RecordStage,
}

/// Adds the commands of the complete records in the bytes at an offset, from a position of the hoop on.
pub fn read_records<R: RecordReader>(
    reader: &mut R,
    design: &mut Design,
    place: Point,
    start: u64,
    bytes: &[u8],
) -> Result<Reached, Memory>
    requires place { IsTrue (is_point_within JUMP_LIMIT place) }
    requires start { start + length bytes.now < 2 ^ 64 }
    ensures takes { IfOk result (λ r. TakesBytes
        (record_state_at R.layout (R.records reader.old) design.old place (stage.Records false))
        (record_state_at R.layout (R.records reader.new) design.new r.place r.stage)
        (record_so_far_at design.new r.stage) start bytes.now r.size) }
    ensures place { IfOk result (λ r. IsTrue (is_point_within JUMP_LIMIT r.place)) }
{
    let mut at = start;
    let mut place = place;
    let mut rest = bytes;
    loop {
        match reader.next(at, rest) {
            NextRecord::Record { event, size } => match keep_event(design, at, place, event) {
                Ok(there) => {
                    place = there;
                    at += size as u64;
                    rest = &rest[size..];
                }
                Err(ReadFault::Memory) => return Err(Memory),
                Err(fault) => return Ok(stopped(bytes, place, RecordStage::Refused(fault))),
            },
            NextRecord::Incomplete { ended } => {
                return Ok(Reached {
                    size: bytes.len() - rest.len(),
                    place,
                    stage: RecordStage::Records(ended),
                });
            }
            NextRecord::End => return Ok(stopped(bytes, place, RecordStage::Over)),
            NextRecord::Refused(fault) => return Ok(stopped(
                bytes,
                place,
                RecordStage::Refused(fault),
            )),
        }
    }
}

/// Returns the end of reading: all bytes count as read.
fn stopped(bytes: &[u8], place: Point, stage: RecordStage) -> Reached
    ensures { result ≡ record { size = length bytes.now; place = place; stage = stage } }
{
    Reached {
        size: bytes.len(),
        place,
        stage,
    }
}
