use crate::block::HEADER_LENGTH;
use crate::header::read_header;
use crate::record_decoding::decode_record;
use design_model::Design;
use record_formats::{NextRecord, RecordReader};

/// The reader and writer of the records of a block.
#[derive(Drop)]
pub struct PecRecords;

impl RecordReader for PecRecords {
    ghost use Rattle.pec_codec.specs.Reading.{pec_block_layout};
    ghost use Rattle.pec_codec.specs.Records.{pec_records};

    ghost layout = { pec_block_layout };

    ghost records = { λ _. pec_records };

    fn header_length(&self) -> usize {
        HEADER_LENGTH
    }

    fn read_header(&self, design: &mut Design, header: &[u8]) {
        read_header(design, header);
    }

    fn restart(&mut self) -> bool {
        false
    }

    #[tactic(auto, using(crate::proofs::RecordLemmas::cuts_record))]
    fn next(&mut self, _at: u64, bytes: &[u8]) -> NextRecord {
        decode_record(bytes)
    }
}
