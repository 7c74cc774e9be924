ghost use Rattle.design_model.specs.Points.{is_point_within};
ghost use Rattle.design_model.specs.declared.point.TheConstants.{JUMP_LIMIT};
ghost use Rattle.std.specs.Prelude.{◌≡◌, true};

use crate::record_loop::read_records;
use crate::record_reader::RecordReader;
use crate::record_stage::RecordStage;
use design_model::{Command, Design, Memory, Point};
use format_traits::{Decoder, Loaded, ReadFault};
use std::alloc::Global;
use std::mem::replace;

/// The decoder of a format of records.
#[derive(Drop)]
pub struct RecordDecoder<R: RecordReader + Drop> {
    alloc: Global,
    reader: R,
    design: Design,
    place: Point,
    stage: RecordStage,
    ghost near: { is_point_within JUMP_LIMIT place ≡ true },
}

impl<R: RecordReader + Drop> RecordDecoder<R> {
    ghost use Rattle.std.specs.Prelude.{◌≡◌, ◌+◌, ◌<◌, ◌^◌, ℕ, [], false, IfOk, length};
    ghost use Rattle.record_formats.specs.declared.record_stage.RecordStage.TheVariants as stage;
    ghost use Rattle.record_formats.specs.Layouts.{layout_state};
    ghost use Rattle.record_formats.specs.RecordStates.{record_so_far_at, record_state_at};
    ghost use Rattle.format_traits.specs.DecoderStates.{ContinuesAs, IsAtRecordBoundary, TakesBytes};

    /// Returns a decoder, which must begin before it takes bytes.
    pub fn new(alloc: Global, reader: R) -> Self {
        RecordDecoder {
            alloc,
            reader,
            design: Design::new(alloc),
            place: Point { x: 0, y: 0 },
            stage: RecordStage::Over,
        }
    }

    /// Reads a header, and continues before the first record. Returns whether a file that ends here has an
    /// end.
    fn enter(&mut self, header: &[u8]) -> bool
        requires { length header.now ≡ R.layout.header }
        ensures on { (at : ℕ) → ContinuesAs (layout_state R.layout)
            (record_state_at R.layout (R.records self.new.reader) self.new.design self.new.place
            (stage.Records false)) at (at + R.layout.header) header.now [] }
        ensures settled { (at : ℕ) → IsAtRecordBoundary
            (record_state_at R.layout (R.records self.new.reader) self.new.design self.new.place
            (stage.Records result))
            (record_so_far_at self.new.design (stage.Records result)) at [] }
    {
        self.design = Design::new(self.alloc);
        self.reader.read_header(&mut self.design, header);
        self.place = Point { x: 0, y: 0 };
        self.reader.restart()
    }

    /// Takes the header once it is complete, and the complete records after it.
    fn take_header(&mut self, at: u64, bytes: &[u8]) -> Result<usize, Memory>
        requires { at + length bytes.now < 2 ^ 64 }
        ensures { IfOk result (λ size. TakesBytes (layout_state R.layout)
            (record_state_at R.layout (R.records self.new.reader) self.new.design self.new.place
            self.new.stage) (record_so_far_at self.new.design self.new.stage) at bytes.now size) }
    {
        let length = self.reader.header_length();
        if bytes.len() < length {
            self.stage = RecordStage::Header(at + bytes.len() as u64);
            return Ok(0);
        }
        let (header, behind) = bytes.split_at(length);
        self.enter(header);
        let size = self.take_records(at + length as u64, behind)?;
        Ok(length + size)
    }

    /// Takes the complete records.
    fn take_records(&mut self, at: u64, bytes: &[u8]) -> Result<usize, Memory>
        requires { at + length bytes.now < 2 ^ 64 }
        ensures { IfOk result (λ size. TakesBytes
            (record_state_at R.layout (R.records self.old.reader) self.old.design self.old.place
            (stage.Records false))
            (record_state_at R.layout (R.records self.new.reader) self.new.design self.new.place
            self.new.stage) (record_so_far_at self.new.design self.new.stage) at bytes.now size) }
    {
        let reached = read_records(&mut self.reader, &mut self.design, self.place, at, bytes)?;
        self.place = reached.place;
        self.stage = reached.stage;
        Ok(reached.size)
    }
}

impl<R: RecordReader + Drop> Decoder for RecordDecoder<R> {
    ghost use Rattle.record_formats.specs.Layouts.{layout_state};
    ghost use Rattle.record_formats.specs.RecordStates.{record_so_far_at, record_state_at};

    ghost fresh = { layout_state R.layout };

    ghost decoder_state = { λ d. record_state_at R.layout (R.records d.reader) d.design d.place d.stage };

    ghost so_far = { λ d. record_so_far_at d.design d.stage };

    fn begin(&mut self, at: u64) {
        if self.reader.header_length() == 0 {
            self.stage = RecordStage::Records(self.enter(&[]));
        } else {
            self.design = Design::new(self.alloc);
            self.stage = RecordStage::Header(at);
        }
    }

    fn take(&mut self, at: u64, bytes: &[u8]) -> Result<usize, Memory> {
        match self.stage {
            RecordStage::Header(_) => self.take_header(at, bytes),
            RecordStage::Records(_) => self.take_records(at, bytes),
            RecordStage::Over | RecordStage::Refused(_) => Ok(bytes.len()),
        }
    }

    fn finish(&mut self) -> Result<Loaded, ReadFault> {
        let ended = match self.stage {
            RecordStage::Header(at) => return Err(ReadFault::Short { at }),
            RecordStage::Refused(fault) => return Err(fault),
            RecordStage::Records(ended) => ended,
            RecordStage::Over => true,
        };
        let design = replace(&mut self.design, Design::new(self.alloc));
        Ok(Loaded { design, ended })
    }

    fn so_far(&self) -> &[Command] {
        match self.stage {
            RecordStage::Header(_) => &[],
            _ => self.design.commands(),
        }
    }
}
