ghost use Rattle.format_traits.specs.Laws.{IsFileEnding};
ghost use Rattle.pes_codec.specs.Fronts.{ending_of, front_layout_of, front_of};
ghost use Rattle.pes_codec.specs.declared.front.TheConstants.{OFFSET_END};
ghost use Rattle.std.specs.Prelude.{◌≡◌, ◌<◌, ◌≤◌, ◌++◌, ℕ, List, length};

use crate::front::{OFFSET_END, PEC_BLOCK_OFFSET};
use byteorder::{ByteOrder, LittleEndian};

/// A kind of files. They are recognised by their fronts.
#[derive(Clone, Copy)]
pub enum FileKind {
    /// A PEC file.
    Pec,
    /// A PES file: any version is read, and version 1 without sewing segments is written.
    Pes,
}

impl FileKind {
    /// Returns the ending of the files' names.
    pub(crate) fn ext<'a>(self) -> &'a str
        ensures value { result.now ≡ ending_of self }
        ensures letters { IsFileEnding result.now }
    {
        match self {
            FileKind::Pec => "pec",
            FileKind::Pes => "pes",
        }
    }

    /// Returns the number of bytes of the front that are read.
    pub(crate) fn length(self) -> usize
        ensures value { result ≡ (front_layout_of self).length }
        ensures some { 0 < result }
        ensures fits { result ≤ OFFSET_END }
    {
        match self {
            FileKind::Pec => PEC_BLOCK_OFFSET,
            FileKind::Pes => OFFSET_END,
        }
    }

    /// Returns whether a file that begins with these bytes is of this kind.
    pub(crate) fn is_known(self, bytes: &[u8]) -> bool
        ensures value { result ≡ (front_layout_of self).known bytes.now }
        ensures stays { (front_layout_of self).length ≤ length bytes.now →
            (more : List ℕ) → (front_layout_of self).known (bytes.now ++ more) ≡ result }
    {
        match self {
            FileKind::Pec => bytes.starts_with(b"#PEC"),
            FileKind::Pes => bytes.starts_with(b"#PES"),
        }
    }

    /// Returns the offset of the block in a file that begins with these bytes.
    pub(crate) fn block(self, bytes: &[u8]) -> u32
        requires { (front_layout_of self).length ≤ length bytes.now }
        ensures { (more : List ℕ) → (front_layout_of self).block (bytes.now ++ more) ≡ result }
    {
        match self {
            FileKind::Pec => PEC_BLOCK_OFFSET as u32,
            FileKind::Pes => LittleEndian::read_u32(&bytes[8..]),
        }
    }

    /// Returns the front of a written file.
    pub(crate) fn front<'a>(self) -> &'a [u8]
        ensures { result.now ≡ front_of self }
    {
        match self {
            FileKind::Pec => b"#PEC0001",
            FileKind::Pes => { b"#PES0001\x16\x00\x00\x00\x00\x00\x00\x00\x00\x00\x00\x00\x00\x00" }
        }
    }
}
