ghost use Rattle.std.specs.Prelude.{◌≡◌};
ghost use Rattle.stitch_text.specs.ListStages.{stage_after_long_line, fault_at_end, max_waiting_in};

use crate::list_line::MAX_LINE;
use format_traits::ReadFault;

/// The stage of a reader of lists.
#[derive(Clone, Copy)]
pub enum ListStage {
    /// Before the first line.
    First,
    /// Before the line of the label.
    Label,
    /// Before the line of the first block.
    Block,
    /// Before a line of acts.
    Acts,
    /// In a line that is too long to be valid. The list is refused for it once the line ends.
    Long(ReadFault),
    /// After the last line.
    Ended,
    /// After the first refusal.
    Refused(ReadFault),
}

impl ListStage {
    /// Returns the most bytes of a line that are kept until it ends.
    pub(crate) fn max_waiting(self) -> usize
        ensures { result ≡ max_waiting_in self }
    {
        match self {
            ListStage::First | ListStage::Label | ListStage::Block | ListStage::Acts => MAX_LINE,
            ListStage::Long(_) | ListStage::Ended | ListStage::Refused(_) => 0,
        }
    }

    /// Returns the stage after more bytes than a valid line has, in the line at an offset.
    pub(crate) fn after_long_line(self, at: u64) -> ListStage
        ensures { result ≡ stage_after_long_line at self }
    {
        match self {
            ListStage::First => ListStage::Long(ReadFault::Signature { at }),
            ListStage::Label | ListStage::Block | ListStage::Acts => {
                ListStage::Long(ReadFault::Control { at })
            }
            ListStage::Ended => ListStage::Refused(ReadFault::Control { at }),
            ListStage::Long(_) | ListStage::Refused(_) => self,
        }
    }

    /// Returns the refusal of a list that ends at an offset, if any.
    pub(crate) fn fault(self, end: u64) -> Option<ReadFault>
        ensures { result ≡ fault_at_end end self }
    {
        match self {
            ListStage::Ended => None,
            ListStage::Refused(fault) => Some(fault),
            _ => Some(ReadFault::Short { at: end }),
        }
    }
}
