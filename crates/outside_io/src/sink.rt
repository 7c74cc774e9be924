ghost use Rattle.outside_io.specs.Causes.{PutCause, TookBytes};
ghost use Rattle.outside_io.specs.Views.{SinkView};

use crate::store::Failed;

/// A destination of bytes that the program prints.
pub trait Sink {
    /// The view of the sink: the bytes taken, if visible, and the number of failed puts, up to the largest
    /// 64-bit number.
    ghost view: { Self → SinkView };

    /// Adds all the bytes. An error means that a prefix of them was added.
    fn put(&mut self, bytes: &[u8]) -> Result<(), Failed>
        ensures took { TookBytes (view self.old) (view self.new) bytes.now result }
        ensures cause { PutCause (view self.old) (view self.new) result };
}
