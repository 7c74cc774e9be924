ghost use Rattle.design_model.specs.declared.limits.TheConstants.{MAX_FILE};
ghost use Rattle.outside_io.specs.Causes.{AppendsBytes, ReadsAt, WritesFile};
ghost use Rattle.outside_io.specs.Files.{FileExists, IsFileName};
ghost use Rattle.outside_io.specs.Views.{StoreView};
ghost use Rattle.std.specs.Prelude.{◌≤◌, []};

/// A call to a store or a sink failed.
#[derive(Clone, Copy, Debug, PartialEq)]
pub struct Failed;

/// Why a read returned no bytes.
#[derive(Clone, Copy, Debug, PartialEq)]
pub enum ReadStop {
    /// No file has the name. Only a store with visible files returns this.
    Missing,
    /// The call failed.
    Failed,
}

/// Named files, as the program accesses them.
pub trait Store {
    /// The view of the store: its files, if visible, the number of failed calls, up to the largest 64-bit
    /// number, and the last failed call.
    ghost view: { Self → StoreView };

    /// Reads bytes from the offset `at` on into the buffer, and returns their number; 0 is the end of the
    /// file. After an error the content of the buffer is unspecified.
    fn read_at(&mut self, name: &str, at: u64, buf: &mut [u8]) -> Result<usize, ReadStop>
        requires name { IsFileName name.now }
        requires offset { at ≤ MAX_FILE }
        ensures { ReadsAt name.now at (view self.old) (view self.new) buf.new result };

    /// Makes the named file empty, whether or not it existed.
    fn create(&mut self, name: &str) -> Result<(), Failed>
        requires name { IsFileName name.now }
        ensures { WritesFile name.now [] (view self.old) (view self.new) result };

    /// Appends all the bytes to the named file, which exists.
    fn append(&mut self, name: &str, bytes: &[u8]) -> Result<(), Failed>
        requires name { IsFileName name.now }
        requires there { FileExists (view self.old).files name.now }
        ensures { AppendsBytes name.now bytes.now (view self.old) (view self.new) result };
}
