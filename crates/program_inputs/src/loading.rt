ghost use Rattle.format_traits.specs.Feeding.{HasNothingFed};
ghost use Rattle.outside_io.specs.Files.{IsFileName};
ghost use Rattle.program_inputs.specs.Loading.{FeedsFile, Loads};
ghost use Rattle.program_inputs.specs.declared.loading.LoadFault.TheVariants as load;
ghost use Rattle.std.specs.Prelude.{◌≡◌};

use design_model::{MAX_FILE, Memory};
use format_traits::{Format, Loaded, ReadFault, begin_by, feed_by, finish_by};
use outside_io::{GetFault, READ_SIZE, Store, read_next};

/// Why no design was loaded.
#[derive(Clone, Copy)]
pub enum LoadFault {
    /// The file was not read, or memory ran out.
    Get(GetFault),
    /// The bytes are no file of the format; never out of memory.
    Read(ReadFault),
}

impl From<GetFault> for LoadFault {
    ghost from_gives = { λ g e. e ≡ load.Get g };

    fn from(fault: GetFault) -> LoadFault {
        LoadFault::Get(fault)
    }
}

/// Loads the design of the named file by a format. A file that is missing or too long, or of which a read
/// fails, is reported before a refusal of its bytes. All files and the meaning of the format stay as they
/// are.
pub fn load<S: Store>(
    store: &mut S,
    name: &str,
    format: &mut Box<dyn Format>,
) -> Result<Loaded, LoadFault>
    requires { IsFileName name.now }
    ensures loads { Loads (meaning format.old).reads name.now (S.view store.old) (S.view store.new) result }
    ensures files { (S.view store.new).files ≡ (S.view store.old).files }
    ensures same { meaning format.new ≡ meaning format.old }
{
    begin_by(format);
    feed_file(store, name, format)?;
    match finish_by(format) {
        Ok(loaded) => Ok(loaded),
        Err(ReadFault::Memory) => Err(LoadFault::Get(GetFault::Memory)),
        Err(fault) => Err(LoadFault::Read(fault)),
    }
}

/// Feeds the named file to a format to which nothing was fed.
fn feed_file<S: Store>(
    store: &mut S,
    name: &str,
    format: &mut Box<dyn Format>,
) -> Result<(), GetFault>
    requires name { IsFileName name.now }
    requires fresh { HasNothingFed (meaning format.old).reads (meaning format.old).shown
        (feed_state format.old) }
    ensures feeds { FeedsFile (meaning format.old).reads name.now (S.view store.old) (S.view store.new)
        result (feed_state format.new) }
    ensures files { (S.view store.new).files ≡ (S.view store.old).files }
    ensures same { meaning format.new ≡ meaning format.old }
{
    let mut at = 0;
    let mut buffer = [0u8; READ_SIZE];
    loop {
        let count = read_next(store, name, at, MAX_FILE, &mut buffer)?;
        if count == 0 {
            return Ok(());
        }
        match feed_by(format, &buffer[..count]) {
            Ok(()) => at += count as u64,
            Err(Memory) => return Err(GetFault::Memory),
        }
    }
}
