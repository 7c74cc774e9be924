ghost use Rattle.std.specs.Prelude.{◌≡◌, ◌≤◌, ◌++◌, length, drop};

use design_model::Bytes;

/// Returns the bytes with `front` written over their beginning. Allocates nothing.
pub fn with_front(bytes: Bytes, front: &[u8]) -> Bytes
    requires { length front.now ≤ length bytes }
    ensures { result ≡ front.now ++ drop (length front.now) bytes }
{
    let mut held = bytes.into_vec();
    overwrite(&mut held, front);
    Bytes::from_vec(held)
}

fn overwrite(bytes: &mut [u8], front: &[u8])
    requires { length front.now ≤ length bytes.old }
    ensures { bytes.new ≡ front.now ++ drop (length front.now) bytes.old }
{
    let (first, _) = bytes.split_at_mut(front.len());
    first.copy_from_slice(front);
}
