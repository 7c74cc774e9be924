ghost use Rattle.std.specs.Prelude.{◌≡◌, ◌≤◌, true, length};

/// Returns whether a file has `size` bytes, and contains these bytes at that offset.
pub fn has_part(file: &[u8], size: usize, offset: usize, bytes: &[u8]) -> bool
    ensures size { (result ≡ true) → (length file.now ≡ size) }
    ensures within { (result ≡ true) → (offset ≤ size) }
{
    file.len() == size && offset <= size && file[offset..].starts_with(bytes)
}
