//! Octets that are read of a stream.

ghost use Rattle.std.specs.Prelude.{◌≡◌, ◌<◌, ◌≤◌, length, take, IfSome, Some};
ghost use Rattle.std.specs.Io.KnownBytes.{Consumes, IsAtEnd};

use service::read_through;
use std::io::Read;

/// Reads some octets into the front of `piece`: how many, or 0 at the end. None if the read failed.
pub(crate) fn read_some<R: Read>(reader: &mut R, piece: &mut [u8]) -> Option<usize>
    ensures fits { IfSome result (λ count. count ≤ length piece.new) }
    ensures read { IfSome result (λ count. Consumes (R.remaining reader.old) (R.remaining reader.new) (take count piece.new)) }
    ensures end { 0 < length piece.old → result ≡ Some 0 → IsAtEnd (R.remaining reader.new) }
{
    match read_through(reader, piece) {
        Ok(count) => Some(count),
        Err(_) => None,
    }
}
