ghost use Rattle.std.specs.Prelude.{◌≡◌, ◌<◌, ◌≤◌, length};
ghost use Rattle.mr_defs.specs.Tasks.{boundary_from};
ghost use Rattle.mr_split.specs.Pieces.{boundary_of};

use mr_kernels::is_word_byte;

/// Where a text may be cut. Its start and its end are always boundaries.
#[derive(Clone, Copy, Debug, PartialEq, Eq)]
pub enum Boundary {
    /// Where the bytes before and after the place are not both word bytes, so that no word goes over it.
    Word,
    /// Behind a byte 10, so that no line goes over it.
    Line,
}

/// Whether a place before the end is a boundary. It reads the byte at the place and the one before it.
fn is_boundary(bytes: &[u8], place: usize, kind: Boundary) -> bool
    requires { place < length bytes.now }
    ensures { result ≡ boundary_of kind bytes.now place }
{
    if place == 0 {
        return true;
    }
    match kind {
        Boundary::Word => !(is_word_byte(bytes[place - 1]) && is_word_byte(bytes[place])),
        Boundary::Line => bytes[place - 1] == b'\n',
    }
}

/// The first boundary at or after a place. It reads no byte behind that boundary but the next.
pub(crate) fn next_boundary(bytes: &[u8], from: usize, kind: Boundary) -> usize
    requires { from ≤ length bytes.now }
    ensures { result ≡ boundary_from (boundary_of kind bytes.now) (length bytes.now) from }
{
    for place in from..bytes.len() {
        if is_boundary(bytes, place, kind) {
            return place;
        }
    }
    bytes.len()
}
