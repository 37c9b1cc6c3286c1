//! The header of a frame, and the errors of a reader of frames.
ghost use Rattle.std.specs.{Prelude.{◌≡◌, ◌<◌, ◌≤◌, ◌^◌, length}, Int.{w32, to_le_bytes, from_le_bytes}};
ghost use Rattle.framing.specs.{Frames.{HasHeader, SaysEnded}, Taking.{SaysNoRoom}};

use no_std_io2::io::{Error, ErrorKind};

/// The number of bytes in which a frame has its length.
pub const HEADER: usize = 4;

/// Returns the length of a payload, as the first four bytes of its frame say.
pub fn told_len(bytes: &[u8]) -> usize
    requires { 4 ≤ length bytes.now }
    ensures length { HasHeader result bytes.now }
    ensures small { result < 2 ^ 32 }
{
    length_of([bytes[0], bytes[1], bytes[2], bytes[3]]) as usize
}

// Returns the number that these four bytes are.
fn length_of(header: [u8; HEADER]) -> u32
    ensures value { result ≡ from_le_bytes w32 header }
    ensures back { to_le_bytes w32 result ≡ header }
{
    u32::from_le_bytes(header)
}

/// Makes the error of bytes that end inside a frame.
pub fn ended_inside() -> Error
    ensures { SaysEnded result }
{
    let text = "the bytes end inside a frame";
    Error::new(ErrorKind::UnexpectedEof, text)
}

/// Makes the error of a payload that is longer than the room.
pub fn no_room() -> Error
    ensures { SaysNoRoom result }
{
    let text = "a payload is longer than the room";
    Error::new(ErrorKind::InvalidInput, text)
}
