// The buffers that calls are lent: each is set to FILL before a call, so that untouched bytes show.
ghost use Rattle.std.specs.Prelude.{◌≤◌, length};

pub const FILL: u8 = 165;

// The longest buffer that a record can ask for.
pub const ROOM: usize = 20480;

// The pixels of the largest picture, which is the camera's: 640 x 480, of six bytes each.
pub const PICTURE: usize = 1843200;

// Bytes at the start of a buffer, and how many they are: none where there is no room for all of them.
pub fn place(bytes: &[u8], buffer: &mut [u8]) -> usize
    ensures { result ≤ length buffer.new }
{
    match buffer.get_mut(..bytes.len()) {
        Some(front) => {
            front.copy_from_slice(bytes);
            bytes.len()
        }
        None => 0,
    }
}
