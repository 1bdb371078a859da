// A program's list, read from its input into memory of its own.
ghost use Rattle.std.specs.Prelude.{◌≡◌, ◌≤◌, length, IfOk};

use std::io;
use std::io::Read;

// Room for N bytes. N is a parameter, since a list of so many bytes is too long for a check to count out.
pub fn empty_room<const N: usize>() -> [u8; N]
    ensures { length result ≡ N }
{
    [0; N]
}

// Reads until the room is full or the input ends, and answers how many bytes it put in front.
pub fn read_full<T: Read>(from: &mut T, room: &mut [u8]) -> io::Result<usize>
    ensures { IfOk result (λ n. n ≤ length room.new) }
{
    let mut done = 0;
    // Kept: a read says itself how many bytes it put, so no range goes over the room.
    while done < room.len() {
        let n = from.read(&mut room[done..])?;
        if n == 0 {
            break;
        }
        done += n;
    }
    Ok(done)
}
