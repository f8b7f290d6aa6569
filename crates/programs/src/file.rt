// The files that a program's arguments name. What is read is a buffer's front; how long it is stays in the caller's hand, who lends the buffer.
ghost use Rattle.std.specs.Prelude.{◌≤◌, length};

use records::number;
use std::fs;
use std::io::Read;
use std::rt::{Env, Files};

// The length of a body is a word.
const LONGEST_RECORD: usize = number::HEAD_LENGTH + 65535;

// How much of a sheet file is read: the clocks, 16 of the longest lines and one record more, which is refused whatever it is. So no byte beyond can change what is printed.
pub(crate) const SHEET_ROOM: usize = number::MAX_SHEET + LONGEST_RECORD;

// How much of a log file is read: 4,000 of the longest instants and one record more, which is refused whatever it is.
pub(crate) const LOG_ROOM: usize = number::MAX_INSTANTS * number::MAX_INSTANT + LONGEST_RECORD;

// No path of the system is longer.
const LONGEST_NAME: usize = 4096;

// Reads until the buffer is full, the file ends or a read fails, and says how many bytes that are.
fn read_full(file: &mut impl Read, buffer: &mut [u8]) -> usize
    ensures { result ≤ length buffer.new }
{
    let mut done = 0;
    while done < buffer.len() {
        match file.read(&mut buffer[done..]) {
            Ok(0) | Err(_) => break,
            Ok(n) => done += n,
        }
    }
    done
}

// Puts the file that an argument names at the buffer's front, as far as it has room, and says how many bytes that are. A file that isn't named, or whose name isn't UTF-8, or that can't be opened counts as empty; a read that fails ends the file.
pub(crate) fn read_file(rt: &(impl Env + Files), argument: usize, buffer: &mut [u8]) -> usize
    ensures { result ≤ length buffer.new }
{
    let mut name = [0u8; LONGEST_NAME];
    let Ok(length) = rt.arg(argument, &mut name) else {
        return 0;
    };
    let Ok(path) = std::str::from_utf8(&name[..length]) else {
        return 0;
    };
    match fs::open(rt, path) {
        Ok(mut file) => read_full(&mut file, buffer),
        Err(_) => 0,
    }
}
