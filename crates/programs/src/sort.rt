// Sort: the bytes of a sheet whose lines are sorted, repeats dropped.
ghost use Rattle.std.specs.Prelude.{◌≤◌, take, length};
ghost use Rattle.programs.specs.Files.{SortedFilePrinted};

use crate::file::{SHEET_ROOM, read_file};
use std::io;
use std::rt::{Env, Files};
use text::sort::{SORT_ROOM, sort_text};

// What is printed for a file whose front is the first m bytes read.
fn sort_file(sheet: &[u8; SHEET_ROOM], m: usize, out: &mut [u8; SORT_ROOM]) -> usize
    requires { m ≤ length sheet.now }
    ensures { SortedFilePrinted SHEET_ROOM (take m sheet.now) out.old result out.new }
{
    sort_text(&sheet[..m], out)
}

// The program, by the number of the argument that names the sheet file.
pub fn run(rt: &(impl Env + Files + Print), sheet_name: usize) -> io::Result<()> {
    let mut sheet = [0u8; SHEET_ROOM];
    let mut out = [0u8; SORT_ROOM];
    let m = read_file(rt, sheet_name, &mut sheet);
    let size = sort_file(&sheet, m, &mut out);
    rt.write_all(&out[..size])
}
