// Columns: a line per tag, with its raw word and the count in hundredths of a degree.
ghost use Rattle.std.specs.Prelude.{◌≤◌, take, length};
ghost use Rattle.text.specs.Output.{columns_text};
ghost use Rattle.programs.specs.Files.{FilesPrinted};

use crate::file::{LOG_ROOM, SHEET_ROOM, read_file};
use std::io;
use std::rt::{Env, Files};
use text::columns::{COLUMNS_ROOM, columns_text};

// What is printed for two files whose fronts are the first m and n bytes read.
fn columns_files(
    sheet: &[u8; SHEET_ROOM],
    m: usize,
    log: &[u8; LOG_ROOM],
    n: usize,
    out: &mut [u8; COLUMNS_ROOM],
) -> usize
    requires sheet_read { m ≤ length sheet.now }
    requires log_read { n ≤ length log.now }
    ensures { FilesPrinted columns_text SHEET_ROOM LOG_ROOM (take m sheet.now) (take n log.now) out.old result out.new }
{
    columns_text(&sheet[..m], &log[..n], out)
}

// The program, by the numbers of the arguments that name the sheet file and the log file. Not one function with watch's: it would have to require of its parameter what columns_files requires and ensures, which is longer.
pub fn run(rt: &(impl Env + Files + Print), sheet_name: usize, log_name: usize) -> io::Result<()> {
    let mut sheet = [0u8; SHEET_ROOM];
    let mut log = [0u8; LOG_ROOM];
    let mut out = [0u8; COLUMNS_ROOM];
    let m = read_file(rt, sheet_name, &mut sheet);
    let n = read_file(rt, log_name, &mut log);
    let size = columns_files(&sheet, m, &log, n, &mut out);
    rt.write_all(&out[..size])
}
