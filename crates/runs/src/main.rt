// Runs of the programs on small files: for each a heading, then what the program prints.
#![tactic(auto)]

use std::io;
use std::rt::{Env, Files};

// The arguments, in the order of the file `args`: files of data/, among them a folder and a name of no file; and one more than there are.
// (A case's number is its cast: there is no `From` of a case.)
#[derive(Clone, Copy)]
enum File {
    Sheet = 1,
    Log,
    Empty,
    SheetRefused,
    LogTornBody,
    LogTornHead,
    LogKind,
    LogLength,
    LogTick,
    Sheet100,
    LogNine,
    SheetEight,
    LogTwelve,
    Log4000,
    Log4001,
    Folder,
    NoFile,
    SheetUnsorted,
    SheetSorted,
    SheetSeventeen,
    LogMixed,
    LogSkipped,
    NotNamed,
}

fn both(rt: &(impl Env + Files + Print), case: &str, sheet: File, log: File) -> io::Result<()> {
    println!(rt; "watch: {case}")?;
    programs::watch::run(rt, sheet as usize, log as usize)?;
    println!(rt; "columns: {case}")?;
    programs::columns::run(rt, sheet as usize, log as usize)
}

// What *sort* prints ends where the sheet ends; the newline behind it is put here.
fn sorted(rt: &(impl Env + Files + Print), case: &str, sheet: File) -> io::Result<()> {
    println!(rt; "sort: {case}")?;
    programs::sort::run(rt, sheet as usize)?;
    println!(rt)
}

// Logs of plain and numbered instants.
fn numbered(rt: &(impl Env + Files + Print)) -> io::Result<()> {
    both(
        rt,
        "the listing, its first, third and fifth record numbered",
        File::Sheet,
        File::LogMixed,
    )?;
    both(
        rt,
        "the third record numbered 4, the first being numbered 1 and the second plain",
        File::Sheet,
        File::LogSkipped,
    )
}

// Files that are empty, that can't be opened or aren't named.
fn missing(rt: &(impl Env + Files + Print)) -> io::Result<()> {
    both(rt, "an empty log", File::Sheet, File::Empty)?;
    both(rt, "a log that is a folder", File::Sheet, File::Folder)?;
    both(rt, "a log that can't be opened", File::Sheet, File::NoFile)?;
    both(rt, "a log that isn't named", File::Sheet, File::NotNamed)?;
    both(rt, "a sheet that can't be opened", File::NoFile, File::Log)
}

// A sheet that is refused, and records that are.
fn refused(rt: &(impl Env + Files + Print)) -> io::Result<()> {
    both(
        rt,
        "a sheet with a clock not below C, and a log with a fault",
        File::SheetRefused,
        File::LogTick,
    )?;
    both(
        rt,
        "the fifth record's body torn",
        File::Sheet,
        File::LogTornBody,
    )?;
    both(
        rt,
        "three bytes after the fifth record",
        File::Sheet,
        File::LogTornHead,
    )?;
    both(
        rt,
        "the third record of kind 31",
        File::Sheet,
        File::LogKind,
    )?;
    both(
        rt,
        "the third record for three clocks",
        File::Sheet,
        File::LogLength,
    )?;
    both(
        rt,
        "a tick byte 3 in the third record's second clock",
        File::Sheet,
        File::LogTick,
    )
}

// Logs at the limits.
fn at_limits(rt: &(impl Env + Files + Print)) -> io::Result<()> {
    both(rt, "L9", File::Sheet100, File::LogNine)?;
    both(
        rt,
        "twelve instants of eight clocks",
        File::SheetEight,
        File::LogTwelve,
    )?;
    both(
        rt,
        "4,000 instants of eight clocks",
        File::SheetEight,
        File::Log4000,
    )?;
    both(
        rt,
        "4,001 numbered instants of eight clocks, the last numbered 1",
        File::SheetEight,
        File::Log4001,
    )
}

fn sorts(rt: &(impl Env + Files + Print)) -> io::Result<()> {
    sorted(
        rt,
        "a sheet out of order, with repeats",
        File::SheetUnsorted,
    )?;
    sorted(rt, "the same sorted", File::SheetSorted)?;
    sorted(rt, "a sheet with a clock not below C", File::SheetRefused)?;
    sorted(
        rt,
        "seventeen lines of which sixteen differ",
        File::SheetSeventeen,
    )?;
    sorted(rt, "a sheet that can't be opened", File::NoFile)?;
    sorted(rt, "a sheet that isn't named", File::NotNamed)
}

fn main(rt: HostRuntime) -> io::Result<()> {
    both(&rt, "document 01's listing", File::Sheet, File::Log)?;
    missing(&rt)?;
    refused(&rt)?;
    numbered(&rt)?;
    at_limits(&rt)?;
    both(&rt, "a sheet out of order", File::SheetUnsorted, File::Log)?;
    sorts(&rt)
}
