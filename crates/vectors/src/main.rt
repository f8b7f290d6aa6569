// Document 01's listing and edge vectors, read and written by `records`: a row per case, its name and what came out.
#![tactic(auto)]

mod cell_row;
mod counting;
mod fields;
mod instant_row;
mod instant_values;
mod instants;
mod long;
mod numbered;
mod place_row;
mod places;
mod room;
mod rows;
mod sheet_lines;
mod sheet_order;
mod sheet_refusals;
mod sheet_row;
mod sheet_tables;
mod sheet_values;
mod sheets;
mod sorting;
mod tags;
mod tape;
mod text;
mod unordered;
mod value_order;
mod values;
mod write_row;

use std::io;

fn main(rt: HostRuntime) -> io::Result<()> {
    tags::all(&rt)?;
    places::all(&rt)?;
    sheets::all(&rt)?;
    sheet_refusals::all(&rt)?;
    sheet_tables::all(&rt)?;
    sheet_order::all(&rt)?;
    unordered::all(&rt)?;
    sheet_values::all(&rt)?;
    value_order::all(&rt)?;
    sorting::all(&rt)?;
    counting::all(&rt)?;
    instants::all(&rt)?;
    numbered::all(&rt)?;
    instant_values::all(&rt)?;
    long::all(&rt)
}
