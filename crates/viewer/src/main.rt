// The film viewer: reads the file `film.rec`, record by record, takes each act as committed, and writes a line for each record to standard output.
//
// It builds on the door for records and the state that follows pasts alone: nothing is held, sent or worked, whatever the rules' triggers and responses say.
//
// A line tells what became of the record, and which rules' pasts match after it, in declared order:
//
// - columns 0 to 12 are those of document 01's reply: `D 00` and the name that a line declared, `C 00 -` for an act, `R`, the refusal's number and
//   `-` for a record that is refused (rows 2 to 8, in the monitor's order);
// - then ` |`, and a space and its name for each rule whose past matches now, or ` -` where there is none; the newline ends the line.
//
// A short last record gets R 02. An empty file gives no line. A file that cannot be opened or read is named, with the reason, on standard error.
#![tactic(auto)]

pub mod matching;
pub mod records;
pub mod shown;
pub mod taking;
pub mod view;

use anyhow::Context;
use records::all_records;
use std::fs::File;

const PATH: &str = "film.rec";

fn main(rt: HostRuntime) -> anyhow::Result<()> {
    let mut file = File::open(&rt, PATH).context(PATH)?;
    all_records(&rt, &mut file).context(PATH)?;
    Ok(())
}
