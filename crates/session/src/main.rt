// Reads the file `session.rec`, record by record, and writes the monitor's reply to each to standard output.
//
// Document 01, "A session printed": "The program session reads `session.rec` and writes the replies; a short last record gets R 02." An empty
// file gives no reply. A file that cannot be opened or read is named, with the reason, on standard error.
//
// One record is held at a time, so a session may be of any length.
#![tactic(auto)]

pub mod run;

use anyhow::Context;
use run::all_records;
use std::fs::File;

const PATH: &str = "session.rec";

fn main(rt: HostRuntime) -> anyhow::Result<()> {
    let mut file = File::open(&rt, PATH).context(PATH)?;
    all_records(&rt, &mut file).context(PATH)?;
    Ok(())
}
