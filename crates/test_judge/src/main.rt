// Asks the judge about stored lists of acts and compares each answer with the stored one, a line for each case.
//
// The file `cases.rec` is read record by record, from a fresh monitor on. A record that begins with `J` is a case; any other is handed to the
// monitor, which must take it. A case has, after the `J`, the rule's number in 20 digits, a space, the length of the list in 5 digits, a space, the
// stored answer in 4 bytes (`yes `, `no  ` or as `R 09`), a space, the case in words, and the newline at byte 127. The bytes of the list follow.
//
// A case that comes out as stored prints `ok`, the answer and its words. Another prints `not` and the judge's answer before them. The last line
// counts both.
#![tactic(auto)]

pub mod answers;
pub mod cases;
pub mod fields;

use anyhow::Context;
use cases::{all_cases, say_tally};
use std::fs::File;

const PATH: &str = "cases.rec";

fn main(rt: HostRuntime) -> anyhow::Result<()> {
    let mut file = File::open(&rt, PATH).context(PATH)?;
    let tally = all_cases(&rt, &mut file).context(PATH)?;
    say_tally(&rt, tally)?;
    Ok(())
}
