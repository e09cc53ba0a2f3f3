// Runs texts, good and bad, through the readers and prints what became of each, a line for each case.
//
// The cases stand in the file `texts.txt`, one to a line, as people write a record: byte 0 and the text. A line is padded with spaces to 127
// bytes and gets the newline as byte 127, so a longer line becomes a record that is too long (from byte 299 on it is cut). A line that begins
// with `=` is handed over without the `=` and as it stands, with no spaces and no newline; `=` alone is the empty slice. The file has at most
// 65,536 bytes.
//
// The names held are top, lamp, uv and expose, whatever lines came before. So refusals 2, 3, 4 and 6 of document 01 are told, in that order,
// and 5 and 8, which need a monitor, are not. 7 would be told after 6, but no line has room for so many patterns.
#![tactic(auto)]

pub mod cases;
pub mod judged;
pub mod shown;

use anyhow::Context;
use cases::all_cases;
use input::read_full;
use std::fs::File;

const PATH: &str = "texts.txt";

fn main(rt: HostRuntime) -> anyhow::Result<()> {
    let mut texts = File::open(&rt, PATH).context(PATH)?;
    let mut file = [0u8; 65536];
    let n = read_full(&mut texts, &mut file).context(PATH)?;
    let held = [
        names::pack(b"top"),
        names::pack(b"lamp"),
        names::pack(b"uv"),
        names::pack(b"expose"),
    ];
    all_cases(&rt, &file[..n], &held)?;
    Ok(())
}
