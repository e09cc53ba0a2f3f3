// Runs stored sessions through the monitor and compares each reply with the stored one, a line for each session.
//
// The file `names.txt` has the name of a session to a line, at most 65,536 bytes in all. NAME.rec has the session's records and NAME.out the
// replies of 50 bytes. A session that comes out as stored prints `NAME ok` and the number of replies. Another prints where it first differs: the
// reply, from 0 on, and the byte. The last line counts both.
#![tactic(auto)]

pub mod compare;
pub mod files;
pub mod sessions;

use anyhow::Context;
use input::read_full;
use sessions::{all_sessions, say_tally};
use std::fs::File;

const PATH: &str = "names.txt";

fn main(rt: HostRuntime) -> anyhow::Result<()> {
    let mut names = File::open(&rt, PATH).context(PATH)?;
    let mut file = [0u8; 65536];
    let n = read_full(&mut names, &mut file).context(PATH)?;
    say_tally(&rt, all_sessions(&rt, &file[..n])?)?;
    Ok(())
}
