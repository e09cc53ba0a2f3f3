// The sessions of a list of names, and what is printed of each.
use crate::compare::{Compared, Finding, replies_compared};
use crate::files::opened;
use std::io;
use std::rt::Files;

// How many sessions came out as stored, and how many did not.
// Kept: test_judge has the same struct. No crate of tests stands below both, and one for these lines would be no plainer.
#[derive(Clone, Copy, Debug, PartialEq, Eq)]
pub struct Tally {
    pub good: u64,
    pub bad: u64,
}

impl Tally {
    // A session more, as stored or not.
    fn count(&mut self, passed: bool) {
        if passed {
            self.good = self.good.wrapping_add(1);
        } else {
            self.bad = self.bad.wrapping_add(1);
        }
    }
}

// The rest of a session's line, and whether all its replies are as stored.
fn told(rt: &impl Print, compared: Compared) -> io::Result<bool> {
    let count = compared.count;
    match compared.finding {
        Finding::Ended => println!(rt; " ok {count}")?,
        Finding::Differs(at) => println!(rt; " differs at byte {at} of reply {count}")?,
        Finding::OtherNumber => println!(rt; " returns another number at reply {count}")?,
        Finding::RepliesEnded => println!(rt; " has no stored reply {count}")?,
        Finding::RepliesLeft => println!(rt; " ends before the stored reply {count}")?,
        Finding::NotEnded => println!(rt; " not ended at reply {count}")?,
    }
    Ok(compared.finding == Finding::Ended)
}

// A session by its name: its line, and whether all its replies are as stored.
fn session(rt: &(impl Files + Print), name: &[u8]) -> io::Result<bool> {
    rt.write_all(name)?;
    let Ok(mut records) = opened(rt, name, b".rec") else {
        rt.write_all(b" has no records\n")?;
        return Ok(false);
    };
    let Ok(mut replies) = opened(rt, name, b".out") else {
        rt.write_all(b" has no stored replies\n")?;
        return Ok(false);
    };
    told(rt, replies_compared(&mut records, &mut replies)?)
}

// Every session of the list, in order.
pub fn all_sessions(rt: &(impl Files + Print), names: &[u8]) -> io::Result<Tally> {
    let mut tally = Tally { good: 0, bad: 0 };
    for line in names.split_inclusive(|b| *b == b'\n') {
        tally.count(session(rt, line.strip_suffix(b"\n").unwrap_or(line))?);
    }
    Ok(tally)
}

// The last line: the count.
pub fn say_tally(rt: &impl Print, tally: Tally) -> io::Result<()> {
    println!(rt; "{} sessions ok, {} not", tally.good, tally.bad)
}
