// A session's replies against the stored ones.
ghost use Rattle.std.specs.Prelude.{◌≡◌, IfNone};

use common::answer_number;
use common::sizes::{RECORD_SIZE, REPLY_SIZE};
use follow::State;
use input::{next, read_full};
use monitor::handle;
use std::io;
use std::io::Read;

// What ends a comparison: the records and the stored replies end together; the byte of a reply that differs first; the number that the monitor
// returned is not the reply's; the stored replies end first; the records end first; more replies are as stored than are counted.
#[derive(Clone, Copy, Debug, PartialEq, Eq)]
pub enum Finding {
    Ended,
    Differs(usize),
    OtherNumber,
    RepliesEnded,
    RepliesLeft,
    NotEnded,
}

// How many replies were as stored, and what was found after them.
#[derive(Clone, Copy, Debug, PartialEq, Eq)]
pub struct Compared {
    pub count: u64,
    pub finding: Finding,
}

// The first place where the bytes differ; the end of the reply, where none does.
fn first_other(reply: &[u8; REPLY_SIZE], stored: &[u8; REPLY_SIZE]) -> usize {
    reply
        .iter()
        .zip(stored)
        .position(|(a, b)| a != b)
        .unwrap_or(REPLY_SIZE)
}

// Whether a number is the one that the reply tells. "Columns 2 and 3: .. the refusal number for `R`"; "Each call also returns a number, 0 when
// taken."
fn tells(number: u8, reply: &[u8; REPLY_SIZE]) -> bool {
    if reply[0] != b'R' {
        return number == 0;
    }
    reply[2] == b'0' + number / 10 && reply[3] == b'0' + number % 10
}

// What a reply and the number returned with it are found to be, by the stored reply. Nothing is found only of a reply that is the stored one.
fn found(number: u8, reply: &[u8; REPLY_SIZE], stored: &[u8; REPLY_SIZE]) -> Option<Finding>
    ensures { IfNone result (reply.now ≡ stored.now) }
{
    if reply != stored {
        return Some(Finding::Differs(first_other(reply, stored)));
    }
    if tells(number, stored) {
        None
    } else {
        Some(Finding::OtherNumber)
    }
}

// Hands a record to the monitor and compares the reply.
fn answered(monitor: &mut State, record: &[u8], stored: &[u8; REPLY_SIZE]) -> Option<Finding> {
    let mut reply = [0u8; REPLY_SIZE];
    let number = answer_number(handle(monitor, record, &mut reply));
    found(number, &reply, stored)
}

// Reads the next record and the next stored reply, and compares.
fn next_compared(
    records: &mut impl Read,
    replies: &mut impl Read,
    monitor: &mut State,
) -> io::Result<Option<Finding>> {
    let mut bytes = [0u8; RECORD_SIZE];
    let len = next(records, &mut bytes)?;
    let mut stored = [0u8; REPLY_SIZE];
    let n = read_full(replies, &mut stored)?;
    if len == 0 {
        let finding = if n == 0 {
            Finding::Ended
        } else {
            Finding::RepliesLeft
        };
        return Ok(Some(finding));
    }
    if n < REPLY_SIZE {
        return Ok(Some(Finding::RepliesEnded));
    }
    Ok(answered(monitor, &bytes[..len], &stored))
}

// Every record, in order, from a fresh monitor on, as far as the replies are as stored. The loop has to end and nothing says that a file does,
// so the replies are counted, to a number that no file reaches.
// Kept: no `each_record`, as a stored reply is read beside each record, and past the last record too.
pub fn replies_compared(records: &mut impl Read, replies: &mut impl Read) -> io::Result<Compared> {
    let mut monitor = monitor::new();
    for count in 0..u64::MAX {
        if let Some(finding) = next_compared(records, replies, &mut monitor)? {
            return Ok(Compared { count, finding });
        }
    }
    Ok(Compared {
        count: u64::MAX,
        finding: Finding::NotEnded,
    })
}
