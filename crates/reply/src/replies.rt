// A whole reply, written into a lent buffer.
ghost use Rattle.std.specs.Prelude.{[]};
ghost use Rattle.reply.specs.Writing.{reply_of, Written};

use columns::{ReplyKind, blank, front, put, words};
use common::sizes::REPLY_SIZE;

// Writes a reply where 50 bytes are lent for it, and says whether they are, for any buffer. The newline ends a text that is too long for its columns.
// Kept: five parameters, the buffer and the reply's columns in their order, the first three of which `front` takes too. A struct of the columns would
// be made for each call and taken apart in the next line.
pub fn reply(out: &mut [u8], kind: ReplyKind, number: u8, name: u64, roles: &[u64]) -> bool
    ensures { Written out.old (reply_of kind number name roles.now) out.new result }
{
    if out.len() != REPLY_SIZE {
        return false;
    }
    let text = front(out, kind.letter(), number, name);
    let end = words(out, text, roles);
    blank(out, end, 49);
    put(out, 49, b'\n');
    true
}

// A reply without role names.
pub fn plain(out: &mut [u8], kind: ReplyKind, number: u8, name: u64) -> bool
    ensures { Written out.old (reply_of kind number name []) out.new result }
{
    reply(out, kind, number, name, &[])
}
