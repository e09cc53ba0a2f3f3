// The replies to refusals and lines, written into the lent buffer where it has 50 bytes.
ghost use Rattle.std.specs.Prelude.{◌≡◌};
ghost use Rattle.common.specs.Refusals.{refusal_number, answer_number};
ghost use Rattle.names.specs.Name.{packed};
ghost use Rattle.reply.specs.Reply.{dash};
ghost use Rattle.reply.specs.Writing.{Written};
ghost use Rattle.monitor.specs.Answers.{refused_reply, line_reply};
ghost use Rattle.follow.specs.Declaring.{name_declared};

use columns::ReplyKind;
use common::Refusal;
use reply::plain;

// The name in a reply that has none.
pub fn dash() -> u64
    ensures { result ≡ packed dash }
{
    names::pack(b"-")
}

// A refusal's reply.
pub fn refused(reply: &mut [u8], refusal: Refusal) -> bool
    ensures { Written reply.old (refused_reply (refusal_number refusal)) reply.new result }
{
    plain(reply, ReplyKind::Refused, refusal.number(), dash())
}

// The reply to a line: the name that it declared, or its refusal.
pub fn line_reply(reply: &mut [u8], declared: Result<u64, Refusal>) -> bool
    ensures { Written reply.old (line_reply (answer_number declared) (name_declared declared)) reply.new result }
{
    match declared {
        Ok(name) => plain(reply, ReplyKind::Declared, 0, name),
        Err(refusal) => refused(reply, refusal),
    }
}
