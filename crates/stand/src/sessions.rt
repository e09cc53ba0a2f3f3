// A whole session.
ghost use Rattle.std.specs.Prelude.{◌≡◌, length};
ghost use Rattle.stand.specs.Calls.{all_fit, Fit};
ghost use Rattle.stand.specs.Kinds.{operations_fit, OperationsAnswered};

use crate::operations::{all_known, operate, operation_at, put_count, written};
use crate::sizes::fits;
use common::answer_number;

// What a host hands over to be read: a kind for each operation, and past the last kind single calls; the records one after the other; and how many
// bytes of the records and of the replies each operation has.
// Kept: slices side by side: so the C call hands them over.
#[derive(Clone, Copy)]
pub struct Session<'a> {
    pub kinds: &'a [u8],
    pub records: &'a [u8],
    pub lengths: &'a [u32],
    pub sizes: &'a [u32],
}

impl<'a> Session<'a> {
    // Whether the lengths and the sizes are as many as the numbers, and add up to their buffers.
    #[tactic(auto, unfolding(crate::specs::Calls::all_fit))]
    pub fn fits(&self, replies: usize, numbers: usize) -> bool
        ensures { result ≡ all_fit self.now.lengths.now (length self.now.records.now) self.now.sizes.now replies numbers }
    {
        fits(self.lengths, self.records.len())
            && fits(self.sizes, replies)
            && self.lengths.len() == self.sizes.len()
            && self.lengths.len() == numbers
    }

    // Whether besides every kind is known, and kinds and counts are as many as the lengths.
    #[tactic(auto, unfolding(crate::specs::Kinds::operations_fit))]
    pub fn operations_fit(&self, replies: usize, numbers: usize, counts: usize) -> bool
        ensures { result ≡ operations_fit self.now.kinds.now self.now.lengths.now (length self.now.records.now) self.now.sizes.now replies numbers counts }
    {
        all_known(self.kinds)
            && self.kinds.len() == self.lengths.len()
            && counts == self.lengths.len()
            && self.fits(replies, numbers)
    }

    // The operations in turn, each on the monitor that the one before left and on its own part of the reply buffer.
    pub fn run(&self, replies: &mut [u8], numbers: &mut [u8], counts: &mut [u32])
        requires { Fit self.now.records.now self.now.lengths.now self.now.sizes.now replies.old numbers.old }
        ensures { OperationsAnswered self.now.kinds.now self.now.records.now self.now.lengths.now self.now.sizes.now
            replies.old replies.new numbers.new counts.old counts.new }
    {
        let mut monitor = monitor::new();
        let mut at = 0;
        let mut to = 0;
        for (k, length) in self.lengths.iter().enumerate() {
            // Kept: places by sums, since each operation's parts have lengths of their own; and casts: `usize` has no `From<u32>`, and `try_from` would make
            // a refusal that cannot happen.
            let end = at + *length as usize;
            let past = to + self.sizes[k] as usize;
            let operation = operation_at(self.kinds, k);
            let done = operate(
                operation,
                &mut monitor,
                &self.records[at..end],
                &mut replies[to..past],
            );
            numbers[k] = answer_number(done);
            put_count(counts, k, written(done));
            at = end;
            to = past;
        }
    }
}
