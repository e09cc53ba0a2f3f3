// The items of a simple pattern, judged in turn until one is not met.
ghost use Rattle.std.specs.Prelude.{◌≡◌, ◌<◌, length};
ghost use Rattle.patterns.specs.Judged.{names_role, role_at, met_item, ItemsEnd, ItemsRead};

use crate::judge::{Judged, Matcher};
use crate::roles::below;

impl Matcher<'_> {
    // Whether a role is the one that a byte of code names or, under, one below it.
    #[tactic(auto, unfolding(crate::specs::Judged::names_role))]
    pub(crate) fn names_role(&self, under: bool, byte: u8, role: u8) -> bool
        ensures { result ≡ names_role self.now.above.now under byte role }
    {
        let Some(named) = byte.checked_sub(128) else {
            return false;
        };
        if under {
            below(self.above, role, named)
        } else {
            role == named
        }
    }

    // Whether the event has a role at i, and that is the one that a byte of code names or, under, one below it.
    #[tactic(auto, unfolding(crate::specs::Judged::role_at))]
    fn role_at(&self, under: bool, byte: u8, i: usize) -> bool
        ensures { result ≡ role_at self.now.above.now under byte self.now.event.now i }
    {
        match self.event.get(i) {
            Some(&role) => self.names_role(under, byte, role),
            None => false,
        }
    }

    // The place after the item at `at`, whose first byte is given, where the role at i of the event meets it.
    // Kept: `requires`. `items` has just read the byte at `at`.
    #[tactic(auto, unfolding(crate::specs::Judged::met_item))]
    fn met_item(&self, first: u8, at: usize, i: usize) -> Option<usize>
        requires { at < length self.now.code.now }
        ensures { result ≡ met_item self.now.above.now self.now.event.now i self.now.code.now first at }
    {
        if first != b'+' {
            return self.role_at(false, first, i).then_some(at + 1);
        }
        let name = at + 1;
        let &named = self.code.get(name)?;
        self.role_at(true, named, i).then_some(name + 1)
    }

    // Where the items from at on end: after their `>`. Of code that spells none only that it is not before at.
    fn items_end(&self, at: usize) -> usize
        ensures { ItemsEnd self.now.code.now at result }
    {
        let mut end = at;
        while let Some(&byte) = self.code.get(end) {
            if byte == b'>' {
                return end + 1;
            }
            end += 1;
        }
        end
    }

    // Items from `from` on, after `<`, against the roles of the event. The first that is not met decides, and those after it are passed over.
    pub(crate) fn items(&self, from: usize) -> Judged
        ensures { ItemsRead self.now.above.now self.now.event.now 0 self.now.code.now from result }
    {
        let mut at = from;
        let mut i = 0;
        while let Some(&byte) = self.code.get(at) {
            if byte == b'>' {
                return Judged {
                    end: at + 1,
                    ok: i >= self.event.len(),
                };
            }
            if byte == b'*' {
                return Judged {
                    end: at + 2,
                    ok: true,
                };
            }
            let Some(next) = self.met_item(byte, at, i) else {
                return Judged {
                    end: self.items_end(at),
                    ok: false,
                };
            };
            at = next;
            i += 1;
        }
        Judged { end: at, ok: false }
    }
}
