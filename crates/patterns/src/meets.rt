// Whether an event meets a pattern, where no one asks for the pattern's end: of a simple pattern nothing is read past what decides.
ghost use Rattle.patterns.specs.Met.{ItemsMet, PatternMet};

use crate::judge::Matcher;

impl Matcher<'_> {
    // Whether the items that some code begins with, after their `<`, are met by some roles. What falls is the code.
    #[tactic(auto, using(crate::proofs::MetLaws::items_laws))]
    fn items_meet(&self, code: &[u8], roles: &[u8]) -> bool
        ensures { ItemsMet self.now.above.now roles.now code.now result }
    {
        match code {
            [b'>', ..] => roles.is_empty(),
            [b'*', ..] => true,
            [b'+', named, rest @ ..] => {
                let Some((&role, others)) = roles.split_first() else {
                    return false;
                };
                self.names_role(true, *named, role) && self.items_meet(rest, others)
            }
            [named, rest @ ..] => {
                let Some((&role, others)) = roles.split_first() else {
                    return false;
                };
                self.names_role(false, *named, role) && self.items_meet(rest, others)
            }
            [] => false,
        }
    }

    // Whether the event meets the pattern from at on. A condition is judged to its end.
    #[tactic(auto, using(crate::proofs::MetLaws::pattern_laws))]
    pub fn meets(&self, at: usize) -> bool
        ensures { PatternMet self.now.above.now self.now.event.now self.now.code.now at result }
    {
        match self.code.get(at..) {
            Some([b'a', ..]) => true,
            Some([b'<', items @ ..]) => self.items_meet(items, self.event),
            _ => self.pattern(at).ok,
        }
    }
}
