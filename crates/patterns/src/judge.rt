// Patterns judged over their code.
ghost use Rattle.std.specs.Prelude.{◌≡◌};
ghost use Rattle.patterns.specs.Judged.{either_of, not_of, bracketed_of, JudgeRead, PatternRead};

// Where a spelling ends, and whether the event meets what it spells. Kept: `ok` is no Option of the end, since both count whether or not it is met.
#[derive(Clone, Copy, Debug, PartialEq, Eq)]
pub struct Judged {
    pub end: usize,
    pub ok: bool,
}

impl Judged {
    // The rest of a condition, where the term before it says ok.
    fn or_else(self, ok: bool) -> Self
        ensures { result ≡ either_of ok self }
    {
        Self {
            ok: ok || self.ok,
            ..self
        }
    }

    // The opposite.
    fn opposite(self) -> Self
        ensures { result ≡ not_of self }
    {
        Self {
            ok: !self.ok,
            ..self
        }
    }

    // What stands in brackets, read to its end: the bracket after it is passed over, and where there is none nothing is met.
    fn bracketed(self, code: &[u8]) -> Self
        ensures { result ≡ bracketed_of code.now self }
    {
        if self.end < code.len() {
            Self {
                end: self.end + 1,
                ..self
            }
        } else {
            Self { ok: false, ..self }
        }
    }
}

// What a pattern is judged by: the code that spells it, the event, and of each role the set of those above it. The slices may have any lengths and hold anything.
// Kept: places in the code are numbers, since `follow` keeps two of them in a rule's row.
#[derive(Clone, Copy)]
pub struct Matcher<'a> {
    pub code: &'a [u8],
    pub event: &'a [u8],
    pub above: &'a [u64],
}

impl Matcher<'_> {
    // A condition by its nesting: one function judges a whole condition, or one term of it, by recursion. What falls is the code left, and then whole.
    // Kept: one function with a flag. Document 01 asks for one function.
    fn judge(&self, at: usize, whole: bool) -> Judged
        ensures { JudgeRead self.now.above.now self.now.event.now self.now.code.now at whole result }
    {
        if whole {
            let t = self.judge(at, false);
            let Some(b'o') = self.code.get(t.end) else {
                return t;
            };
            return self.judge(t.end + 1, true).or_else(t.ok);
        }
        match self.code.get(at) {
            None => Judged { end: at, ok: false },
            Some(b'n') => self.judge(at + 1, false).opposite(),
            Some(b'a') => Judged {
                end: at + 1,
                ok: true,
            },
            Some(b'<') => self.items(at + 1),
            Some(_) => self.judge(at + 1, true).bracketed(self.code),
        }
    }

    // A pattern from at on: any, a simple pattern, or a condition in square brackets, which is read as a term is: which bracket stands there is not asked.
    // The two that are common are read here, with no call that recurs.
    pub fn pattern(&self, at: usize) -> Judged
        ensures { PatternRead self.now.above.now self.now.event.now self.now.code.now at result }
    {
        match self.code.get(at) {
            None => Judged { end: at, ok: false },
            Some(b'a') => Judged {
                end: at + 1,
                ok: true,
            },
            Some(b'<') => self.items(at + 1),
            Some(_) => self.judge(at, false),
        }
    }
}
