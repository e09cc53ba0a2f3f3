// The kinds of reply, and the letter of each.
ghost use Rattle.std.specs.Prelude.{◌≡◌};
ghost use Rattle.columns.specs.Kinds.{letter_of};

// "`D` declared, `C` committed, `H` held, `U` unfit, `T` too long, `R` refused"
#[derive(Clone, Copy, Debug, PartialEq, Eq)]
pub enum ReplyKind {
    Declared,
    Committed,
    Held,
    Unfit,
    TooLong,
    Refused,
}

impl ReplyKind {
    // Column 0 of a reply. Kept: a method, which says what the byte is; `u8::from` would not.
    pub fn letter(self) -> u8
        ensures { result ≡ letter_of self }
    {
        match self {
            ReplyKind::Declared => b'D',
            ReplyKind::Committed => b'C',
            ReplyKind::Held => b'H',
            ReplyKind::Unfit => b'U',
            ReplyKind::TooLong => b'T',
            ReplyKind::Refused => b'R',
        }
    }
}
