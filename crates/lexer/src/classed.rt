// Whether all bytes of a text have a class.
ghost use Rattle.std.specs.Prelude.{◌≡◌};
ghost use Rattle.lexer.specs.Class.{all_classed};

use crate::classes::has_class;

// Whether no byte of a text is of class 0. Kept: a fold, no `all`. Every byte is asked, so that the compiler asks many at a time.
pub fn all_classed(text: &[u8]) -> bool
    ensures { result ≡ all_classed text.now }
{
    text.iter().fold(true, |classed, b| classed & has_class(*b))
}
