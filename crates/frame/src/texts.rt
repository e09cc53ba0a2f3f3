// The text of a record.
ghost use Rattle.std.specs.Prelude.{◌≡◌};
ghost use Rattle.frame.specs.Text.{text_of};

// The text of a record, bytes 1 to 126, as a part of it from its middle; where there are fewer bytes, those that there are.
#[tactic(auto, using(crate::proofs::TextLaws::text_cut), unfolding(crate::specs::Text::text_of))]
pub fn text(bytes: &[u8]) -> &[u8]
    ensures { result.now ≡ text_of bytes.now }
{
    let Some((_, after)) = bytes.split_first() else {
        return bytes;
    };
    &after[..after.len().min(126)]
}
