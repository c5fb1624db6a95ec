ghost use Rattle.std.specs.Prelude.{◌≡◌, ◌<◌, ◌∷◌, [], length, MatchOption};
ghost use Rattle.script_file.specs.Pieces.{pieces};

/// The first piece of a text that is cut at each `at`, and the text behind it where it is cut.
pub fn cut(text: &[u8], at: u8) -> (&[u8], Option<&[u8]>)
    ensures pieces { MatchOption result.1
        (pieces at text.now ≡ result.0.now ∷ [])
        (λ rest. pieces at text.now ≡ result.0.now ∷ pieces at rest.now) }
    ensures shorter { MatchOption result.1 Unit (λ rest. length rest.now < length text.now) }
{
    for i in 0..text.len() {
        if text[i] == at {
            return (&text[..i], Some(&text[i + 1..]));
        }
    }
    (text, None)
}
