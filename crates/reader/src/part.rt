// Parts bytes at a mark.
ghost use Rattle.std.specs.Prelude.{◌≡◌, ◌∷◌, ◌++◌, MatchOption};
ghost use Rattle.reader.specs.Lines.{Lacks};

// What stands before the first `mark`, and what stands after it, if there is one.
pub(crate) fn part(bytes: &[u8], mark: u8) -> (&[u8], Option<&[u8]>)
    ensures front { Lacks mark result.0.now }
    ensures whole { MatchOption result.1 (bytes.now ≡ result.0.now) (λ rest. bytes.now ≡ result.0.now ++ mark ∷ rest.now) }
{
    match bytes.iter().position(|b| *b == mark) {
        Some(i) => (&bytes[..i], Some(&bytes[i + 1..])),
        None => (bytes, None),
    }
}
