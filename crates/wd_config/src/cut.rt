ghost use Rattle.std.specs.Prelude.{◌≡◌, ◌<◌, length, IfSome};
ghost use Rattle.std.specs.Option.{MatchOption};
ghost use Rattle.wd_config.specs.Cut.{Lacks, IsCut, place_of};

/// The texts before and behind the first `mark`, and None where there is none.
pub fn split(text: &[u8], mark: u8) -> Option<(&[u8], &[u8])>
    ensures { MatchOption result (Lacks mark text.now) (λ parts. IsCut mark parts.0.now parts.1.now text.now) }
{
    let at = place_of(text, mark)?;
    Some((&text[..at], &text[at + 1..]))
}

fn place_of(text: &[u8], mark: u8) -> Option<usize>
    ensures first { result ≡ place_of mark text.now }
    ensures within { IfSome result (λ at. at < length text.now) }
{
    text.iter().position(|byte| *byte == mark)
}
