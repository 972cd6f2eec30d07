// Bytes cut at a separator, or behind a prefix. Text and separator are what a search is asked, as the library's are: no value of their own.
ghost use Rattle.std.specs.Prelude.{◌≡◌, ◌≤◌, ◌==◌, length, nat_lt, position};
ghost use Rattle.std.specs.Option.{option_map};
ghost use Rattle.script.specs.Cuts.{behind, place, halves};

// The place of the first separator.
fn position(text: &[u8], separator: u8) -> Option<usize>
    ensures { result ≡ position (λ byte. byte == separator) text.now }
{
    text.iter().position(|byte| *byte == separator)
}

/// The place of the first separator, or the length where there is none.
#[tactic(auto, using(crate::proofs::Cutting::place_is, crate::proofs::Cutting::place_within))]
pub fn find(text: &[u8], separator: u8) -> usize
    ensures value { result ≡ place separator text.now }
    ensures within { result ≤ length text.now }
{
    position(text, separator).unwrap_or(text.len())
}

#[tactic(auto, using(crate::proofs::Cutting::place_is))]
pub(crate) fn has(text: &[u8], separator: u8) -> bool
    ensures { result ≡ nat_lt (place separator text.now) (length text.now) }
{
    position(text, separator).is_some()
}

// What stands before the first separator, and what stands behind it.
#[tactic(auto, using(crate::proofs::Cutting::place_is))]
pub(crate) fn cut(text: &[u8], separator: u8) -> Option<(&[u8], &[u8])>
    ensures { option_map (λ x. (x.0.now, x.1.now)) result ≡ halves separator text.now }
{
    let at = position(text, separator)?;
    Some((&text[..at], &text[at + 1..]))
}

// What stands behind the prefix, where the text begins with it.
#[tactic(auto, using(crate::proofs::Cutting::behind_is))]
pub(crate) fn after<'a>(text: &'a [u8], prefix: &[u8]) -> Option<&'a [u8]>
    ensures { option_map (λ x. x.now) result ≡ behind prefix.now text.now }
{
    text.strip_prefix(prefix)
}
