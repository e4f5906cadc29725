//! Texts in two parts.

ghost use Rattle.std.specs.Prelude.{◌≡◌, ◌≢◌, ◌∷◌, ◌++◌, ℕ, List, IfNone, IfSome, IsSomeAnd, MatchOption};
ghost use Rattle.gu_etcd.specs.Splitting.{Lacks};

/// Returns what is before the first byte of a kind, and what is after it.
pub fn split_at_byte(text: &[u8], byte: u8) -> Option<(&[u8], &[u8])>
    ensures parts { IfSome result (λ parts. text.now ≡ parts.0.now ++ byte ∷ parts.1.now) }
    ensures first { IfSome result (λ parts. Lacks byte parts.0.now) }
    ensures none { IfNone result (Lacks byte text.now) }
    ensures only { (first rest : List ℕ) → Lacks byte first → text.now ≡ first ++ byte ∷ rest
        → IsSomeAnd result (λ parts. (parts.0.now ≡ first) × (parts.1.now ≡ rest)) }
{
    for (i, other) in text.iter().enumerate() {
        if *other == byte {
            return Some((&text[..i], &text[i + 1..]));
        }
    }
    None
}

/// Returns what follows a prefix.
pub fn after_prefix<'a>(text: &'a [u8], prefix: &[u8]) -> Option<&'a [u8]>
    ensures { MatchOption result ((rest : List ℕ) → text.now ≢ prefix.now ++ rest) (λ rest. text.now ≡ prefix.now ++ rest.now) }
{
    text.strip_prefix(prefix)
}
