//! Which texts match which patterns.
ghost use Rattle.std.specs.Prelude.{◌≡◌, map, string_bytes};
ghost use Rattle.schemars_schema.specs.Judges as accepting;
ghost use Rattle.schemars_schema.specs.Judges.{matches};

/// Answers whether a text matches a pattern. The same question always has the same answer: that of
/// one reading of patterns.
pub trait Patterns {
    /// The pairs of a pattern and a text that matches it.
    ghost reading: { Self → accepting.Patterns };

    fn matches(&self, pattern: &str, text: &str) -> bool
        ensures { result ≡ matches (reading self.now) pattern.now text.now };
}

/// A given list of pairs: of a pattern, and of a text that matches it.
#[derive(Debug, Drop)]
pub struct PatternList {
    pub pairs: Vec<(String, String)>,
}

impl Patterns for PatternList {
    ghost reading = { λ l. map (λ p. (string_bytes p.0, string_bytes p.1)) l.pairs.items };

    fn matches(&self, pattern: &str, text: &str) -> bool {
        is_listed(&self.pairs, pattern, text)
    }
}

fn is_listed(pairs: &[(String, String)], pattern: &str, text: &str) -> bool
    ensures { result ≡ matches (map (λ p. (string_bytes p.0, string_bytes p.1)) pairs.now) pattern.now text.now }
{
    for pair in pairs {
        if pair.0.as_str() == pattern && pair.1.as_str() == text {
            return true;
        }
    }
    false
}
