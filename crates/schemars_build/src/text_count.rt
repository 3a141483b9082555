//! Whether it pays to render definitions.

/// How many texts of definitions a store kept, and how many it gave back.
#[derive(Clone, Copy)]
pub struct TextCount {
    kept: usize,
    refused: usize,
}

/// No texts.
pub const NO_TEXTS: TextCount = TextCount {
    kept: 0,
    refused: 0,
};

// So many more may be given back than kept.
const PATIENCE: usize = 16;

impl TextCount {
    /// Returns whether most texts were kept.
    pub fn are_mostly_kept(&self) -> bool {
        self.refused <= self.kept.saturating_add(PATIENCE)
    }

    /// Counts a text that was kept or given back.
    pub fn add(&mut self, is_kept: bool) {
        if is_kept {
            self.kept = self.kept.saturating_add(1);
        } else {
            self.refused = self.refused.saturating_add(1);
        }
    }
}
