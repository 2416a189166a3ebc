//! Where the texts of a record go.

ghost use Rattle.std.specs.Prelude.{◌≡◌, ℕ, List, Option, None, true};
ghost use Rattle.std.specs.Io.KnownBytes.{Appends};

use std::io::Write;

/// Takes the texts of a record, each whole or not at all.
///
/// Each writer is one: a text is handed to it by one call of `write`, and a writer that fails or that takes fewer bytes
/// has refused it. So a writer that is to lose no part of an event takes a whole text in one call, or answers an error.
pub trait RecordSink {
    /// The bytes that were taken, where they are known.
    ghost contents: { Self → Option (List ℕ) } = { λ _. None };

    /// The sink takes this text. A sink of which that is not known says so of no text.
    ghost accepts: { Self → List ℕ → Type 0 } = { λ _ _. ⊥ };

    /// Takes a text, and answers whether it was taken whole.
    fn take_text(&mut self, text: &[u8]) -> bool
        ensures bytes { result ≡ true → Appends (contents self.old) (contents self.new) text.now }
        ensures accepted { accepts self.old text.now → result ≡ true };
}

impl<W: Write> RecordSink for W {
    ghost contents = { W.contents };

    fn take_text(&mut self, text: &[u8]) -> bool {
        match self.write(text) {
            Ok(count) => count == text.len(),
            Err(_) => false,
        }
    }
}
