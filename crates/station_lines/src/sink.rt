//! Where the lines of a station go.

/// Takes lines and never waits.
pub trait LineSink {
    /// Takes a text of whole lines of events. Those that cannot be taken are lost.
    fn line(&mut self, text: &[u8]);

    /// Takes a text of whole lines of state, or answers false: then newer ones are to be offered.
    fn state(&mut self, text: &[u8]) -> bool;
}

/// The lines, one behind another. A text for which there is no memory is lost.
impl LineSink for Vec<u8> {
    fn line(&mut self, text: &[u8]) {
        let _ = self.extend_from_slice(text);
    }

    fn state(&mut self, text: &[u8]) -> bool {
        self.extend_from_slice(text).is_ok()
    }
}
