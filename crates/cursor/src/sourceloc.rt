//! Source locations.

ghost use Rattle.std.specs.Prelude.{◌≡◌};
ghost use Rattle.cursor.specs.SourceLocs.{no_location};

/// Where in a source an instruction comes from: 32 bits that nothing here reads.
#[derive(Clone, Copy, PartialEq, Eq, Debug)]
pub struct SourceLoc(u32);

impl SourceLoc {
    /// The location with these bits.
    pub fn new(bits: u32) -> SourceLoc
        ensures { result ≡ record { 0 = bits } }
    {
        SourceLoc(bits)
    }

    /// Its bits.
    pub fn bits(self) -> u32
        ensures { result ≡ self.0 }
    {
        let SourceLoc(bits) = self;
        bits
    }
}

impl Default for SourceLoc {
    /// No location: all ones.
    fn default() -> SourceLoc
        ensures { result ≡ no_location }
    {
        SourceLoc(u32::MAX)
    }
}
