//! What the files of a command hold, by their places.
ghost use Rattle.std.specs.Prelude.{◌≡◌, ◌+◌, ◌<◌, ◌^◌, drop, length};
ghost use Rattle.std.specs.List.{AllByRecursion};
ghost use Rattle.edge_io.specs.Reads.{held};
ghost use Rattle.commands.specs.Command.{IsShort, content};

/// What the file at a place holds.
pub fn content(contents: &[Vec<u8>], place: usize) -> &[u8]
    requires within { place < length contents.now }
    requires short { AllByRecursion IsShort (held contents.now) }
    ensures value { result.now ≡ content (held contents.now) place }
    ensures short { length result.now < 2 ^ 27 }
{
    &contents[place]
}

/// What the files behind the first hold.
pub fn behind_first(contents: &[Vec<u8>]) -> &[Vec<u8>]
    requires within { 0 < length contents.now }
    requires short { AllByRecursion IsShort (held contents.now) }
    ensures value { held result.now ≡ drop 1 (held contents.now) }
    ensures count { 1 + length result.now ≡ length contents.now }
    ensures short { AllByRecursion IsShort (held result.now) }
{
    &contents[1..]
}
