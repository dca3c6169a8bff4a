//! Versions of images, and the limits that differ between them.
ghost use Rattle.std.specs.Prelude.{◌≡◌};
ghost use Rattle.aegis_limits.specs.VersionLimits.{AreWithin, most_environments_of, most_pages_of, stripe_rows, version_number};

/// The version of an image (`docs/FORMATS.md`, "Image"). It decides how large a machine may be, and how many rows each
/// environment has for its bindings.
#[derive(Clone, Copy)]
pub enum Version {
    /// The smaller machine, with fewer environments and longer stripes.
    One,
    /// The larger machine, with more environments and shorter stripes.
    Two,
}

impl Version {
    /// The number by which files name the version.
    pub fn number(self) -> u8
        ensures { result ≡ version_number self }
    {
        match self {
            Version::One => 1,
            Version::Two => 2,
        }
    }

    /// The most pages of physical memory.
    pub fn most_pages(self) -> u32
        ensures { result ≡ most_pages_of self }
    {
        match self {
            Version::One => 1024,
            Version::Two => 4096,
        }
    }

    /// The most environments.
    pub fn most_environments(self) -> usize
        ensures { result ≡ most_environments_of self }
    {
        match self {
            Version::One => 16,
            Version::Two => 32,
        }
    }

    /// The rows of each environment's stripe.
    #[tactic(auto, unfolding(crate::specs::VersionLimits::stripe_rows))]
    pub fn stripe_rows(self) -> u32
        ensures { result ≡ stripe_rows self }
    {
        match self {
            Version::One => 256,
            Version::Two => 128,
        }
    }
}

/// Law: what a version allows is within the limits of all versions.
#[tactic(auto, unfolding(crate::specs::VersionLimits::stripe_rows))]
pub fn law_versions_are_within()
    ensures { (v : Version) → AreWithin v }
{}
