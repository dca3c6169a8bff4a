//! Why a manifest is refused.
ghost use Rattle.boot_manifest.specs.Names.{manifest_why_text};
ghost use Rattle.std.specs.Prelude.{◌≡◌};

/// Which rule of a manifest a line breaks. `docs/FORMATS.md`, "Manifest", has the rules.
#[derive(Clone, Copy)]
pub enum ManifestWhy {
    /// The line has another form or order, or the text ends too early.
    Syntax,
    /// A version, a number, a slot's owner or a name is none, or passes the limits of the version.
    Range,
    /// It is the line of one environment more than the version allows.
    Many,
}

impl ManifestWhy {
    /// The name that is printed.
    pub fn name(self) -> &'static str
        ensures { result.now ≡ manifest_why_text self }
    {
        match self {
            ManifestWhy::Syntax => "Syntax",
            ManifestWhy::Range => "Range",
            ManifestWhy::Many => "Many",
        }
    }
}
