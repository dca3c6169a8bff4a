//! What holds of every expression: laws that the definition of an expression has, for all bytes.
ghost use Rattle.std.specs.Prelude.{◌≡◌, ℕ, List, ◌++◌, codes, option_map};
ghost use Rattle.asm_parse.specs.Expression.{expression_of, taken};
ghost use Rattle.asm_parse.specs.declared.openings.Half.TheVariants.{High, Low};

/// `hi(E)` is an expression exactly where E is one, and it is the high half of E. So brackets nest to any
/// depth.
#[tactic(auto, using(crate::proofs::EncloseLemmas::high_enclosed))]
pub fn encloses_high()
    ensures { (bs : List ℕ) → expression_of (codes "hi(" ++ bs ++ codes ")") ≡ option_map (taken High) (expression_of bs) }
{}

/// The same of `lo(E)`, and the low half.
#[tactic(auto, using(crate::proofs::EncloseLemmas::low_enclosed))]
pub fn encloses_low()
    ensures { (bs : List ℕ) → expression_of (codes "lo(" ++ bs ++ codes ")") ≡ option_map (taken Low) (expression_of bs) }
{}
