//! What holds of every book of claims.
ghost use Rattle.filter_tree.specs.Laws.{AlikeAreFew, ExampleHasThree, FirstIsNumbered};

/// Law: the first of some claims is the claim of its number, since no two have one number.
pub fn law_numbered()
    ensures { FirstIsNumbered }
{}

/// Law: where the filters of all claims have the same shapes, a search has no more steps than there are shapes. So it has
/// three among 128 claims of three fields that differ in what they ask of the last.
pub fn law_alike()
    ensures few { AlikeAreFew }
    ensures example { ExampleHasThree }
{}
