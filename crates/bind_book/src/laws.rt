//! The laws of stripes.
ghost use Rattle.std.specs.Prelude.{◌≡◌, ℕ};
ghost use Rattle.aegis_limits.specs.declared.version.Version.{Version};
ghost use Rattle.bind_book.specs.Laws.{SetInOneRow, StaysUnbound, SweptByRow, UnboundInEachRow};
ghost use Rattle.bind_book.specs.Stripe.{empty_stripes, stripes};

/// A sweep leaves in each row of each environment what was there, if it isn't broken for that environment.
pub fn law_swept()
    ensures { SweptByRow }
{}

/// What is put into a row of an environment that has a stripe stands in that row alone.
pub fn law_row_set()
    ensures { SetInOneRow }
{}

/// A page is bound in a stripe exactly if a row has a binding of it.
pub fn law_bound()
    ensures { UnboundInEachRow }
{}

/// A page that isn't bound in a stripe isn't once bindings are broken.
pub fn law_stays_unbound()
    ensures { StaysUnbound }
{}

/// Rows that are all empty make empty stripes.
pub fn law_empty_rows()
    ensures { (v : Version) (envs e row : ℕ) → stripes (empty_stripes v envs) e row ≡ None }
{}
