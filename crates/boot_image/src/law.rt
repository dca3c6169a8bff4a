//! The laws of the definitions: that an image without a fault is within the limits, and how what a file
//! means is tied to how it is spelled.
ghost use Rattle.std.specs.Prelude.{◌≡◌, ◌≤◌, ℕ, List, None, length};
ghost use Rattle.aegis_limits.specs.Limits.{most_environments, most_pages};
ghost use Rattle.boot_image.specs.ImageValue.{ImageValue, IsBytes, image_of};
ghost use Rattle.boot_image.specs.ImageFaults.{image_fault};
ghost use Rattle.boot_image.specs.Accepted.{IsAccepted};
ghost use Rattle.boot_image.specs.Spelling.{AreBodies, PlanValue, bodies_of, image_text, image_with, plan_of};

/// An image of bytes that has no fault is within the limits. `docs/FORMATS.md`, "Image", has them.
pub fn law_accepted()
    ensures { (file : List ℕ) → IsBytes file → image_fault file ≡ None → IsAccepted (image_of file) }
{}

/// An image within the limits of its version is within those of all versions.
pub fn law_accepted_is_within()
    ensures pages { (image : ImageValue) → IsAccepted image → image.pages ≤ most_pages }
    ensures programs { (image : ImageValue) → IsAccepted image → length image.programs ≤ most_environments }
{}

/// A file without a fault is spelled from its plan and its bodies, and means what they do.
pub fn law_spelled()
    ensures text { (file : List ℕ) → IsBytes file → image_fault file ≡ None → file ≡ image_text (plan_of file) (bodies_of file) }
    ensures image { (file : List ℕ) → IsBytes file → image_fault file ≡ None → image_of file ≡ image_with (plan_of file) (bodies_of file) }
{}

/// What is spelled from a plan and bodies within the limits has no fault, and is read as what they mean.
pub fn law_reads_what_is_spelled()
    ensures { (plan : PlanValue) (bodies : List (List ℕ)) → AreBodies plan.entries bodies → IsAccepted (image_with plan bodies)
        → (image_fault (image_text plan bodies) ≡ None) × (image_of (image_text plan bodies) ≡ image_with plan bodies) }
{}
