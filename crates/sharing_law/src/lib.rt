//! The laws of shared pages, for every image, schedule and number of ticks. They stand here in the order in which
//! `docs/MODEL.md` tells of them: by what right bindings stand and items are given, that the kernel's book and the
//! environments have one version and agree, why the bytes of a page change, how much environments send, and that register
//! 0 of each is 0.
#![tactic(auto)]

// `law_live`, `law_stores`, `law_left`: by what right bindings stand, and bytes are stored and left.
// `law_given_licence`, `law_feed_licence`: every item is licensed where it is given.
mod right;
// `law_licence`: these and the causes of change as one law.
mod licence;
// `law_versions`, `law_rows`: the image's version is that of the book and the environments, and says in which rows
// bindings stand.
mod versions;
// `law_agreement`, `law_bound`, `law_pages_end`, `law_claims`, `law_claim_pages`, `law_claims_apart`, `law_backups`: the
// book and the environments agree on pages, bindings, claims and backups.
mod agreement;
// `law_kept`, `law_leads`: the book's guaranteed mappings are the environments' guaranteed pages, and VPNs lead alike.
mod kept;
// `law_lines`: who owns an interrupt line took it.
mod lines;
// `law_item_change`, `law_guaranteed_change`, `law_guaranteed_in_tick`, `law_allocated_change`, `law_zeros`,
// `law_allocated_in_tick`, `law_zeros_in_tick`: why the bytes of a page change.
mod change;
// `law_guaranteed_whole`, `law_whole`, `law_whole_copies`: pages have all their bytes.
mod whole;
// `law_sent`: how much environments send.
mod sent;
// `law_register_zero`: register 0 is 0.
mod registers;

pub use agreement::{
    law_agreement, law_backups, law_bound, law_claim_pages, law_claims, law_claims_apart,
    law_pages_end,
};
pub use change::{
    law_allocated_change, law_allocated_in_tick, law_guaranteed_change, law_guaranteed_in_tick,
    law_item_change, law_zeros, law_zeros_in_tick,
};
pub use kept::{law_kept, law_leads};
pub use licence::law_licence;
pub use lines::law_lines;
pub use registers::law_register_zero;
pub use right::{law_feed_licence, law_given_licence, law_left, law_live, law_stores};
pub use sent::law_sent;
pub use versions::{law_rows, law_versions};
pub use whole::{law_guaranteed_whole, law_whole, law_whole_copies};
