//! What a run knows of earlier ones, and what it notes of a page for later ones. Its one idea: two values between who makes requests and
//! who keeps an index, so that neither knows the other. It has no function, and so no clause and no test.
#![tactic(auto)]

mod earlier;

pub use crate::earlier::{Earlier, IndexNote};
