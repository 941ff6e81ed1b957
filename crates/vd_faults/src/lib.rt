//! How a device in memory fails, and what a crash leaves of it: rules that fail its calls, a log that stops, and choosers of crash
//! images.
#![tactic(auto)]

mod by_list;
mod chooser;
mod failures;
mod image;
mod mixed;
mod rule;
mod rules;
mod tape;
mod versions;

pub use by_list::ByList;
pub use chooser::{Chooser, Kept, Lost};
pub use image::leave_image;
pub use mixed::Mixed;
pub use rule::{Keep, Rule};
pub use rules::Rules;
pub use tape::Tape;
pub use versions::Versions;
