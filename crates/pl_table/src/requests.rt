//! What a request is: who asks, what for, and what the rows of a table look at in it. Of tables it
//! knows their text alone, which an act brings.

mod act;
mod asking;
mod head;
mod known;
mod op;
mod partitions;
mod request;

pub use act::{Act, LONGEST_TEXT, MOST_LISTED, MOST_PULLED, MOST_STEPS};
pub use asking::Asking;
pub use head::Head;
pub use op::{Op, Role};
pub use partitions::Partitions;
pub use request::Request;
