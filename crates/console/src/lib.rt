#![tactic(auto)]

// What programs for people share: arguments and files into lent space, complaints and refusals on standard error, numbers of things in words.
// No contract can say which bytes are written or read: what is read is proved to lie within the space lent for it, and stored outputs say the rest.
mod args;
mod load;
mod refusal;
mod say;
mod scan;

pub use args::{arg, arg_count};
pub use load::{last_file, read, read_on};
pub use refusal::{FewSlots, refuse, tell, tell_long};
pub use say::{Counted, STDERR, STDIN, STDOUT, Stopped, end, fail, fail_of, tell_full};
pub use scan::find;
