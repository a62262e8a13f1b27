//! What a line of a script is, what its headings and names are, and for which reason it is refused first.
#![tactic(auto)]

mod check;
mod checked;
mod command;
mod env;
mod fault;
mod forms;
mod headings;
mod heads;
mod laws;
mod named;
mod reading;

pub use check::check_line;
pub use checked::{Checked, CheckedQuery};
pub use command::{Command, Line, Query};
pub use env::Env;
pub use fault::LineFault;
pub use forms::Kind;
pub use heads::{Heads, Setting};
pub use laws::{columns_of_lines, commands_are_of_forms};
pub use named::Named;
pub use reading::read_line;
pub use sf_text::ReadText;
