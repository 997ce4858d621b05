// Sheets: the formulas and rules that are asked of a log.
#![tactic(auto)]

pub mod answers;
mod fields;
mod formulas;
mod kinds;
mod limits;
mod refused;
mod sheets;
mod windows;

pub use answers::{ReadRefusal, Refusal, WriteRefusal};
pub use fields::Fields;
pub use formulas::Formula;
pub use limits::{Limits, SERVER};
pub use sheets::Sheet;
pub use windows::Window;
