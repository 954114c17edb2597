#![tactic(auto)]
// Header, point and relation lines: the first field that breaks its rule (5), the numbers of channels and receivers (6), and the
// values of a line. A line is 80 columns by value; nothing here knows of files.
pub mod cover;
pub mod fits;
pub mod point;
pub mod relation;
pub mod state;
mod straight;
pub mod table;
