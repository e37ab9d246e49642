// What the test programs share: reading numbers and lists, patterns and checksums of tables, laying out. Nothing here prints: no contract
// can say what is written, so each program prints by its own functions.
#![tactic(auto)]

pub mod input;
pub mod layouts;
pub mod pattern;
