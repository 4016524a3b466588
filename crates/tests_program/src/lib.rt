//! Tests of the program, by public calls: of `feed_csv`, `script_lines`, `script_server` and `stinger_server` with
//! its drives. They stand in one crate above all these. A crate with tests of its own is proved once more for them, and
//! each crate up here first loads what all below state.
#![tactic(auto)]

#[cfg(test)]
mod calls;
#[cfg(test)]
mod server;
