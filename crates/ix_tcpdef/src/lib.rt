//! One TCP connection, plainly: the definition of its step, and a slow program that computes it.
#![tactic(auto)]

mod acknowledgement;
mod arrival;
mod body;
mod calls;
mod congestion;
mod connection;
mod copy;
mod flush;
mod frames;
mod fresh;
mod laws;
mod numbers;
mod opening;
mod states;
mod step;
mod timer;
mod types;
mod world;

pub use acknowledgement::DUPLICATES_BEFORE;
pub use arrival::{is_acceptable, span};
pub use body::MOST_HELD;
pub use congestion::{grown, initial_window, threshold_after_loss};
pub use connection::offered_window;
pub use fresh::unopened;
pub use laws::{
    arrivals_keep, numbers_stand_for_positions, numbers_stand_on, openings_stand,
    positions_go_onward, runs_are_sound, runs_begin_and_end,
};
pub use numbers::later;
pub use opening::{DEFAULT_MSS, FIRST_THRESHOLD, opens, send_mss};
pub use timer::{MOST_PROBE_EXPIRIES, backed_off, is_due};
pub use types::{
    Ask, BEHIND_HEADER, BEHIND_SYN, Cfg, Connection, HeldHead, HeldSegment, Input, Job, Left,
    Octets, Output, Outputs, Piece, State, Tcb, Told,
};
pub use world::{World1, step_plain};
