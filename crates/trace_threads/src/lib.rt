//! Workers that play the lines of a trace beside each other on one running address space. A worker is a caller of the
//! space with the lines that it has to play; each worker plays its own in their order, on a thread of its own where one
//! can be made. A reader may rely on each line having one entry in the history that the closing gives, with its worker,
//! its number and its call, and on no other entry being there: `IsCollected` in `specs/Collected.antt`. Workers that
//! touch also put the page of each granted fault into a set: `AreTouchedPages` in `specs/Touching.antt`.
#![tactic(auto)]

mod calls;
mod gate;
mod laws;
mod playing;
mod touched;
mod touching;
mod trace;
mod worker;

pub use gate::{Gate, OpenGate};
pub use laws::plays_are_collected;
pub use playing::play_all;
pub use touched::play_touched_trace;
pub use touching::{TouchWorker, play_touching};
pub use trace::{cut_for, play_trace};
pub use worker::{Line, Worker, is_send_and_sync};
