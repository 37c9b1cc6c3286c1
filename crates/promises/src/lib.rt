//! README's promises, and what docs/MODEL.md says in its tables, as proved callers. Nothing calls these functions. The
//! contract of each one says a fact in the words of a user, and its body makes the calls that the fact is about. A
//! contract is as strong as what a caller can prove from it. Of a call through a box or a tower a caller knows what the
//! ghost members say, and no clause of the call's own; so these callers fail if a member that they need says less.
//! README names the functions that are public.
#![tactic(auto)]

mod adaptors;
mod bounds;
mod boxed_memory;
mod bytes;
mod calls;
mod counts;
mod delivery;
mod devices;
mod lines;
mod memory;
mod objects;
mod reads;
mod rooms;
mod runs;
mod steady;
mod survival;
mod system;
mod towers;
mod values;

pub use bounds::{
    bounds_the_reads_of_a_run, bounds_the_writes_of_a_line_write,
    bounds_the_writes_of_a_line_write_all,
};
pub use bytes::{
    continues_with_the_rest, keeps_every_byte, keeps_every_byte_in_a_tower,
    keeps_every_byte_of_a_flush, keeps_every_byte_of_a_write_all, keeps_what_is_out,
};
pub use calls::{
    bounds_the_writes_of_a_run, makes_no_call_if_it_fits, stops_at_a_fault_of_a_flush,
    stops_at_a_fault_of_a_write,
};
pub use delivery::{empties_a_tower, hands_back_the_device, holds_nothing_after_a_flush};
pub use lines::{holds_no_newline, holds_no_newline_in_a_box, keeps_a_line_state};
pub use reads::{
    gives_the_next_piece, gives_what_comes_next, gives_what_comes_next_in_a_tower,
    goes_to_its_target, moves_inside_its_buffer,
};
pub use runs::accepts_by_its_replies;
pub use survival::{puts_behind_its_acts, survives_its_cut};
