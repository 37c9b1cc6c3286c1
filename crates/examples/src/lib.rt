//! First proofs and devices to copy, which the gate proves. Only `messages` uses another crate than `no_std_io2`.
#![tactic(auto)]

ghost use Rattle.std.specs.Prelude.{◌≡◌, ◌++◌, IfOk};

pub mod ar;
mod checksum;
mod commands;
mod flash;
mod fronts;
mod heads;
mod inbox;
mod lengths;
mod messages;
mod narrow;
mod numbered;
mod objects;
mod one_retry;
mod readings;
mod serial;
mod summed;
mod tables;
mod tee;
mod uart;

pub use checksum::checksum_of;
pub use commands::{read_command, read_whole};
pub use flash::{Flash, FlashFile};
pub use fronts::read_front;
pub use heads::head;
pub use inbox::{Inbox, Source};
pub use lengths::pass_records;
pub use messages::{read_long_message, read_message};
pub use narrow::Narrow;
use no_std_io2::io::{BufWriter, Result, Write};
pub use numbered::Numbered;
pub use objects::{double_to, doubled, put_twice, take_front, take_pair};
pub use one_retry::send_with_one_retry;
pub use readings::{send_reading, write_reading, write_readings};
pub use serial::{Port, Serial};
pub use summed::{Summed, flush_summed, save_summed, write_summed};
pub use tables::{add_table, print_table, table_at};
pub use tee::Tee;
pub use uart::{Registers, Uart};

/// Writes a text through a buffer of 64 bytes, and returns the device with every byte out.
///
/// # Errors
/// Returns `OutOfMemory` if the vector cannot grow. It is then dropped.
pub fn save(device: Vec<u8>, text: &[u8]) -> Result<Vec<u8>>
    ensures { IfOk result (λ out. out.items ≡ device.items ++ text.now) }
{
    let mut w = BufWriter::<Vec<u8>, 64>::new(device);
    w.write_all(text)?;
    w.flush()?;
    match w.into_inner() {
        Ok(device) => Ok(device),
        Err(e) => Err(e.into()),
    }
}
