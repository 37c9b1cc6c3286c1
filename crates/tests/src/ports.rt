// The devices of `examples` in front of ports, over hardware that keeps what it gets.
ghost use Rattle.std.specs.Prelude.{◌&&◌, ◌==◌, ◌%◌, nat_lt};

use examples::{Inbox, Port, Registers, Serial, Source, Uart};
use no_std_io2::ghost_bytes::GhostBytes;
use no_std_io2::io::{BufWriter, ErrorKind, Read, Write};
use std::test::Fail;

// A chip with room for three bytes, which is ready at every second look.
#[derive(Drop)]
struct Chip {
    bytes: [u8; 3],
    len: usize,
    looks: u8,
    sent: GhostBytes,
}

impl Registers for Chip {
    ghost sent = { λ c. c.sent.bytes };

    ghost ready = { λ c. nat_lt c.len 3 && ((c.looks % 2) == 0) };

    fn is_ready(&mut self) -> bool {
        self.looks = self.looks.saturating_add(1);
        self.len < 3 && self.looks % 2 == 0
    }

    fn put(&mut self, byte: u8) {
        if self.len < 3 {
            self.bytes[self.len] = byte;
            self.len += 1;
        }
        self.sent.add(&[byte]);
    }
}

// A port over a chip that looks `looks` times.
fn serial(looks: u32) -> Serial<Uart<Chip>> {
    let registers = Chip {
        bytes: *b"---",
        len: 0,
        looks: 0,
        sent: GhostBytes::new(),
    };
    Serial {
        port: Uart { registers, looks },
    }
}

// A line that sends a byte twice, drops one, or says that the hardware took a byte that it refused.
#[test]
fn a_serial_line_sends_each_byte_once(rt: HostRuntime) -> Result<(), Fail> {
    let mut line = serial(2);
    let mut rest = b"abcd".as_slice();
    let e = line.write_rest(&mut rest).err().ok_or("sent")?;
    assert!(rt; e.kind() == ErrorKind::WouldBlock);
    assert!(rt; rest == b"d".as_slice());
    assert!(rt; line.port.registers.bytes == *b"abc");

    let mut line = serial(1); // it looks once, and the chip is not ready then
    assert!(rt; line.write(b"a").is_err());
    assert!(rt; line.write(b"a")? == 1);
    assert!(rt; line.port.registers.bytes == *b"a--");
    Ok(())
}

// A byte that the chip refused is asked for again: two looks for each of three bytes, and two for the fourth.
#[test]
fn a_full_chip_is_asked_once(rt: HostRuntime) -> Result<(), Fail> {
    let mut w = BufWriter::<_, 8>::new(serial(2));
    w.write_all(b"abcd")?;
    assert!(rt; w.flush().is_err());
    assert!(rt; w.buffer() == b"d".as_slice());
    assert!(rt; w.get_ref().port.registers.looks == 8);
    Ok(())
}

// The receiving half of a port, which has `abc`, and no byte at its second call.
#[derive(Drop)]
struct Wire {
    calls: u8,
    given: GhostBytes,
}

impl Source for Wire {
    ghost given = { λ w. w.given.bytes };

    fn receive(&mut self) -> Option<u8> {
        self.calls = self.calls.saturating_add(1);
        let byte = match self.calls {
            1 => b'a',
            3 => b'b',
            4 => b'c',
            _ => return None,
        };
        self.given.add(&[byte]);
        Some(byte)
    }
}

// An inbox that loses a byte, gives one twice, or takes a spent budget for the end.
#[test]
fn an_inbox_gives_what_its_source_gave(rt: HostRuntime) -> Result<(), Fail> {
    let source = Wire {
        calls: 0,
        given: GhostBytes::new(),
    };
    let mut inbox = Inbox { source, turns: 5 };
    let mut buf = [b'-'; 4];
    assert!(rt; inbox.read(&mut buf)? == 1);
    assert!(rt; buf == *b"a---");
    let e = inbox.read(&mut buf).err().ok_or("read")?;
    assert!(rt; e.kind() == ErrorKind::WouldBlock);
    let mut two = [0u8; 2];
    inbox.read_exact(&mut two)?;
    assert!(rt; two == *b"bc");
    let e = inbox.read(&mut buf).err().ok_or("read")?;
    assert!(rt; e.kind() == ErrorKind::TimedOut);
    assert!(rt; inbox.read(&mut buf)? == 0);
    Ok(())
}
