// The lines of frames over a device that fails on command.
use crate::{LINE, print_frames};
use framing::FrameReader;
use io_bench::{Act, Faulty};
use line_log::LineLog;
use no_std_io2::io::{Cursor, ErrorKind};
use std::test::Fail;

// A flush behind each line: the third call of the device is then the second line's, and not the flush at the end.
#[test]
fn the_device_is_flushed_once(rt: HostRuntime) -> Result<(), Fail> {
    let acts = vec![in rt.alloc();
        Act::Take(9),
        Act::Take(9),
        Act::Fail(ErrorKind::BrokenPipe),
    ]?;
    let device = Faulty::new(Vec::<u8>::new(rt.alloc()), acts);
    let mut frames = FrameReader::<_, 512>::new(Cursor::new(*b"\x01\0\0\0a\x02\0\0\0bc"));
    let mut lines = LineLog::<_, LINE>::new(device);
    assert!(rt; print_frames(&mut frames, &mut lines).is_err());
    assert!(rt; lines.get_ref().get_ref().as_slice() == b"a\nbc\n".as_slice());
    Ok(())
}
