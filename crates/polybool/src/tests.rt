//! What the built program can't show on real streams: areas of any size, writers that take nothing or fail to flush, readers
//! and writers that fail once and would then go on, both ranges of coordinates, and the texts and numbers of its faults.

use crate::reply::{Reply, write_reply};
use crate::run::{RunFault, run, run_wide};
use std::io;
use std::io::{ErrorKind, Read, Write};
use std::test::Fail;

const SQUARE: &str = "subject 0 0 10 0 10 10 0 10\noverlay subject evenodd list ccw points\n";

const SQUARE_REPLIES: &str = "ok\nshapes 1\nshape 1\ncontour 0 10 0 0 10 0 10 10\n";

// What a writer does wrong: once it is full, or when it is to send everything out.
#[derive(Clone, Copy, PartialEq, Eq)]
enum Trouble {
    TakesNothing,
    FailsToFlush,
}

// Holds so many bytes.
#[derive(Drop)]
struct Narrow {
    held: Vec<u8>,
    room: usize,
    trouble: Trouble,
}

impl Write for Narrow {
    fn write(&mut self, buf: &[u8]) -> io::Result<usize> {
        let count = usize::min(self.room, buf.len());
        self.held.extend_from_slice(&buf[..count])?;
        self.room -= count;
        Ok(count)
    }

    fn flush(&mut self) -> io::Result<()> {
        if self.trouble == Trouble::FailsToFlush {
            return Err(io::Error::from(ErrorKind::Other));
        }
        Ok(())
    }
}

// How many bytes a call gives or takes at most, and how many calls came.
#[derive(Clone, Copy)]
struct Calls {
    step: usize,
    made: usize,
    fails_at: usize,
}

impl Calls {
    // The next call, which fails where it is the one: all others go on.
    fn next(&mut self) -> io::Result<()> {
        self.made = self.made.saturating_add(1);
        if self.made == self.fails_at {
            return Err(io::Error::from(ErrorKind::Interrupted));
        }
        Ok(())
    }
}

// Gives a text, and fails once.
#[derive(Clone, Copy)]
struct Faltering<'a> {
    text: &'a [u8],
    calls: Calls,
}

impl<'a> Read for Faltering<'a> {
    fn read(&mut self, buf: &mut [u8]) -> io::Result<usize> {
        self.calls.next()?;
        let count = usize::min(self.calls.step, usize::min(self.text.len(), buf.len()));
        buf[..count].copy_from_slice(&self.text[..count]);
        self.text = &self.text[count..];
        Ok(count)
    }
}

// Takes bytes, and fails once.
#[derive(Drop)]
struct Stumbling {
    held: Vec<u8>,
    calls: Calls,
}

impl Write for Stumbling {
    fn write(&mut self, buf: &[u8]) -> io::Result<usize> {
        self.calls.next()?;
        let count = usize::min(self.calls.step, buf.len());
        self.held.extend_from_slice(&buf[..count])?;
        Ok(count)
    }

    fn flush(&mut self) -> io::Result<()> {
        self.calls.next()
    }
}

#[test]
fn reads_no_more_after_a_failed_read(rt: HostRuntime) {
    // (SQUARE has 28 bytes up to the first line's end and 68 in all: ten bytes come with each read, and the eighth finds the end)
    for (fails_at, line, replies) in [
        (1, 1, ""),
        (3, 1, ""),
        (4, 2, "ok\n"),
        (7, 2, "ok\n"),
        (8, 3, SQUARE_REPLIES),
    ] {
        let mut reader = Faltering {
            text: SQUARE.as_bytes(),
            calls: Calls {
                step: 10,
                made: 0,
                fails_at,
            },
        };
        let mut writer = Vec::new(rt.alloc());
        let answer = run(rt.alloc(), &mut reader, &mut writer);
        assert_eq!(rt; answer, Err(RunFault::Read { line }), "at {fails_at}");
        assert_eq!(rt; reader.calls.made, fails_at);
        assert_eq!(rt; writer.as_slice(), replies.as_bytes(), "at {fails_at}");
    }
}

#[test]
fn writes_no_more_after_a_failed_write(rt: HostRuntime) {
    // (the replies have 3 bytes in the first write and 45 in the next five, ten with each; then all is sent out)
    for (fails_at, line) in [(1, 1), (2, 2), (3, 2), (6, 2), (7, 2)] {
        let mut reader = SQUARE.as_bytes();
        let mut writer = Stumbling {
            held: Vec::new(rt.alloc()),
            calls: Calls {
                step: 10,
                made: 0,
                fails_at,
            },
        };
        let answer = run(rt.alloc(), &mut reader, &mut writer);
        let count = if fails_at == 1 {
            0
        } else {
            usize::min(3 + 10 * (fails_at - 2), SQUARE_REPLIES.len())
        };
        assert_eq!(rt; answer, Err(RunFault::Write { line }), "at {fails_at}");
        assert_eq!(rt; writer.calls.made, fails_at);
        assert_eq!(rt;
            writer.held.as_slice(),
            &SQUARE_REPLIES.as_bytes()[..count],
            "at {fails_at}"
        );
    }
}

#[test]
fn writes_areas(rt: HostRuntime) {
    for (area, want) in [
        (0, "area 0\n"),
        (-200, "area -200\n"),
        (i128::MIN, "area -170141183460469231731687303715884105728\n"),
    ] {
        let mut writer = Vec::new(rt.alloc());
        let reply: Reply<i32> = Reply::Area(area);
        let written = write_reply(&mut writer, 1, &reply);
        assert_eq!(rt; written, Ok(()), "at {area}");
        assert_eq!(rt; writer.as_slice(), want.as_bytes(), "at {area}");
    }
}

#[test]
fn answers_wide_requests(rt: HostRuntime) {
    let far =
        "subject 0 0 68719476735 0 68719476735 1 0 1\noverlay subject evenodd auto ccw corners\narea\nclip 0 68719476736\n";
    let replies =
        "ok\nshapes 1\nshape 1\ncontour 0 1 0 0 68719476735 0 68719476735 1\narea 137438953470\nerror 4 3\n";
    let mut reader = far.as_bytes();
    let mut writer = Vec::new(rt.alloc());
    let answer = run_wide(rt.alloc(), &mut reader, &mut writer);
    assert_eq!(rt; answer, Ok(()));
    assert_eq!(rt; writer.as_slice(), replies.as_bytes());
    reader = far.as_bytes();
    writer = Vec::new(rt.alloc());
    let narrow = run(rt.alloc(), &mut reader, &mut writer);
    assert_eq!(rt; narrow, Ok(()));
    assert_eq!(rt;
        writer.as_slice(),
        "error 1 3\nshapes 0\narea 0\nerror 4 3\n".as_bytes()
    );
}

#[test]
fn stops_where_a_writer_takes_nothing(rt: HostRuntime) {
    let open = "subject 0 0 10 0 10 10 0 10\noverlay subject evenodd list ccw points";
    for (text, trouble, room, want) in [
        (SQUARE, Trouble::TakesNothing, 5, "ok\nsh"),
        (SQUARE, Trouble::FailsToFlush, 1000, SQUARE_REPLIES),
        (open, Trouble::FailsToFlush, 1000, SQUARE_REPLIES),
    ] {
        let mut reader = text.as_bytes();
        let mut writer = Narrow {
            held: Vec::new(rt.alloc()),
            room,
            trouble,
        };
        let answer = run(rt.alloc(), &mut reader, &mut writer);
        assert_eq!(rt; answer, Err(RunFault::Write { line: 2 }), "at {text}");
        assert_eq!(rt; writer.held.as_slice(), want.as_bytes(), "at {text}");
    }
}

#[test]
fn names_its_faults(rt: HostRuntime) -> Result<(), Fail> {
    let read = RunFault::Read { line: 7 };
    let write = RunFault::Write { line: 0 };
    assert_eq!(rt;
        read.to_string(rt.alloc())?.as_str(),
        "read failed at line 7"
    );
    assert_eq!(rt;
        write.to_string(rt.alloc())?.as_str(),
        "write failed at line 0"
    );
    assert_eq!(rt; (read.code(), write.code()), (1, 2));
    Ok(())
}
