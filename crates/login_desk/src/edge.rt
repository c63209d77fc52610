ghost use Rattle.std.specs.Prelude.{None};

use login_base::{Put, Read, Sink, Source};
use std::fs::File;
use std::io;

/// What a source is read from.
#[derive(Drop)]
pub enum Opened<R> {
    /// Nothing is there to be read.
    Nothing,
    Reader(R),
    /// It couldn't be opened: each read fails.
    Unopened,
}

impl<R: io::Read> io::Read for Opened<R> {
    fn read(&mut self, buffer: &mut [u8]) -> io::Result<usize> {
        match self {
            Opened::Nothing => Ok(0),
            Opened::Reader(reader) => reader.read(buffer),
            Opened::Unopened => Err(io::Error::from(io::ErrorKind::NotFound)),
        }
    }
}

/// The file of this name.
pub fn open_file(rt: &HostRuntime, path: &str) -> Opened<File> {
    match File::open(rt, path) {
        Ok(file) => Opened::Reader(file),
        Err(_) => Opened::Unopened,
    }
}

/// A reader as a source. It tells no content.
#[derive(Drop)]
pub struct Input<R> {
    reader: R,
    faults: u64,
    ends: u64,
}

impl<R> Input<R> {
    pub fn new(reader: R) -> Input<R> {
        Input {
            reader,
            faults: 0,
            ends: 0,
        }
    }
}

impl<R: io::Read> Source for Input<R> {
    ghost left = { λ _. None };

    ghost faults = { λ s. s.faults };

    ghost ends = { λ s. s.ends };

    fn read(&mut self, buffer: &mut [u8]) -> Read {
        match self.reader.read(buffer) {
            Ok(0) if !buffer.is_empty() => {
                self.ends = self.ends.saturating_add(1);
                Read::Got(0)
            }
            Ok(count) => Read::Got(count),
            Err(_) => {
                self.faults = self.faults.saturating_add(1);
                Read::Failed
            }
        }
    }
}

/// A writer as a sink. It tells no content.
#[derive(Drop)]
pub struct Output<W> {
    writer: W,
    faults: u64,
}

impl<W> Output<W> {
    pub fn new(writer: W) -> Output<W> {
        Output { writer, faults: 0 }
    }
}

impl<W: io::Write> Sink for Output<W> {
    ghost written = { λ _. None };

    ghost faults = { λ s. s.faults };

    fn put(&mut self, bytes: &[u8]) -> Put {
        match self.writer.write_all(bytes) {
            Ok(()) => Put::All,
            Err(_) => {
                self.faults = self.faults.saturating_add(1);
                Put::Failed
            }
        }
    }
}

#[cfg(test)]
mod tests {
    use super::*;
    use std::test::Fail;

    /// Fails at each call.
    #[derive(Drop)]
    struct Broken;

    impl io::Read for Broken {
        fn read(&mut self, _buffer: &mut [u8]) -> io::Result<usize> {
            Err(io::Error::from(io::ErrorKind::Other))
        }
    }

    impl io::Write for Broken {
        fn write(&mut self, _bytes: &[u8]) -> io::Result<usize> {
            Err(io::Error::from(io::ErrorKind::Other))
        }

        fn flush(&mut self) -> io::Result<()> {
            Ok(())
        }
    }

    #[test]
    fn faults_and_ends_are_counted(rt: HostRuntime) -> Result<(), Fail> {
        let mut buffer = [0u8; 4];
        let mut input = Input::new(b"abcde".as_slice());
        assert!(rt; input.read(&mut buffer) == Read::Got(4));
        assert!(rt; input.read(&mut []) == Read::Got(0));
        assert_eq!(rt; input.ends, 0);
        assert!(rt; input.read(&mut buffer) == Read::Got(1));
        assert!(rt; input.read(&mut buffer) == Read::Got(0));
        assert_eq!(rt; input.ends, 1);
        assert_eq!(rt; input.faults, 0);
        let mut broken = Input::new(Broken);
        assert!(rt; broken.read(&mut buffer) == Read::Failed);
        assert_eq!(rt; broken.faults, 1);
        let mut output = Output::new(Vec::new(rt.alloc()));
        assert!(rt; output.put(b"ab") == Put::All);
        assert!(rt; output.put(b"c") == Put::All);
        assert_eq!(rt; output.writer.as_slice(), b"abc".as_slice());
        let mut unopened = Input::new(Opened::<Broken>::Unopened);
        assert!(rt; unopened.read(&mut buffer) == Read::Failed);
        assert_eq!(rt; unopened.faults, 1);
        let mut nothing = Input::new(Opened::<Broken>::Nothing);
        assert!(rt; nothing.read(&mut buffer) == Read::Got(0));
        assert_eq!(rt; nothing.ends, 1);
        let mut broken = Output::new(Broken);
        assert!(rt; broken.put(b"ab") == Put::Failed);
        assert_eq!(rt; broken.faults, 1);
        Ok(())
    }
}
