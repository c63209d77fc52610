use login_base::Memory;
use std::alloc::Global;
use std::mem;

/// The most times that a text is repeated.
const MOST: usize = 100_000;

/// What the next byte belongs to.
#[derive(Clone, Copy)]
enum State {
    Text,
    Escape,
    High,
    Low(u8),
    Count,
}

#[derive(Drop)]
struct Reader {
    alloc: Global,
    bytes: Vec<u8>,
    state: State,
    /// How often the text that is being read stands, and what stands before it.
    count: usize,
    outer: Vec<u8>,
}

/// The value of a hexadecimal digit, and 0 for another byte.
fn digit(byte: u8) -> u8 {
    match byte {
        b'0'..=b'9' => byte - b'0',
        b'a'..=b'f' => byte - b'a' + 10,
        b'A'..=b'F' => byte - b'A' + 10,
        _ => 0,
    }
}

impl Reader {
    fn put(&mut self, byte: u8) -> Result<(), Memory> {
        self.bytes.push(byte)?;
        self.state = State::Text;
        Ok(())
    }

    fn begin_repeat(&mut self) {
        self.outer = mem::replace(&mut self.bytes, Vec::new(self.alloc));
        self.count = 0;
        self.state = State::Count;
    }

    fn end_repeat(&mut self) -> Result<(), Memory> {
        let outer = mem::replace(&mut self.outer, Vec::new(self.alloc));
        let text = mem::replace(&mut self.bytes, outer);
        for _ in 0..self.count {
            self.bytes.extend_from_slice(text.as_slice())?;
        }
        self.state = State::Text;
        Ok(())
    }

    fn escape(&mut self, byte: u8) -> Result<(), Memory> {
        match byte {
            b'r' => self.put(b'\r'),
            b'n' => self.put(b'\n'),
            b't' => self.put(b'\t'),
            b'x' => {
                self.state = State::High;
                Ok(())
            }
            b'(' => {
                self.begin_repeat();
                Ok(())
            }
            b')' => self.end_repeat(),
            _ => self.put(byte),
        }
    }

    /// A digit of the number, or the space behind it.
    fn count(&mut self, byte: u8) {
        match byte {
            b'0'..=b'9' => {
                let more = usize::from(byte - b'0');
                self.count = self.count.min(MOST) * 10 + more;
            }
            _ => {
                self.count = self.count.min(MOST);
                self.state = State::Text;
            }
        }
    }

    fn take(&mut self, byte: u8) -> Result<(), Memory> {
        match self.state {
            State::Text if byte == b'\\' => {
                self.state = State::Escape;
                Ok(())
            }
            State::Text => self.put(byte),
            State::Escape => self.escape(byte),
            State::High => {
                self.state = State::Low(digit(byte));
                Ok(())
            }
            State::Low(high) => self.put(high.wrapping_mul(16) | digit(byte)),
            State::Count => {
                self.count(byte);
                Ok(())
            }
        }
    }
}

/// The bytes that a line stands for.
pub fn bytes_of(alloc: Global, line: &[u8]) -> Result<Vec<u8>, Memory> {
    let mut reader = Reader {
        alloc,
        bytes: Vec::new(alloc),
        state: State::Text,
        count: 0,
        outer: Vec::new(alloc),
    };
    for byte in line {
        reader.take(*byte)?;
    }
    let Reader {
        alloc: _,
        bytes,
        state: _,
        count: _,
        outer: _,
    } = reader;
    Ok(bytes)
}
