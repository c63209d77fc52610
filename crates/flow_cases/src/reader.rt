use flow_tree::{Body, Cond, Exec, Kind, Requirement, Truths};
use login_base::{Memory, Name, Sequence, read_name};
use sqlite_items::Items;
use std::alloc::Global;
use std::mem;

/// What the next id is.
#[derive(Clone, Copy)]
enum What {
    Leaf,
    Flow,
    Condition,
    Level(u32),
}

/// A subflow that hasn't ended yet, with what stands before it.
#[derive(Drop)]
struct Frame {
    id: Name,
    requirement: Requirement,
    outer: Items<Exec>,
}

#[derive(Drop)]
struct Reader {
    alloc: Global,
    stack: Vec<Frame>,
    execs: Items<Exec>,
    what: What,
    requirement: Requirement,
    id: Vec<u8>,
}

impl Reader {
    fn add(&mut self, id: Name, body: Body) -> Result<(), Memory> {
        let requirement = self.requirement;
        self.execs.push(Exec {
            id,
            requirement,
            body,
        })?;
        Ok(())
    }

    fn enter(&mut self, id: Name) -> Result<(), Memory> {
        let outer = mem::replace(&mut self.execs, Items::new(self.alloc));
        let requirement = self.requirement;
        self.stack.push(Frame {
            id,
            requirement,
            outer,
        })?;
        Ok(())
    }

    fn leave(&mut self) -> Result<(), Memory> {
        let Some(frame) = self.stack.pop() else {
            return Ok(());
        };
        let Frame {
            id,
            requirement,
            outer,
        } = frame;
        let inner = mem::replace(&mut self.execs, outer);
        self.execs.push(Exec {
            id,
            requirement,
            body: Body::Sub(inner),
        })?;
        Ok(())
    }

    /// Ends the id that is being read, if any.
    fn end(&mut self) -> Result<(), Memory> {
        let name = read_name(self.alloc, self.id.as_slice())?;
        self.id.clear();
        let Some(id) = name else {
            return Ok(());
        };
        let what = self.what;
        self.what = What::Leaf;
        match what {
            What::Leaf => self.add(id, Body::Auth(Kind::Password)),
            What::Flow => self.enter(id),
            What::Condition => self.add(id, Body::Cond(Cond::Configured)),
            What::Level(level) => self.add(id, Body::Cond(Cond::Level { level, age: 60 })),
        }
    }

    fn mark(&mut self, byte: u8) -> Result<(), Memory> {
        self.end()?;
        match byte {
            b'(' => self.what = What::Flow,
            b'?' => self.what = What::Condition,
            b'!' => self.what = What::Level(1),
            b'#' => self.what = What::Level(2),
            b'R' => self.requirement = Requirement::Required,
            b'A' => self.requirement = Requirement::Alternative,
            b'C' => self.requirement = Requirement::Conditional,
            b'D' => self.requirement = Requirement::Disabled,
            b')' => return self.leave(),
            _ => {}
        }
        Ok(())
    }

    fn take(&mut self, byte: u8) -> Result<(), Memory> {
        if matches!(byte, b'a'..=b'z' | b'0'..=b'9' | b'-') {
            self.id.push(byte)?;
            return Ok(());
        }
        self.mark(byte)
    }
}

/// The executions of a text.
pub fn execs_of(alloc: Global, text: &[u8]) -> Result<Items<Exec>, Memory> {
    let mut reader = Reader {
        alloc,
        stack: Vec::new(alloc),
        execs: Items::new(alloc),
        what: What::Leaf,
        requirement: Requirement::Required,
        id: Vec::new(alloc),
    };
    for byte in text {
        reader.take(*byte)?;
    }
    reader.end()?;
    let Reader {
        alloc: _,
        stack: _,
        execs,
        what: _,
        requirement: _,
        id: _,
    } = reader;
    Ok(execs)
}

/// The truths of a text, ids with commas between them.
pub fn truths_of(alloc: Global, text: &[u8]) -> Result<Truths, Memory> {
    let mut held = Sequence::new(alloc);
    for id in text.split(|byte| *byte == b',') {
        if let Some(name) = read_name(alloc, id)? {
            held.push(name)?;
        }
    }
    Ok(Truths { held })
}
