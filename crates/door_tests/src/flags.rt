// Flags, and a door that waits for them with its one link.
ghost use Rattle.std.specs.Prelude.{◌≡◌, ◌≤◌, [], None};

use load_io::{Door, Failed, Link, MemoryLink};
use std::sync::atomic::{AtomicBool, Ordering};
use std::thread;

/// How often a flag is looked for before it is given up. After each look other threads have the processor.
const MOST_LOOKS: u32 = 10_000_000;

/// What one thread raises and others wait for.
#[derive(Drop)]
pub struct Flag {
    up: AtomicBool,
}

impl Flag {
    pub fn new() -> Flag {
        Flag {
            up: AtomicBool::new(false),
        }
    }

    pub fn raise(&self) {
        self.up.store(true, Ordering::SeqCst);
    }

    pub fn is_up(&self) -> bool {
        self.up.load(Ordering::SeqCst)
    }

    /// Waits until the flag is up. Answers whether it rose in time.
    pub fn wait(&self) -> bool {
        for _ in 0..MOST_LOOKS {
            if self.is_up() {
                return true;
            }
            thread::yield_now();
        }
        false
    }
}

/// A link in memory with flags around its calls. Its contents are hidden.
#[derive(Drop)]
pub struct FlagLink<'a> {
    pub link: MemoryLink,
    /// What it is answered at last.
    pub answer: &'a str,
    /// Rises when the link is first read.
    pub begun: &'a Flag,
    /// What a read waits for. Where that does not rise in time, the input ends.
    pub due: &'a Flag,
    /// Rises when the answer is written.
    pub answered: &'a Flag,
}

impl Link for FlagLink<'_> {
    ghost left = { λ _. None };

    ghost content = { λ _. None };

    ghost read_faults = { λ link. link.link.input.calls.faults };

    ghost write_faults = { λ link. link.link.output.calls.faults };

    ghost references = { λ _. [] };

    fn read(&mut self, buf: &mut [u8]) -> Result<usize, Failed> {
        self.begun.raise();
        if !self.due.wait() {
            return Ok(0);
        }
        self.link.read(buf)
    }

    fn write(&mut self, piece: &[u8]) -> Result<usize, Failed> {
        let taken = self.link.write(piece)?;
        if self.link.written().ends_with(self.answer.as_bytes()) {
            self.answered.raise();
        }
        Ok(taken)
    }
}

/// A door with one link, which comes in when a flag is up. Where that does not rise in time, the door is closed.
#[derive(Drop)]
pub struct FlagDoor<'a> {
    due: &'a Flag,
    link: Option<FlagLink<'a>>,
    back: Option<FlagLink<'a>>,
    came: u32,
    lent: u32,
    ghost few: { lent ≤ came },
    ghost limit: { came ≤ 1 },
}

impl<'a> FlagDoor<'a> {
    pub fn new(due: &'a Flag, link: FlagLink<'a>) -> FlagDoor<'a> {
        FlagDoor {
            due,
            link: Some(link),
            back: None,
            came: 0,
            lent: 0,
        }
    }

    /// What was written to the link, where it was handed back.
    pub fn written(&self) -> &[u8] {
        match &self.back {
            Some(link) => link.link.written(),
            None => b"no link",
        }
    }
}

impl<'a> Door for FlagDoor<'a> {
    type Link = FlagLink<'a>;

    ghost coming = { λ _. None };

    ghost handed = { λ _. None };

    ghost lent = { λ door. door.lent };

    ghost faults = { λ _. 0 };

    fn next(&mut self) -> Result<Option<FlagLink<'a>>, Failed> {
        if self.came == 1 || !self.due.wait() {
            return Ok(None);
        }
        let Some(link) = self.link.take() else {
            return Ok(None);
        };
        self.came += 1;
        self.lent += 1;
        Ok(Some(link))
    }

    fn done(&mut self, link: FlagLink<'a>) {
        self.back = Some(link);
        self.lent -= 1;
    }
}
