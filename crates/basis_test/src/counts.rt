// How many trials of each part passed, and how many did not.
use std::io;

#[derive(Clone, Copy)]
pub enum Part {
    Drawn,
    Added,
    Interpolated,
    Wired,
    Reduced,
    Refused,
}

#[derive(Clone, Copy)]
struct Count {
    passed: u64,
    failed: u64,
}

impl Count {
    // The counts stay far below 2^64, and saturating asks for no proof of it.
    fn raise(&mut self, passed: bool) {
        if passed {
            self.passed = self.passed.saturating_add(1);
        } else {
            self.failed = self.failed.saturating_add(1);
        }
    }
}

#[derive(Clone, Copy)]
pub struct Counts {
    parts: [Count; 6],
    sum: Count,
}

impl Counts {
    pub fn new() -> Counts {
        let none = Count {
            passed: 0,
            failed: 0,
        };
        Counts {
            parts: [none; 6],
            sum: none,
        }
    }

    pub fn count(&mut self, part: Part, passed: bool) {
        self.parts[part as usize].raise(passed);
        self.sum.raise(passed);
    }

    // All failures so far.
    pub fn failures(&self) -> u64 {
        self.sum.failed
    }

    // Whether nothing was tried.
    pub fn is_empty(&self) -> bool {
        self.sum.passed == 0 && self.sum.failed == 0
    }

    pub fn print(&self, rt: &impl Print) -> io::Result<()> {
        const NAMES: [&str; 6] = [
            "bases drawn up",
            "last points added",
            "interpolants",
            "wiring lists",
            "remainders",
            "lists refused",
        ];
        for (name, part) in NAMES.iter().zip(&self.parts) {
            println!(rt; "{name}: {} passed, {} failed", part.passed, part.failed)?;
        }
        println!(rt;
            "sum: {} passed, {} failed",
            self.sum.passed, self.sum.failed
        )
    }
}
