//! A machine whose step is so short that a run times the lock.
ghost use Rattle.std.specs.Prelude.{◌≡◌, ◌+◌, ◌%◌, ◌^◌, length};

use flt_turn::{Machine, Stepper};

/// Counts its operations, and does not read them.
#[derive(Drop)]
pub struct Counter {
    count: u64,
}

impl Counter {
    /// It has counted nothing.
    pub fn new() -> Counter
        ensures { result.count ≡ 0 }
    {
        Counter { count: 0 }
    }

    /// Counts one operation more, and returns how many there were.
    pub fn add(&mut self) -> u64
        ensures count { self.new.count ≡ (self.old.count + 1) % 2 ^ 64 }
        ensures told { result ≡ self.new.count }
    {
        self.count = self.count.wrapping_add(1);
        self.count
    }
}

impl Machine for Counter {
    type Start = u64;

    type Op = u32;

    ghost some_start = { 0 };

    ghost start = { λ _. 0 };

    ghost admits = { λ _ _. Unit {0} };

    ghost stands_for = { λ counter _ ops. counter.count ≡ length ops % 2 ^ 64 };
}

impl Stepper<()> for Counter {
    type Context = ();

    type Kind = u64;

    type Whole = u64;

    ghost serves = { λ _ _. Unit {0} };

    ghost suits = { λ _. Unit {0} };

    ghost whole = { λ count _. count };

    ghost answer = { λ _ ops _. (length ops + 1) % 2 ^ 64 };

    fn step(&mut self, _context: &(), _op: &u32, _out: &mut ()) -> u64 {
        self.add()
    }
}
