//! Lanes that pass the main seats of locks one after the other: there each gets its seats, and there each gives them back.
ghost use Rattle.std.specs.Prelude.{◌≡◌, ◌≤◌, ◌+◌, ◌++◌, ◌∷◌, List, length, vec_len};
ghost use Rattle.std.specs.Vec.{vec_capacity};
ghost use Rattle.flt_fork.specs.Passed.{HavePassed};

/// Locks that a lane `X` passes: it changes the main seats `M`, and what comes out of it is `Y`. A lane with its steps gets seats that
/// are split from the main ones; one that made them gives its seats back, and leaves its answers.
pub trait Passing<M, X, Y> {
    /// These lanes may pass, in this order.
    ghost can_pass: { Self → M → List X → Type 0 };

    /// The main seats before, a lane, the main seats after it, and what comes out.
    ghost passes: { Self → M → X → M → Y → Type 0 };

    fn pass(&self, main: &mut M, lane: X) -> Y
        requires can { (later : List X) × can_pass self.now main.old (lane ∷ later) }
        ensures passed { passes self.now main.old lane main.new result }
        ensures later { (later : List X) → can_pass self.now main.old (lane ∷ later) → can_pass self.now main.new later };
}

/// Lets lanes pass one after the other, and puts what comes out after what is there. No memory is taken: there is room for it.
pub fn pass_all<L: Passing<M, X, Y>, M, X: Drop, Y: Drop>(
    locks: &L,
    main: &mut M,
    lanes: Vec<X>,
    out: &mut Vec<Y>,
)
    requires can { L.can_pass locks.now main.old lanes.items }
    requires room { vec_len out.old + length lanes.items ≤ vec_capacity out.old }
    ensures passed { (more : List Y) × (out.new.items ≡ out.old.items ++ more)
        × HavePassed (L.passes locks.now) main.old lanes.items main.new more }
    ensures len { vec_len out.new ≡ vec_len out.old + length lanes.items }
    ensures capacity { vec_capacity out.new ≡ vec_capacity out.old }
{
    for lane in lanes {
        let passed = locks.pass(main, lane);
        out.push_reserved(passed);
    }
}
