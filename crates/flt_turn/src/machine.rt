//! What the lock guards.
ghost use Rattle.std.specs.Prelude.{◌≡◌, ◌++◌, ◌∷◌, [], List};

/// What is specified of a machine that takes one operation after another.
///
/// These members bound the types of the lock. The step itself is in [`Stepper`], so that a machine may call stored functions: no
/// type can keep a fact about a machine whose bound mentions a function pointer.
pub trait Machine {
    /// What a machine starts from: plain data, which no step changes.
    type Start;

    /// An operation.
    type Op: Drop;

    // Some start. It is in the views of seats that were joined, and no clause reads it.
    ghost some_start: { Self.Start };
    // The start of the machine.
    ghost start: { Self → Self.Start };
    // The operations that may be asked of a machine with this start.
    ghost admits: { Self.Start → Self.Op → Type 0 };
    // The machine is in the state that these operations from this start lead to.
    ghost stands_for: { Self → Self.Start → List Self.Op → Type 0 };
}

/// A machine that makes its steps with something `W` of the caller's to write into: the bytes of a response, for example. So a step
/// returns only what is small and cheap to move. A machine may write different things, and has this trait for each of them.
///
/// A step has a context too, which the caller lends. It has the functions that the machine calls: all callers read them at the same
/// time, so they are kept outside the lock.
pub trait Stepper<W>: Machine {
    /// What all steps read.
    type Context;

    /// What a step returns: the small part of its answer.
    type Kind: Drop;

    /// The whole answer to an operation.
    type Whole;

    // The context has what a machine with this start needs.
    ghost serves: { Self.Context → Self.Start → Type 0 };
    // The operations that write this, or nothing.
    ghost suits: { Self.Op → Type 0 };
    // The whole answer, made of what a step returns and what it wrote.
    ghost whole: { Self.Kind → W → Self.Whole };
    // The answer to one more operation: a function of the start, the operations before and the operation.
    ghost answer: { Self.Start → List Self.Op → Self.Op → Self.Whole };

    /// Takes one operation. The start does not change.
    fn step(&mut self, context: &Self::Context, op: &Self::Op, out: &mut W) -> Self::Kind
        requires serves { serves context.now (Self.start self.old) }
        requires admitted { Self.admits (Self.start self.old) op.now }
        requires suits { suits op.now }
        ensures start { Self.start self.new ≡ Self.start self.old }
        ensures stands { (ops : List Self.Op) → Self.stands_for self.old (Self.start self.old) ops
            → Self.stands_for self.new (Self.start self.old) (ops ++ op.now ∷ []) }
        ensures answer { (ops : List Self.Op) → Self.stands_for self.old (Self.start self.old) ops
            → whole result out.new ≡ answer (Self.start self.old) ops op.now };
}
