//! What is under the lock: the machine with the journal of its operations.
ghost use Rattle.std.specs.Prelude.{◌≡◌, ◌<◌, List, length};
ghost use Rattle.std.specs.Vec.{vec_capacity};
ghost use Rattle.flt_turn.specs.Journal.{ops_of};

use crate::machine::{Machine, Stepper};

/// An operation, and the number of the seat that asked for it.
#[derive(Drop)]
pub struct Entry<O> {
    pub lane: u32,
    pub op: O,
}

/// The machine stands for its start and the operations of the journal, at every moment.
#[derive(Drop)]
pub struct Vault<M: Machine> {
    /// The operations in the order in which the machine took them.
    pub journal: Vec<Entry<M::Op>>,
    pub machine: M,
    ghost stands: { ∥ M.stands_for machine (M.start machine) (ops_of journal.items) ∥₁ },
}

impl<M: Machine> Vault<M> {
    ghost use Rattle.flt_turn.specs.Vaults.{TakesCall};

    /// Makes the machine's step, and records it in room that the journal has reserved.
    #[inline(always)]
    pub(crate) fn apply<W>(
        &mut self,
        context: &M::Context,
        lane: u32,
        op: M::Op,
        out: &mut W,
    ) -> M::Kind
    where
        M: Stepper<W>,
        requires serves { M.Stepper.serves context.now (M.start self.old.machine) }
        requires admitted { M.admits (M.start self.old.machine) op }
        requires suits { M.Stepper.suits op }
        requires room { length self.old.journal.items < vec_capacity self.old.journal }
        ensures takes { TakesCall lane op self.old self.new }
        ensures answer { M.Stepper.whole result out.new ≡ M.Stepper.answer (M.start self.old.machine) (ops_of self.old.journal.items) op }
    {
        let kind = self.machine.step(context, &op, out);
        self.journal.push_reserved(Entry { lane, op });
        kind
    }
}
