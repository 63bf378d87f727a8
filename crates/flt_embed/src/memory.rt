//! The fault memory as a value: its calls, one at a time.
ghost use Rattle.std.specs.Prelude.{◌≡◌, ◌≢◌, ◌*◌, ◌<◌, ◌≤◌, IfErr, IfNone, IfOk, IfSome, IsTrue, OnOk, length};
ghost use Rattle.std.specs.Vec.{vec_capacity};
ghost use Rattle.flt_config.specs.Durable.{Fits};
ghost use Rattle.flt_dcm.specs.Unit.{IsAdmitted, Takes};
ghost use Rattle.flt_did.specs.Serves.{Serves};
ghost use Rattle.flt_did.specs.Table.{dids_of};
ghost use Rattle.flt_life_model.specs.Actions.{action_of};
ghost use Rattle.flt_life_model.specs.Answers.{Told, byte_room, told_with};
ghost use Rattle.flt_life_model.specs.declared.life.Boot.TheVariants.{Refused};
ghost use Rattle.flt_queue.specs.Queue as jobs;
ghost use Rattle.flt_report.specs.Answer.{step_line};
ghost use Rattle.flt_embed.specs.declared.fault.Fault.TheVariants.{Text};
ghost use Rattle.flt_embed.specs.declared.memory.Stage.TheVariants.{Dark, Pending, Up};
ghost use Rattle.flt_restore.specs.declared.fault.StartFault.TheVariants.{Flash};

use crate::fault::Fault;
use crate::operation::Operation;
use crate::storing::{Begun, Settled, copy_of, drain_on, get_on, put_on, restart, save_on, start};
use flt_config::{ValidConfig, fits};
use flt_dcm::{ReplyKind, Unit, UnitState};
use flt_dem::Dem;
use flt_did::{DID_ROWS, DidTable};
use flt_life_model::{Action, Answer, Boot, LaneReplies, StepAnswer, action_of, are_possible};
use flt_lives::Buffers;
use flt_model::{Op, RESPONSE, ReplyOf};
use flt_queue::{JobQueue, QueueOp};
use flt_report::{put_boot, put_step};
use flt_step::{Part, Step};
use flt_store::StartFault;
use std::alloc::Global;

/// How many bytes a line has at most.
const LINE: usize = 4096;

/// Whether the fault memory runs.
#[derive(Clone, Copy, Debug, PartialEq, Eq)]
pub enum Stage {
    /// It runs.
    Up,
    /// It runs, and the caller has operations to carry out.
    Pending,
    /// It does not run, since its flash failed.
    Dark,
    /// It does not run, since the image was refused.
    Refused,
}

/// A fault memory over an image that a caller keeps, of which it has a copy.
#[derive(Drop)]
pub struct Memory {
    unit: UnitState,
    queue: JobQueue,
    config: ValidConfig,
    image: Vec<u8>,
    buffers: Buffers,
    replies: LaneReplies,
    line: Vec<u8>,
    operations: Vec<Operation>,
    stage: Stage,
    // How the stage is once the operations are done.
    then: Stage,
    generation: u32,
    life: u32,
    ghost same: { unit.dem.durable.config ≡ config },
    ghost blocks: { queue.blocks ≡ config.blocks },
    ghost size: { length image.items ≡ 64 * config.pages },
    ghost answers: { 1 ≤ vec_capacity replies.answers },
    ghost responses: { 1040 ≤ byte_room replies.responses },
}

/// The image of a flash of this many pages a sector: the bytes that are given, or blank ones.
fn image_from(alloc: Global, pages: u16, image: Option<&[u8]>) -> Result<Vec<u8>, Fault>
    ensures size { IfOk result (λ image. length image.items ≡ 64 * pages) }
    ensures same_bytes { IfOk result (λ made. IfSome image.entry (λ given. made.items ≡ given.now)) }
{
    let size = 64 * pages as usize;
    match image {
        None => Ok(Vec::from_elem(alloc, 255u8, size)?),
        Some(image) => {
            if image.len() != size {
                return Err(Fault::Size);
            }
            Ok(copy_of(alloc, image)?)
        }
    }
}

/// Whether the table has each data identifier of the configuration.
fn serves(dids: &DidTable<DID_ROWS>, config: &ValidConfig) -> bool
    ensures { IsTrue result → Serves (dids_of dids.now) config.now.events.items }
{
    dids.serves(&config.config().events)
}

impl Memory {
    ghost use Rattle.flt_embed.specs.Made.{HandsOut, IsStepMade, IsOfQueue, ChangesNothing, IsOfMachine, IsSaved, QueueTakes};

    /// Makes the power come, over the given image, or over a blank one. The bytes of an image are those of its two sectors, page after
    /// page, sector 0 first. The table has each data identifier of the configuration.
    pub fn open(
        alloc: Global,
        config: &ValidConfig,
        image: Option<&[u8]>,
        dids: DidTable<DID_ROWS>,
    ) -> Result<Memory, Fault>
        requires { Serves (dids_of dids) config.now.events.items }
    {
        let image = image_from(alloc, config.config().pages, image)?;
        let Unit { state, .. } = Unit::make(Dem::make(config.twin(), dids));
        let mut memory = Memory {
            unit: state,
            queue: JobQueue::new(alloc, config.config().blocks)?,
            buffers: Buffers::new(config),
            replies: LaneReplies::with_room(alloc, 1, RESPONSE)?,
            line: Vec::with_capacity(alloc, LINE)?,
            operations: Vec::new(alloc),
            stage: Stage::Dark,
            then: Stage::Dark,
            generation: 0,
            life: 0,
            config: config.twin(),
            image,
        };
        memory.power_up(alloc, None)?;
        Ok(memory)
    }

    /// Whether it runs.
    pub fn stage(&self) -> Stage {
        self.stage
    }

    /// How the life began: it runs, is dark or was refused. It is dark too once an operation failed.
    pub fn begun(&self) -> Stage {
        self.then
    }

    /// The line of the last call that was made, without a line feed after it.
    pub fn line(&self) -> &[u8] {
        &self.line
    }

    /// The bytes of the response to the last call, if it was a request that has one.
    pub fn response(&self) -> &[u8] {
        match self.replies.answers.as_slice() {
            [
                StepAnswer::Dem(
                    Answer {
                        reply: ReplyOf::Response(kept),
                        ..
                    },
                ),
                ..
            ] => kept.among(&self.replies.responses),
            _ => &[],
        }
    }

    /// What the caller is to do to its flash, in this order.
    pub fn operations(&self) -> &[Operation] {
        &self.operations
    }

    /// The number of the generation from which the life began, or of the last save that was answered.
    pub fn generation(&self) -> u32 {
        self.generation
    }

    /// The image as it is once the operations are carried out.
    pub fn image(&self) -> &[u8] {
        &self.image
    }

    /// Makes the power come, over the given image, or over that of the last life, and starts up. It may come at any moment.
    pub fn power_up(&mut self, alloc: Global, image: Option<&[u8]>) -> Result<(), Fault>
        ensures operations_give_image { OnOk result (IfNone image.entry (HandsOut self.old self.new)) }
    {
        let pages = self.config.config().pages;
        let image = match image {
            None => copy_of(alloc, &self.image)?,
            Some(_) => image_from(alloc, pages, image)?,
        };
        let queue = JobQueue::new(alloc, self.config.config().blocks)?;
        let begun = restart(alloc, &self.config, &image, &mut self.buffers.state)?;
        self.begin_life(queue, begun)
    }

    /// Begins a life.
    fn begin_life(&mut self, queue: JobQueue, begun: Begun) -> Result<(), Fault>
        requires blocks { queue.blocks ≡ self.old.config.blocks }
        requires size { length begun.settled.image.items ≡ 64 * self.old.config.pages }
        requires fits { OnOk begun.found (Fits self.old.config self.old.buffers.state) }
        ensures image { self.new.image.items ≡ begun.settled.image.items }
        ensures operations { self.new.operations.items ≡ begun.settled.operations.items }
    {
        let Begun { found, settled } = begun;
        self.keep(settled);
        self.queue = queue;
        self.life = self.life.saturating_add(1);
        self.replies.answers.clear();
        self.replies.responses.clear();
        self.line.clear();
        match found {
            Ok(generation) => {
                self.generation = generation;
                self.unit.boot(&self.buffers.state);
                let start = self.buffers.state.twin();
                self.say(&Boot::Started { generation, start })
            }
            Err(StartFault::Flash) => {
                self.stop(Stage::Dark);
                self.say(&Boot::Dark)
            }
            Err(fault) => {
                self.stop(Stage::Refused);
                self.say(&Boot::Refused(fault))
            }
        }
    }

    /// Writes the line that begins a life.
    fn say(&mut self, boot: &Boot) -> Result<(), Fault>
        requires { boot.now ≢ Refused Flash }
        ensures image { self.new.image ≡ self.old.image }
        ensures operations { self.new.operations ≡ self.old.operations }
    {
        put_boot(self.life, boot, &mut self.line).map_err(|_| Fault::Text)
    }

    /// Keeps what a store left. It is pending where there is something to be done, and else it runs.
    fn keep(&mut self, settled: Settled)
        requires size { length settled.image.items ≡ 64 * self.old.config.pages }
        ensures config { self.new.config ≡ self.old.config }
        ensures buffers { self.new.buffers ≡ self.old.buffers }
        ensures unit { self.new.unit ≡ self.old.unit }
        ensures queue { self.new.queue ≡ self.old.queue }
        ensures image { self.new.image.items ≡ settled.image.items }
        ensures operations { self.new.operations.items ≡ settled.operations.items }
    {
        self.image = settled.image;
        self.operations = settled.operations;
        self.then = Stage::Up;
        self.stage = if self.operations.is_empty() {
            Stage::Up
        } else {
            Stage::Pending
        };
    }

    /// It does not run once the operations are done.
    fn stop(&mut self, then: Stage)
        ensures image { self.new.image ≡ self.old.image }
        ensures operations { self.new.operations ≡ self.old.operations }
    {
        self.then = then;
        if self.stage != Stage::Pending {
            self.stage = then;
        }
    }

    /// Says that all operations were carried out.
    pub fn done(&mut self) -> Result<(), Fault>
        ensures pending { OnOk result (self.old.stage ≡ Pending) }
        ensures stage { OnOk result (self.new.stage ≡ self.old.then) }
        ensures image { self.new.image ≡ self.old.image }
        ensures refused { IfErr result (λ fault. ChangesNothing fault → self.new ≡ self.old) }
    {
        let Stage::Pending = self.stage else {
            return Err(Fault::Nothing);
        };
        self.stage = self.then;
        self.operations.clear();
        Ok(())
    }

    /// Says that an operation failed, and what the flash holds now. It does not run any more until the power comes.
    pub fn failed(&mut self, alloc: Global, image: &[u8]) -> Result<(), Fault>
        ensures pending { OnOk result (self.old.stage ≡ Pending) }
        ensures stage { OnOk result (self.new.stage ≡ Dark) }
        ensures image { OnOk result (self.new.image.items ≡ image.now) }
        ensures refused { IfErr result (λ fault. ChangesNothing fault → self.new ≡ self.old) }
    {
        let Stage::Pending = self.stage else {
            return Err(Fault::Nothing);
        };
        let image = image_from(alloc, self.config.config().pages, Some(image))?;
        self.image = image;
        self.operations.clear();
        self.then = Stage::Dark;
        self.stage = Stage::Dark;
        Ok(())
    }

    /// Makes a call of the machine.
    fn call(&mut self, dids: &DidTable<DID_ROWS>, op: &Op) -> StepAnswer<ReplyKind>
        requires served { Serves (dids_of dids.now) self.old.config.events.items }
        requires admitted { IsAdmitted self.old.config op.now }
        ensures takes { Takes op.now self.old.unit self.new.unit }
        ensures answers { IsOfMachine op.now self.old.unit (told_with self.new.buffers.response.items result) }
        ensures queue { self.new.queue ≡ self.old.queue }
        ensures image { self.new.image ≡ self.old.image }
        ensures operations { self.new.operations ≡ self.old.operations }
        ensures generation { self.new.generation ≡ self.old.generation }
        ensures config { self.new.config ≡ self.old.config }
    {
        let reply = self.unit.step(dids, op, &mut self.buffers.response);
        StepAnswer::Dem(Answer { place: 0, reply })
    }

    /// Makes a call of the queue.
    fn post(&mut self, op: &QueueOp) -> StepAnswer<ReplyKind>
        requires admitted { jobs.IsQueueCallFor self.old.config.blocks op.now }
        ensures takes { QueueTakes self.old.config.blocks op.now self.old.queue self.new.queue (told_with self.new.buffers.response.items result) }
        ensures unit { self.new.unit ≡ self.old.unit }
        ensures image { self.new.image ≡ self.old.image }
        ensures operations { self.new.operations ≡ self.old.operations }
        ensures config { self.new.config ≡ self.old.config }
    {
        let reply = self.queue.apply(op);
        StepAnswer::Queue(Answer { place: 0, reply })
    }

    /// Saves the durable state.
    fn save(
        &mut self,
        alloc: Global,
        dids: &DidTable<DID_ROWS>,
    ) -> Result<StepAnswer<ReplyKind>, Fault>
        requires { Serves (dids_of dids.now) self.old.config.events.items }
        ensures saved { IfOk result (λ answer. IsSaved (told_with self.new.buffers.response.items answer) self.new) }
        ensures operations_give_image { OnOk result (HandsOut self.old self.new) }
        ensures config { self.new.config ≡ self.old.config }
        ensures refused { IfErr result (λ fault. ChangesNothing fault → self.new ≡ self.old) }
    {
        let mounted = start(alloc, &self.config, &self.image)?;
        self.unit.persist(&mut self.buffers.state);
        if !fits(&self.config, &self.buffers.state) {
            return Err(Fault::Flash);
        }
        let (settled, saved) = save_on(mounted, &self.config, &self.buffers.state)?;
        self.keep(settled);
        match saved {
            Ok(generation) => {
                self.generation = generation;
                self.call(dids, &Op::Saved { generation });
                Ok(StepAnswer::Saved(generation))
            }
            Err(fault) => Ok(StepAnswer::SaveFailed(fault)),
        }
    }

    /// Reads an application block.
    fn get(&mut self, alloc: Global, block: u8) -> Result<StepAnswer<ReplyKind>, Fault>
        requires block { block < self.old.config.blocks }
        ensures unit { self.new.unit ≡ self.old.unit }
        ensures queue { self.new.queue ≡ self.old.queue }
        ensures operations_give_image { OnOk result (HandsOut self.old self.new) }
        ensures config { self.new.config ≡ self.old.config }
        ensures refused { IfErr result (λ fault. ChangesNothing fault → self.new ≡ self.old) }
    {
        let mounted = start(alloc, &self.config, &self.image)?;
        let (settled, answer) = get_on(mounted, &self.config, block)?;
        self.keep(settled);
        Ok(answer)
    }

    /// Writes the jobs that wait.
    fn drain(&mut self, alloc: Global) -> Result<StepAnswer<ReplyKind>, Fault>
        ensures unit { self.new.unit ≡ self.old.unit }
        ensures operations_give_image { OnOk result (HandsOut self.old self.new) }
        ensures config { self.new.config ≡ self.old.config }
        ensures refused { IfErr result (λ fault. ChangesNothing fault → self.new ≡ self.old) }
    {
        let mounted = start(alloc, &self.config, &self.image)?;
        let (settled, answer) = drain_on(mounted, &self.config, &mut self.queue)?;
        self.keep(settled);
        Ok(answer)
    }

    /// Makes a step.
    pub fn make(
        &mut self,
        alloc: Global,
        dids: &DidTable<DID_ROWS>,
        step: Step,
    ) -> Result<(), Fault>
        ensures up { OnOk result (self.old.stage ≡ Up) }
        ensures made { OnOk result ((told : Told) × (self.new.line.items ≡ step_line step told) × IsStepMade (action_of step) told self.old self.new) }
        ensures operations_give_image { OnOk result (HandsOut self.old self.new) }
        ensures refused { IfErr result (λ fault. ChangesNothing fault → self.new ≡ self.old) }
    {
        match self.stage {
            Stage::Up => {}
            Stage::Pending => return Err(Fault::Pending),
            Stage::Dark | Stage::Refused => return Err(Fault::Dark),
        }
        if !serves(dids, &self.config) {
            return Err(Fault::Config);
        }
        let part = [Part::One(step)];
        if !are_possible(self.config.config(), &part) {
            return Err(Fault::Range);
        }
        let [Part::One(step)] = &part else {
            return Err(Fault::Range);
        };
        let answer = match action_of(step) {
            Action::Call(op) => {
                self.operations.clear();
                self.call(dids, &op)
            }
            Action::Queue(op) => {
                self.operations.clear();
                self.post(&op)
            }
            Action::Save => self.save(alloc, dids)?,
            Action::Drain => self.drain(alloc)?,
            Action::Get(block) => self.get(alloc, block)?,
            Action::Arm(_) => return Err(Fault::Range),
        };
        self.tell(step, answer)
    }

    /// Puts 1 to 32 bytes into an application block at once. It has no line. If they could not be written, it is `Flash`, and what is to be
    /// done to the flash is handed out all the same.
    pub fn put(&mut self, alloc: Global, block: u8, bytes: &[u8]) -> Result<(), Fault>
        ensures up { OnOk result (self.old.stage ≡ Up) }
        ensures operations_give_image { OnOk result (HandsOut self.old self.new) }
        ensures refused { IfErr result (λ fault. ChangesNothing fault → self.new ≡ self.old) }
    {
        match self.stage {
            Stage::Up => {}
            Stage::Pending => return Err(Fault::Pending),
            Stage::Dark | Stage::Refused => return Err(Fault::Dark),
        }
        if block >= self.config.config().blocks {
            return Err(Fault::Range);
        }
        if bytes.is_empty() || bytes.len() > 32 {
            return Err(Fault::Size);
        }
        let mounted = start(alloc, &self.config, &self.image)?;
        let (settled, put) = put_on(mounted, &self.config, block, bytes)?;
        self.keep(settled);
        self.replies.answers.clear();
        self.replies.responses.clear();
        self.line.clear();
        if put { Ok(()) } else { Err(Fault::Flash) }
    }

    /// Writes the line of a step with its answer.
    fn tell(&mut self, step: &Step, answer: StepAnswer<ReplyKind>) -> Result<(), Fault>
        ensures line { OnOk result (self.new.line.items ≡ step_line step.now (told_with self.old.buffers.response.items answer)) }
        ensures text { IfErr result (λ fault. fault ≡ Text) }
        ensures unit { self.new.unit ≡ self.old.unit }
        ensures queue { self.new.queue ≡ self.old.queue }
        ensures image { self.new.image ≡ self.old.image }
        ensures operations { self.new.operations ≡ self.old.operations }
        ensures generation { self.new.generation ≡ self.old.generation }
        ensures config { self.new.config ≡ self.old.config }
    {
        self.replies.answers.clear();
        self.replies.responses.clear();
        self.line.clear();
        self.replies.keep(answer, self.buffers.response.as_slice());
        put_step(
            step,
            &self.replies.answers[0],
            &self.replies.responses,
            &mut self.line,
        )
        .map_err(|_| Fault::Text)
    }
}
