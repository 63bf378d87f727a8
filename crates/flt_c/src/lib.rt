//! The fault memory for C: a handle that is opened, called, and closed. Each call is one of `flt_embed`'s, with its numbers checked.
//!
//! A handle goes in and comes back through `out`. `c/faultmem.h` is what a program includes; `c/faultmem.c` puts these exports under its
//! names, and tests pointers for null.
#![tactic(auto)]

mod inner;
mod slot;
mod steps;

use arrayvec::ArrayVec;
use flt_did::{DID_ROWS, DidTable, program_table};
use flt_embed::{Fault, Memory, Operation, Stage, read_config};
use flt_step::Step;
use inner::Inner;
pub use slot::{Handle, Slot};
use std::alloc::Global;
use steps::{small, step_of};

/// The status of a call that was made.
const OK: i32 = 0;

/// The status of a length that is out of its range.
const LENGTH: i32 = 2;

/// The status of a number that is out of its range.
const RANGE: i32 = 3;

/// What the last call left.
#[repr(C)]
#[derive(Drop)]
pub struct Left {
    /// How many bytes its line has.
    pub line: usize,
    /// How many bytes its response has.
    pub response: usize,
    /// How many operations are to be carried out.
    pub operations: usize,
    /// How many bytes the image has.
    pub image: usize,
    /// The number of the generation.
    pub generation: u32,
    /// 0: it runs. 1: operations are pending. 2: it is dark. 3: the image was refused.
    pub stage: u32,
}

/// An operation on the flash. Kind 1 programs a page, and kind 2 erases a sector.
#[repr(C)]
#[derive(Drop)]
pub struct Carried {
    pub kind: u8,
    pub sector: u8,
    pub page: u16,
    pub bytes: [u8; 32],
}

fn status_of(fault: Fault) -> i32 {
    match fault {
        Fault::Size => LENGTH,
        Fault::Range => RANGE,
        Fault::Config => 4,
        Fault::Memory => 5,
        Fault::Pending => 6,
        Fault::Dark => 7,
        Fault::Nothing => 9,
        Fault::Flash => 10,
        Fault::Text => 11,
    }
}

fn status_by(made: Result<(), Fault>) -> i32 {
    match made {
        Ok(()) => OK,
        Err(fault) => status_of(fault),
    }
}

/// The status by how a life began.
fn status_begun(memory: &Memory) -> i32 {
    match memory.begun() {
        Stage::Dark => 7,
        Stage::Refused => 8,
        Stage::Up | Stage::Pending => OK,
    }
}

/// The first bytes of these, as many as there is room for.
fn copy_front(bytes: &[u8], out: &mut [u8]) -> usize {
    let count = bytes.len().min(out.len());
    out[..count].copy_from_slice(&bytes[..count]);
    count
}

/// Opens a fault memory. 0: `out` has its handle.
fn open(alloc: Global, text: &[u8], image: &[u8]) -> Result<Memory, Fault> {
    let dids: DidTable<DID_ROWS> = program_table!();
    let config = read_config(alloc, text, &dids)?;
    let image = if image.is_empty() { None } else { Some(image) };
    Memory::open(alloc, &config, image, dids)
}

/// Makes a step of the fault memory.
fn make(alloc: Global, memory: &mut Memory, step: Step) -> i32 {
    let dids: DidTable<DID_ROWS> = program_table!();
    status_by(memory.make(alloc, &dids, step))
}

/// Opens a fault memory of a configuration, over an image, or over a blank one where the image has no bytes. A handle is written to `out`
/// where the status is 0, 7 or 8.
#[unsafe(no_mangle)]
pub extern "C" fn flt_c_open(
    alloc: Global,
    text: &[u8],
    image: &[u8],
    out: &mut *mut Handle,
) -> i32 {
    match open(alloc, text, image) {
        Ok(memory) => {
            let status = status_begun(&memory);
            match Box::new(alloc, Inner { memory }) {
                Ok(made) => {
                    *out = Box::into_raw(made) as *mut Handle;
                    status
                }
                Err(_) => 5,
            }
        }
        Err(fault) => status_of(fault),
    }
}

/// Makes the step of a kind and two numbers.
#[unsafe(no_mangle)]
pub extern "C" fn flt_c_step(
    alloc: Global,
    slot: Slot,
    out: &mut *mut Handle,
    kind: u32,
    first: u32,
    second: u32,
) -> i32 {
    let mut inner = slot.into_box();
    let status = match step_of(kind, first, second) {
        Some(step) => make(alloc, &mut inner.memory, step),
        None => RANGE,
    };
    *out = Box::into_raw(inner) as *mut Handle;
    status
}

/// Sends a request of a tester.
#[unsafe(no_mangle)]
pub extern "C" fn flt_c_request(
    alloc: Global,
    slot: Slot,
    out: &mut *mut Handle,
    tester: u32,
    request: &[u8],
) -> i32 {
    let mut inner = slot.into_box();
    let mut bytes = ArrayVec::new();
    let status = match (small(tester), bytes.try_extend_from_slice(request)) {
        (_, Err(_)) => LENGTH,
        (None, _) => RANGE,
        (Some(tester), Ok(())) => {
            if request.is_empty() {
                LENGTH
            } else {
                make(alloc, &mut inner.memory, Step::Request { tester, bytes })
            }
        }
    };
    *out = Box::into_raw(inner) as *mut Handle;
    status
}

/// Posts a write job for an application block; 1 makes it an urgent one.
#[unsafe(no_mangle)]
pub extern "C" fn flt_c_post(
    alloc: Global,
    slot: Slot,
    out: &mut *mut Handle,
    urgent: bool,
    block: u32,
    given: &[u8],
) -> i32 {
    let mut inner = slot.into_box();
    let mut bytes = ArrayVec::new();
    let status = match (small(block), bytes.try_extend_from_slice(given)) {
        (_, Err(_)) => LENGTH,
        (None, _) => RANGE,
        (Some(block), Ok(())) => {
            if given.is_empty() {
                LENGTH
            } else {
                make(
                    alloc,
                    &mut inner.memory,
                    Step::Post {
                        urgent,
                        block,
                        bytes,
                    },
                )
            }
        }
    };
    *out = Box::into_raw(inner) as *mut Handle;
    status
}

/// Puts bytes into an application block at once.
#[unsafe(no_mangle)]
pub extern "C" fn flt_c_put(
    alloc: Global,
    slot: Slot,
    out: &mut *mut Handle,
    block: u32,
    bytes: &[u8],
) -> i32 {
    let mut inner = slot.into_box();
    let status = match small(block) {
        Some(block) => status_by(inner.memory.put(alloc, block, bytes)),
        None => RANGE,
    };
    *out = Box::into_raw(inner) as *mut Handle;
    status
}

/// Makes the power come, over an image, or over that of the last life where the image has no bytes.
#[unsafe(no_mangle)]
pub extern "C" fn flt_c_power_up(
    alloc: Global,
    slot: Slot,
    out: &mut *mut Handle,
    image: &[u8],
) -> i32 {
    let mut inner = slot.into_box();
    let given = if image.is_empty() { None } else { Some(image) };
    let status = match inner.memory.power_up(alloc, given) {
        Ok(()) => status_begun(&inner.memory),
        Err(fault) => status_of(fault),
    };
    *out = Box::into_raw(inner) as *mut Handle;
    status
}

/// Says that all operations were carried out.
#[unsafe(no_mangle)]
pub extern "C" fn flt_c_done(slot: Slot, out: &mut *mut Handle) -> i32 {
    let mut inner = slot.into_box();
    let status = status_by(inner.memory.done());
    *out = Box::into_raw(inner) as *mut Handle;
    status
}

/// Says that an operation failed, and what the flash holds now.
#[unsafe(no_mangle)]
pub extern "C" fn flt_c_failed(
    alloc: Global,
    slot: Slot,
    out: &mut *mut Handle,
    image: &[u8],
) -> i32 {
    let mut inner = slot.into_box();
    let status = status_by(inner.memory.failed(alloc, image));
    *out = Box::into_raw(inner) as *mut Handle;
    status
}

/// What the last call left.
#[unsafe(no_mangle)]
pub extern "C" fn flt_c_left(slot: Slot, out: &mut *mut Handle, left: &mut Left) {
    let inner = slot.into_box();
    let memory = &inner.memory;
    left.line = memory.line().len();
    left.response = memory.response().len();
    left.operations = memory.operations().len();
    left.image = memory.image().len();
    left.generation = memory.generation();
    left.stage = match memory.stage() {
        Stage::Up => 0,
        Stage::Pending => 1,
        Stage::Dark => 2,
        Stage::Refused => 3,
    };
    *out = Box::into_raw(inner) as *mut Handle;
}

/// The first bytes of the last line, as many as there is room for, and how many they are.
#[unsafe(no_mangle)]
pub extern "C" fn flt_c_line(slot: Slot, out: &mut *mut Handle, text: &mut [u8]) -> usize {
    let inner = slot.into_box();
    let count = copy_front(inner.memory.line(), text);
    *out = Box::into_raw(inner) as *mut Handle;
    count
}

/// The same of the last response.
#[unsafe(no_mangle)]
pub extern "C" fn flt_c_response(slot: Slot, out: &mut *mut Handle, bytes: &mut [u8]) -> usize {
    let inner = slot.into_box();
    let count = copy_front(inner.memory.response(), bytes);
    *out = Box::into_raw(inner) as *mut Handle;
    count
}

/// The same of the image.
#[unsafe(no_mangle)]
pub extern "C" fn flt_c_image(slot: Slot, out: &mut *mut Handle, bytes: &mut [u8]) -> usize {
    let inner = slot.into_box();
    let count = copy_front(inner.memory.image(), bytes);
    *out = Box::into_raw(inner) as *mut Handle;
    count
}

/// The operation of this number, counted from 0.
#[unsafe(no_mangle)]
pub extern "C" fn flt_c_operation(
    slot: Slot,
    out: &mut *mut Handle,
    number: usize,
    carried: &mut Carried,
) -> i32 {
    let inner = slot.into_box();
    let status = match inner.memory.operations().get(number) {
        None => RANGE,
        Some(
            Operation::Program {
                sector,
                page,
                bytes,
            },
        ) => {
            carried.kind = 1;
            carried.sector = *sector;
            carried.page = *page;
            carried.bytes = *bytes;
            OK
        }
        Some(Operation::Erase { sector }) => {
            carried.kind = 2;
            carried.sector = *sector;
            carried.page = 0;
            carried.bytes = [255; 32];
            OK
        }
    };
    *out = Box::into_raw(inner) as *mut Handle;
    status
}

/// Closes a handle.
#[unsafe(no_mangle)]
pub extern "C" fn flt_c_close(slot: Slot) {
    drop(slot.into_box());
}
