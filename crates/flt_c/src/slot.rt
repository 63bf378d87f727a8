//! A handle as C keeps it: the place of a box, which is taken out of it and put back at each call.
ghost use Rattle.std.specs.Prelude.{◌≡◌};
ghost use Rattle.flt_c.specs.declared.inner.Inner.{Inner};
ghost use Rattle.flt_c.specs.Slot.{slot_owns};

use crate::inner::Inner;
use std::alloc::Global;
use std::marker::Model;

/// What a handle points to, of which C sees nothing.
#[repr(C)]
#[derive(Drop)]
pub struct Handle {
    _place: u8,
}

/// A handle that C hands in. C got it from `flt_c_open` or from a later call, and hands it in once; in C it is one pointer.
#[repr(C)]
pub struct Slot {
    pub at: *mut Handle,
    pub alloc: Global,
    pub ghost value: { Inner },
}

impl Model for Slot {
    ghost also_owns = { λ s. slot_owns s.alloc s.at s.value };
}

impl Slot {
    /// The box that it refers to.
    pub fn into_box(self) -> Box<Inner, Global>
        ensures { result.value ≡ self.value }
    {
        let Slot { at, alloc } = self;
        unsafe { Box::from_raw(alloc, at as *mut Inner) }
    }
}
