//! What C keeps of a space.

ghost use Rattle.std.specs.Prelude.{◌≡◌, None, Some};
ghost use Rattle.space_library.specs.Held.{Held, held_code, held_in, boxed, parcel_value};

use crate::parcel::Parcel;
use space::Space;
use std::alloc::Global;
use std::marker::Model;
use std::mem::replace;
use std::ptr::null_mut;

/// A space, or nothing: a null pointer is a closed handle. What a handle holds is `held`, whatever its pointer is.
#[repr(C)]
pub struct Handle {
    at: *mut u8,
    pub ghost held: { Held } by { held_code },
}

impl Model for Handle {
    ghost also_owns = { λ h. held_in h.at h.held };
}

impl Handle {
    // A closed one.
    fn closed() -> Handle
        ensures { result.held ≡ None }
    {
        Handle { at: null_mut() }
    }

    // The one of this space.
    fn of(parcel: Parcel<Space, Global>) -> Handle
        ensures { result.held ≡ Some parcel.value }
    {
        let Parcel { at, alloc: _ } = parcel;
        Handle { at: at as *mut u8 }
    }

    // Its space.
    fn into_parcel(self, alloc: Global) -> Option<Parcel<Space, Global>>
        ensures { parcel_value result ≡ self.held }
    {
        let Handle { at } = self;
        if at.is_null() {
            None
        } else {
            Some(Parcel {
                at: at as *mut Space,
                alloc,
            })
        }
    }

    // Puts another one in its place, and gives the space that it held.
    fn exchange(&mut self, alloc: Global, other: Handle) -> Option<Box<Space>>
        ensures taken { boxed result ≡ self.old.held }
        ensures put { self.new.held ≡ other.held }
    {
        match replace(self, other).into_parcel(alloc) {
            Some(parcel) => Some(parcel.into_box()),
            None => None,
        }
    }

    /// Gives the space, and leaves a closed handle.
    pub(crate) fn take(&mut self, alloc: Global) -> Option<Box<Space>>
        ensures taken { boxed result ≡ self.old.held }
        ensures closed { self.new.held ≡ None }
    {
        self.exchange(alloc, Handle::closed())
    }

    /// Holds this space from now on. The one that it held is gone.
    pub(crate) fn put(&mut self, alloc: Global, space: Box<Space>)
        ensures { self.new.held ≡ Some space.value }
    {
        let _old = self.exchange(alloc, Handle::of(Parcel::of(space)));
    }
}
