//! A session that C keeps, behind a pointer.
ghost use Rattle.std.specs.Prelude.{◌≡◌, true, false, Option, Some, None, IsSome, is_some};
ghost use Rattle.std.specs.Coded.{coded_option};
ghost use Rattle.handles.specs.declared.session.Session.{Session as TheSession};
ghost use Rattle.handles.specs.contracts.session.Session.{the_row as session_row};
ghost use Rattle.handles.specs.Held.{held_value};

use super::loose::Loose;
use super::session::Session;
use std::alloc::Global;
use std::marker::Model;
use std::{mem, ptr};

/// Nothing, or a session on the heap.
#[repr(C)]
pub struct Kept {
    at: *mut u8,
    pub ghost session: { Option TheSession } by { coded_option session_row.coded },
}

impl Model for Kept {
    ghost also_owns = { λ k. held_value session_row k.at k.session };
}

impl Kept {
    pub(crate) fn nothing() -> Kept
        ensures { result.session ≡ None }
    {
        Kept {
            at: ptr::null_mut(),
        }
    }

    fn spent(self)
        requires { self.session ≡ None }
    {
        let Kept { at: _ } = self;
    }

    pub(crate) fn of_loose(session: Loose<Session, Global>) -> Kept
        ensures { result.session ≡ Some session.value }
    {
        let Loose { at, alloc: _ } = session;
        Kept { at: at as *mut u8 }
    }

    pub(crate) fn into_loose(self, alloc: Global) -> Loose<Session, Global>
        requires { IsSome self.session }
        ensures { self.session ≡ Some result.value }
    {
        let Kept { at } = self;
        Loose {
            at: at as *mut Session,
            alloc,
        }
    }
}

/// What C holds. It never follows the pointer inside.
#[repr(C)]
pub struct Handle {
    pub full: bool,
    kept: Kept,
    ghost agrees: { full ≡ is_some kept.session },
}

impl Handle {
    /// Returns an empty handle.
    pub fn empty() -> Handle
        ensures full { result.full ≡ false }
        ensures session { result.kept.session ≡ None }
    {
        Handle {
            full: false,
            kept: Kept::nothing(),
        }
    }

    pub(crate) fn of(session: Box<Session, Global>) -> Handle
        ensures full { result.full ≡ true }
        ensures session { result.kept.session ≡ Some session.value }
    {
        Handle {
            full: true,
            kept: Kept::of_loose(Loose::of(session)),
        }
    }

    pub(crate) fn into_box(self, alloc: Global) -> Box<Session, Global>
        requires { self.full ≡ true }
        ensures { self.kept.session ≡ Some result.value }
    {
        let Handle { full: _, kept } = self;
        kept.into_loose(alloc).into_box()
    }

    /// Takes the session out of a full handle, which is empty then.
    pub(crate) fn take(&mut self, alloc: Global) -> Box<Session, Global>
        requires { self.old.full ≡ true }
        ensures value { self.old.kept.session ≡ Some result.value }
        ensures empty { self.new.full ≡ false }
    {
        mem::replace(self, Handle::empty()).into_box(alloc)
    }

    /// Puts a session into an empty handle.
    pub(crate) fn put(&mut self, session: Box<Session, Global>)
        requires { self.old.full ≡ false }
        ensures full { self.new.full ≡ true }
        ensures session { self.new.kept.session ≡ Some session.value }
    {
        mem::replace(self, Handle::of(session)).spent();
    }

    /// Lets an empty handle go.
    pub fn spent(self)
        requires { self.full ≡ false }
    {
        let Handle { full: _, kept } = self;
        kept.spent();
    }
}
