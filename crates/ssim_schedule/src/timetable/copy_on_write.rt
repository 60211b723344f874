//! A value that copies share until one of them changes it.

ghost use Rattle.std.specs.Prelude.{◌≡◌, IfOk, IfSome};
ghost use Rattle.std.specs.Borrow.{sem};

use ssim_values::Memory;
use std::alloc::Global;
use std::marker::Model;
use std::rc::Rc;

/// A type whose values can be copied with the allocator that they have.
pub(crate) trait Duplicate: Drop + Sized {
    /// An equal value.
    fn duplicate(&self) -> Result<Self, Memory>
        ensures { IfOk result (λ copy. copy ≡ self.now) };
}

/// A value that copies share. A copy that changes the value gets its own first. There is no weak
/// reference to the value.
#[derive(Drop)]
pub(crate) struct CopyOnWrite<T> {
    value: Rc<T>,
}

impl<T> Model for CopyOnWrite<T> {
    ghost Value = { T };

    ghost view = { λ s. s.value.value };
}

impl<T: Duplicate> CopyOnWrite<T> {
    ghost use Rattle.ssim_schedule.specs.internal.CopyOnWrite.{lends_own, lends_unshared};

    /// A value that nothing shares yet.
    pub(crate) fn of(alloc: Global, value: T) -> Result<CopyOnWrite<T>, Memory>
        ensures { IfOk result (λ shared. shared ≡ value) }
    {
        Ok(CopyOnWrite {
            value: Rc::new(alloc, value)?,
        })
    }

    /// A copy that shares the value. It allocates nothing.
    pub(crate) fn copy(&self) -> Result<CopyOnWrite<T>, Memory>
        ensures { IfOk result (λ copy. copy ≡ self.now) }
    {
        Ok(CopyOnWrite {
            value: self.value.clone()?,
        })
    }

    /// The value.
    pub(crate) fn get(&self) -> &T
        ensures { result.now ≡ self.now }
    {
        &self.value
    }

    /// The value: taken out if nothing shares it, else copied.
    pub(crate) fn into_own(self) -> Result<T, Memory>
        ensures { IfOk result (λ own. own ≡ self) }
    {
        match Rc::try_unwrap(self.value) {
            Ok(own) => Ok(own),
            Err(shared) => shared.duplicate(),
        }
    }

    /// The value to change, if nothing shares it.
    pub(crate) fn unshared(&mut self) -> Option<&mut T>
        ensures* writes_back { sem 𝓛 (lends_unshared T.row self.entry result) }
        ensures value { IfSome result (λ own. own.now ≡ self.old) }
    {
        Rc::get_mut(&mut self.value)
    }

    /// The value to change. If it is shared, it is replaced by a copy of its own first.
    pub(crate) fn own(&mut self, alloc: Global) -> Result<&mut T, Memory>
        ensures* writes_back { sem 𝓛 (lends_own T.row self.entry result) }
        ensures value { IfOk result (λ own. own.now ≡ self.old) }
    {
        self.unshare(alloc)?;
        match Rc::get_mut(&mut self.value) {
            Some(own) => Ok(own),
            // Cannot come, since `unshare` leaves one owner. No contract of `Rc` says so.
            None => Err(Memory),
        }
    }

    // Replaces the value by a copy of its own, if it is shared.
    fn unshare(&mut self, alloc: Global) -> Result<(), Memory>
        ensures { self.new ≡ self.old }
    {
        if Rc::strong_count(&self.value) > 1 {
            self.value = Rc::new(alloc, self.value.duplicate()?)?;
        }
        Ok(())
    }
}
