//! Lists of elements, as the filters are given in (GNU Wget manual, chapter Following Links).
ghost use Rattle.std.specs.Prelude.{◌≡◌, [], IsTrue, ◌↔◌, IfOk};

use std::alloc::{AllocError, AllocFailed, Global};
use std::marker::Model;

/// Why a text is no element of a list.
#[derive(Clone, Copy, PartialEq, Eq, Debug)]
pub enum ElementFault {
    /// The text breaks the grammar of its kind of element.
    Bad,
    /// There was no memory to hold the element.
    Memory,
}

impl From<AllocError> for ElementFault {
    ghost use Rattle.std.specs.Prelude.{◌≡◌};
    ghost use Rattle.follow_filters.specs.declared.elements.ElementFault.TheVariants.{Memory};

    ghost from_gives = { λ e fault. fault ≡ Memory };

    fn from(_error: AllocError) -> ElementFault {
        ElementFault::Memory
    }
}

impl<T: Drop> From<AllocFailed<T>> for ElementFault {
    ghost use Rattle.std.specs.Prelude.{◌≡◌};
    ghost use Rattle.follow_filters.specs.declared.elements.ElementFault.TheVariants.{Memory};

    ghost from_gives = { λ e fault. fault ≡ Memory };

    fn from(_refused: AllocFailed<T>) -> ElementFault {
        ElementFault::Memory
    }
}

/// The elements of a list. A list without elements counts as not given.
pub struct Elements<T> {
    items: Vec<T>,
}

// By hand: who drops one proves a call, and nothing of what it holds.
impl<T: Drop> Drop for Elements<T> {
    fn drop(self) {
        let Elements { items: _items } = self;
    }
}

// Contracts see the elements as a list.
impl<T> Model for Elements<T> {
    ghost use Rattle.std.specs.Prelude.{List};

    ghost Value = { List T };

    ghost view = { λ e. e.items.items };
}

impl<T> Elements<T> {
    /// No elements. Takes no memory.
    pub fn none(alloc: Global) -> Elements<T>
        ensures { result ≡ [] }
    {
        Elements {
            items: Vec::new(alloc),
        }
    }

    /// These elements, in their order. Takes no memory.
    pub fn of(items: Vec<T>) -> Elements<T>
        ensures { result ≡ items.items }
    {
        Elements { items }
    }

    /// The elements, in their order. Takes no memory.
    pub fn into_vec(self) -> Vec<T>
        ensures { result.items ≡ self }
    {
        let Elements { items } = self;
        items
    }

    /// The elements, in their order.
    pub fn as_slice(&self) -> &[T]
        ensures { result.now ≡ self.now }
    {
        self.items.as_slice()
    }

    /// Whether there are no elements.
    pub fn is_empty(&self) -> bool
        ensures { IsTrue result ↔ (self.now ≡ []) }
    {
        self.items.is_empty()
    }

    // The same elements, if copies of them are equal to them.
    pub(crate) fn try_clone(&self) -> Result<Elements<T>, AllocError>
    where
        T: Clone,
        ensures { IfOk result (λ copy. ((x y : T) → T.is_clone x y → y ≡ x) → copy ≡ self.now) }
    {
        Ok(Elements {
            items: self.items.clone()?,
        })
    }
}
