//! Elements and lists of them are compared and copied as their texts.
ghost use Rattle.std.specs.Prelude.{◌≡◌, bytes_eq};
ghost use Rattle.std.specs.Cmp.{partial_equiv_from_equiv};
ghost use Rattle.std.specs.Cmp.Lexicographic.{pointwise, lists_per, nat_list_eq_equiv};

use crate::directory::Directory;
use crate::domain::Domain;
use crate::elements::Elements;
use crate::pattern::Pattern;
use std::alloc::AllocError;

impl Clone for Domain {
    ghost is_clone = { λ domain copy. copy ≡ domain };

    fn clone(&self) -> Result<Domain, AllocError> {
        self.try_clone()
    }
}

impl PartialEq for Domain {
    ghost eq = { bytes_eq };

    ghost laws = { partial_equiv_from_equiv nat_list_eq_equiv };

    fn eq(&self, other: &Domain) -> bool {
        self.as_str() == other.as_str()
    }
}

impl Clone for Directory {
    ghost is_clone = { λ directory copy. copy ≡ directory };

    fn clone(&self) -> Result<Directory, AllocError> {
        self.try_clone()
    }
}

impl PartialEq for Directory {
    ghost eq = { bytes_eq };

    ghost laws = { partial_equiv_from_equiv nat_list_eq_equiv };

    fn eq(&self, other: &Directory) -> bool {
        self.as_str() == other.as_str()
    }
}

// A pattern's parts are what its text spells, so a copy is read anew.
impl Clone for Pattern {
    ghost is_clone = { λ pattern copy. copy ≡ pattern };

    fn clone(&self) -> Result<Pattern, AllocError> {
        self.try_clone()
    }
}

impl PartialEq for Pattern {
    ghost eq = { bytes_eq };

    ghost laws = { partial_equiv_from_equiv nat_list_eq_equiv };

    fn eq(&self, other: &Pattern) -> bool {
        self.as_str() == other.as_str()
    }
}

impl<T: Clone> Clone for Elements<T> {
    ghost is_clone = { λ elements copy. ((x y : T) → T.is_clone x y → y ≡ x) → copy ≡ elements };

    fn clone(&self) -> Result<Elements<T>, AllocError> {
        self.try_clone()
    }
}

impl<T: PartialEq> PartialEq for Elements<T> {
    ghost eq = { pointwise T.eq };

    ghost laws = { lists_per T.laws };

    fn eq(&self, other: &Elements<T>) -> bool {
        self.as_slice() == other.as_slice()
    }
}
