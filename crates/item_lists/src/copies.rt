ghost use Rattle.std.specs.Prelude.{◌≡◌, [], ◌∷◌, ◌++◌, IfOk, MatchOption};
ghost use Rattle.std.specs.Borrow.{sem};

use std::alloc::{AllocError, Global};
use std::marker::Model;

/// A list that is made whole, as a copy of a slice.
#[derive(Debug, Drop)]
pub struct Copies<T> {
    items: Vec<T>,
}

impl<T> Model for Copies<T> {
    ghost use Rattle.std.specs.Prelude.{List};
    ghost use Rattle.std.specs.Coded.{coded_list};

    ghost Value = { List T };

    ghost coded = { coded_list T.code };

    ghost view = { λ list. list.items.items };
}

impl<T> Copies<T> {
    ghost use Rattle.item_lists.specs.Lending.{LendsCopies};

    /// Takes the vector over as it is. It takes no memory.
    pub fn from_vec(items: Vec<T>) -> Copies<T>
        ensures { result ≡ items.items }
    {
        Copies { items }
    }

    /// Gives the vector back. It takes no memory.
    pub fn into_vec(self) -> Vec<T>
        ensures { result.items ≡ self }
    {
        let Copies { items } = self;
        items
    }

    pub fn as_slice(&self) -> &[T]
        ensures { result.now ≡ self.now }
    {
        self.items.as_slice()
    }

    /// The items, for writing.
    pub fn as_mut_slice(&mut self) -> &mut [T]
        ensures* writes_back { sem 𝓛 (LendsCopies T.row self.entry result) }
        ensures value { result.now ≡ self.old }
    {
        self.items.as_mut_slice()
    }

    /// Takes the last item.
    pub fn pop(&mut self) -> Option<T>
        ensures { MatchOption result ((self.old ≡ []) × (self.new ≡ [])) (λ last. self.old ≡ self.new ++ last ∷ []) }
    {
        self.items.pop()
    }
}

impl<T: Copy> Copies<T> {
    /// A copy of the slice.
    pub fn new(alloc: Global, items: &[T]) -> Result<Copies<T>, AllocError>
        ensures { IfOk result (λ list. list ≡ items.now) }
    {
        Ok(Copies {
            items: Vec::from_slice(alloc, items)?,
        })
    }
}

#[cfg(test)]
mod tests {
    use super::*;
    use std::test::Fail;

    #[test]
    fn copies_a_slice(rt: HostRuntime) -> Result<(), Fail> {
        let mut list = Copies::new(rt.alloc(), b"crude".as_slice())?;
        let slice = list.as_mut_slice();
        assert_eq!(rt; slice.len(), 5);
        slice[0] = b'k';
        assert_eq!(rt; list.pop(), Some(b'e'));
        let list = Copies::from_vec(list.into_vec());
        assert_eq!(rt; list.as_slice(), b"krud".as_slice());
        Ok(())
    }
}
