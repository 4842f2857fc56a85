// A list of elements in a row that the caller lends, written once for every kind of element. It takes as many elements
// as the row has places, but at most 65,535, and adds them at the end. It is no `Vec`: it allocates nothing.
ghost use Rattle.std.specs.Prelude.{◌≤◌};
ghost use Rattle.player.specs.Capacity.{capacity};

use crate::fault::ListFault;

// Letting one go ends the loan and loses nothing, as every element lies in the row.
#[derive(Drop)]
pub struct RowList<'a, T> {
    row: &'a mut [T],
    len: usize,
    // A list has no more elements than it takes.
    pub ghost within: { len ≤ capacity row.now },
}

impl<'a, T: Copy> RowList<'a, T> {
    ghost use Rattle.std.specs.Prelude.{◌≡◌, ◌==◌, [], length};
    ghost use Rattle.std.specs.List.{slice_get};
    ghost use Rattle.player.specs.Capacity.{capacity};
    ghost use Rattle.player.specs.Lists.{content, room, row_of, is_full, push_answer, pushed, pushed_row};

    // The empty list over a row. What the row holds stays until elements are put over it.
    pub fn new(row: &'a mut [T]) -> RowList<'a, T>
        ensures content { content result ≡ [] }
        ensures row { row_of result ≡ row.old }
        ensures room { room result ≡ capacity row.old }
    {
        RowList { row, len: 0 }
    }

    // Adds x at the end, or refuses and changes nothing where the list is full. No other place of the row changes.
    pub fn push(&mut self, x: T) -> Result<(), ListFault>
        ensures answer { result ≡ push_answer (content self.old) (room self.old) }
        ensures after { content self.new ≡ pushed (content self.old) (room self.old) x }
        ensures row { row_of self.new ≡ pushed_row self.old x }
        ensures room { room self.new ≡ room self.old }
    {
        if self.is_full() {
            return Err(ListFault::Full);
        }
        self.row[self.len] = x;
        self.len += 1;
        Ok(())
    }

    // Whether the list takes no more.
    pub fn is_full(&self) -> bool
        ensures { result ≡ is_full (content self.now) (room self.now) }
    {
        self.len >= self.row.len().min(65535)
    }

    // Whether there is no element.
    pub fn is_empty(&self) -> bool
        ensures { result ≡ (length (content self.now) == 0) }
    {
        self.len == 0
    }

    // The element at a place, counted from 0, or none.
    pub fn get(&self, at: usize) -> Option<T>
        ensures { result ≡ slice_get (content self.now) at }
    {
        self.items().get(at).copied()
    }

    // The elements, first to last.
    pub fn items(&self) -> &[T]
        ensures { result.now ≡ content self.now }
    {
        &self.row[..self.len]
    }

    // How many elements there are.
    pub fn len(&self) -> usize
        ensures { result ≡ length (content self.now) }
    {
        self.items().len()
    }

    // Ends the list and gives its row back, which begins with the elements.
    pub fn close(self) -> &'a mut [T]
        ensures { result.now ≡ row_of self.entry }
    {
        let RowList { row, len: _ } = self;
        row
    }
}
