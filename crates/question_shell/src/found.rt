ghost use Rattle.std.specs.Prelude.{◌≡◌, ◌++◌, ◌<◌, ◌^◌, [], IfNone, length, option_to_list};

use std::marker::Model;

/// A list that was found. Its items are drawn one after another.
#[derive(Drop)]
pub struct Found<T> {
    items: Vec<T>,
    drawn: usize,
}

impl<T> Model for Found<T> {
    ghost use Rattle.std.specs.Prelude.{List, drop};

    ghost Value = { List T };

    ghost view = { λ found. drop found.drawn found.items.items };
}

impl<T: Copy> Found<T> {
    pub(crate) fn new(items: Vec<T>) -> Self
        ensures items { result ≡ items.items }
        ensures few { length result < 2 ^ 64 }
    {
        let _count = items.len(); // a word
        Found { items, drawn: 0 }
    }

    // Takes the first of the items that are left off.
    pub(crate) fn draw(&mut self) -> Option<T>
        ensures found { self.old ≡ option_to_list result ++ self.new }
        ensures none { IfNone result (self.old ≡ []) }
    {
        let item = *self.items.get(self.drawn)?;
        self.drawn += 1;
        Some(item)
    }
}
