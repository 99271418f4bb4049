//! A list of a reply.

ghost use Rattle.std.specs.Prelude.{◌≡◌};

use std::marker::Model;

/// A list of a reply, over a `Vec`. A contract sees the list.
#[derive(Debug, Drop)]
pub struct Items<T> {
    items: Vec<T>,
}

impl<T> Model for Items<T> {
    ghost use Rattle.std.specs.Prelude.{List};
    ghost use Rattle.std.specs.Coded.{coded_list};

    ghost Value = { List T };

    ghost coded = { coded_list T.code };

    ghost view = { λ i. i.items.items };
}

impl<T> Items<T> {
    /// These items.
    pub fn new(items: Vec<T>) -> Items<T>
        // What is given, in its order.
        ensures value { result ≡ items.items }
    {
        Items { items }
    }

    /// The items.
    pub fn as_slice(&self) -> &[T]
        // What it was made of, in its order.
        ensures value { result.now ≡ self.now }
    {
        &self.items
    }

    /// The items as a `Vec`, without an allocation.
    pub fn into_vec(self) -> Vec<T>
        // What it was made of, in its order.
        ensures value { result.items ≡ self }
    {
        let Items { items } = self;
        items
    }
}
