//! A list that often has one item.

ghost use Rattle.std.specs.Prelude.{◌≡◌, ◌<◌, ◌^◌};
ghost use prog.Memory.{size};
ghost use denote.Param.{layout};
ghost use Rattle.pl_block.specs.Few.{listed};

use std::slice;

/// A list of any length. One item alone lies in place, without an allocation.
#[derive(Debug, Drop)]
pub(crate) enum Few<T> {
    One(T),
    Many(Vec<T>),
}

impl<T> Few<T> {
    pub(crate) fn as_slice(&self) -> &[T]
        requires { size (layout T.row) < 2 ^ 63 }
        ensures value { result.now ≡ listed self.now }
    {
        match self {
            Few::One(item) => slice::from_ref(item),
            Few::Many(items) => items.as_slice(),
        }
    }
}
