ghost use Rattle.std.specs.Prelude.{◌≡◌, length};

use crate::operators::BinOp;
use cap_word::Words;
use std::marker::Model;

/// An operation of a function. `d`, `s`, `b`, `i`, `args` and `a` number variables of the function, except
/// that `a` of `LoadArray` and `StoreArray` numbers a global; `g`, `f` and `t` number a global, a function
/// and a table, and `to` an operation of the function. A call has the number of its site.
#[derive(Drop)]
pub enum Op {
    /// `d` is set to a word.
    Const {
        d: u32,
        value: u32,
    },
    /// `d` is set to `s`.
    Copy {
        d: u32,
        s: u32,
    },
    /// `d` is set to the word of `-s`.
    Neg {
        d: u32,
        s: u32,
    },
    /// `d` is set to the bitwise complement of `s`.
    Not {
        d: u32,
        s: u32,
    },
    /// `d` is set to 1 if `s` is 0, and otherwise to 0.
    Flip {
        d: u32,
        s: u32,
    },
    /// `d` is set to the result of the operator on `a` and `b`.
    Bin {
        op: BinOp,
        d: u32,
        a: u32,
        b: u32,
    },
    /// Each word of `a` is set to 0.
    Zero {
        a: u32,
    },
    /// `d` is set to a global of one word.
    LoadGlobal {
        d: u32,
        g: u32,
    },
    /// A global of one word is set to `s`.
    StoreGlobal {
        g: u32,
        s: u32,
    },
    /// `d` is set to the word of variable `a` at index `i`; an index that isn't below its size is a trap.
    LoadLocal {
        d: u32,
        a: u32,
        i: u32,
    },
    /// `d` is set to the word of global `a` at index `i`; an index that isn't below its size is a trap.
    LoadArray {
        d: u32,
        a: u32,
        i: u32,
    },
    /// The word of variable `a` at index `i` is set to `s`; an index that isn't below its size is a trap.
    StoreLocal {
        a: u32,
        i: u32,
        s: u32,
    },
    /// The word of global `a` at index `i` is set to `s`; an index that isn't below its size is a trap.
    StoreArray {
        a: u32,
        i: u32,
        s: u32,
    },
    /// The next operation is `to`.
    Jump {
        to: u32,
    },
    /// The next operation is `to` if `s` is 0.
    JumpZero {
        s: u32,
        to: u32,
    },
    /// Function `f` is called, and `d` is set to its result, if it is used.
    Call {
        site: u32,
        d: Option<u32>,
        f: u32,
        args: Words,
    },
    /// The member of table `t` at index `i` is called with the argument `s`; an index that isn't below the
    /// number of its members is a trap.
    CallTable {
        site: u32,
        d: Option<u32>,
        t: u32,
        i: u32,
        s: u32,
    },
    /// A call of the thread package, with number `n`.
    Model {
        site: u32,
        d: Option<u32>,
        n: u32,
        args: Words,
    },
    /// A new thread runs function `f` with the argument `s`; `d` is set to its number.
    Spawn {
        site: u32,
        d: Option<u32>,
        f: u32,
        s: u32,
    },
    /// The function returns, with a value if it gives one.
    Return {
        s: Option<u32>,
    },
}

/// The operations of a function, in order of their numbers. Contracts see it as the list of them. It is
/// made from a `Vec` without taking memory.
#[derive(Drop)]
pub struct Ops {
    ops: Vec<Op>,
}

impl Model for Ops {
    ghost use Rattle.std.specs.Prelude.{List};
    ghost use Rattle.flat_code.specs.declared.operations.Op.{Op};

    ghost Value = { List Op };

    ghost view = { λ list. list.ops.items };
}

impl Ops {
    /// Returns the list of these operations. It doesn't allocate.
    pub fn new(ops: Vec<Op>) -> Ops
        ensures { result ≡ ops.items }
    {
        Ops { ops }
    }

    /// Returns the operations, in the `Vec` that holds them. It doesn't allocate.
    pub fn into_vec(self) -> Vec<Op>
        ensures { result.items ≡ self }
    {
        self.ops
    }

    /// The operations, in order.
    pub fn as_slice(&self) -> &[Op]
        ensures { result.now ≡ self.now }
    {
        self.ops.as_slice()
    }

    /// Returns the number of operations.
    pub fn len(&self) -> usize
        ensures { result ≡ length self.now }
    {
        self.ops.len()
    }
}
