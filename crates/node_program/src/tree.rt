//! Expressions and rounds.

/// A unary operation.
#[derive(Clone, Copy, Debug, PartialEq, Eq)]
pub enum UnOp {
    Not,
}

/// A binary operation, by its name in a program text.
#[derive(Clone, Copy, Debug, PartialEq, Eq)]
pub enum BinOp {
    And,
    Or,
    Xor,
    Shl,
    Shr,
    Add,
    Sub,
    Min,
    Max,
    /// The least index of a bit in which the operands differ, or 0 if they are equal.
    Ldb,
    Bit,
    Eq,
    Ne,
    Lt,
    Le,
}

/// An expression of the node language. Its values are integers below 2^32.
#[derive(Drop)]
pub enum Expr {
    Number(u32),
    /// The node's own identifier, `id`.
    Id,
    /// The message that the left neighbour sent in this round, `L`.
    FromLeft,
    /// The message that the right neighbour sent in this round, `R`.
    FromRight,
    Register(u32),
    One(UnOp, Box<Expr>),
    Two(BinOp, Box<Expr>, Box<Expr>),
    /// `if(c, a, b)`: `a` if `c` is not 0, else `b`.
    Choose(Box<Expr>, Box<Expr>, Box<Expr>),
}

/// A round: the message to each side, and the next value of each register.
#[derive(Drop)]
pub struct Round {
    pub left: Expr,
    pub right: Expr,
    pub next: Vec<Expr>,
}
