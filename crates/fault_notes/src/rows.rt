//! Facts on what stands where it cannot, and signs of other notations, in rows.
//!
//! A proof unfolds a table in each goal of a function that names it, so one function returns each, and none has
//! more than 24 rows.

use node_lang::Token::{
    self, Channels, Close, Comma, Equals, Finish, Left, Open, Registers, Right, Round, Rounds,
    Send, Start,
};

// When a fact is told: instead of an edit, unless the text is written in another notation; before an edit; or
// where no edit helps.
#[derive(Clone, Copy)]
pub(crate) enum Told {
    Alone,
    Beside,
    Without,
}

// What is expected where a token stands.
pub(crate) enum Context {
    Any,
    Expression,
    Number,
    End,
    // A register in `start`.
    First,
    // A register in a round.
    Register,
    // Behind an expression on its line.
    Behind,
    At(Token),
}

// What stands at a token.
pub(crate) enum Part {
    // One of these words or marks, with blanks between them.
    One(&'static str),
    Operand,
    // Operands with operators between them.
    Operands,
    Number,
    // A number of three digits.
    Thousand,
    Register,
    Message,
    Operation,
    // A word that is not of the language.
    Strange,
    // Such a word that begins with a digit.
    StrangeNumber,
    Mark,
    Any,
    // The end of a line, before the token.
    LineEnd,
}

// A row of facts: where it counts, what the token before is, what stands there, and a fact and what is written
// instead, which both can be empty. `{}` in a fact stands for the word that is wrong.
pub(crate) struct Row {
    pub(crate) contexts: &'static [Context],
    pub(crate) last: Option<Part>,
    pub(crate) parts: &'static [Part],
    pub(crate) told: Told,
    pub(crate) fact: &'static str,
    pub(crate) put: &'static str,
}

// Signs that may be no tokens, with blanks between them, a fact, and what is written instead of them.
pub(crate) struct Sign {
    pub(crate) signs: &'static str,
    pub(crate) fact: &'static str,
    pub(crate) put: &'static str,
}

macro_rules! rows {
    ($([$($context:expr),+] $(after $last:expr,)? [$($part:expr),*] => $told:ident, $fact:literal, $put:literal;)+) => {
        [$(Row { contexts: &[$($context),+], last: last!($($last)?), parts: &[$($part),*], told: Told::$told,
        fact: $fact, put: $put }),+]
    };
}

macro_rules! last {
    () => { None };
    ($last:expr) => { Some($last) };
}

macro_rules! signs {
    ($($signs:literal => $fact:literal, $put:literal;)+) => { [$(Sign { signs: $signs, fact: $fact, put: $put }),+] };
}

use Context::{Any, At, Behind, End, Expression, First};
use Part::{LineEnd, Mark, Message, One, Operand, Operands, Operation, Strange, StrangeNumber};

static VALUES: [Row; 14] = rows! {
    [Expression] [One("r"), One("_ _{ [ ( { 0 1 2 3 4 5 6 7")] => Without, "; registers are `r0` to `r7`", "";
    [Expression] [One("r")] =>
        Beside, "; the message from the right is `R`, which the assignments of a round read", "";
    [Expression] [One("m n t T M N delta degree deg size count")] =>
        Alone, "; there is no word for the number of rounds, of nodes or of identifiers", "";
    [Expression] [One("len length log log2 msb clz")] =>
        Alone, "; there is no word for the number of nodes or of bits: compare with powers of 2, as in `le(4, x)`", "";
    [Expression] [One("LL RR LR RL")] => Alone, "; what is farther away than the neighbours takes one more round", "";
    [Expression] [One("place position pos index")] =>
        Alone, "; a node knows no place, only its identifier, which `start` reads as `id`", "";
    [Expression] [One("left Left LEFT l prev pred previous fromLeft msgL LeftMsg leftMsg L0 L1 L2")] =>
        Beside, "; the message from the left is `L`, which the assignments of a round read", "L";
    [Expression] [One("right Right RIGHT next succ fromRight msgR RightMsg rightMsg")] =>
        Beside, "; the message from the right is `R`, which the assignments of a round read", "R";
    [Expression] [One("self me my uid ident identifier myid node ID Id iD")] =>
        Beside, "; the identifier is `id`, which is read in `start` alone: a register keeps it", "id";
    [Expression] [One("null nil none None NULL pass skip nop idle empty void nothing")] =>
        Beside, "; there is no empty value: each is a number", "0";
    [Expression] [One("ro rO")] => Beside, "; `r0` is written with the digit 0", "r0";
    [Expression] [One("true True TRUE yes")] => Beside, "", "1";
    [Expression] [One("false False FALSE no O o MIN Min")] => Beside, "", "0";
    [Expression] [One("minimum")] => Beside, "; `min` and `max` take two operands: `min(a, min(b, c))`", "min";
};

// Words instead of an expression.
pub(crate) fn values() -> &'static [Row] {
    &VALUES
}

static MARKS: [Row; 11] = rows! {
    [Expression] [One("plus sum")] => Without, "; there is no operation `{}`: LANGUAGE.md lists all", "add";
    [Expression] [One("leq lte")] => Without, "; there is no operation `{}`: LANGUAGE.md lists all", "le";
    [Expression] [One("neq unequal")] => Without, "; there is no operation `{}`: LANGUAGE.md lists all", "ne";
    [Expression] [One("ite select mux choose cond iff")] =>
        Without, "; there is no operation `{}`: LANGUAGE.md lists all", "if";
    [Expression] [One("{"), Operands, One(",")] =>
        Alone, "; there are no sets: compare with each number, as in `or(eq(x, 5), eq(x, 6))`", "";
    [Expression] [One("("), Operands, One(",")] => Without, "; the name of an operation is missing before it", "";
    [Expression] [One("- _ ."), LineEnd] => Beside, "; there is no empty value: each is a number", "0";
    [Expression] [One("-")] => Alone, "; numbers have no sign, and `sub(a, b)` stops at 0", "";
    [Expression] [One("!")] => Beside, "; `not` is bit by bit: `eq(x, 0)` exchanges 0 and 1", "";
    [Expression] [One("( [ {")] => Beside, "; brackets are only written after the name of an operation", "";
    [Expression] [One("+")] => Beside, "; numbers have no sign", "";
};

// Operations by other names, and marks, instead of an expression.
pub(crate) fn expression_marks() -> &'static [Row] {
    &MARKS
}

static WORDS: [Row; 13] = rows! {
    [Any] [One("while for do repeat until loop foreach")] =>
        Alone, "; there are no loops: the block of a round is written out as often as `rounds` says", "";
    [Any] [One("def fn func function lambda")] => Alone, "; there are no functions", "";
    [Any] [One("print echo printf puts")] =>
        Alone, "; nothing is printed: the channel is the expression of `finish`", "";
    [Any] [One("rand random")] => Alone, "; nothing is random", "";
    [Any]
        [One("receive received receives recv listen get message messages msg neighbor neighbour neighbors neighbours nbr")]
        => Alone, "; `L` and `R` are what the neighbours sent in this round, one number each", "";
    [Any] [One("broadcast both")] => Alone, "; each side has a `send` of its own", "";
    [Expression, Behind] [One("mul times mult multiply product *")] =>
        Alone, "; there is no product: twice x is `shl(x, 1)`", "";
    [Expression, Behind] [One("div divide quotient / //")] =>
        Alone, "; there is no quotient: half of x is `shr(x, 1)`", "";
    [Expression, Behind] [One("mod rem modulo %")] =>
        Alone, "; there is no remainder but by powers of two: by 2 it is `and(x, 1)`, by 16 `and(x, 15)`", "";
    [Any] [One("then else elif elsif elseif endif fi case switch when match")] =>
        Alone, "; a choice is written `if(c, a, b)`", "";
    [Any] [One("in")] => Alone, "; there are no sets: compare with each number, as in `or(eq(x, 5), eq(x, 6))`", "";
    [Expression] [One("abs |")] => Alone, "; |a - b| is `sub(max(a, b), min(a, b))`", "";
    [Any] [One("mex")] =>
        Alone, "; there is no operation for the least number that is missing: compare with `eq`", "";
};

// Words of other languages, most of them wherever they are met.
pub(crate) fn words() -> &'static [Row] {
    &WORDS
}

static OTHERS: [Row; 14] = rows! {
    [At(Round)] [One("end End END done")] => Alone, "; no word ends a block: the next line begins what follows", "";
    [Expression] after One("( ,"), [One("round")] =>
        Alone, "; no number tells the round: each has a block of its own", "";
    [Expression] [Strange, One("(")] => Without, "; there is no operation `{}`: LANGUAGE.md lists all", "";
    [Expression] [StrangeNumber] => Without, "; a number has only digits, and is decimal", "";
    [Expression] [Strange] => Without, "; registers are `r0` to `r7`, and values have no other names", "";
    [Expression] [Mark] => Without, "; a mark stands where an expression is written", "";
    [Any] after One("left"), [One(", right")] => Beside, "; each side has a `send` of its own", "";
    [Any] [One(","), One("right")] => Beside, "; each side has a `send` of its own", "";
    [Expression] [LineEnd] => Without, "", "";
    [Expression] [Part::Any] => Without, "; `{}` has no value", "";
    [Context::Number] [One("-")] => Alone, "; numbers have no sign", "";
    [Context::Number, At(Channels), At(Registers), At(Start)] [Mark] => Without,
        "; one number is written here, in digits", "";
    [Context::Number] [Part::Register] => Without, "; one number is written here, in digits: how many there are", "";
    [Context::Number] [] => Without, "; a number is written in digits", "";
};

// What else is met instead of an expression or of a number.
pub(crate) fn other_values() -> &'static [Row] {
    &OTHERS
}

static SIGNS_BEHIND: [Row; 15] = rows! {
    [At(Equals)] [Strange, LineEnd] =>
        Alone, "; an assignment is written `r0 = ..`, as in `r0 = r0` where it stays", "";
    [At(Equals)] [One(":= <- =: is")] => Beside, "", "=";
    [At(Equals)] [One("|")] => Beside, "; a choice is written `if(c, a, b)`", "";
    [At(Equals)] [One(":")] => Without, "; registers have no types", "=";
    [At(Open)] [One("[ {")] => Without, "; the operands of `{}` are written in brackets", "(";
    [At(Close)] [One("] }")] => Beside, "", ")";
    [Behind] after Message, [One(". -> _ ::")] => Beside, "; a message is one number, without parts", "";
    [At(Comma)] [One("; : .")] => Beside, "", ",";
    [Behind] after Part::Number, [One(".")] => Without, "; numbers are whole", "";
    [Behind] [One("."), LineEnd] => Without, "", "";
    [Behind] [One(".")] =>
        Alone, "; values have no parts, and an operation is written before its operands, as in `bit(a, i)`", "";
    [Behind] [One("-")] => Beside, "; `sub` stops at 0", "";
    [Behind] [One("&&")] => Beside, "; `and` is bit by bit: a number is made 0 or 1 by `ne(a, 0)`", "";
    [Behind] [One("^")] => Beside, "; `xor` is bit by bit, and 2 to the power k is `shl(1, k)`", "";
    [Behind] [One("` \\")] => Beside, "; an operation is written before its operands, as in `add(a, b)`", "";
};

// Marks instead of `=`, of a bracket or of a comma, and behind an expression.
pub(crate) fn marks_behind() -> &'static [Row] {
    &SIGNS_BEHIND
}

static BEHIND: [Row; 14] = rows! {
    [Behind] [Mark] => Without, "", "";
    [Behind] after One("id"), [One("(")] => Alone, "; `id` is the identifier of the node, and no operation", "";
    [Behind, At(Equals)] [Strange] => Without, "; one expression is written here, and a comment begins with `#`", "";
    [At(Equals)] [] => Without, "; an assignment is written `r0 = ..`", "";
    [At(Open)] after One("not"), [] => Beside, "; `not` is bit by bit: `eq(x, 0)` exchanges 0 and 1", "";
    [At(Open)] after One("if"), [] => Beside, "; a choice is written `if(c, a, b)`", "";
    [At(Open)] [] => Without, "; the operands of `{}` are written in brackets", "";
    [End] [] => Without, "; `finish` has one expression, which ends the program", "";
    [At(Send)] [Operation] => Without,
        "; each node sends in each round, but the value can be chosen, as in `send left if(c, a, b)`", "";
    [Behind] after Part::Number, [Operand] => Without, "; there is no product: twice x is `shl(x, 1)`", "";
    [Behind] [Operand] => Without, "; an operation is written before its operands, as in `add(a, b)`", "";
    [At(Comma), At(Close)] [] => Without, "; a bracket is open", "";
    [Any] [One("{ }")] => Beside, "; a program has no such brackets", "";
    [At(Left), At(Right)] [One("(")] => Without, "; it is written `send left r0`, without brackets", "";
};

// What else is met behind an expression, or instead of a bracket.
pub(crate) fn behind() -> &'static [Row] {
    &BEHIND
}

static LINES: [Row; 20] = rows! {
    [At(Rounds)] [Part::Number] => Without, "; the lines have no numbers", "";
    [At(Rounds), At(Channels), At(Registers), At(Start)] [Strange, Part::Register] => Without, "", "";
    [At(Rounds), At(Channels), At(Registers), At(Start)] [] =>
        Without, "; a program begins with `rounds`, `channels`, `registers` and `start`", "";
    [At(Right)] [One("left R")] => Without, "", "right";
    [At(Left)] [One("right")] => Beside, "; `send left` comes first, then `send right`", "";
    [At(Left)] [One("L")] => Without, "", "left";
    [At(Left)] [Part::Register] => Beside, "; each side has a `send` of its own", "";
    [At(Left)] [Part::Number] => Beside, "; each side has a `send` of its own", "";
    [At(Send)] after One("round"), [Part::Number] => Beside, "; rounds have no numbers", "";
    [Any] [Strange, Part::Register] => Without, "", "";
    [At(Send), At(Left), At(Right)] [] => Without, "; a round begins with `send left ..` and `send right ..`", "";
    [First, Context::Register] [Strange, One("= ( [")] =>
        Beside, "; registers are `r0` to `r7`, and have no other names", "";
    [Any] [One("L R id"), One("=")] =>
        Alone, "; only registers are assigned: a value is sent by `send left` and `send right`", "";
    [Any] [Operation] => Beside, "; one expression is assigned to each register, as in `r0 = if(c, a, b)`", "";
    [First] [] => Beside, "; each register is assigned once, in order", "";
    [Context::Register] [] => Beside, "; each register is assigned once, in order, as in `r0 = r0` where it stays", "";
    [At(Round)] [One("finish round send")] =>
        Beside, "; there are as many rounds as `rounds` says: write the missing ones if that is right", "";
    [At(Finish)] [One("finish round send")] => Beside, "; there are as many rounds as `rounds` says", "";
    [Any] [Part::Register] => Beside, "; each register is assigned once, and `registers` says how many there are", "";
    [At(Finish)] [] => Without, "; each register is assigned once, then comes `finish`", "";
};

// What is met where a line of a program begins.
pub(crate) fn line_beginnings() -> &'static [Row] {
    &LINES
}

static SIGNS: [Sign; 21] = signs! {
    "\u{a0} \u{202f}" => "; this is a blank that does not break: write a plain one", "\u{20}";
    "\u{200b}" => "; this is a dash or a blank that is not ASCII", "";
    "\u{feff}" => "; this is a byte order mark: save the file without one", "";
    "\u{2010} \u{2013} \u{2014}" => "; this is a dash or a blank that is not ASCII", "-";
    "\u{2212}" => "; this is a minus sign that is not ASCII", "-";
    "\u{2190} \\leftarrow \\gets" => "", "=";
    "\\lfloor \\rfloor \\left \\right" => "", "";
    "\u{ac} \\neg" => "", "!";
    "\u{2260} \\neq \\ne" => "", "!=";
    "\u{2264} \\leq \\le" => "", "<=";
    "\u{2265} \\geq \\ge" => "", ">=";
    "\u{2227} \\land" => "", "&&";
    "\u{2228} \\lor" => "", "||";
    "\u{2295} \\oplus" => "", "^";
    "\u{d7} \u{b7} \u{22c5} \\cdot \\times" => "; there is no product: twice x is `shl(x, 1)`", "*";
    "\\min" => "", "min";
    "\\max" => "", "max";
    "&lt;" => "", "<";
    "&gt;" => "", ">";
    "&amp;" => "", "&";
    "\\n" => "", "\u{20}";
};

// Signs of other notations. Of those that begin alike the longer one comes first.
pub(crate) fn signs() -> &'static [Sign] {
    &SIGNS
}
