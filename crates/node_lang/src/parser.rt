//! The parser: reads a program once from the left.
ghost use Rattle.std.specs.Prelude.{◌≤◌, length};
ghost use Rattle.node_program.specs.declared.limits.TheConstants.{MAX_NODES};

use crate::expected::Expected;
use crate::fault::{FaultKind, Stop};
use crate::lexer::token_from;
use crate::token::Token;
use node_program::{
    BinOp, Expr, MAX_CHANNELS, MAX_DEPTH, MAX_NODES, MAX_REGISTERS, MAX_ROUNDS, Program, Round,
    UnOp,
};
use std::alloc::{AllocFailed, Global};

// The numbers of a program's header.
#[derive(Clone, Copy)]
struct ProgramHeader {
    rounds: u32,
    channels: u32,
    registers: u32,
}

// A parser of a program text, with its position and the number of expression nodes so far.
#[derive(Drop)]
pub(crate) struct Parser<'a> {
    pub(crate) alloc: Global,
    pub(crate) text: &'a [u8],
    pub(crate) at: usize,
    pub(crate) nodes: u32,
    ghost within: { at ≤ length text.now },
    ghost few: { nodes ≤ MAX_NODES },
}

impl<'a> Parser<'a> {
    ghost use Rattle.std.specs.Prelude.{◌≡◌, ◌-◌, ◌<◌, map, true, IfOk};
    ghost use Rattle.node_program.specs.Term.{step_of, term_of};
    ghost use Rattle.node_lang.specs.Reading.{Counts, assigns, end, exactly, expression, header, next, node, operand};
    ghost use Rattle.node_lang.specs.Reading.{program, round, rounds, same_token};
    ghost use Rattle.node_lang.specs.Parsing.{Gives, after_if, after_one, after_two, boxed, expression_after, field};
    ghost use Rattle.node_lang.specs.Parsing.{marked, opened, pair_of};

    // Returns the next token and its offset.
    fn next(&mut self, expected: Expected) -> Result<(Token, usize), Stop>
        ensures reads { Gives (λ t. record { from = length self.old.text.now - t.1; token = t.0 }) self.old self.new
            result (next expected) }
        ensures offset { IfOk result (λ t. t.1 ≤ length self.old.text.now) }
    {
        let Some(spanned) = token_from(self.text, self.at) else {
            return Err(Stop::at(FaultKind::EndOfText, expected, self.text.len()));
        };
        let offset = spanned.start;
        match spanned.token {
            Token::Unknown => Err(Stop::at(FaultKind::BadWord, expected, offset)),
            Token::LargeNumber => Err(Stop::at(FaultKind::NumberTooLarge, expected, offset)),
            token => {
                self.at = spanned.end;
                Ok((token, offset))
            }
        }
    }

    // Consumes the next token, which must be this one.
    #[tactic(auto, using(crate::proofs::Parsing::same_token_is))]
    fn expect(&mut self, token: Token) -> Result<(), Stop>
        requires { same_token token token ≡ true }
        ensures { Gives (λ _. tt) self.old self.new result (exactly token) }
    {
        let expected = Expected::This(token);
        let (found, offset) = self.next(expected)?;
        if found != token {
            return Err(Stop::at(FaultKind::Unexpected, expected, offset));
        }
        Ok(())
    }

    // Counts an expression node at `offset` with `levels` levels left, and returns the number of
    // levels left for its operands.
    #[tactic(auto, using(crate::proofs::Parsing::operand_is))]
    fn count_node(&mut self, levels: u32, offset: usize) -> Result<u32, Stop>
        requires { offset ≤ length self.old.text.now }
        ensures reads { Gives (λ _. tt) self.old self.new result (node levels (length self.old.text.now - offset)) }
        ensures below { IfOk result (λ below. operand levels ≡ expression below) }
        ensures fewer { IfOk result (λ below. below < levels) }
    {
        if levels == 0 {
            return Err(Stop::at(FaultKind::TooDeep, Expected::Expression, offset));
        }
        if self.nodes >= MAX_NODES {
            return Err(Stop::at(FaultKind::TooManyNodes, Expected::Expression, offset));
        }
        self.nodes += 1;
        Ok(levels - 1)
    }

    // Counts the node of an operation at `offset`, as `count_node` does, and consumes the
    // parenthesis that opens its operands.
    fn open(&mut self, levels: u32, offset: usize) -> Result<u32, Stop>
        requires { offset ≤ length self.old.text.now }
        ensures reads { Gives (λ _. tt) self.old self.new result (opened levels (length self.old.text.now - offset)) }
        ensures below { IfOk result (λ below. operand levels ≡ expression below) }
        ensures fewer { IfOk result (λ below. below < levels) }
    {
        let below = self.count_node(levels, offset)?;
        self.expect(Token::Open)?;
        Ok(below)
    }

    // Parses an expression of at most `levels` levels.
    #[cycle(expr)]
    #[tactic(auto, unfolding(crate::specs::Reading::expression))]
    fn expr(&mut self, levels: u32) -> Result<Expr, Stop>
        ensures { Gives term_of self.old self.new result (expression levels) }
    {
        let (token, offset) = self.next(Expected::Expression)?;
        let leaf = match token {
            Token::Number(number) => Expr::Number(number),
            Token::Id => Expr::Id,
            Token::FromLeft => Expr::FromLeft,
            Token::FromRight => Expr::FromRight,
            Token::Register(register) => Expr::Register(register),
            Token::One(op) => return self.one(op, levels, offset),
            Token::Two(op) => return self.two(op, levels, offset),
            Token::If => return self.choose(levels, offset),
            _ => return Err(Stop::at(FaultKind::Unexpected, Expected::Expression, offset)),
        };
        self.count_node(levels, offset)?;
        Ok(leaf)
    }

    // Parses an operand and the mark after it.
    #[cycle(expr)]
    fn operand(&mut self, levels: u32, mark: Token) -> Result<Box<Expr>, Stop>
        requires { same_token mark mark ≡ true }
        ensures { Gives boxed self.old self.new result (marked (expression levels) mark) }
    {
        let operand = self.expr(levels)?;
        let boxed = Box::new(self.alloc, operand)?;
        self.expect(mark)?;
        Ok(boxed)
    }

    // Parses the last two operands of an operation, and the parenthesis that closes them.
    #[cycle(expr)]
    fn pair(&mut self, levels: u32) -> Result<(Box<Expr>, Box<Expr>), Stop>
        ensures { Gives (λ p. (boxed p.0, boxed p.1)) self.old self.new result (pair_of (expression levels)) }
    {
        let a = self.operand(levels, Token::Comma)?;
        let b = self.operand(levels, Token::Close)?;
        Ok((a, b))
    }

    // Parses the operand of an operation whose name is at `offset`.
    #[cycle(expr)]
    fn one(&mut self, op: UnOp, levels: u32, offset: usize) -> Result<Expr, Stop>
        requires { offset ≤ length self.old.text.now }
        ensures { Gives term_of self.old self.new result (after_one op levels (length self.old.text.now - offset)) }
    {
        let below = self.open(levels, offset)?;
        let a = self.operand(below, Token::Close)?;
        Ok(Expr::One(op, a))
    }

    // Parses the two operands of an operation whose name is at `offset`.
    #[cycle(expr)]
    fn two(&mut self, op: BinOp, levels: u32, offset: usize) -> Result<Expr, Stop>
        requires { offset ≤ length self.old.text.now }
        ensures { Gives term_of self.old self.new result (after_two op levels (length self.old.text.now - offset)) }
    {
        let below = self.open(levels, offset)?;
        let (a, b) = self.pair(below)?;
        Ok(Expr::Two(op, a, b))
    }

    // Parses the three operands of an `if` at `offset`.
    #[cycle(expr)]
    fn choose(&mut self, levels: u32, offset: usize) -> Result<Expr, Stop>
        requires { offset ≤ length self.old.text.now }
        ensures { Gives term_of self.old self.new result (after_if levels (length self.old.text.now - offset)) }
    {
        let below = self.open(levels, offset)?;
        let c = self.operand(below, Token::Comma)?;
        let (a, b) = self.pair(below)?;
        Ok(Expr::Choose(c, a, b))
    }

    // Parses this word of the header and its number, from `low` to `high`.
    fn field(&mut self, word: Token, low: u32, high: u32) -> Result<u32, Stop>
        requires { same_token word word ≡ true }
        ensures { Gives (λ n. n) self.old self.new result (field word low high) }
    {
        self.expect(word)?;
        let (token, offset) = self.next(Expected::Number)?;
        let Token::Number(number) = token else {
            return Err(Stop::at(FaultKind::Unexpected, Expected::Number, offset));
        };
        if number < low || number > high {
            return Err(Stop::at(FaultKind::HeaderRange, Expected::Number, offset));
        }
        Ok(number)
    }

    // Parses the header, up to and including `start`.
    #[tactic(auto, using(crate::proofs::Parsing::header_is))]
    fn header(&mut self) -> Result<ProgramHeader, Stop>
        ensures { Gives (λ h. record { rounds = h.rounds; channels = h.channels; registers = h.registers }) self.old
            self.new result header }
    {
        let rounds = self.field(Token::Rounds, 0, MAX_ROUNDS)?;
        let channels = self.field(Token::Channels, 1, MAX_CHANNELS)?;
        let registers = self.field(Token::Registers, 1, MAX_REGISTERS)?;
        self.expect(Token::Start)?;
        Ok(ProgramHeader {
            rounds,
            channels,
            registers,
        })
    }

    // Checks that the text ends here.
    fn end(&mut self) -> Result<(), Stop>
        ensures { Gives (λ _. tt) self.old self.new result end }
    {
        let Some(extra) = token_from(self.text, self.at) else {
            return Ok(());
        };
        let kind = match extra.token {
            Token::Unknown => FaultKind::BadWord,
            Token::LargeNumber => FaultKind::NumberTooLarge,
            _ => FaultKind::Unexpected,
        };
        Err(Stop::at(kind, Expected::End, extra.start))
    }

    // Consumes two tokens, which must be these, and parses the expression after them.
    #[tactic(auto, unfolding(crate::specs::Parsing::expression_after))]
    fn expr_after(&mut self, first: Token, second: Token) -> Result<Expr, Stop>
        requires first { same_token first first ≡ true }
        requires second { same_token second second ≡ true }
        ensures { Gives term_of self.old self.new result (expression_after first second) }
    {
        self.expect(first)?;
        self.expect(second)?;
        self.expr(MAX_DEPTH)
    }

    // Parses an assignment to each register.
    #[tactic(auto, using(crate::proofs::Parsing::one_read, crate::proofs::Parsing::stops_there, std::proofs::lemmas::Result::err_from_is_err_and), unfolding(crate::specs::Reading::assigns, crate::specs::Reading::assign, crate::specs::Parsing::expression_after))]
    fn assigns(&mut self, registers: u32) -> Result<Vec<Expr>, Stop>
        ensures { Gives (λ v. map term_of v.items) self.old self.new result (assigns registers) }
    {
        let mut expressions = Vec::new(self.alloc);
        'registers: for register in 0..registers {
            let expression = self.expr_after(Token::Register(register), Token::Equals)?;
            expressions.push(expression)?;
        }
        Ok(expressions)
    }

    #[tactic(auto, using(crate::proofs::Parsing::round_is))]
    fn round(&mut self, registers: u32) -> Result<Round, Stop>
        ensures { Gives step_of self.old self.new result (round registers) }
    {
        self.expect(Token::Round)?;
        let left = self.expr_after(Token::Send, Token::Left)?;
        let right = self.expr_after(Token::Send, Token::Right)?;
        let next = self.assigns(registers)?;
        Ok(Round { left, right, next })
    }

    #[tactic(auto, using(crate::proofs::Parsing::stops_there, std::proofs::lemmas::Result::err_from_is_err_and), unfolding(crate::specs::Reading::rounds))]
    fn rounds(&mut self, count: u32, registers: u32) -> Result<Vec<Round>, Stop>
        ensures { Gives (λ v. map step_of v.items) self.old self.new result (rounds count registers) }
    {
        let mut steps = Vec::new(self.alloc);
        'rounds: for index in 0..count {
            let step = self.round(registers)?;
            steps.push(step)?;
        }
        Ok(steps)
    }

    // Parses a whole program, up to the end of the text.
    #[tactic(auto, unfolding(crate::specs::Reading::program))]
    pub(crate) fn whole(&mut self) -> Result<Program, Stop>
        ensures { Gives (λ p. p) self.old self.new result program }
    {
        let header = self.header()?;
        let start = self.assigns(header.registers)?;
        let steps = self.rounds(header.rounds, header.registers)?;
        self.expect(Token::Finish)?;
        let finish = self.expr(MAX_DEPTH)?;
        self.end()?;
        Ok(Program::new(header.channels, start, steps, finish))
    }
}
