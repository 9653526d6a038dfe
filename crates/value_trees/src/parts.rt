//! The parts of an expression that have a line in its tree, with their values: those that count, and
//! the branches of an `if` that are not taken.

ghost use Rattle.std.specs.Prelude.{◌≡◌, ◌∷◌, ◌+◌, ◌<◌, ◌^◌, ◌++◌, [], OnOk, map};
ghost use Rattle.node_program.specs.Term.{depth as depth_of, term_of};
ghost use Rattle.node_program.specs.Value.{env_of};
ghost use Rattle.value_trees.specs.ValueTrees.{part_value, valued, valued_parts};

use node_program::{Env, Expr};
use round_eval::value_of;
use std::alloc::AllocError;

/// A part of an expression that has a line.
#[derive(Clone, Copy)]
pub struct TreePart<'p> {
    /// How deep it is in the expression, which has depth 0.
    pub depth: u32,
    /// The part itself.
    pub expression: &'p Expr,
    /// Its value.
    pub value: u32,
    /// Whether it counts: false for a branch that is not taken.
    pub counts: bool,
}

// Appends the parts of an expression at a depth. Of a branch that is not taken this is one part.
pub(crate) fn push_parts<'p>(
    parts: &mut Vec<TreePart<'p>>,
    env: Env<'_>,
    depth: u32,
    expression: &'p Expr,
) -> Result<(), AllocError>
    requires { depth + depth_of (term_of expression.now) < 2 ^ 32 }
    ensures { OnOk result (map part_value parts.new.items
        ≡ map part_value parts.old.items ++ valued_parts (env_of env.entry) depth (term_of expression.now)) }
{
    push(parts, env, depth, expression, true)?;
    match expression {
        Expr::Number(_) | Expr::Id | Expr::FromLeft | Expr::FromRight | Expr::Register(_) => Ok(()),
        Expr::One(_, a) => push_parts(parts, env, depth + 1, a),
        Expr::Two(_, a, b) => {
            push_parts(parts, env, depth + 1, a)?;
            push_parts(parts, env, depth + 1, b)
        }
        Expr::Choose(c, a, b) => {
            push_parts(parts, env, depth + 1, c)?;
            if value_of(c, env) == 0 {
                push(parts, env, depth + 1, a, false)?;
                push_parts(parts, env, depth + 1, b)
            } else {
                push_parts(parts, env, depth + 1, a)?;
                push(parts, env, depth + 1, b, false)
            }
        }
    }
}

// Appends an expression itself.
fn push<'p>(
    parts: &mut Vec<TreePart<'p>>,
    env: Env<'_>,
    depth: u32,
    expression: &'p Expr,
    counts: bool,
) -> Result<(), AllocError>
    ensures { OnOk result (map part_value parts.new.items ≡ map part_value parts.old.items
        ++ valued (env_of env.entry) (record { depth = depth; term = term_of expression.now; counts = counts }) ∷ []) }
{
    parts.push(TreePart {
        depth,
        expression,
        value: value_of(expression, env),
        counts,
    })?;
    Ok(())
}
