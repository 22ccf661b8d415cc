// Lines and columns.

ghost use Rattle.std.specs.Prelude.{◌<◌, ◌≡◌};
ghost use Rattle.lexer.specs.Places.{nowhere, move};

use super::{Place, Symbol};

// The place of what has none.
#[tactic(auto, unfolding(crate::specs::Places::nowhere))]
pub fn no_place() -> Place
    ensures { result ≡ nowhere }
{
    Place { line: 0, column: 0 }
}

// The place after a byte with this symbol.
pub fn move_on(p: Place, s: Symbol) -> Place
    requires { (p.line < 2097152) × (p.column < 2097152) }
    ensures { result ≡ move p s }
{
    match s {
        Symbol::Newline => Place {
            line: p.line + 1,
            column: 1,
        },
        Symbol::Return | Symbol::Part => p,
        _ => Place {
            column: p.column + 1,
            ..p
        },
    }
}
