//! Whether arguments fit a function.
ghost use Rattle.std.specs.Prelude.{◌≡◌, ◌↔◌, map, IsTrue};
ghost use Rattle.types.specs.Values.{type_of};

use types::{ValType, Value};

/// Whether the arguments are of the parameters' types, in number and order.
pub(crate) fn fit(args: &[Value], params: &[ValType]) -> bool
    ensures { IsTrue result ↔ (map type_of args.now ≡ params.now) }
{
    if args.len() != params.len() {
        return false;
    }
    for (i, arg) in args.iter().enumerate() {
        if arg.val_type() != params[i] {
            return false;
        }
    }
    true
}
