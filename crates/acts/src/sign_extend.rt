// SignExtend, of a child of `child` bytes, all here: to the child's own size it gives the child; a constant folds; an extension of an
// extension becomes one, to be simplified again.
ghost use Rattle.std.specs.Prelude.{◌≡◌, cond, eqb};
ghost use Rattle.rules.specs.Rules.{sext_inner};
ghost use Rattle.acts.specs.Operated.{ViewFits};

use format::Un;
use rules::{Act, Near, View};
use values::un_value;

pub fn sext_act(size: u64, child: u64, e: View) -> Act
    requires { ViewFits size child e }
    ensures { result ≡ cond (eqb child size) (Act.Give Near.Left) (sext_inner size child e) }
{
    // an extension to the child's own size -> the child
    if child == size {
        return Act::Give(Near::Left);
    }
    match e {
        // sext(#n) -> #(n at `size` bytes)
        View::Constant(n) => Act::Make(un_value(Un::SignExtend, size, child, n)),
        // sext(sext(e)) -> sext(e)
        View::Extension(inner) if inner <= size => Act::RedoUnary(Un::SignExtend, Near::LeftLeft),
        _ => Act::Keep,
    }
}
