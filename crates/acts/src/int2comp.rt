// Int2Comp, all here: a constant folds, and a negation of a negation gives what the inner one negates.
ghost use Rattle.std.specs.Prelude.{◌≡◌};
ghost use Rattle.rules.specs.Rules.{neg_act};
ghost use Rattle.acts.specs.Operated.{ViewFits};

use format::Un;
use rules::{Act, Near, View};
use values::un_value;

pub fn neg_act(size: u64, e: View) -> Act
    requires { ViewFits size size e }
    ensures { result ≡ neg_act size e }
{
    match e {
        // -#n -> #-n
        View::Constant(n) => Act::Make(un_value(Un::Int2Comp, size, size, n)),
        // -(-e) -> e
        View::Negation => Act::Give(Near::LeftLeft),
        _ => Act::Keep,
    }
}
